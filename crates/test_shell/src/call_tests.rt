// How many writes and syncs each kind of transaction makes: no clause of the program's public call counts them.
use crate::disks::{answered, formatted};
use sdr_base::MemorySink;
use sdr_disk::Disk;
use sdr_shell::DONE;
use std::alloc::Global;

// A script, and how many writes and syncs its transactions make. An end that keeps what it changed makes one for each line and seven more:
// a string of five bytes touches three lines. No other close makes any, nor does a call, where at most 64 lines are touched.
const ROWS: [(&[u8], u64); 12] = [
    // nothing is done
    (b"1: begin\n1: end\n", 0),
    // lines are touched
    (b"1: begin\n1: string \"hello\"\n1: end\n", 10),
    // and then only read
    (
        b"1: begin\n1: s = string \"hello\"\n1: end\n1: begin\n1: string_read s\n1: end\n",
        10,
    ),
    // a read is refused, which dooms nothing
    (
        b"1: begin\n1: string \"hello\"\n1: string_read 8\n1: end\n",
        10,
    ),
    // a change is refused, which dooms
    (b"1: begin\n1: string \"hello\"\n1: free 8\n1: end\n", 0),
    // an inner cancel dooms, and a call behind it is refused
    (
        b"1: begin\n1: string \"hello\"\n1: begin\n1: cancel\n1: string \"hi\"\n1: end\n",
        0,
    ),
    // it is cancelled
    (b"1: begin\n1: string \"hello\"\n1: cancel\n", 0),
    // an exit behind a change
    (b"1: begin\n1: string \"hello\"\n1: exit\n", 0),
    // an exit behind none
    (b"1: begin\n1: string_read 8\n1: exit\n", 0),
    // it is left open
    (b"1: begin\n1: string \"hello\"\n", 0),
    // 73 lines are touched: 64 are spilled with four more, 63 of these are written through, and nine are left to the end
    (
        b"1: begin\n1: p = malloc 4480\n1: write p 0 f01*4096\n1: write p 4096 f01*384\n1: end\n",
        147,
    ),
    // or the 64 are put back, with three more
    (
        b"1: begin\n1: p = malloc 4480\n1: write p 0 f01*4096\n1: write p 4096 f01*384\n1: cancel\n",
        198,
    ),
];

// How many writes and syncs a script makes of a formatted disk, each of which brings its moment two further. `None`: it isn't replayed to
// its end.
fn changes(alloc: Global, script: &[u8]) -> Option<u64> {
    let mut output = MemorySink::new(alloc, Vec::new(alloc));
    let bytes = formatted(alloc)?;
    let outcome = answered(
        alloc,
        &["replay"],
        bytes,
        Vec::new(alloc),
        script,
        &mut output,
    )?;
    if outcome.status == DONE {
        Some(outcome.disk.now() / 2)
    } else {
        None
    }
}

// The first row whose transactions make another number of them.
fn wrong_row(alloc: Global) -> Option<Option<usize>> {
    for (row, (script, want)) in ROWS.iter().enumerate() {
        if changes(alloc, script)? != *want {
            return Some(Some(row));
        }
    }
    Some(None)
}

#[test]
fn only_an_end_that_keeps_lines_and_a_spill_change_the_disk(rt: HostRuntime) {
    assert_eq!(rt; wrong_row(rt.alloc()), Some(None));
}
