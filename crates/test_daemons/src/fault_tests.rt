// A disk that fails at any call, while two daemons are at work: both leave, the status tells of it, and the totals stand behind the journal.
use crate::runs::{has, status_of};
use sdr_base::{MemorySink, NoGate};
use sdr_shell::{DISK_FAULT, DONE};
use std::alloc::Global;
use std::sync::Wait;
use std::thread::Threads;

const SCRIPT: &[u8] =
    b"1: begin\n1: string \"hello\"\n1: end\n2: begin\n2: list 7\n2: end\n1: begin\n1: end\n";

// What the run on a disk whose call of this number fails, 0 for none, is told by: the status, how many calls were made, and whether each
// daemon left so, and the totals are told.
fn told<R: Threads + Wait + Sync>(
    rt: &R,
    alloc: Global,
    failing: u64,
    leaves: [&[u8]; 2],
) -> Option<(u8, u64, bool)> {
    let mut output = MemorySink::new(alloc, Vec::new(alloc));
    let (status, calls) = status_of(rt, alloc, true, SCRIPT, failing, &mut output, &NoGate)?;
    let have_left = leaves.iter().all(|leave| has(output.taken(), leave));
    let totals = has(output.taken(), b"\ntotals ");
    Some((status, calls, have_left && totals))
}

// The first of the ten calls behind an opening, all within the first transaction, whose failure comes to something else than a disk fault
// behind which both daemons leave. The two transactions make ten writes and syncs each, and read lines beside.
fn wrong_fault<R: Threads + Wait + Sync>(rt: &R, alloc: Global) -> Option<Option<u64>> {
    let mut output = MemorySink::new(alloc, Vec::new(alloc));
    let (_, opening) = status_of(rt, alloc, true, b"", 0, &mut output, &NoGate)?;
    let (status, calls, _) = told(rt, alloc, 0, [b" 1 leaves done\n", b" 2 leaves done\n"])?;
    if status != DONE || calls < opening.checked_add(20)? {
        return Some(Some(0));
    }
    for call in opening.checked_add(1)?..opening.checked_add(11)? {
        let (status, _, have_left) = told(
            rt,
            alloc,
            call,
            [b" 1 leaves fault\n", b" 2 leaves fault\n"],
        )?;
        if status != DISK_FAULT || !have_left {
            return Some(Some(call));
        }
    }
    Some(None)
}

#[test]
fn daemons_leave_a_disk_that_fails(rt: HostRuntime) {
    assert_eq!(rt; wrong_fault(&rt, rt.alloc()), Some(None));
}
