// What no clause shows of loads: the summary with ample memory, and at each call of a disk that fails the status, what is printed, and
// which heap is left.
use crate::disks::{HEAP, answered, bytes_of, formatted};
use sdr_base::{MemorySink, NoMedia};
use sdr_disk::{Disk, MemoryDisk, Torn};
use sdr_shell::{DISK_FAULT, DONE, RunOutcome};
use std::alloc::Global;

const SUMMARY: &[u8] = b"load 2\nended 3\ncancelled 0\nelements 2\nbytes 113\n";

// The lines of round 0.
const FIRST: &[u8] = b"1: begin\n1: l = list 0\n1: catlg \"load\" 1 l\n1: end\n";

// What a load of so many rounds comes to on a formatted disk whose call of this number fails, 0 for none.
fn loaded(
    alloc: Global,
    rounds: &str,
    call: u64,
    output: &mut MemorySink,
) -> Option<RunOutcome<MemoryDisk, NoMedia>> {
    let failing = vec![in alloc; call; 1].ok()?;
    answered(
        alloc,
        &["load", rounds],
        formatted(alloc)?,
        failing,
        b"",
        output,
    )
}

// How many calls of the disk an opening makes, and how many a load of two rounds makes with it, where it is done.
fn calls(alloc: Global) -> Option<(u64, u64)> {
    let mut output = MemorySink::new(alloc, Vec::new(alloc));
    let bytes = formatted(alloc)?;
    let opened = answered(alloc, &["replay"], bytes, Vec::new(alloc), b"", &mut output)?;
    let whole = loaded(alloc, "2", 0, &mut output)?;
    if whole.status != DONE || output.taken() != SUMMARY {
        return None;
    }
    Some((opened.disk.calls(), whole.disk.calls()))
}

// The bytes of disks after no round, after round 0, and after one and two rounds more.
fn states(alloc: Global) -> Option<[Vec<u8>; 4]> {
    let mut output = MemorySink::new(alloc, Vec::new(alloc));
    let none = answered(
        alloc,
        &["replay"],
        formatted(alloc)?,
        Vec::new(alloc),
        b"",
        &mut output,
    )?;
    let first = answered(
        alloc,
        &["replay"],
        formatted(alloc)?,
        Vec::new(alloc),
        FIRST,
        &mut output,
    )?;
    let one = loaded(alloc, "1", 0, &mut output)?;
    let two = loaded(alloc, "2", 0, &mut output)?;
    Some([
        bytes_of(&none.disk)?,
        bytes_of(&first.disk)?,
        bytes_of(&one.disk)?,
        bytes_of(&two.disk)?,
    ])
}

// Whether what a crash leaves of a disk now, with all that is pending on it filled, is put back to the heap of one of these.
fn is_left(alloc: Global, disk: &MemoryDisk, states: &[Vec<u8>]) -> Option<bool> {
    let image = disk.image_at(disk.now(), Torn::Filled(1)).ok()?;
    let mut output = MemorySink::new(alloc, Vec::new(alloc));
    let left = answered(alloc, &["replay"], image, Vec::new(alloc), b"", &mut output)?;
    let bytes = bytes_of(&left.disk)?;
    let heap = bytes.get(HEAP..)?;
    Some(states.iter().any(|known| known.get(HEAP..).is_some_and(|known| known == heap)))
}

// Whether a load whose disk fails at this call ends so.
fn fails_so(alloc: Global, call: u64, text: &[u8], states: &[Vec<u8>]) -> Option<bool> {
    let mut output = MemorySink::new(alloc, Vec::new(alloc));
    let outcome = loaded(alloc, "2", call, &mut output)?;
    Some(
        outcome.status == DISK_FAULT
            && output.taken() == text
            && is_left(alloc, &outcome.disk, states)?,
    )
}

// The first of some calls of the opening whose failure comes to something else. It makes more than 1,024 calls: it reads each line.
fn wrong_opening(alloc: Global) -> Option<Option<u64>> {
    let states = states(alloc)?;
    for number in 0..16 {
        let call = 64 * number + 1;
        if !fails_so(alloc, call, b"disk fault\n", &states)? {
            return Some(Some(call));
        }
    }
    Some(None)
}

// The first call behind the opening whose failure comes to something else, and the status where the one behind the last fails.
fn wrong_call(alloc: Global) -> Option<(Option<u64>, u8)> {
    let (opening, all) = calls(alloc)?;
    let states = states(alloc)?;
    for call in opening.checked_add(1)?..all.checked_add(1)? {
        if !fails_so(alloc, call, b"", &states)? {
            return Some((Some(call), 0));
        }
    }
    let mut output = MemorySink::new(alloc, Vec::new(alloc));
    Some((
        None,
        loaded(alloc, "2", all.checked_add(1)?, &mut output)?.status,
    ))
}

#[test]
fn a_load_whose_disk_fails_at_any_call_prints_no_summary(rt: HostRuntime) {
    assert_eq!(rt; wrong_opening(rt.alloc()), Some(None));
    assert_eq!(rt; wrong_call(rt.alloc()), Some((None, DONE)));
}
