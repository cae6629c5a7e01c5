// Faults at each call, a stop behind each write and sync, and a crash then: opening gives the old bytes or the new.
use crate::crashes::{Opened, Row, opened_torn, wanted};
use crate::works::{Work, done_on, fresh};
use sdr_disk::{Disk, MemoryDisk, Torn};
use std::alloc::Global;

/// How a disk fails behind a number.
#[derive(Clone, Copy)]
enum Fault {
    /// Once, at the call behind so many calls of read, write and sync.
    Once,
    /// At each call behind so many writes and syncs.
    EachTime,
}

// A disk of these bytes that fails so behind a number.
fn failing(alloc: Global, bytes: &[u8], fault: Fault, number: u64) -> Option<MemoryDisk> {
    let bytes = bytes.to_vec(alloc).ok()?;
    match fault {
        Fault::Once => {
            let failing = [number.saturating_add(1)].to_vec(alloc).ok()?;
            Some(MemoryDisk::new(bytes, failing))
        }
        Fault::EachTime => {
            let mut disk = MemoryDisk::new(bytes, Vec::new(alloc));
            disk.stop_after(number);
            Some(disk)
        }
    }
}

/// What is tried: what is done on a disk of these bytes, and how it fails.
#[derive(Clone, Copy)]
struct Trial<'a> {
    bytes: &'a [u8],
    work: Work,
    fault: Fault,
}

// Whether a run meets no fault whose disk fails behind a number, and what opening makes of a crash then.
fn crashed(alloc: Global, trial: &Trial, number: u64) -> Option<(bool, [Opened; 4])> {
    let disk = failing(alloc, trial.bytes, trial.fault, number)?;
    let (done, disk) = done_on(alloc, disk, trial.work);
    Some((done, opened_torn(alloc, &disk, disk.now())?))
}

// Counts up to the first run that meets no fault, and gives its number; or that of the first run of which opening makes
// something else than these rows say.
fn counted(alloc: Global, trial: &Trial, rows: &[Row]) -> Option<Result<u64, u64>> {
    for number in 0..999 {
        let (done, got) = crashed(alloc, trial, number)?;
        if got != wanted(rows, number)? {
            return Some(Err(number));
        }
        if done {
            return Some(Ok(number));
        }
    }
    None
}

// What opening makes of a disk: it puts back nothing, three, sixty-four or seventy lines, and the heap has the old bytes or
// the new.
const OLD: Opened = (0, 0);

const THREE: Opened = (3, 0);

const SPILLED: Opened = (64, 0);

const ALL: Opened = (70, 0);

const THREE_NEW: Opened = (0, 3);

const ALL_NEW: Opened = (0, 4480);

// Opening makes two reads. Three lines are read; their batch is written and synced, then its gate, then the lines, then the
// first gate.
const THREE_ONCE: [Row; 5] = [
    (7, [OLD; 4]),
    (9, [OLD, THREE, OLD, THREE]),
    (13, [THREE; 4]),
    (15, [THREE, THREE_NEW, THREE_NEW, THREE]),
    (16, [THREE_NEW; 4]),
];

const THREE_STOPPED: [Row; 5] = [
    (3, [OLD; 4]),
    (4, [OLD, THREE, OLD, THREE]),
    (9, [THREE; 4]),
    (10, [THREE, THREE_NEW, THREE_NEW, THREE]),
    (11, [THREE_NEW; 4]),
];

// Sixty-five lines are read; the batch of sixty-four is written and synced, then its gate, and the lines are written. Five
// more are read; the batch of six is written and synced, then its gate, then all lines, then the first gate.
const SEVENTY_ONCE: [Row; 7] = [
    (69, [OLD; 4]),
    (71, [OLD, SPILLED, OLD, SPILLED]),
    (142, [SPILLED; 4]),
    (144, [SPILLED, ALL, SPILLED, ALL]),
    (151, [ALL; 4]),
    (153, [ALL, ALL_NEW, ALL_NEW, ALL]),
    (154, [ALL_NEW; 4]),
];

const SEVENTY_STOPPED: [Row; 7] = [
    (3, [OLD; 4]),
    (4, [OLD, SPILLED, OLD, SPILLED]),
    (71, [SPILLED; 4]),
    (72, [SPILLED, ALL, SPILLED, ALL]),
    (80, [ALL; 4]),
    (81, [ALL, ALL_NEW, ALL_NEW, ALL]),
    (82, [ALL_NEW; 4]),
];

// Behind the batch and its lines, five lines are read, and the batch's count; then each of its records is read, and its line
// written. The lines are synced, then the first gate is written and synced.
const TAKEN_BACK_ONCE: [Row; 5] = [
    (69, [OLD; 4]),
    (71, [OLD, SPILLED, OLD, SPILLED]),
    (270, [SPILLED; 4]),
    (272, [SPILLED, OLD, OLD, SPILLED]),
    (273, [OLD; 4]),
];

const TAKEN_BACK_STOPPED: [Row; 5] = [
    (3, [OLD; 4]),
    (4, [OLD, SPILLED, OLD, SPILLED]),
    (134, [SPILLED; 4]),
    (135, [SPILLED, OLD, OLD, SPILLED]),
    (136, [OLD; 4]),
];

// Opening reads the head and the log region, writes seventy lines and syncs them, and writes and syncs the first gate.
const OPENED_ONCE: [Row; 3] = [(73, [ALL; 4]), (75, [ALL, OLD, OLD, ALL]), (76, [OLD; 4])];

const OPENED_STOPPED: [Row; 3] = [(72, [ALL; 4]), (73, [ALL, OLD, OLD, ALL]), (74, [OLD; 4])];

// The same on a disk with a fresh heap.
fn counted_fresh(
    alloc: Global,
    work: Work,
    fault: Fault,
    rows: &[Row],
) -> Option<Result<u64, u64>> {
    let bytes = fresh(alloc)?;
    let trial = Trial {
        bytes: &bytes,
        work,
        fault,
    };
    counted(alloc, &trial, rows)
}

// The same on a disk with two open batches, whose seventy lines are written.
fn counted_open(alloc: Global, fault: Fault, rows: &[Row]) -> Option<Result<u64, u64>> {
    let bytes = fresh(alloc)?;
    let disk = failing(alloc, &bytes, Fault::EachTime, 79)?;
    let (_, disk) = done_on(alloc, disk, Work::Seventy);
    let bytes = disk.image_at(disk.now(), Torn::New).ok()?;
    let trial = Trial {
        bytes: &bytes,
        work: Work::Nothing,
        fault,
    };
    counted(alloc, &trial, rows)
}

#[test]
fn a_fault_at_any_call_of_three_lines_and_a_crash_leave_the_old_bytes_or_the_new(rt: HostRuntime) {
    let once = counted_fresh(rt.alloc(), Work::Three, Fault::Once, &THREE_ONCE);
    assert_eq!(rt; once, Some(Ok(15)));
    let stopped = counted_fresh(rt.alloc(), Work::Three, Fault::EachTime, &THREE_STOPPED);
    assert_eq!(rt; stopped, Some(Ok(10)));
}

#[test]
fn a_fault_at_any_call_of_seventy_lines_and_a_crash_leave_the_old_bytes_or_the_new(
    rt: HostRuntime,
) {
    let once = counted_fresh(rt.alloc(), Work::Seventy, Fault::Once, &SEVENTY_ONCE);
    assert_eq!(rt; once, Some(Ok(153)));
    let stopped = counted_fresh(rt.alloc(), Work::Seventy, Fault::EachTime, &SEVENTY_STOPPED);
    assert_eq!(rt; stopped, Some(Ok(81)));
}

#[test]
fn a_fault_at_any_call_of_seventy_lines_taken_back_and_a_crash_leave_the_old_bytes(
    rt: HostRuntime,
) {
    let once = counted_fresh(rt.alloc(), Work::TakenBack, Fault::Once, &TAKEN_BACK_ONCE);
    assert_eq!(rt; once, Some(Ok(272)));
    let stopped = counted_fresh(
        rt.alloc(),
        Work::TakenBack,
        Fault::EachTime,
        &TAKEN_BACK_STOPPED,
    );
    assert_eq!(rt; stopped, Some(Ok(135)));
}

#[test]
fn a_fault_at_any_call_of_an_opening_that_puts_back_two_batches_and_a_crash_leave_the_old_bytes(
    rt: HostRuntime,
) {
    let once = counted_open(rt.alloc(), Fault::Once, &OPENED_ONCE);
    assert_eq!(rt; once, Some(Ok(75)));
    let stopped = counted_open(rt.alloc(), Fault::EachTime, &OPENED_STOPPED);
    assert_eq!(rt; stopped, Some(Ok(73)));
}
