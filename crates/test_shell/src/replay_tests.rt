// What no clause and no script shows of replays: that they are answered with ample memory, at which call of a disk they come to a
// fault, at which moment each image of a crash has the old world or the new, and the moments that a journal tells.
use crate::disks::{HEAP, answered, bytes_of, formatted};
use sdr_base::{MemorySink, NoMedia};
use sdr_disk::{MemoryDisk, Torn};
use sdr_model::{Close, Entry, What};
use sdr_shell::{DISK_FAULT, DONE, RunOutcome};
use std::alloc::Global;
use std::ops::Range;

// A string that is kept, and a begin behind it.
const SCRIPT: &[u8] = b"1: begin\n1: string \"hello\"\n1: end\n1: begin\n";

const KEPT: &[u8] = b"1 1 lock 1\n2 1 at 2056\n3 1 ended\n4 1 lock 2\n";

// The same where the disk fails in the string, and in the end.
const FAILED: [&[u8]; 2] = [
    b"1 1 lock 1\n2 1 disk fault\n3 1 failed\n4 1 failed\n",
    b"1 1 lock 1\n2 1 at 2056\n3 1 disk fault\n4 1 failed\n",
];

// An object of 4,480 bytes whose bytes are written: 73 lines are touched, of which 64 are spilled.
const LONG: &[u8] =
    b"1: begin\n1: p = malloc 4480\n1: write p 0 f01*4096\n1: write p 4096 f01*384\n1: end\n";

// The same, cancelled.
const LONG_CANCELLED: &[u8] =
    b"1: begin\n1: p = malloc 4480\n1: write p 0 f01*4096\n1: write p 4096 f01*384\n1: cancel\n";

// Where the disk fails in each event of the transaction but its begin.
const LONG_FAILED: [&[u8]; 4] = [
    b"1 1 lock 1\n2 1 disk fault\n3 1 failed\n4 1 failed\n5 1 failed\n",
    b"1 1 lock 1\n2 1 at 61032\n3 1 disk fault\n4 1 failed\n5 1 failed\n",
    b"1 1 lock 1\n2 1 at 61032\n3 1 ok\n4 1 disk fault\n5 1 failed\n",
    b"1 1 lock 1\n2 1 at 61032\n3 1 ok\n4 1 ok\n5 1 disk fault\n",
];

// Two transactions, of which the second waits for the first.
const TWO: &[u8] = b"1: begin\n2: begin\n1: string \"hello\"\n1: end\n2: end\n";

// What a script comes to on a disk of these bytes, whose calls with these numbers fail.
fn replayed(
    alloc: Global,
    bytes: Vec<u8>,
    failing: Vec<u64>,
    script: &[u8],
    output: &mut MemorySink,
) -> Option<RunOutcome<MemoryDisk, NoMedia>> {
    answered(alloc, &["replay"], bytes, failing, script, output)
}

// What a script came to on a disk whose call fails: its status, whether the journal is empty or has a fault, and how many calls were made.
#[derive(Drop)]
struct Came {
    status: u8,
    faulted: bool,
    calls: u64,
}

// Whether the disk failed in an entry.
fn met_a_fault(entry: &Entry) -> bool {
    matches!(
        &entry.what,
        What::Work {
            close: Close::Faulted,
            ..
        }
    )
}

// Whether there is no entry, or the disk failed in one.
fn is_faulted(journal: &[Entry]) -> bool {
    journal.is_empty() || journal.iter().any(met_a_fault)
}

// What a script comes to on a formatted disk whose call of this number fails, 0 for none.
fn played(alloc: Global, call: u64, script: &[u8], output: &mut MemorySink) -> Option<Came> {
    let failing = vec![in alloc; call; 1].ok()?;
    let outcome = replayed(alloc, formatted(alloc)?, failing, script, output)?;
    Some(Came {
        status: outcome.status,
        faulted: is_faulted(outcome.journal.as_slice()),
        calls: outcome.disk.calls(),
    })
}

// Whether the failure of a call comes to a disk fault, and which of these texts is printed. `None`: none is, or it comes to something else.
fn text_of(alloc: Global, call: u64, script: &[u8], texts: &[&[u8]]) -> Option<usize> {
    let mut output = MemorySink::new(alloc, Vec::new(alloc));
    let came = played(alloc, call, script, &mut output)?;
    if came.status != DISK_FAULT || !came.faulted {
        return None;
    }
    texts.iter().position(|text| output.taken() == *text)
}

// The first of some calls of the opening whose failure comes to something else. It makes more than 1,024 calls: it reads each line.
fn wrong_opening(alloc: Global) -> Option<u64> {
    for number in 0..16 {
        let call = 64 * number + 1;
        if text_of(alloc, call, SCRIPT, &[b"disk fault\n"]) != Some(0) {
            return Some(call);
        }
    }
    None
}

// The first call behind the opening whose failure comes to something else than a disk fault and one of these texts, each of which may stand
// where those before it don't any more, up to the last; and behind the last call the script is done.
fn wrong_fault(alloc: Global, script: &[u8], texts: &[&[u8]]) -> Option<Option<u64>> {
    let mut output = MemorySink::new(alloc, Vec::new(alloc));
    let opening = played(alloc, 0, b"", &mut output)?.calls;
    let all = played(alloc, 0, script, &mut output)?;
    let mut at = 0usize;
    for call in opening.checked_add(1)?..all.calls.checked_add(1)? {
        match text_of(alloc, call, script, texts) {
            Some(text) if text >= at => at = text,
            _ => return Some(Some(call)),
        }
    }
    if all.status == DONE && at.checked_add(1) == Some(texts.len()) {
        Some(None)
    } else {
        Some(Some(0))
    }
}

#[test]
fn a_replay_tells_a_disk_that_fails_as_it_is_opened(rt: HostRuntime) {
    assert_eq!(rt; wrong_opening(rt.alloc()), None);
}

#[test]
fn a_replay_tells_a_disk_that_fails_at_any_call(rt: HostRuntime) {
    assert_eq!(rt; wrong_fault(rt.alloc(), SCRIPT, &FAILED), Some(None));
}

#[test]
fn a_replay_tells_a_disk_that_fails_at_any_call_of_a_transaction_that_spills(rt: HostRuntime) {
    assert_eq!(rt; wrong_fault(rt.alloc(), LONG, &LONG_FAILED), Some(None));
    assert_eq!(rt;
        wrong_fault(rt.alloc(), LONG_CANCELLED, &LONG_FAILED),
        Some(None)
    );
}

// Whether an empty script puts back this heap of the disk that a crash leaves.
fn is_left(alloc: Global, disk: &MemoryDisk, moment: u64, torn: Torn, heap: &[u8]) -> Option<bool> {
    let image = disk.image_at(moment, torn).ok()?;
    let mut output = MemorySink::new(alloc, Vec::new(alloc));
    let left = replayed(alloc, image, Vec::new(alloc), b"", &mut output)?.disk;
    Some(bytes_of(&left)?.get(HEAP..)? == heap)
}

// How many moments since the begin of an end the old heap is left, in each image of these; then the new one is.
const OLD_FOR: [(Torn, u64); 4] = [
    (Torn::Old, 20),
    (Torn::New, 17),
    (Torn::Filled(0), 17),
    (Torn::Filled(1), 20),
];

// The first moment of the end of a string at which a crash leaves something else.
fn wrong_image(alloc: Global) -> Option<Option<u64>> {
    let mut output = MemorySink::new(alloc, Vec::new(alloc));
    let before = formatted(alloc)?;
    let disk = replayed(
        alloc,
        formatted(alloc)?,
        Vec::new(alloc),
        SCRIPT,
        &mut output,
    )?
    .disk;
    let after = bytes_of(&disk)?;
    for moment in 0..21 {
        for (torn, old_for) in OLD_FOR {
            let heap = if moment < old_for { &before } else { &after };
            if !is_left(alloc, &disk, moment, torn, heap.get(HEAP..)?)? {
                return Some(Some(moment));
            }
        }
    }
    Some(None)
}

#[test]
fn a_crash_in_an_end_leaves_the_old_world_until_its_gate_is_closed(rt: HostRuntime) {
    assert_eq!(rt; wrong_image(rt.alloc()), Some(None));
}

// Which bytes are pending while each of the ten calls of that end runs: the batch is written and synced, its gate is opened and
// synced, three lines are written and synced, and the gate is closed and synced.
const PENDING: [&[Range<usize>]; 10] = [
    &[65..274],
    &[65..274],
    &[64..65],
    &[64..65],
    &[16_448..16_512],
    &[16_448..16_512, 17_472..17_536],
    &[16_448..16_512, 17_472..17_536, 18_496..18_560],
    &[16_448..16_512, 17_472..17_536, 18_496..18_560],
    &[64..65],
    &[64..65],
];

// Whether just the bytes of these ranges are filled.
fn are_filled(image: &[u8], ranges: &[Range<usize>]) -> bool {
    image.iter().enumerate().all(|(place, byte)| {
        (*byte == 0xEE) == ranges.iter().any(|range| range.contains(&place))
    })
}

// The first call in which other bytes are pending.
fn wrong_call(alloc: Global) -> Option<Option<usize>> {
    let mut output = MemorySink::new(alloc, Vec::new(alloc));
    let disk = replayed(
        alloc,
        formatted(alloc)?,
        Vec::new(alloc),
        SCRIPT,
        &mut output,
    )?
    .disk;
    let mut moment = 1u64;
    for (call, ranges) in PENDING.iter().enumerate() {
        let image = disk.image_at(moment, Torn::Filled(0xEE)).ok()?;
        if !are_filled(&image, ranges) {
            return Some(Some(call));
        }
        moment = moment.checked_add(2)?;
    }
    Some(None)
}

#[test]
fn an_end_that_makes_a_string_makes_ten_calls_of_the_disk(rt: HostRuntime) {
    assert_eq!(rt; wrong_call(rt.alloc()), Some(None));
}

// The lock numbers, daemons and moments of the first two entries.
fn told(entries: &[Entry]) -> Option<[(u64, u8, u64, u64); 2]> {
    let first = entries.first()?;
    let second = entries.get(1)?;
    Some([
        (first.number, first.daemon, first.begun, first.done),
        (second.number, second.daemon, second.begun, second.done),
    ])
}

// Those of two transactions on a disk whose moment is 0.
fn moments(alloc: Global) -> Option<[(u64, u8, u64, u64); 2]> {
    let mut output = MemorySink::new(alloc, Vec::new(alloc));
    let outcome = replayed(alloc, formatted(alloc)?, Vec::new(alloc), TWO, &mut output)?;
    told(outcome.journal.as_slice())
}

#[test]
fn a_journal_tells_the_moments_of_two_transactions(rt: HostRuntime) {
    assert_eq!(rt; moments(rt.alloc()), Some([(1, 1, 0, 20), (2, 2, 20, 20)]));
}
