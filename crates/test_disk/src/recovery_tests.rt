// What recovery makes of the disk that a crash leaves, and that the log's calls succeed with ample
// memory.
ghost use Rattle.std.specs.Prelude.{◌≡◌, IfOk, length};

use sdr_disk::{Disk, DiskFault, MemoryDisk, Torn};
use sdr_log::{BackError, Frame, Record, close, put_back, put_lines, write_batch};
use std::alloc::Global;

type Answer = Result<u64, BackError>;

const FRAME: Frame = Frame {
    log_lines: 4,
    heap_lines: 32,
};

const OLDS: [Record; 2] = [
    Record {
        line: 3,
        bytes: [b'.'; 64],
    },
    Record {
        line: 7,
        bytes: [b'.'; 64],
    },
];

const NEWS: [Record; 2] = [
    Record {
        line: 3,
        bytes: [b'a'; 64],
    },
    Record {
        line: 7,
        bytes: [b'b'; 64],
    },
];

// A disk with a head, a closed first gate, and dots in the rest of both regions.
fn fresh(alloc: Global) -> Result<Vec<u8>, BackError>
    ensures { IfOk result (λ bytes. length bytes.items ≡ 2368) }
{
    let mut bytes = vec![in alloc; b'.'; 2368]?;
    bytes[..64].copy_from_slice(&FRAME.head());
    bytes[64] = 0;
    Ok(bytes)
}

// Changes two lines. It makes nine calls: a write and a sync for the batch and for its gate, the
// two lines, a sync, and a write and a sync for the gate.
fn change_two_lines<D: Disk>(disk: &mut D) -> Result<(), DiskFault> {
    if disk.len() < 2368 {
        return Err(DiskFault);
    }
    write_batch(disk, FRAME, 0, &OLDS, &mut [0; 141])?;
    put_lines(disk, FRAME, &NEWS)?;
    close(disk, FRAME)?;
    Ok(())
}

// A disk on which two lines were changed.
fn changed(alloc: Global) -> Result<MemoryDisk, BackError> {
    let mut disk = MemoryDisk::new(fresh(alloc)?, Vec::new(alloc));
    change_two_lines(&mut disk)?;
    Ok(disk)
}

// The bytes that the two lines have in all their places, where the other lines have dots.
fn lines_of<D: Disk>(disk: &mut D) -> Result<[u8; 2], DiskFault> {
    if disk.len() < 2368 {
        return Err(DiskFault);
    }
    let mut heap = [0; 2048];
    disk.read_at(320, &mut heap)?;
    let lines = [heap[192], heap[448]];
    let mut whole = [b'.'; 2048];
    whole[192..256].fill(lines[0]);
    whole[448..512].fill(lines[1]);
    Ok(if heap == whole { lines } else { *b"??" })
}

// How many lines recovery puts back, and what the two lines are then.
type Back = (u64, [u8; 2]);

// The same, of the image of a crash.
fn recovered(alloc: Global, disk: &MemoryDisk, moment: u64, torn: Torn) -> Result<Back, BackError> {
    let mut image = MemoryDisk::new(disk.image_at(moment, torn)?, Vec::new(alloc));
    let count = put_back(alloc, &mut image, FRAME)?;
    Ok((count, lines_of(&mut image)?))
}

// From a moment on and up to another, what recovery makes of a tear.
const CRASHES: [(u64, u64, Torn, Back); 20] = [
    // The batch is written and synced.
    (0, 5, Torn::Old, (0, *b"..")),
    (0, 5, Torn::New, (0, *b"..")),
    (0, 5, Torn::Filled(0), (0, *b"..")),
    (0, 5, Torn::Filled(b'x'), (0, *b"..")),
    // The gate is opened.
    (5, 8, Torn::Old, (0, *b"..")),
    (5, 8, Torn::New, (2, *b"..")),
    (5, 8, Torn::Filled(0), (0, *b"..")),
    (5, 8, Torn::Filled(b'x'), (2, *b"..")),
    // The lines are written and synced.
    (8, 15, Torn::Old, (2, *b"..")),
    (8, 15, Torn::New, (2, *b"..")),
    (8, 15, Torn::Filled(0), (2, *b"..")),
    (8, 15, Torn::Filled(b'x'), (2, *b"..")),
    // The gate is closed.
    (15, 18, Torn::Old, (2, *b"..")),
    (15, 18, Torn::New, (0, *b"ab")),
    (15, 18, Torn::Filled(0), (0, *b"ab")),
    (15, 18, Torn::Filled(b'x'), (2, *b"..")),
    (18, 19, Torn::Old, (0, *b"ab")),
    (18, 19, Torn::New, (0, *b"ab")),
    (18, 19, Torn::Filled(0), (0, *b"ab")),
    (18, 19, Torn::Filled(b'x'), (0, *b"ab")),
];

// The first moment of a row's that is recovered otherwise, and how.
fn wrong_moment(
    alloc: Global,
    disk: &MemoryDisk,
    row: &(u64, u64, Torn, Back),
) -> Result<Option<(u64, Back)>, BackError> {
    let (first, end, torn, want) = *row;
    for moment in first..end {
        let got = recovered(alloc, disk, moment, torn)?;
        if got != want {
            return Ok(Some((moment, got)));
        }
    }
    Ok(None)
}

// The last moment of a change of two lines, and the first row and moment that are recovered otherwise.
fn crashes(alloc: Global) -> Result<(u64, Option<(usize, (u64, Back))>), BackError> {
    let disk = changed(alloc)?;
    for (row, crash) in CRASHES.iter().enumerate() {
        if let Some(wrong) = wrong_moment(alloc, &disk, crash)? {
            return Ok((disk.now(), Some((row, wrong))));
        }
    }
    Ok((disk.now(), None))
}

// What recovery answers twice, the disk's moment after both, and what the two lines are then.
type Twice = ([Answer; 2], u64, [u8; 2]);

// The same, of a disk on which two lines are changed and their batch is open, where a call fails.
fn recovered_twice(alloc: Global, failing: u64) -> Result<Twice, BackError> {
    let image = changed(alloc)?.image_at(14, Torn::New)?;
    let mut disk = MemoryDisk::new(image, [failing].to_vec(alloc)?);
    let answers = [
        put_back(alloc, &mut disk, FRAME),
        put_back(alloc, &mut disk, FRAME),
    ];
    Ok((answers, disk.now(), lines_of(&mut disk)?))
}

const FAULT: Answer = Err(BackError::DiskFault);

// The number of the call that fails, both answers, and the moment. Recovery writes each line, syncs, writes
// the gate and syncs. Once the gate is written it may be closed, with all lines put back. No recovery makes
// 99 calls.
const TWICE: [(u64, [Answer; 2], u64); 8] = [
    (99, [Ok(2), Ok(0)], 10),
    (1, [FAULT, Ok(2)], 10),
    (2, [FAULT, Ok(2)], 10),
    (3, [FAULT, Ok(2)], 12),
    (4, [FAULT, Ok(2)], 14),
    (5, [FAULT, Ok(2)], 16),
    (6, [FAULT, Ok(2)], 18),
    (7, [FAULT, Ok(0)], 10),
];

// The first row that is recovered otherwise, and how.
fn wrong_twice(alloc: Global) -> Result<Option<(usize, Twice)>, BackError> {
    for (row, (failing, answers, moment)) in TWICE.iter().enumerate() {
        let got = recovered_twice(alloc, *failing)?;
        if got != (*answers, *moment, *b"..") {
            return Ok(Some((row, got)));
        }
    }
    Ok(None)
}

// Opens the batches of the two lines behind one another, writes both lines, and answers the places of the
// next gates.
fn open_two<D: Disk>(disk: &mut D) -> Result<[u64; 2], DiskFault> {
    if disk.len() < 2368 {
        return Err(DiskFault);
    }
    let first = write_batch(disk, FRAME, 0, &OLDS[..1], &mut [0; 73])?;
    let second = write_batch(disk, FRAME, 73, &OLDS[1..], &mut [0; 99])?;
    put_lines(disk, FRAME, &NEWS)?;
    Ok([first, second])
}

// The same places; how many lines recovery puts back then; and what they are.
fn recovered_of_two(alloc: Global) -> Result<([u64; 2], u64, [u8; 2]), BackError> {
    let mut disk = MemoryDisk::new(fresh(alloc)?, Vec::new(alloc));
    let places = open_two(&mut disk)?;
    let count = put_back(alloc, &mut disk, FRAME)?;
    Ok((places, count, lines_of(&mut disk)?))
}

// What recovery answers where these bytes stand at the begin of the log region and at its place
// 73, with zeros in the rest, and the disk's moment then.
fn answered(alloc: Global, front: &[u8], second: &[u8]) -> Result<(Answer, u64), BackError> {
    let mut bytes = fresh(alloc)?;
    if front.len() < 73 && second.len() < 73 {
        bytes[64..320].fill(0);
        bytes[64..64 + front.len()].copy_from_slice(front);
        bytes[137..137 + second.len()].copy_from_slice(second);
    }
    let mut disk = MemoryDisk::new(bytes, Vec::new(alloc));
    let answer = put_back(alloc, &mut disk, FRAME);
    Ok((answer, disk.now()))
}

const BAD: Answer = Err(BackError::BadLog);

// A wrong log is refused before anything is written.
const LOGS: [(&[u8], &[u8], (Answer, u64)); 7] = [
    // No record, and a record more than the region has room for.
    (&[1, 0, 0, 0, 0], &[], (BAD, 0)),
    (&[1, 0, 0, 0, 4], &[], (BAD, 0)),
    // The last line of the heap, and one behind it.
    (&[1, 0, 0, 0, 1, 0, 0, 0, 31], &[], (Ok(1), 8)),
    (&[1, 0, 0, 0, 1, 0, 0, 0, 32], &[], (BAD, 0)),
    // Two lines, and a line named twice, in one batch and in two.
    (&[1, 0, 0, 0, 2, 0, 0, 0, 3], &[0, 0, 0, 0], (Ok(2), 10)),
    (&[1, 0, 0, 0, 2, 0, 0, 0, 3], &[0, 0, 0, 3], (BAD, 0)),
    (
        &[1, 0, 0, 0, 1, 0, 0, 0, 3],
        &[1, 0, 0, 0, 1, 0, 0, 0, 3],
        (BAD, 0),
    ),
];

// The first of these logs that is answered otherwise, and how.
fn wrong_log(alloc: Global) -> Result<Option<(usize, (Answer, u64))>, BackError> {
    for (row, (front, second, want)) in LOGS.iter().enumerate() {
        let got = answered(alloc, front, second)?;
        if got != *want {
            return Ok(Some((row, got)));
        }
    }
    Ok(None)
}

// How many lines the log region is to have, how many bytes of the disk are there, and the answer.
const REGIONS: [(u64, usize, Answer); 3] = [(4, 2368, Ok(0)), (5, 2368, BAD), (4, 63, BAD)];

// The first of these regions that is answered otherwise, and how.
fn wrong_regions(alloc: Global) -> Result<Option<(usize, Answer)>, BackError> {
    for (row, (log_lines, count, want)) in REGIONS.iter().enumerate() {
        let mut bytes = fresh(alloc)?;
        bytes.truncate(*count);
        let frame = Frame {
            log_lines: *log_lines,
            heap_lines: 32,
        };
        let got = put_back(alloc, &mut MemoryDisk::new(bytes, Vec::new(alloc)), frame);
        if got != *want {
            return Ok(Some((row, got)));
        }
    }
    Ok(None)
}

#[test]
fn a_crash_at_any_moment_leaves_both_lines_as_before_or_as_changed(rt: HostRuntime) {
    assert_eq!(rt; crashes(rt.alloc()), Ok((18, None)));
    assert_eq!(rt; recovered_of_two(rt.alloc()), Ok(([73, 146], 2, *b"..")));
}

#[test]
fn recovery_is_begun_again_after_a_fault_and_refuses_a_wrong_log(rt: HostRuntime) {
    assert_eq!(rt; wrong_twice(rt.alloc()), Ok(None));
    assert_eq!(rt; wrong_log(rt.alloc()), Ok(None));
    assert_eq!(rt; wrong_regions(rt.alloc()), Ok(None));
}
