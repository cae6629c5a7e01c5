// Transactions of more lines than the buffer holds: which calls they make, what a crash leaves of them at each moment, how
// many lines stand in memory, and how many a log takes.
ghost use Rattle.sdr_log.specs.Frame.{IsInLimits};

use crate::crashes::{Opened, Pending, Row, opened_torn, wanted, wrong_moment};
use crate::works::{Work, done_on, fresh};
use byteorder::{BigEndian, ByteOrder};
use sdr_base::{Cells, Refusal, Stop};
use sdr_disk::{Disk, MemoryDisk, Torn};
use sdr_image::{Image, format};
use sdr_log::Frame;
use std::alloc::Global;
use std::ops::Range;

// The answer to a call.
type Done = Result<(), Stop>;

// Of seventy lines that are ended: the batch of 64 and its gate, their lines, the batch of six and its gate, those lines, and the
// first gate.
const SEVENTY: [Pending; 17] = [
    (0, 1, &[]),
    (1, 4, &[65..4422]),
    (4, 5, &[]),
    (5, 8, &[64..65]),
    (8, 9, &[]),
    (9, 11, &[20_544..20_608]),
    (11, 13, &[20_544..20_672]),
    (135, 137, &[20_544..24_640]),
    (137, 140, &[4422..4835, 20_544..24_640]),
    (140, 141, &[]),
    (141, 144, &[4421..4422]),
    (144, 145, &[]),
    (145, 147, &[24_640..24_704]),
    (155, 158, &[24_640..25_024]),
    (158, 159, &[]),
    (159, 162, &[64..65]),
    (162, 163, &[]),
];

// Of seventy lines that are taken back: behind the lines that are spilled, the same lines again, and the first gate.
const TAKEN_BACK: [Pending; 9] = [
    (0, 1, &[]),
    (1, 4, &[65..4422]),
    (4, 5, &[]),
    (5, 8, &[64..65]),
    (8, 9, &[]),
    (135, 266, &[20_544..24_640]),
    (266, 267, &[]),
    (267, 270, &[64..65]),
    (270, 271, &[]),
];

// How many calls of the disk a work makes with opening, its moment at the end, and the first moment at which other bytes are
// pending than in these rows.
fn pending(alloc: Global, work: Work, rows: &[Pending]) -> Option<(u64, u64, Option<u64>)> {
    let disk = MemoryDisk::new(fresh(alloc)?, Vec::new(alloc));
    let (_, disk) = done_on(alloc, disk, work);
    Some((disk.calls(), disk.now(), wrong_moment(&disk, 0, rows)?))
}

// Where both batches of seventy lines are open, the places of their counts and of some records' numbers: the first and the
// second of the first batch, and the first of the second one.
const NUMBERS: [(usize, u32); 5] = [(65, 64), (69, 64), (137, 65), (4422, 6), (4426, 128)];

// The first place at which they have another number.
fn wrong_number(alloc: Global) -> Option<Option<usize>> {
    let disk = MemoryDisk::new(fresh(alloc)?, Vec::new(alloc));
    let (_, disk) = done_on(alloc, disk, Work::Seventy);
    let image = disk.image_at(144, Torn::Old).ok()?;
    for (place, number) in &NUMBERS {
        if image.len() != 81_984 || BigEndian::read_u32(&image[*place..]) != *number {
            return Some(Some(*place));
        }
    }
    Some(None)
}

#[test]
fn seventy_lines_are_spilled_and_ended_or_taken_back_by_so_many_calls(rt: HostRuntime) {
    assert_eq!(rt;
        pending(rt.alloc(), Work::Seventy, &SEVENTY),
        Some((153, 162, None))
    );
    assert_eq!(rt;
        pending(rt.alloc(), Work::TakenBack, &TAKEN_BACK),
        Some((272, 270, None))
    );
}

const OLD: Opened = (0, 0);

const SPILLED: Opened = (64, 0);

const ALL: Opened = (70, 0);

const NEW: Opened = (0, 4480);

// Up to a moment, what opening makes of seventy lines that are ended: while a gate is written it is open or not.
const SEVENTY_CRASHES: [Row; 7] = [
    (5, [OLD; 4]),
    (8, [OLD, SPILLED, OLD, SPILLED]),
    (141, [SPILLED; 4]),
    (144, [SPILLED, ALL, SPILLED, ALL]),
    (159, [ALL; 4]),
    (162, [ALL, NEW, NEW, ALL]),
    (163, [NEW; 4]),
];

// And of those that are taken back.
const TAKEN_BACK_CRASHES: [Row; 5] = [
    (5, [OLD; 4]),
    (8, [OLD, SPILLED, OLD, SPILLED]),
    (267, [SPILLED; 4]),
    (270, [SPILLED, OLD, OLD, SPILLED]),
    (271, [OLD; 4]),
];

// The first moment of a work at which opening makes something else.
fn wrong_crash(alloc: Global, work: Work, rows: &[Row]) -> Option<Option<u64>> {
    let disk = MemoryDisk::new(fresh(alloc)?, Vec::new(alloc));
    let (_, disk) = done_on(alloc, disk, work);
    for moment in 0..=disk.now() {
        if opened_torn(alloc, &disk, moment)? != wanted(rows, moment)? {
            return Some(Some(moment));
        }
    }
    Some(None)
}

#[test]
fn a_crash_in_seventy_lines_leaves_the_old_bytes_and_behind_a_commit_the_new(rt: HostRuntime) {
    assert_eq!(rt;
        wrong_crash(rt.alloc(), Work::Seventy, &SEVENTY_CRASHES),
        Some(None)
    );
    assert_eq!(rt;
        wrong_crash(rt.alloc(), Work::TakenBack, &TAKEN_BACK_CRASHES),
        Some(None)
    );
}

// What is answered to a write of so many lines and to a commit, where the log has so many lines.
fn filled(alloc: Global, log_lines: u64, from: &[u8]) -> Option<[Done; 2]>
    requires { IsInLimits (record { log_lines = log_lines; heap_lines = 128 }) }
{
    let frame = Frame {
        log_lines,
        heap_lines: 128,
    };
    let mut disk = MemoryDisk::new(vec![in alloc; 7; 13_056].ok()?, Vec::new(alloc));
    format(&mut disk, frame).ok()?;
    let mut image = Image::open(alloc, disk).ok()?;
    if image.size() != 8192 || from.len() > 8192 {
        return None;
    }
    let written = image.write(0, from);
    Some([written, image.commit()])
}

const FULL: Done = Err(Stop::Refused(Refusal::LogFull {
    lines: 65,
    room: 64,
}));

#[test]
fn a_log_with_room_for_as_many_lines_as_the_buffer_takes_no_more(rt: HostRuntime) {
    assert_eq!(rt; filled(rt.alloc(), 74, &[1; 4096]), Some([Ok(()), Ok(())]));
    assert_eq!(rt; filled(rt.alloc(), 74, &[1; 4160]), Some([FULL, Ok(())]));
    assert_eq!(rt; filled(rt.alloc(), 75, &[1; 4160]), Some([Ok(()), Ok(())]));
}

// Reads the first byte of a line.
fn read_line<D: Disk>(image: &mut Image<D>, line: u64) -> Option<()> {
    let place = line.checked_mul(64)?;
    if place >= image.size() {
        return None;
    }
    image.read(place, &mut [0]).ok()
}

// Writes the first byte of a line.
fn write_line<D: Disk>(image: &mut Image<D>, line: u64) -> Option<()> {
    let place = line.checked_mul(64)?;
    if place >= image.size() {
        return None;
    }
    image.write(place, &[9]).ok()
}

const MOST: Frame = Frame {
    log_lines: 256,
    heap_lines: 262_144,
};

// Whether no more than 320 lines of the largest heap stand in memory, once a thousand are read and seventy written.
fn keeps_few(alloc: Global) -> Option<bool> {
    let mut disk = MemoryDisk::new(vec![in alloc; 7; 16_793_664].ok()?, Vec::new(alloc));
    format(&mut disk, MOST).ok()?;
    let mut image = Image::open(alloc, disk).ok()?;
    for line in 0..1000 {
        read_line(&mut image, line)?;
    }
    for line in 262_000..262_070 {
        write_line(&mut image, line)?;
    }
    Some(image.kept() <= 320 && image.touched() == 70)
}

#[test]
fn of_the_largest_heap_at_most_320_lines_stand_in_memory(rt: HostRuntime) {
    assert_eq!(rt; keeps_few(rt.alloc()), Some(true));
}

/// Lines that are read, each as often as all.
struct Reads {
    lines: Range<u64>,
    times: u64,
}

// How many calls of the disk opening and these reads make.
fn calls_of(alloc: Global, rows: &[Reads]) -> Option<u64> {
    let disk = MemoryDisk::new(fresh(alloc)?, Vec::new(alloc));
    let mut image = Image::open(alloc, disk).ok()?;
    for row in rows {
        for line in row.lines.start..row.lines.end {
            for _ in 0..row.times {
                read_line(&mut image, line)?;
            }
        }
    }
    Some(image.into_disk().calls())
}

const ONE_LINE: Reads = Reads {
    lines: 500..501,
    times: 1,
};

const OFTEN: Reads = Reads {
    lines: 500..501,
    times: 100,
};

const MANY: Reads = Reads {
    lines: 0..300,
    times: 1,
};

const FIRST: Reads = Reads {
    lines: 0..1,
    times: 1,
};

#[test]
fn a_line_is_read_from_the_disk_once_while_few_others_are_read(rt: HostRuntime) {
    assert_eq!(rt; calls_of(rt.alloc(), &[ONE_LINE]), Some(3));
    assert_eq!(rt; calls_of(rt.alloc(), &[OFTEN]), Some(3));
    assert_eq!(rt; calls_of(rt.alloc(), &[MANY]), Some(302));
    assert_eq!(rt; calls_of(rt.alloc(), &[MANY, FIRST]), Some(303));
}
