// What a crash leaves of a commit and of an opening: which bytes are pending at each moment, which tells the
// calls of the disk and their order; and what opening makes of each image.
use crate::crashes::{Pending, image_after, wrong_moment};
use byteorder::{BigEndian, ByteOrder};
use sdr_base::Cells;
use sdr_disk::{Disk, MemoryDisk, Torn};
use sdr_image::{Image, format};
use sdr_log::Frame;
use std::alloc::Global;

const FRAME: Frame = Frame {
    log_lines: 256,
    heap_lines: 1024,
};

// A disk with a heap, opened.
fn formatted(alloc: Global) -> Option<Image<MemoryDisk>> {
    let mut disk = MemoryDisk::new(vec![in alloc; 7; 81_984].ok()?, Vec::new(alloc));
    format(&mut disk, FRAME).ok()?;
    Image::open(alloc, disk).ok()
}

// Changes the lines 32, 0 and 16, in this order.
fn change<D: Disk>(image: &mut Image<D>) -> Option<()> {
    if image.size() == 65_536 {
        image.write(2048, &[3]).ok()?;
        image.write(16, &[1]).ok()?;
        image.write(1056, &[2]).ok()?;
    }
    image.commit().ok()
}

// A disk on which these lines were changed, and its moment before.
fn changed(alloc: Global) -> Option<(MemoryDisk, u64)> {
    let mut image = formatted(alloc)?;
    let begun = image.now();
    change(&mut image)?;
    Some((image.into_disk(), begun))
}

// In a commit of three lines: those of the batch, of its gate, of the lines, and of the first gate.
const PENDING: [Pending; 11] = [
    (0, 1, &[]),
    (1, 4, &[65..274]),
    (4, 5, &[]),
    (5, 8, &[64..65]),
    (8, 9, &[]),
    (9, 11, &[16_448..16_512]),
    (11, 13, &[16_448..16_512, 17_472..17_536]),
    (13, 16, &[16_448..16_512, 17_472..17_536, 18_496..18_560]),
    (16, 17, &[]),
    (17, 20, &[64..65]),
    (20, 21, &[]),
];

// In an opening that puts them back: those of the lines, and of the first gate.
const RECOVERED: [Pending; 7] = [
    (0, 1, &[]),
    (1, 3, &[16_448..16_512]),
    (3, 5, &[16_448..16_512, 17_472..17_536]),
    (5, 8, &[16_448..16_512, 17_472..17_536, 18_496..18_560]),
    (8, 9, &[]),
    (9, 12, &[64..65]),
    (12, 13, &[]),
];

// The moment at the end of a commit of three lines, and the first at which other bytes are pending.
fn pending(alloc: Global) -> Option<(u64, Option<u64>)> {
    let (disk, begun) = changed(alloc)?;
    let end = disk.now().checked_sub(begun)?;
    Some((end, wrong_moment(&disk, begun, &PENDING)?))
}

// The places of the batch's count and of its records' numbers.
const RECORDS: [(usize, u32); 4] = [(65, 3), (69, 0), (137, 16), (205, 32)];

// The first place at which the batch of three lines has another number: they go by rising line.
fn wrong_record(alloc: Global) -> Option<Option<usize>> {
    let (disk, begun) = changed(alloc)?;
    let image = image_after(&disk, begun, 8, Torn::Old)?;
    for (place, number) in &RECORDS {
        if image.len() != 81_984 || BigEndian::read_u32(&image[*place..]) != *number {
            return Some(Some(*place));
        }
    }
    Some(None)
}

// Of the image of a crash in a commit so many moments on: how many lines opening puts back, the disk's
// moment then, and the first moment of it at which other bytes are pending than in these rows.
fn recovered(alloc: Global, after: u64, rows: &[Pending]) -> Option<(u64, u64, Option<u64>)> {
    let (disk, begun) = changed(alloc)?;
    let image = image_after(&disk, begun, after, Torn::New)?;
    let image = Image::open(alloc, MemoryDisk::new(image, Vec::new(alloc))).ok()?;
    let restored = image.restored();
    let disk = image.into_disk();
    Some((restored, disk.now(), wrong_moment(&disk, 0, rows)?))
}

// How many lines opening puts back, and what the three bytes are then.
type Opened = (u64, [u8; 3]);

// The same, of the image of a crash.
fn opened(alloc: Global, image: Vec<u8>) -> Option<Opened> {
    let mut image = Image::open(alloc, MemoryDisk::new(image, Vec::new(alloc))).ok()?;
    let mut heap = [9; 2049];
    if image.size() == 65_536 {
        image.read(0, &mut heap).ok()?;
    }
    Some((image.restored(), [heap[16], heap[1056], heap[2048]]))
}

const OLD: Opened = (0, [0, 0, 0]);

const BACK: Opened = (3, [0, 0, 0]);

const NEW: Opened = (0, [1, 2, 3]);

// From a moment on and up to another, what opening makes of a tear.
const CRASHES: [(u64, u64, Torn, Opened); 20] = [
    // The batch is written and synced.
    (0, 5, Torn::Old, OLD),
    (0, 5, Torn::New, OLD),
    (0, 5, Torn::Filled(0), OLD),
    (0, 5, Torn::Filled(0xEE), OLD),
    // The gate is opened.
    (5, 8, Torn::Old, OLD),
    (5, 8, Torn::New, BACK),
    (5, 8, Torn::Filled(0), OLD),
    (5, 8, Torn::Filled(0xEE), BACK),
    // The lines are written and synced.
    (8, 17, Torn::Old, BACK),
    (8, 17, Torn::New, BACK),
    (8, 17, Torn::Filled(0), BACK),
    (8, 17, Torn::Filled(0xEE), BACK),
    // The gate is closed.
    (17, 20, Torn::Old, BACK),
    (17, 20, Torn::New, NEW),
    (17, 20, Torn::Filled(0), NEW),
    (17, 20, Torn::Filled(0xEE), BACK),
    (20, 21, Torn::Old, NEW),
    (20, 21, Torn::New, NEW),
    (20, 21, Torn::Filled(0), NEW),
    (20, 21, Torn::Filled(0xEE), NEW),
];

// The first row and moment of which opening makes something else.
fn wrong_crash(alloc: Global) -> Option<Option<(usize, u64)>> {
    let (disk, begun) = changed(alloc)?;
    for (row, (first, behind, torn, want)) in CRASHES.iter().enumerate() {
        for after in *first..*behind {
            let image = image_after(&disk, begun, after, *torn)?;
            if opened(alloc, image) != Some(*want) {
                return Some(Some((row, after)));
            }
        }
    }
    Some(None)
}

#[test]
fn a_crash_in_a_commit_of_ten_calls_leaves_the_old_bytes_or_the_new(rt: HostRuntime) {
    assert_eq!(rt; pending(rt.alloc()), Some((20, None)));
    assert_eq!(rt; wrong_record(rt.alloc()), Some(None));
    assert_eq!(rt; wrong_crash(rt.alloc()), Some(None));
}

#[test]
fn opening_writes_the_old_lines_syncs_closes_the_gate_and_syncs_where_a_gate_is_open(
    rt: HostRuntime,
) {
    // While the second line is written.
    assert_eq!(rt; recovered(rt.alloc(), 11, &RECOVERED), Some((3, 12, None)));
    // Before the gate is written, and once it is closed again.
    assert_eq!(rt; recovered(rt.alloc(), 4, &[]), Some((0, 0, None)));
    assert_eq!(rt; recovered(rt.alloc(), 20, &[]), Some((0, 0, None)));
}

// What opening makes of a tear, where an opening before it put lines back on a disk that stopped after so many writes and syncs.
fn begun_again(alloc: Global, changes: u64, torn: Torn) -> Option<Opened> {
    let (disk, begun) = changed(alloc)?;
    let image = image_after(&disk, begun, 11, Torn::New)?;
    let mut disk = MemoryDisk::new(image, Vec::new(alloc));
    disk.stop_after(changes);
    let disk = match Image::open(alloc, disk) {
        Ok(image) => image.into_disk(),
        Err(shut) => shut.disk,
    };
    opened(alloc, image_after(&disk, 0, disk.now(), torn)?)
}

// From a number of writes and syncs on and up to another, what is made of a tear: it writes three lines, syncs, closes the gate and
// syncs.
const STOPPED: [(u64, u64, Torn, Opened); 12] = [
    (0, 5, Torn::Old, BACK),
    (0, 5, Torn::New, BACK),
    (0, 5, Torn::Filled(0), BACK),
    (0, 5, Torn::Filled(0xEE), BACK),
    // The gate is written.
    (5, 6, Torn::Old, BACK),
    (5, 6, Torn::New, OLD),
    (5, 6, Torn::Filled(0), OLD),
    (5, 6, Torn::Filled(0xEE), BACK),
    // The gate is synced.
    (6, 8, Torn::Old, OLD),
    (6, 8, Torn::New, OLD),
    (6, 8, Torn::Filled(0), OLD),
    (6, 8, Torn::Filled(0xEE), OLD),
];

// The first row and number after which something else is made.
fn wrong_stop(alloc: Global) -> Option<(usize, u64)> {
    for (row, (first, behind, torn, want)) in STOPPED.iter().enumerate() {
        for changes in *first..*behind {
            if begun_again(alloc, changes, *torn) != Some(*want) {
                return Some((row, changes));
            }
        }
    }
    None
}

#[test]
fn an_opening_that_is_stopped_and_begun_again_gives_the_same_heap(rt: HostRuntime) {
    assert_eq!(rt; wrong_stop(rt.alloc()), None);
}
