// A disk in memory: that the images are those that the disk's rules mean, and that calls succeed with
// ample memory.
use sdr_base::NoMemory;
use sdr_disk::{Disk, DiskFault, MemoryDisk, Torn};
use std::alloc::Global;

/// A call of a disk: a write of two bytes at a place, a sync, or a read of four bytes from a place on.
#[derive(Clone, Copy)]
enum Call {
    Write(u64, [u8; 2]),
    Sync,
    Read(u64),
}

// Makes a call of a disk. A read fills the buffer.
fn make<D: Disk>(disk: &mut D, call: Call, piece: &mut [u8; 4]) -> Result<(), DiskFault> {
    let size = disk.len();
    match call {
        Call::Write(place, bytes) if size >= 2 && place <= size - 2 => {
            disk.write_at(place, &bytes)
        }
        Call::Read(place) if size >= 4 && place <= size - 4 => disk.read_at(place, piece),
        Call::Sync => disk.sync(),
        _ => Err(DiskFault),
    }
}

// What is called and answered, and what the buffer holds then.
type Row = (Call, Result<(), DiskFault>, [u8; 4]);

// Of eight zeros, where the calls 2 and 5 fail.
const READS: [Row; 5] = [
    (Call::Write(2, *b"ab"), Ok(()), [9, 9, 9, 9]),
    (Call::Write(2, *b"cd"), Err(DiskFault), [9, 9, 9, 9]),
    (Call::Sync, Ok(()), [9, 9, 9, 9]),
    (Call::Read(1), Ok(()), [0, b'a', b'b', 0]),
    (Call::Read(2), Err(DiskFault), [0, b'a', b'b', 0]),
];

// Of eight dots, where the calls 4 and 5 fail.
const WRITES: [Row; 7] = [
    (Call::Write(1, *b"aa"), Ok(()), [9; 4]),
    (Call::Write(2, *b"bb"), Ok(()), [9; 4]),
    (Call::Sync, Ok(()), [9; 4]),
    (Call::Write(0, *b"cc"), Err(DiskFault), [9; 4]),
    (Call::Sync, Err(DiskFault), [9; 4]),
    (Call::Write(6, *b"dd"), Ok(()), [9; 4]),
    (Call::Sync, Ok(()), [9; 4]),
];

// The number of the first row that gets something else.
fn wrong_row<D: Disk>(disk: &mut D, rows: &[Row]) -> Option<usize> {
    let mut piece = [9; 4];
    for (row, (call, answer, held)) in rows.iter().enumerate() {
        if make(disk, *call, &mut piece) != *answer || piece != *held {
            return Some(row);
        }
    }
    None
}

// The first row of the reads that gets something else; the disk's length, its moment, its calls, and how
// many growths of its record were refused then.
fn reads(alloc: Global) -> Result<(Option<usize>, [u64; 4]), NoMemory> {
    let mut disk = MemoryDisk::new([0; 8].to_vec(alloc)?, [2, 5].to_vec(alloc)?);
    let row = wrong_row(&mut disk, &READS);
    Ok((row, [disk.len(), disk.now(), disk.calls(), disk.starved()]))
}

// What a crash leaves at each moment: the old bytes, the new ones, and `x` in each range.
const IMAGES: [[&[u8; 8]; 3]; 16] = [
    [b"........", b"........", b"........"],
    // The first write runs, and has returned.
    [b"........", b".aa.....", b".xx....."],
    [b"........", b".aa.....", b".xx....."],
    // The second write, partly over the first.
    [b"........", b".abb....", b".xxx...."],
    [b"........", b".abb....", b".xxx...."],
    // The sync runs, and has returned.
    [b"........", b".abb....", b".xxx...."],
    [b".abb....", b".abb....", b".abb...."],
    // The write that fails.
    [b".abb....", b"ccbb....", b"xxbb...."],
    [b".abb....", b"ccbb....", b"xxbb...."],
    // The sync that fails.
    [b".abb....", b"ccbb....", b"xxbb...."],
    [b".abb....", b"ccbb....", b"xxbb...."],
    // The last write.
    [b".abb....", b"ccbb..dd", b"xxbb..xx"],
    [b".abb....", b"ccbb..dd", b"xxbb..xx"],
    // The last sync runs, and has returned: the write that failed is gone.
    [b".abb....", b"ccbb..dd", b"xxbb..xx"],
    [b".abb..dd", b".abb..dd", b".abb..dd"],
    // Later than now.
    [b".abb..dd", b".abb..dd", b".abb..dd"],
];

// Whether a crash at a moment leaves these bytes.
fn leaves(disk: &MemoryDisk, moment: u64, torn: Torn, want: &[u8; 8]) -> Result<bool, NoMemory> {
    let image = disk.image_at(moment, torn)?;
    Ok(image.as_slice() == want.as_slice())
}

// The first moment at which a crash leaves something else.
fn wrong_image(disk: &MemoryDisk) -> Result<Option<usize>, NoMemory> {
    for (moment, [old, new, filled]) in IMAGES.iter().enumerate() {
        let all = leaves(disk, moment as u64, Torn::Old, old)?
            && leaves(disk, moment as u64, Torn::New, new)?
            && leaves(disk, moment as u64, Torn::Filled(b'x'), filled)?;
        if !all {
            return Ok(Some(moment));
        }
    }
    Ok(None)
}

// The first row of the writes that gets something else, the moment then, and the first that is wrong.
fn writes(alloc: Global) -> Result<(Option<usize>, u64, Option<usize>), NoMemory> {
    let mut disk = MemoryDisk::new(b"........".to_vec(alloc)?, [4, 5].to_vec(alloc)?);
    let row = wrong_row(&mut disk, &WRITES);
    Ok((row, disk.now(), wrong_image(&disk)?))
}

#[test]
fn a_crash_tears_what_was_written_since_the_last_good_sync(rt: HostRuntime) {
    assert_eq!(rt; reads(rt.alloc()), Ok((None, [8, 6, 5, 0])));
    assert_eq!(rt; writes(rt.alloc()), Ok((None, 14, None)));
}

// Calls of a disk that is to stop.
const CALLS: [Call; 6] = [
    Call::Write(1, *b"aa"),
    Call::Read(0),
    Call::Sync,
    Call::Write(3, *b"bb"),
    Call::Read(0),
    Call::Sync,
];

// After how many writes and syncs a disk of eight dots stops; which of these calls it answers; its moment then; and what a crash
// leaves then, with `x` in each range.
type Stop = (u64, [bool; 6], u64, [u8; 8]);

// The reads fail too, and a write that fails leaves no range.
const STOPS: [Stop; 5] = [
    (0, [false; 6], 0, *b"........"),
    (
        1,
        [true, false, false, false, false, false],
        2,
        *b".xx.....",
    ),
    (2, [true, true, true, false, false, false], 4, *b".aa....."),
    (3, [true, true, true, true, false, false], 6, *b".aaxx..."),
    (4, [true; 6], 8, *b".aabb..."),
];

// Whether a disk that is to stop makes these calls as the row says.
fn stops(alloc: Global, row: &Stop) -> Result<bool, NoMemory> {
    let (changes, answers, moment, image) = row;
    let mut disk = MemoryDisk::new(b"........".to_vec(alloc)?, Vec::new(alloc));
    let mut piece = [9; 4];
    disk.stop_after(*changes);
    for (call, answer) in CALLS.iter().zip(answers) {
        if make(&mut disk, *call, &mut piece).is_ok() != *answer {
            return Ok(false);
        }
    }
    Ok(
        disk.calls() == 6
            && disk.now() == *moment
            && leaves(&disk, *moment, Torn::Filled(b'x'), image)?,
    )
}

// The first row that a disk doesn't keep to.
fn wrong_stop(alloc: Global) -> Result<Option<usize>, NoMemory> {
    for (row, stop) in STOPS.iter().enumerate() {
        if !stops(alloc, stop)? {
            return Ok(Some(row));
        }
    }
    Ok(None)
}

// Of a disk whose second call fails, and that is to stop after three writes and syncs, and then after one more.
const COUNTED: [Row; 7] = [
    (Call::Read(0), Ok(()), [0; 4]),
    (Call::Write(0, *b"aa"), Err(DiskFault), [0; 4]),
    (Call::Write(0, *b"bb"), Ok(()), [0; 4]),
    (Call::Sync, Ok(()), [0; 4]),
    (Call::Sync, Err(DiskFault), [0; 4]),
    (Call::Write(0, *b"cc"), Ok(()), [9; 4]),
    (Call::Sync, Err(DiskFault), [9; 4]),
];

// The first of the first five rows and the first of the last two that gets something else.
fn counts(alloc: Global) -> Result<[Option<usize>; 2], NoMemory> {
    let mut disk = MemoryDisk::new([0; 8].to_vec(alloc)?, [2].to_vec(alloc)?);
    disk.stop_after(3);
    let first = wrong_row(&mut disk, &COUNTED[..5]);
    disk.stop_after(1);
    Ok([first, wrong_row(&mut disk, &COUNTED[5..])])
}

#[test]
fn a_disk_that_is_to_stop_makes_so_many_changes_more_and_then_fails(rt: HostRuntime) {
    assert_eq!(rt; wrong_stop(rt.alloc()), Ok(None));
    assert_eq!(rt; counts(rt.alloc()), Ok([None, None]));
}
