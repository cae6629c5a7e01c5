// Media: what a folder gives, that a read goes on after short and interrupted ones, and that calls succeed
// with ample memory.
ghost use Rattle.std.specs.Prelude.{◌≤◌};

use sdr_base::{Bytes, Media, MediaFault, NoMemory};
use sdr_media::{FolderMedia, MemoryMedia, fill};
use std::alloc::{AllocGlobal, Global};
use std::cell::Cell;
use std::os::unix::fs::FileExt;
use std::path::PathBuf;
use std::rt::Files;
use std::test::Fail;
use std::{fs, io};

/// What is read: a file by its path, or an item by its number.
#[derive(Clone, Copy)]
enum Place<'a> {
    File(&'a [u8]),
    Item(u64),
}

// What is read, from where on, the answer, and what a buffer of four dots holds then.
type Row<'a> = (Place<'a>, u64, Result<u64, MediaFault>, [u8; 4]);

// The first row that is answered otherwise. The media can go to another thread.
fn wrong_row<M: Media + Send>(media: &mut M, rows: &[Row]) -> Option<usize> {
    for (row, (place, offset, answer, held)) in rows.iter().enumerate() {
        let mut piece = *b"....";
        let got = match place {
            Place::File(path) => media.file_read(path, *offset, &mut piece),
            Place::Item(number) => media.bulk_read(*number, *offset, &mut piece),
        };
        if got != *answer || piece != *held {
            return Some(row);
        }
    }
    None
}

// Of two files of one path, of which the first counts, and an item. The third call fails.
const IN_MEMORY: [Row; 6] = [
    (Place::File(b"data.bin"), 3, Ok(4), *b"3456"),
    (Place::Item(7), 2, Ok(2), *b"YZ.."),
    (Place::File(b"data.bin"), 0, Err(MediaFault), *b"...."),
    (Place::File(b"data"), 0, Ok(0), *b"...."),
    (Place::Item(8), 0, Ok(0), *b"...."),
    (Place::File(b"data.bin"), u64::MAX, Ok(0), *b"...."),
];

// Media in memory with these files and this item.
fn in_memory(alloc: Global) -> Result<MemoryMedia, NoMemory> {
    let first = (
        Bytes::copied(alloc, b"data.bin")?,
        Bytes::copied(alloc, b"0123456789")?,
    );
    let again = (
        Bytes::copied(alloc, b"data.bin")?,
        Bytes::copied(alloc, b"again")?,
    );
    let item = (7, Bytes::copied(alloc, b"WXYZ")?);
    let files = vec![in alloc; first, again]?;
    Ok(MemoryMedia::new(files, vec![in alloc; item]?, [3].to_vec(alloc)?))
}

// The first row in memory that is answered otherwise.
fn wrong_in_memory(alloc: Global) -> Result<Option<usize>, NoMemory> {
    let mut media = in_memory(alloc)?;
    Ok(wrong_row(&mut media, &IN_MEMORY))
}

// The folder of the test of `FolderMedia`, which it makes and removes.
const FOLDER: &str = "sdr_media_test";

// Makes the folder, with a file, the file of the last item, and a folder in it.
fn make_folder(files: &(impl Files + AllocGlobal)) -> io::Result<()> {
    let _ = fs::remove_dir_all(files, FOLDER);
    fs::create_dir_all(files, "sdr_media_test/inner")?;
    fs::write(files, "sdr_media_test/data.bin", "0123456789")?;
    fs::write(files, "sdr_media_test/bulk-18446744073709551615", "WXYZ")
}

// No file is so long as the last offsets, nor has one of the last paths. A folder is no file.
const IN_A_FOLDER: [Row; 13] = [
    (Place::File(b"data.bin"), 3, Ok(4), *b"3456"),
    (Place::File(b"data.bin"), 8, Ok(2), *b"89.."),
    (Place::File(b"inner/../data.bin"), 0, Ok(4), *b"0123"),
    (Place::File(b"data.bin"), 10, Ok(0), *b"...."),
    (
        Place::File(b"data.bin"),
        9_223_372_036_854_775_806,
        Ok(0),
        *b"....",
    ),
    (
        Place::File(b"data.bin"),
        18_446_744_073_709_551_615,
        Ok(0),
        *b"....",
    ),
    (Place::File(b"data.text"), 0, Ok(0), *b"...."),
    (Place::File(b"data.bin/"), 0, Ok(0), *b"...."),
    (Place::File(b"data.bin\xff"), 0, Ok(0), *b"...."),
    (Place::File(b"data.bin\0"), 0, Ok(0), *b"...."),
    (Place::File(b"inner"), 0, Err(MediaFault), *b"...."),
    (Place::Item(18_446_744_073_709_551_615), 1, Ok(3), *b"XYZ."),
    (Place::Item(0), 0, Ok(0), *b"...."),
];

/// A file of four bytes that is interrupted before each read, gives one byte a read, and fails from
/// place 2^32 on.
#[derive(Drop)]
struct Slow {
    interrupted: Cell<bool>,
}

impl FileExt for Slow {
    fn read_at(&self, into: &mut [u8], place: u64) -> io::Result<usize> {
        if !self.interrupted.replace(true) {
            return Err(io::Error::from(io::ErrorKind::Interrupted));
        }
        self.interrupted.set(false);
        match (b"WXYZ".get(place as usize), into.first_mut()) {
            (Some(byte), Some(first)) => {
                *first = *byte;
                Ok(1)
            }
            (None, _) if place >> 32 > 0 => Err(io::Error::from(io::ErrorKind::Other)),
            _ => Ok(0),
        }
    }

    fn write_at(&self, _from: &[u8], _place: u64) -> io::Result<usize> {
        Err(io::Error::from(io::ErrorKind::Other))
    }
}

// From where on it is read, how many bytes that gives where it doesn't fail, and what a buffer of three
// dots holds then: all that there is room for, or up to the end of the file.
const SLOW: [(u64, Option<usize>, [u8; 3]); 3] = [
    (0, Some(3), *b"WXY"),
    (3, Some(1), *b"Z.."),
    (4_294_967_296, None, *b"..."),
];

// The first row that is answered otherwise.
fn wrong_slow() -> Option<usize> {
    let slow = Slow {
        interrupted: Cell::new(false),
    };
    for (row, (offset, count, held)) in SLOW.iter().enumerate() {
        let mut piece = *b"...";
        if fill(&slow, *offset, &mut piece).ok() != *count || piece != *held {
            return Some(row);
        }
    }
    None
}

#[test]
fn media_in_memory_and_slow_files_are_read_as_far_as_they_go(rt: HostRuntime) {
    assert_eq!(rt; wrong_in_memory(rt.alloc()), Ok(None));
    assert_eq!(rt; wrong_slow(), None);
}

#[test]
fn a_folder_gives_what_its_files_hold_and_a_folder_in_it_is_a_fault(
    rt: HostRuntime,
) -> Result<(), Fail> {
    make_folder(&rt)?;
    let mut media = FolderMedia::new(rt, PathBuf::from_str(rt.alloc(), FOLDER)?);
    assert_eq!(rt; wrong_row(&mut media, &IN_A_FOLDER), None);
    fs::remove_dir_all(&rt, FOLDER)?;
    Ok(())
}
