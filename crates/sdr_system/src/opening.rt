// Files that are opened as disks.
ghost use Rattle.std.specs.Prelude.{◌≡◌, ◌≤◌, IfOk, length, min};

use crate::file_disk::{FileDisk, MOST_BYTES, check_kind};
use sdr_disk::Disk;
use sdr_media::open_to_read;
use std::fs::{File, OpenOptions, TryLockError};
use std::io::ErrorKind;
use std::os::unix::fs::FileExt;
use std::rt::Files;
use std::{fs, io};

/// How many zeros one write makes.
const PIECE: usize = 4096;

// Whether a file is at a path. Anything else there is an error: it isn't opened.
fn is_file(rt: &impl Files<File = File>, path: &str) -> io::Result<bool> {
    match fs::metadata(rt, path) {
        Ok(found) => check_kind(&found).map(|()| true),
        Err(error) if error.kind() == ErrorKind::NotFound => Ok(false),
        Err(error) => Err(error),
    }
}

// That another process has the file open.
fn in_use(error: TryLockError) -> io::Error {
    match error {
        TryLockError::WouldBlock => {
            io::Error::new(ErrorKind::WouldBlock, "is in use by another run")
        }
        TryLockError::Error(error) => error,
    }
}

// Takes the lock of what was opened, so that no second process has the heap open. It may be no file, where one came
// into its place behind the first look at the path.
fn lock(file: &File) -> io::Result<()> {
    check_kind(&file.metadata()?)?;
    file.try_lock().map_err(in_use)
}

// Writes zeros from a place up to another, so that the file has all its blocks before it is a disk.
fn write_zeros(file: &File, from: u64, to: u64) -> io::Result<()> {
    let mut place = from;
    while place < to {
        let count = (to - place).min(PIECE as u64);
        file.write_all_at(&[0; PIECE][..count as usize], place)?;
        place += count;
    }
    Ok(())
}

// Makes the name of a file last: that of the file itself, where the path is a link to it.
fn sync_folder<R: Files<File = File> + AllocGlobal>(rt: &R, path: &str) -> io::Result<()> {
    let whole = fs::canonicalize(rt, path)?;
    match whole.as_path().parent() {
        Some(folder) => File::open(rt, folder)?.sync_all(),
        None => Ok(()),
    }
}

// Lengthens a file with zeros to so many bytes, which last with its name. The zeros are written, as
// far as a heap may reach.
fn lengthen<R: Files<File = File> + AllocGlobal>(
    rt: &R,
    path: &str,
    file: &File,
    len: u64,
    bytes: u64,
) -> io::Result<()> {
    file.set_len(len.max(bytes))?;
    write_zeros(file, len, bytes.min(MOST_BYTES))?;
    file.sync_all()?;
    sync_folder(rt, path)
}

// Takes back what was made of a file that could not be made whole: the file, or what was added to it.
fn take_back<R: Files<File = File> + AllocGlobal>(
    rt: &R,
    path: &str,
    file: &File,
    was_there: bool,
    len: u64,
) -> io::Result<()> {
    if was_there {
        return file.set_len(len);
    }
    let whole = fs::canonicalize(rt, path)?;
    fs::remove_file(rt, whole.as_path())
}

/// Opens a file that is there. What isn't a file is an error, and nothing waits.
pub fn open_disk<R: Files<File = File> + AllocGlobal>(
    rt: &R,
    path: &str,
) -> io::Result<FileDisk<File>>
    ensures { IfOk result (λ disk. ⟦<FileDisk<File> as Disk>⟧.faults disk ≡ 0) }
{
    check_kind(&fs::metadata(rt, path)?)?;
    // Opened to be read and written, a FIFO waits for no other end.
    let file = OpenOptions::new().read(true).write(true).open(rt, path)?;
    lock(&file)?;
    FileDisk::open(rt.alloc(), file)
}

/// Opens a file that is there to look at it, beside others that do: it need not be writable. What
/// isn't a file is an error, and so is one that another process may be writing; nothing waits.
pub fn view_disk<R: Files<File = File> + AllocGlobal>(
    rt: &R,
    path: &str,
) -> io::Result<FileDisk<File>>
    ensures { IfOk result (λ disk. ⟦<FileDisk<File> as Disk>⟧.faults disk ≡ 0) }
{
    check_kind(&fs::metadata(rt, path)?)?;
    let file = open_to_read(rt, path)?;
    check_kind(&file.metadata()?)?;
    file.try_lock_shared().map_err(in_use)?;
    FileDisk::view(rt.alloc(), file)
}

/// Opens a file that has at least so many bytes, of which a disk has the first: it is made, or lengthened with zeros, where it
/// isn't. The zeros are written, so that no later write has to find a place for them. Its name and
/// length last before the call returns; where they can't, nothing new is left behind.
pub fn make_disk<R: Files<File = File> + AllocGlobal>(
    rt: &R,
    path: &str,
    bytes: u64,
) -> io::Result<FileDisk<File>>
    ensures faults { IfOk result (λ disk. ⟦<FileDisk<File> as Disk>⟧.faults disk ≡ 0) }
    ensures long { IfOk result (λ disk.
        min bytes MOST_BYTES ≤ length (⟦<FileDisk<File> as Disk>⟧.bytes disk)) }
{
    let was_there = is_file(rt, path)?;
    let file = OpenOptions::new()
        .read(true)
        .write(true)
        .create(true)
        .open(rt, path)?;
    lock(&file)?;
    let len = file.metadata()?.len();
    if let Err(error) = lengthen(rt, path, &file, len, bytes) {
        let _ = take_back(rt, path, &file, was_there, len);
        return Err(error);
    }
    let disk = FileDisk::open(rt.alloc(), file)?;
    if disk.len() < bytes.min(MOST_BYTES) {
        return Err(io::Error::from(ErrorKind::UnexpectedEof));
    }
    Ok(disk)
}
