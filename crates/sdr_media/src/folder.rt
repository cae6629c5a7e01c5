// A folder of the system as media.
ghost use Rattle.std.specs.Prelude.{◌≡◌, ◌+◌, ◌≤◌, ◌↔◌, ◌++◌, Contains, IfOk, IfSome, IsErr, IsSome, IsUtf8};
ghost use Rattle.std.specs.Prelude.{MatchResult, None, Ok, codes, decimal, length, string_bytes};
ghost use Rattle.sdr_base.specs.Causes.{HasCause};
ghost use Rattle.sdr_media.specs.Counts.{answered, asked, failed};

use crate::counts::Counts;
use crate::opening::open_to_read;
use sdr_base::{Media, MediaFault};
use std::alloc::{AllocError, Global};
use std::fs::{File, Metadata, OpenFile};
use std::io::ErrorKind;
use std::os::unix::fs::FileExt;
use std::path::{Path, PathBuf};
use std::rt::Files;
use std::{fs, io, str};

/// The most bytes that a file of the system has.
const MOST_BYTES: u64 = i64::MAX as u64;

/// A folder as media: a path is a file in it, and item n is the file `bulk-n` in it. It tells nothing
/// of what they hold, and counts each error as a fault.
///
/// A path is taken as the system takes it from the folder: `..` leads out of it, and a path that
/// begins with `/` is a file anywhere. A path that isn't UTF-8 or has a zero byte holds nothing, and
/// so does one where the system finds no file, a FIFO or a device. Any other error is a fault: a
/// folder in the place of a file, a file that may not be read, an error in the middle of a read, and
/// want of memory for the whole path.
///
/// Each call opens its file, without waiting, and closes it again.
#[derive(Drop)]
pub struct FolderMedia<R> {
    rt: R,
    folder: PathBuf,
    counts: Counts,
}

// The text of a path that a file can have.
fn path_of(path: &[u8]) -> Option<&str>
    ensures some { IfSome result (λ text. text.now ≡ path.now) }
    ensures is { IsSome result ↔ (IsUtf8 path.now × ¬ (Contains path.now 0)) }
{
    if path.contains(&0) {
        return None;
    }
    str::from_utf8(path).ok()
}

// The name of the file of an item.
fn item_name(alloc: Global, item: u64) -> Result<String, AllocError>
    ensures { IfOk result (λ name. string_bytes name ≡ codes "bulk-" ++ decimal item) }
{
    format!(in alloc; "bulk-{item}")
}

// Whether the error is that the system finds nothing.
fn is_missing(error: &io::Error) -> bool {
    matches!(error.kind(), ErrorKind::NotFound | ErrorKind::NotADirectory)
}

// What was found, where the system finds something.
fn unless_missing<T: Drop>(found: io::Result<T>) -> io::Result<Option<T>> {
    match found {
        Ok(found) => Ok(Some(found)),
        Err(error) if is_missing(&error) => Ok(None),
        Err(error) => Err(error),
    }
}

// Whether it is a file or a folder. A FIFO, a socket or a device has no content of its own.
fn is_kept(found: &Metadata) -> bool {
    found.is_file() || found.is_dir()
}

// The file at a path, where there is one. What is anything else isn't opened, and where it came there
// only then, it isn't read.
fn open<R: Files>(rt: &R, path: Path<'_>) -> io::Result<Option<R::File>> {
    match unless_missing(fs::metadata(rt, path))? {
        Some(found) if is_kept(&found) => {}
        _ => return Ok(None),
    }
    let Some(file) = unless_missing(open_to_read(rt, path))? else {
        return Ok(None);
    };
    if is_kept(&file.metadata()?) {
        Ok(Some(file))
    } else {
        Ok(None)
    }
}

/// Fills a buffer from a place in a file on, or its front where the file ends before.
pub fn fill<F: FileExt>(file: &F, offset: u64, into: &mut [u8]) -> io::Result<usize>
    ensures { IfOk result (λ n. n ≤ length into.new) }
{
    let room = MOST_BYTES.saturating_sub(offset).min(into.len() as u64) as usize;
    let mut count = 0;
    for _ in 0..u64::MAX {
        if count >= room {
            return Ok(count);
        }
        match file.read_at(&mut into[count..room], offset + count as u64) {
            Ok(0) => return Ok(count),
            Ok(n) => count += n,
            Err(e) if e.kind() == ErrorKind::Interrupted => {}
            Err(e) => return Err(e),
        }
    }
    Err(io::Error::from(ErrorKind::Interrupted))
}

impl<R: Files<File = File> + AllocGlobal> FolderMedia<R> {
    /// A folder by its path, of which an empty one is the current folder.
    pub fn new(rt: R, folder: PathBuf) -> FolderMedia<R>
        ensures faults { ⟦<FolderMedia<R> as Media>⟧.faults result ≡ 0 }
        ensures short { ⟦<FolderMedia<R> as Media>⟧.short result ≡ 0 }
        ensures asks { ⟦<FolderMedia<R> as Media>⟧.asks result ≡ 0 }
    {
        FolderMedia {
            rt,
            folder,
            counts: Counts::new(),
        }
    }

    // Reads a file of the folder from a place, and nothing where there is none.
    fn read(&self, path: &str, offset: u64, into: &mut [u8]) -> io::Result<usize>
        ensures { IfOk result (λ n. n ≤ length into.new) }
    {
        let path = self.folder.join(self.rt.alloc(), path)?;
        match open(&self.rt, path.as_path())? {
            Some(file) => fill(&file, offset, into),
            None => Ok(0),
        }
    }

    // Reads the file of an item from a place.
    fn read_item(&self, item: u64, offset: u64, into: &mut [u8]) -> io::Result<usize>
        ensures { IfOk result (λ n. n ≤ length into.new) }
    {
        let name = item_name(self.rt.alloc(), item)?;
        self.read(name.as_str(), offset, into)
    }

    // Ends a call, with a fault where its read failed.
    fn end(&mut self, read: io::Result<usize>, want: usize) -> Result<u64, MediaFault>
        ensures answer { MatchResult read (λ n. result ≡ Ok n) (λ _. IsErr result) }
        ensures counts { MatchResult read
            (λ n. self.new ≡ record self.old { counts = answered n want (asked self.old.counts) })
            (λ _. self.new ≡ record self.old { counts = failed (asked self.old.counts) }) }
        ensures later { self.old.counts.short ≤ self.new.counts.short }
        ensures asks { self.new.counts.asks ≤ self.old.counts.asks + 1 }
        ensures cause { HasCause self.old.counts.faults self.new.counts.faults result }
    {
        self.counts.count_ask();
        match read {
            Ok(count) => {
                self.counts.count_answer(count, want);
                Ok(count as u64)
            }
            Err(_) => Err(self.counts.count_fault()),
        }
    }
}

impl<R: Files<File = File> + AllocGlobal> Media for FolderMedia<R> {
    ghost told = { λ _. None };

    ghost faults = { λ m. m.counts.faults };

    ghost short = { λ m. m.counts.short };

    ghost asks = { λ m. m.counts.asks };

    fn file_read(&mut self, path: &[u8], offset: u64, into: &mut [u8]) -> Result<u64, MediaFault> {
        let read = match path_of(path) {
            Some(path) => self.read(path, offset, into),
            None => Ok(0),
        };
        self.end(read, into.len())
    }

    fn bulk_read(&mut self, item: u64, offset: u64, into: &mut [u8]) -> Result<u64, MediaFault> {
        let read = self.read_item(item, offset, into);
        self.end(read, into.len())
    }
}
