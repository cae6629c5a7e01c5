// A file as a disk.
ghost use Rattle.std.specs.Prelude.{◌≡◌, ◌↔◌, ◌≤◌, ◌+◌, false, true, is_ok, length, min, IfOk, IsTrue};
ghost use Rattle.std.specs.Prelude.{OnErr, OnOk};
ghost use Rattle.sdr_base.specs.Causes.{HasCause, counted};
ghost use Rattle.sdr_disk.specs.Moments.{IsAtEnd};

use sdr_base::{Bytes, MOST_LINES};
use sdr_disk::{Disk, DiskFault};
use std::alloc::Global;
use std::fs::{Metadata, OpenFile};
use std::io;
use std::io::ErrorKind;
use std::os::unix::fs::FileExt;

/// The most bytes that a head and the regions of a heap take. Behind them nothing is ever read or written.
pub const MOST_BYTES: u64 = 64 * (1 + 65_536 + MOST_LINES);

/// What isn't a file of a fixed length is an error, which says what it is.
pub fn check_kind(found: &Metadata) -> io::Result<()> {
    if found.is_file() {
        return Ok(());
    }
    if found.is_dir() {
        return Err(io::Error::new(ErrorKind::IsADirectory, "is a folder"));
    }
    let why = "is a FIFO, a socket or a device, and no file";
    Err(io::Error::new(ErrorKind::InvalidInput, why))
}

/// A file of a fixed length as a disk: the bytes of the largest disk, where it is longer. It counts each
/// error as a fault, and tells nothing of what a crash may leave.
///
/// It holds a copy of the file's bytes, which is read once, as it is opened. A read gives what the copy has.
/// A write is made to the file and then to the copy; where it fails, the copy has the bytes from before.
///
/// A sync is an `fdatasync`. It makes the bytes last, and whatever the file needs to be read again;
/// the file's length no call changes, and the times of its last reading and writing no one reads.
#[derive(Drop)]
pub struct FileDisk<F> {
    file: F,
    /// The copy of the file's bytes.
    bytes: Bytes,
    moment: u64,
    faults: u64,
    /// Whether the file couldn't be read as it was opened, or a sync has failed: then each later call
    /// fails. The system may have dropped what was written before the sync, so no later one would tell
    /// whether that lasts.
    broken: bool,
}

impl<F: FileExt + OpenFile> FileDisk<F> {
    /// An open file that has so many bytes, on which nothing is pending. Its bytes are read, and where that
    /// fails, as that of a file that has become shorter, each call of the disk does.
    pub fn new(alloc: Global, file: F, len: u64) -> io::Result<FileDisk<F>>
    where
        F: Drop,
        ensures size { IfOk result (λ disk.
            length (⟦<FileDisk<F> as Disk>⟧.bytes disk) ≡ min len MOST_BYTES) }
        ensures faults { IfOk result (λ disk. ⟦<FileDisk<F> as Disk>⟧.faults disk ≡ 0) }
    {
        let mut bytes = vec![in alloc; 0; len.min(MOST_BYTES) as usize]?;
        let broken = file.read_exact_at(&mut bytes, 0).is_err();
        Ok(FileDisk {
            file,
            bytes: Bytes::of(bytes),
            moment: 0,
            faults: 0,
            broken,
        })
    }

    /// A file as a disk, as it stands. What isn't a file is an error.
    pub fn view(alloc: Global, file: F) -> io::Result<FileDisk<F>>
    where
        F: Drop,
        ensures { IfOk result (λ disk. ⟦<FileDisk<F> as Disk>⟧.faults disk ≡ 0) }
    {
        let metadata = file.metadata()?;
        check_kind(&metadata)?;
        FileDisk::new(alloc, file, metadata.len())
    }

    /// The same, with nothing pending on it: what an earlier writer left that was never synced, as a
    /// program does that was killed, is synced first.
    pub fn open(alloc: Global, file: F) -> io::Result<FileDisk<F>>
    where
        F: Drop,
        ensures { IfOk result (λ disk. ⟦<FileDisk<F> as Disk>⟧.faults disk ≡ 0) }
    {
        file.sync_all()?;
        FileDisk::view(alloc, file)
    }

    // Counts a fault.
    fn fault(&mut self) -> DiskFault
        ensures counted { self.new ≡ record self.old { faults = counted self.old.faults } }
        ensures later { self.old.faults ≤ self.new.faults }
    {
        self.faults = self.faults.saturating_add(1);
        DiskFault
    }

    // Begins a write or a sync, where one can be made.
    fn begin(&mut self) -> bool
        ensures begun { IsTrue result →
            (self.new ≡ record self.old { moment = self.old.moment + 2 }) }
        ensures made { IsTrue result
            ↔ ((self.old.broken ≡ false) × ¬ (IsAtEnd self.old.moment)) }
        ensures refused { result ≡ false → self.new ≡ self.old }
        ensures faults { self.new.faults ≡ self.old.faults }
    {
        if self.broken || self.moment > u64::MAX - 2 {
            return false;
        }
        self.moment += 2;
        true
    }

    // Ends a write to the file, with a fault where it failed.
    fn end(&mut self, ended: io::Result<()>) -> Result<(), DiskFault>
        ensures answer { is_ok result ≡ is_ok ended }
        ensures ok { OnOk result (self.new ≡ self.old) }
        ensures failed { OnErr result
            (self.new ≡ record self.old { faults = counted self.old.faults }) }
        ensures cause { HasCause self.old.faults self.new.faults result }
    {
        match ended {
            Ok(()) => Ok(()),
            Err(_) => Err(self.fault()),
        }
    }

    // Ends a sync, which leaves the disk broken where it failed.
    fn end_sync(&mut self, synced: io::Result<()>) -> Result<(), DiskFault>
        ensures answer { is_ok result ≡ is_ok synced }
        ensures ok { OnOk result (self.new ≡ self.old) }
        ensures broken { OnErr result
            (self.new ≡ record self.old { broken = true; faults = counted self.old.faults }) }
        ensures cause { HasCause self.old.faults self.new.faults result }
    {
        match synced {
            Ok(()) => Ok(()),
            Err(_) => {
                self.broken = true;
                Err(self.fault())
            }
        }
    }
}

impl<F: FileExt + OpenFile> Disk for FileDisk<F> {
    ghost use Rattle.sdr_system.specs.Untold.{untold};

    ghost bytes = { λ d. d.bytes };

    ghost tells_crashes = { λ _. false };

    ghost faults = { λ d. d.faults };

    ghost moment = { λ d. d.moment };

    ghost may_hold_after = { λ _ _ _. Unit {0} };

    ghost long = { λ _. untold };

    ghost read_now = { λ _. tt };

    fn len(&self) -> u64 {
        self.bytes.len() as u64
    }

    fn read_at(&mut self, place: u64, into: &mut [u8]) -> Result<(), DiskFault> {
        if self.broken {
            return Err(self.fault());
        }
        let place = place as usize;
        into.copy_from_slice(&self.bytes.as_slice()[place..place + into.len()]);
        Ok(())
    }

    fn write_at(&mut self, place: u64, from: &[u8]) -> Result<(), DiskFault> {
        if !self.begin() {
            return Err(self.fault());
        }
        let written = self.file.write_all_at(from, place);
        self.end(written)?;
        self.bytes.overwrite(place as usize, from);
        Ok(())
    }

    fn sync(&mut self) -> Result<(), DiskFault> {
        if !self.begin() {
            return Err(self.fault());
        }
        let synced = self.file.sync_data();
        self.end_sync(synced)
    }

    fn now(&self) -> u64 {
        self.moment
    }
}
