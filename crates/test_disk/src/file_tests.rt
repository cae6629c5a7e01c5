// What no clause says of the adapters and of files as disks: which bytes they pass on, and that errors
// are counted.
ghost use Rattle.std.specs.Prelude.{◌≤◌, length};

use sdr_base::{Bytes, MemorySource, NoMemory, Sink, SinkFault, Source, SourceFault};
use sdr_disk::{Disk, DiskFault};
use sdr_system::{
    FileDisk, Place, StdSink, StdSource, hold, make_disk, open_disk, place_of, take_streams,
    view_disk,
};
use std::alloc::Global;
use std::fs::{File, Metadata, OpenFile};
use std::io::{Cursor, ErrorKind, Read, Write};
use std::os::unix::fs::FileExt;
use std::process::Abort;
use std::test::Fail;
use std::{fs, io};

/// A reader and writer whose every call fails.
#[derive(Drop)]
struct Broken;

impl Read for Broken {
    fn read(&mut self, _into: &mut [u8]) -> io::Result<usize> {
        Err(io::Error::from(io::ErrorKind::Other))
    }
}

impl Write for Broken {
    fn write(&mut self, _from: &[u8]) -> io::Result<usize> {
        Err(io::Error::from(io::ErrorKind::Other))
    }

    fn flush(&mut self) -> io::Result<()> {
        Ok(())
    }
}

/// A reader and writer of one byte each, whose first calls end with an error: that a signal broke them off, or that it
/// isn't ready.
#[derive(Drop)]
struct Late {
    calls: u8,
    kind: ErrorKind,
}

impl Late {
    // The error that comes first.
    fn error(&mut self) -> Option<io::Error> {
        if self.calls == 0 {
            return None;
        }
        self.calls -= 1;
        Some(io::Error::from(self.kind))
    }
}

impl Read for Late {
    fn read(&mut self, into: &mut [u8]) -> io::Result<usize> {
        match self.error() {
            Some(error) => Err(error),
            None => Ok(into.len().min(1)),
        }
    }
}

impl Write for Late {
    fn write(&mut self, from: &[u8]) -> io::Result<usize> {
        match self.error() {
            Some(error) => Err(error),
            None => Ok(from.len().min(1)),
        }
    }

    fn flush(&mut self) -> io::Result<()> {
        Ok(())
    }
}

#[test]
fn a_signal_is_no_fault_and_what_is_not_ready_is_waited_for(rt: HostRuntime) {
    let mut piece = [0u8; 6];
    for kind in [ErrorKind::Interrupted, ErrorKind::WouldBlock] {
        let mut source = StdSource::new(Late { calls: 3, kind }, rt);
        assert_eq!(rt; source.read(&mut piece), Ok(1));
        let mut sink = StdSink::new(Late { calls: 3, kind }, rt);
        assert_eq!(rt; sink.write(b"lock"), Ok(1));
    }
}

#[test]
fn standard_input_gives_what_is_read_and_a_fault_where_that_fails(rt: HostRuntime) {
    let mut source = StdSource::new(b"1: begin".as_slice(), rt);
    let mut piece = [0u8; 6];
    assert_eq!(rt; source.read(&mut piece), Ok(6));
    assert_eq!(rt; &piece, b"1: beg");
    assert_eq!(rt; source.read(&mut piece), Ok(2));
    assert_eq!(rt; source.read(&mut piece), Ok(0));
    assert_eq!(rt;
        StdSource::new(Broken, rt).read(&mut piece),
        Err(SourceFault)
    );
}

#[test]
fn standard_output_takes_what_is_written_and_a_fault_where_that_fails(
    rt: HostRuntime,
) -> Result<(), Fail> {
    let mut room = [0u8; 4];
    let mut sink = StdSink::new(room.as_mut_slice(), rt);
    assert_eq!(rt; sink.write(b"lock"), Ok(4));
    assert_eq!(rt; sink.write(b" 1"), Ok(0));
    assert_eq!(rt; StdSink::new(Broken, rt).write(b"lock"), Err(SinkFault));
    Ok(())
}

// An input that is held, as it is read again: how many bytes, and whether it fails behind them.
fn held_again(alloc: Global, source: &mut impl Source) -> Result<(usize, bool), NoMemory> {
    let held = hold(alloc, source)?;
    let again = hold(alloc, &mut held.source())?;
    Ok((again.bytes.len(), again.failed))
}

#[test]
fn an_input_is_held_to_its_end_to_its_fault_or_as_far_as_a_script_may_go(
    rt: HostRuntime,
) -> Result<(), Fail> {
    let text = Bytes::copied(rt.alloc(), b"1: begin")?;
    let mut whole = MemorySource::new(text, Vec::new(rt.alloc()));
    assert_eq!(rt; held_again(rt.alloc(), &mut whole)?, (8, false));
    let text = Bytes::copied(rt.alloc(), b"1: begin")?;
    let mut failing = MemorySource::new(text, [2].to_vec(rt.alloc())?);
    assert_eq!(rt; held_again(rt.alloc(), &mut failing)?, (8, true));
    let mut long = StdSource::new(io::repeat(b'#'), rt);
    assert_eq!(rt; held_again(rt.alloc(), &mut long)?, (1_048_577, false));
    Ok(())
}

#[test]
fn the_descriptors_of_the_streams_are_taken(rt: HostRuntime) {
    assert!(rt; take_streams(&rt).is_ok());
}

// The file of the test of `FileDisk`, which it makes and removes.
const PATH: &str = "sdrtool_test.disk";

#[test]
fn a_file_is_made_of_zeros_keeps_what_is_written_and_is_locked(
    rt: HostRuntime,
) -> Result<(), Fail> {
    let _ = fs::remove_file(&rt, PATH);
    assert!(rt; open_disk(&rt, PATH).is_err());
    let mut disk = make_disk(&rt, PATH, 128)?;
    assert_eq!(rt; disk.len(), 128);
    assert!(rt; open_disk(&rt, PATH).is_err());
    write_two_bytes(&rt, &mut disk);
    drop(disk);
    // A file that is long enough stays as it is.
    let mut longer = make_disk(&rt, PATH, 64)?;
    assert_eq!(rt; longer.len(), 128);
    read_two_bytes(&rt, &mut longer);
    assert!(rt; view_disk(&rt, PATH).is_err());
    drop(longer);
    // Two may look at it at once.
    let first = view_disk(&rt, PATH)?;
    assert_eq!(rt; view_disk(&rt, PATH)?.len(), first.len());
    fs::remove_file(&rt, PATH)?;
    Ok(())
}

// Writes `ab` from place 62 on.
fn write_two_bytes(rt: &impl Abort, disk: &mut FileDisk<File>)
    requires { 128 ≤ length (⟦<FileDisk<File> as Disk>⟧.bytes disk.old) }
{
    assert_eq!(rt; disk.write_at(62, b"ab"), Ok(()));
    assert_eq!(rt; disk.sync(), Ok(()));
    assert_eq!(rt; disk.now(), 4);
}

// Reads them, between zeros.
fn read_two_bytes(rt: &impl Abort, disk: &mut FileDisk<File>)
    requires { 128 ≤ length (⟦<FileDisk<File> as Disk>⟧.bytes disk.old) }
{
    let mut piece = [9; 4];
    assert_eq!(rt; disk.read_at(61, &mut piece), Ok(()));
    assert_eq!(rt; &piece, b"\0ab\0");
}

/// A file whose every call fails.
#[derive(Drop)]
struct BrokenFile;

impl FileExt for BrokenFile {
    fn read_at(&self, _into: &mut [u8], _place: u64) -> io::Result<usize> {
        Err(io::Error::from(io::ErrorKind::Other))
    }

    fn write_at(&self, _from: &[u8], _place: u64) -> io::Result<usize> {
        Err(io::Error::from(io::ErrorKind::Other))
    }
}

impl OpenFile for BrokenFile {
    fn metadata(&self) -> io::Result<Metadata> {
        Err(io::Error::from(io::ErrorKind::Other))
    }

    fn set_len(&self, _len: u64) -> io::Result<()> {
        Err(io::Error::from(io::ErrorKind::Other))
    }

    fn sync_all(&self) -> io::Result<()> {
        Err(io::Error::from(io::ErrorKind::Other))
    }

    fn sync_data(&self) -> io::Result<()> {
        Err(io::Error::from(io::ErrorKind::Other))
    }
}

/// A file of as many bytes `s` as are read, to which nothing can be written, and that can't be
/// synced.
#[derive(Drop)]
struct StoneFile;

impl FileExt for StoneFile {
    fn read_at(&self, into: &mut [u8], _place: u64) -> io::Result<usize> {
        into.fill(b's');
        Ok(into.len())
    }

    fn write_at(&self, _from: &[u8], _place: u64) -> io::Result<usize> {
        Err(io::Error::from(io::ErrorKind::Other))
    }
}

impl OpenFile for StoneFile {
    fn metadata(&self) -> io::Result<Metadata> {
        Err(io::Error::from(io::ErrorKind::Other))
    }

    fn set_len(&self, _len: u64) -> io::Result<()> {
        Err(io::Error::from(io::ErrorKind::Other))
    }

    fn sync_all(&self) -> io::Result<()> {
        Err(io::Error::from(io::ErrorKind::Other))
    }

    fn sync_data(&self) -> io::Result<()> {
        Err(io::Error::from(io::ErrorKind::Other))
    }
}

#[test]
fn a_failed_write_or_sync_is_a_fault_and_after_a_failed_sync_no_call_is_made(
    rt: HostRuntime,
) -> Result<(), Fail> {
    let mut disk = FileDisk::new(rt.alloc(), StoneFile, 128)?;
    assert_eq!(rt; disk.write_at(0, b"a"), Err(DiskFault));
    assert_eq!(rt; disk.now(), 2);
    let mut piece = [0; 2];
    assert_eq!(rt; disk.read_at(0, &mut piece), Ok(()));
    assert_eq!(rt; &piece, b"ss");
    assert_eq!(rt; disk.sync(), Err(DiskFault));
    assert_eq!(rt; disk.now(), 4);
    // The sync counts as a call that began and returned; what comes behind it doesn't.
    assert_eq!(rt; disk.sync(), Err(DiskFault));
    assert_eq!(rt; disk.read_at(0, &mut piece), Err(DiskFault));
    assert_eq!(rt; disk.now(), 4);
    Ok(())
}

#[test]
fn where_a_file_cannot_be_read_as_it_is_opened_each_call_is_a_fault(
    rt: HostRuntime,
) -> Result<(), Fail> {
    let mut disk = FileDisk::new(rt.alloc(), BrokenFile, 128)?;
    assert_eq!(rt; disk.len(), 128);
    assert_eq!(rt; disk.read_at(0, &mut [0]), Err(DiskFault));
    assert_eq!(rt; disk.write_at(0, b"a"), Err(DiskFault));
    assert_eq!(rt; disk.sync(), Err(DiskFault));
    assert_eq!(rt; disk.now(), 0);
    Ok(())
}

#[test]
fn the_disk_of_a_longer_file_is_the_largest(rt: HostRuntime) -> Result<(), Fail> {
    let disk = FileDisk::new(rt.alloc(), StoneFile, 20_971_585)?;
    assert_eq!(rt; disk.len(), 20_971_584);
    Ok(())
}

#[test]
fn a_word_names_a_disk(rt: HostRuntime) {
    assert!(rt; matches!(place_of("-"), Place::Memory));
    assert!(rt; matches!(place_of("heap"), Place::File { .. }));
    assert!(rt; matches!(place_of("a=b"), Place::File { .. }));
    assert!(rt; matches!(place_of("heap="), Place::File { .. }));
    assert!(rt; matches!(place_of("heap=0081984"), Place::File { .. }));
    assert!(rt; matches!(place_of("heap=+81984"), Place::File { .. }));
    assert!(rt; matches!(place_of("heap=18446744073709551616"), Place::File { .. }));
    assert!(rt; matches!(place_of("heap=0"), Place::Sized { bytes: 0, .. }));
    assert!(rt;
        matches!(
            place_of("a=b=81984"),
            Place::Sized {
                path: "a=b",
                bytes: 81_984,
            }
        )
    );
}
