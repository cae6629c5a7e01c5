// Files that are opened to be read.
use std::fs::{File, OpenOptions};
use std::io;
use std::io::ErrorKind;
use std::path::AsPath;
use std::rt::Files;

// Whether the error says that a file may not be written: it may still be read.
fn may_be_read(error: &io::Error) -> bool {
    matches!(
        error.kind(),
        ErrorKind::PermissionDenied | ErrorKind::ReadOnlyFilesystem | ErrorKind::ExecutableFileBusy
    )
}

/// Opens a file to read it. It is opened to be written too, where it may be, and is never written: so
/// the opening of a FIFO that came into its place waits for no other end, which that of a file that
/// may only be read does. What was opened may be of any kind.
pub fn open_to_read<R: Files, P: AsPath + Copy>(rt: &R, path: P) -> io::Result<R::File> {
    match OpenOptions::new().read(true).write(true).open(rt, path) {
        Err(error) if may_be_read(&error) => File::open(rt, path),
        opened => opened,
    }
}
