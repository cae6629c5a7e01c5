// The descriptors of the standard streams.
use std::fs::File;
use std::io;
use std::rt::Files;

/// What keeps a file that is opened later from having the number of a standard stream: the current
/// folder, opened for reading three times. The system gives each opening the least number that is
/// free, so with these three the numbers 0, 1 and 2 are taken, whichever of them the program was
/// started without. A read of a folder fails, and so does a write to one that is open for reading: a
/// stream that was closed fails, and no file is read or written in its place.
#[derive(Drop)]
pub struct Streams<F> {
    first: F,
    second: F,
    third: F,
}

/// Takes the descriptors of the standard streams, for as long as the result is kept. It has to be
/// called before a file is opened.
pub fn take_streams<R: Files>(rt: &R) -> io::Result<Streams<R::File>> {
    let first = File::open(rt, ".")?;
    let second = File::open(rt, ".")?;
    let third = File::open(rt, ".")?;
    Ok(Streams {
        first,
        second,
        third,
    })
}
