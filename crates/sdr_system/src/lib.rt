//! What the program takes of the system: files as disks, which of them a word names, standard input
//! and output as a source and a sink, and their descriptors.
//!
//! 1. The descriptors of the standard streams are taken before a file is opened, so that a stream that was closed
//!    is no file's.
//! 2. An input is held: read whole, before the file is opened that it is for.
//! 3. What was opened is asked whether it is a file, and then locked and synced.
//! 4. What a disk holds at a first look is told by its head, or by whether its bytes are zero.
//!
//! Proved: which disk a word names (`IsPlace`). `FileDisk` is a disk that doesn't tell what a crash may leave: a read gives
//! what was read of its file as it was opened, and what was written since; each error of the file is a fault, and no
//! write and no sync is made after a failed sync (`broken`, `made`). A file that is
//! made has at least the bytes asked for, of which a disk has as many as the largest (`long`). What is held of an input are its first bytes, in order, up to its end, to
//! its fault or to 1,048,577 (`HoldsInput`); the held source gives these and then the fault (`fails`). What stands on a disk
//! where a heap has its head (`Tells`), and whether its first bytes are zero (`zero`); both only read.
//!
//! Only tested: which bytes standard input, standard output and a file pass on, and that what isn't ready is waited for
//! (`test_disk`); that a closed stream's descriptor is no file's, and that an opening doesn't wait and asks the kind of what
//! it opened (`tests/starters`).
#![tactic(auto)]

mod file_disk;
mod heads;
mod held;
mod opening;
mod place;
mod real;
mod streams;

pub use file_disk::FileDisk;
pub use heads::{Head, head_of, is_zero};
pub use held::{Held, HeldSource, MOST_HELD, hold};
pub use opening::{make_disk, open_disk, view_disk};
pub use place::{Place, place_of};
pub use real::{StdSink, StdSource};
pub use streams::{Streams, take_streams};
