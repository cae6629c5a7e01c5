//! A disk with a heap on it: how it is formatted, the image of one that is opened, and a look at one that isn't touched.
//!
//! 1. A disk has a head that tells how long its regions are, a log region, and a heap region.
//!    `format` writes a head, a closed gate at the front of the log region, and a fresh heap.
//! 2. Opening takes all memory and puts back the lines of open batches; where none is open it only reads. A crash
//!    on the way leaves the same heap as one before, where nothing was pending on the disk, or a recovery of it
//!    was stopped. An image has at most 64 touched lines and 256 clean ones in memory, and a byte for each line
//!    of the heap region, which tells where the line stands.
//! 3. A line of the heap region is touched where a write covers a byte of it. Its bytes from before are kept, in
//!    the buffer or in an open batch, and a transaction may touch only as many lines as the undo log has room for.
//!    Where the buffer is full, its lines are spilled: a batch of their old bytes is opened, and they are written to
//!    the heap region. A line that is spilled is written through from then on.
//! 4. A cancel puts the bytes from before back: where lines were spilled, on the disk too. A commit changes the
//!    touched lines on the disk, all or none, by the calls of the log: the batch of the old lines, then the new lines,
//!    each by rising number, then the first gate. Where no line was touched, neither makes a call of the disk.
//! 5. An opened disk rests, under the same premise, and every call leaves it so: a crash between
//!    two calls and within a transaction leaves the bytes at begin. A crash in a commit leaves these
//!    or the bytes at its end, and after `Ok` the latter. The first commit of a touched line makes
//!    the disk rest without the premise.
//! 6. Once a call has answered `DiskFault`, each later call answers `Failed` and changes nothing, the
//!    disk neither. The disk has to be opened again.
//! 7. `peek` only reads. Where no batch is open, the heap region is what the disk gives; else the head and
//!    the regions are read into a disk in memory, and the open batches are put back there, as recovery does
//!    it. It leaves a `Still`: the heap region that opening would give, which can be read and not written.
//!
//! Proved: a commit is whole or nothing: a crash at any moment leaves the bytes at its begin or at its end, after
//! `Ok` those at its end (`any_moment`, `saved`). `LogFull` comes exactly where the touched lines exceed the
//! room, `NotFormatted` exactly where the disk gives no heap. However often recovery is stopped and begun again, the
//! heap is the same (`recover_many`), and opening leaves just what a stopped one may leave (`left`). After a fault in
//! opening the disk may be opened again, unless it failed as the first gate was being closed (`faulted`). Opening and a
//! commit change no byte outside the regions (`inside`), and a cancel none at all where no batch is open (`same`). `peek` gives the heap that
//! the disk gives, put back in memory (`heap`), and only reads the disk (`reads`).
//!
//! Only tested: that calls succeed with ample memory; which calls of the disk a commit and a cancel make, of three
//! lines and of seventy; what opening makes of each tear of a crash at each moment of them, behind a fault at each of
//! their calls, and behind a stop at each write and sync, and the same of opening; that a clean line is read once; the
//! calls of `format` on a real file (once).
#![tactic(auto)]

mod buffer;
mod cache;
mod closing;
mod empty;
mod error;
mod fresh;
mod image;
mod laws;
mod lines;
mod marks;
mod opening;
mod peeking;
mod span;
mod spilling;
mod still;
mod writing;
mod zeros;

pub use empty::format;
pub use error::{FormatError, ImageError, ImageShut};
pub use image::Image;
pub use laws::recover_many;
pub use peeking::peek;
pub use still::Still;
