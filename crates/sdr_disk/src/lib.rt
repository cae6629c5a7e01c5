//! The disk under a heap: bytes that are read, written and synced, what a crash may leave of them
//! at each moment, and a disk in memory that shows it.
//!
//! 1. A disk has a fixed number of bytes. A read gives them as last written, and a sync changes none of them.
//! 2. A disk tells what a crash may leave of it, or doesn't. What is said of that holds where it does (`IfTells`).
//! 3. A call answers its fault only where the disk's count of faults rose in that call.
//! 4. The moment rises by one when a write or a sync begins and by one when it returns. Reads leave
//!    it as it is.
//! 5. A crash leaves the bytes as read, but for the ranges written since the last sync that
//!    succeeded: these may hold any bytes, whether their writes succeeded or not.
//! 6. No call changes what a crash may leave at a moment up to the one at which it began.
//!
//! Proved: the trait `Disk` says what each call does to the bytes and the moment, and which images a crash may
//! leave at each moment (`moments`, `past`, `durable`). `MemoryDisk` keeps to it, and fails exactly at listed
//! calls, at the last moment, out of memory, or once it has stopped (`answers`).
//!
//! Only tested: the images of each moment of a short row of calls, with each tear, against literals.
#![tactic(auto)]

mod change;
mod disk;
mod history;
mod image;
mod memory;
mod torn;

pub use disk::{Disk, DiskFault};
pub use memory::MemoryDisk;
pub use torn::Torn;
