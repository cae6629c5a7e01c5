//! Media: files by path and bulk items by number, in memory and in a folder of the system.
//!
//! 1. `MemoryMedia` tells what its files and items hold, and fails at listed calls.
//! 2. `FolderMedia` tells nothing: it gives what the system reads, and each error of the system is a
//!    fault.
//! 3. Both count their faults, and their short answers: reads that gave fewer bytes than were asked
//!    for.
//!
//! Proved: `MemoryMedia` gives the bytes that it tells, fails exactly at listed calls, and counts each fault and
//! each short answer. `FolderMedia` tells no bytes: each error of the system but 'no such file' raises its count
//! of faults (`cause`), each short answer its other count (`short`).
//!
//! Only tested: what a folder gives, also behind short and interrupted reads; that calls succeed with ample
//! memory.
#![tactic(auto)]

mod counts;
mod folder;
mod memory;
mod opening;

pub use folder::{FolderMedia, fill};
pub use memory::MemoryMedia;
pub use opening::open_to_read;
