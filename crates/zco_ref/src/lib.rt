//! Counted sources: the bytes of files, of items and of raw objects, which extents name parts of.
//!
//! 1. A source's block has its medium, its flag, how many extents of each account name it, its
//!    subject, its length, and the path of a file. A raw object's block names its source.
//! 2. A source that is destroyed while extents name it is flagged, and goes with the last of them.
//!    One that has taken over a raw object goes so without a flag, and the raw object before it.
//! 3. A raw object that its source hasn't taken over stays with its owner, and no source names it
//!    once that one is gone.
//!
//! Proved: sources are made, counted, attached, detached and destroyed as their rows say (`made`, `given`,
//! `attached`, `detached`, `destroyed`). All other blocks stay. A source goes with its last extent, behind the
//! raw object that it has taken over. Refusals come in their order (`refused`).
#![tactic(auto)]

mod counting;
mod dropping;
mod making;
mod naming;
mod seeing;

pub use counting::{attach, count, count_in, detach};
pub use dropping::destroy_ref;
pub use making::{bulk_ref, file_ref};
pub use naming::{expect_unnamed, heap_source, obj_ref};
pub use seeing::medium_of;
