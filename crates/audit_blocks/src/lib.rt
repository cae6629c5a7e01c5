//! An audit of the structure of a heap region in memory: whether its bytes keep a heap, and else what is wrong first, and where.
//!
//! Each step has its own order in which things are looked at, and tells the first that is wrong. A step stands on those before it.
//!
//! 1. The control words have values that they may have (`check_control`).
//! 2. The blocks of both pools follow one another, and each has the words that its length needs (`check_blocks`).
//! 3. The start bits tell just where blocks in use begin (`check_bits`).
//! 4. The lists of free blocks reach each free block once, in the list of its words or of its order (`check_free`).
//! 5. What stands in each block in use is as its kind asks (`check_content`).
//!
//! They are taken in this order, each on a region that passed those before. A region that passes all isn't wrong by any
//! (`sound_regions_are_not_wrong`), and keeps a heap (`sound_regions_keep_heaps`); and where bytes keep one whose control words and
//! contents are right, they pass (`kept_heaps_are_sound`).
//!
//! Proved: each of five steps answers Ok exactly where the bytes are right, and else the first wrong place and
//! its check (`right`, `damaged`). A region that passes keeps a heap (`sound_regions_keep_heaps`), and a heap
//! with right control words and contents passes (`kept_heaps_are_sound`).
//!
//! Only tested: what is wrong first for each rule, and for each changed byte of a small heap
//! (`test_audit`).
#![tactic(auto)]

mod bits;
mod blocks;
mod content;
mod control;
mod error;
mod findings;
mod free;
mod label;
mod layout;
mod number;
mod region;
mod spot;

pub use bits::check_bits;
pub use blocks::check_blocks;
pub use content::check_content;
pub use control::{Edges, check_control};
pub use error::{Check, Damage};
pub use free::check_free;
pub use label::{Label, read_label};
pub use number::number_at;
pub use region::{kept_heaps_are_sound, sound_regions_are_not_wrong, sound_regions_keep_heaps};
pub use spot::Spot;
