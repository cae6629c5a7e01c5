//! The whole audit of a heap region: it passes exactly where a world stands for the bytes.
//!
//! A region is read once, and its checks are taken in this order, each of which has its own order in which things are looked at:
//!
//! 1. Its structure: control words, blocks, start bits, lists of free blocks, and contents (`audit_blocks`).
//! 2. Who owns each block; what blocks and control words count; and the queues of tickets (`audit_counts`).
//!
//! `check_structure` takes the first step alone. `check` tells the first place that is wrong by the check that found it, or takes a
//! census of the blocks, and `read_world` makes the world in memory for which a region stands that passes.
//!
//! The laws, each the contract of a function that does nothing:
//!
//! 1. A region that passes isn't wrong anywhere (`right_regions_are_not_wrong`).
//! 2. A heap whose bytes stand for a world passes the audit of structure (`worlds_are_sound`) and of owners (`worlds_are_owned`), and
//!    those of counts, rules, occupancies and queues (`worlds_are_right`).
//! 3. What blocks and control words tell is the world for which they stand (`worlds_are_told`). So bytes stand for one whole world at
//!    most (`one_world_stands`).
//!
//! Proved: `check` answers Ok only where the region is right, and then it stands for the world that it tells
//! (`right`, `stands`). `Damaged` tells the first wrong place and its check, and then the region stands for no
//! whole world (`damaged`, `none`). It only reads (`reads`). The laws above.
//!
//! Only tested: a census, and each check's place (`test_audit`); replays behind one another on one file
//! (`tests/again`).
#![tactic(auto)]

mod census;
mod checking;
mod error;
mod laws;
mod owned;
mod reading;
mod right;
mod sound;
mod structure;
mod told;

pub use audit_blocks::Check;
pub use census::Census;
pub use checking::check;
pub use error::AuditError;
pub use laws::right_regions_are_not_wrong;
pub use owned::worlds_are_owned;
pub use reading::{Survey, read_survey, read_world};
pub use right::worlds_are_right;
pub use sound::worlds_are_sound;
pub use structure::check_structure;
pub use told::{one_world_stands, worlds_are_told};
