//! What a call on the blocks of a heap comes to, as a step of the machine, and the calls on raw objects, strings, lists and tables.
//!
//! 1. A call on blocks that stand for a world is a step of the machine on that world: its row answers it, with its moves in
//!    their order, and the blocks stand for the world after it; or it is refused, as its row or the want of a block or of log
//!    room has it.
//! 2. It touches no more lines than its transaction may by what it has asked.
//! 3. What such a step is, and when a heap stands for a world in which calls are served, stands here for the crates above too.
//!
//! Proved: each call on raw objects (but `free`), strings, lists and tables is a step of the machine on the world that
//! the blocks stand for (`comes`), within its lines (`works`). Searches and ordered insertions go by the order
//! that the call names.
//!
//! Only tested: each call's answers (`tests/cases`).
#![tactic(auto)]

pub mod lists;
mod page;
pub mod raws;
pub mod strings;
pub mod tables;

pub use page::{PAGE, Page};
