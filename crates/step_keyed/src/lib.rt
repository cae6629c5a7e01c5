//! The calls on hashes and on the catalogue, and `free`, as steps of the machine, over any blocks.
//!
//! 1. Each call is a step of the machine on the world that the blocks stand for, whatever that has.
//! 2. `free` is answered above the calls on sources: where a source names the raw object, the refusal tells how many extents name
//!    that source, as the world counts them.
//!
//! Proved: each of these calls is a step of the machine on the world that the blocks stand for (`comes`), within its
//! lines (`works`). `free` refuses a raw object that a source names, and changes nothing.
//!
//! Only tested: each call's answers (`tests/cases`).
#![tactic(auto)]

pub mod freeing;
pub mod hashes;
pub mod names;
