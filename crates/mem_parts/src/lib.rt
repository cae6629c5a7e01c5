//! Parts of a world as functions over plain data: queues of tickets, and what is in objects, with what it charges.
//! Nothing here keeps a world.
//!
//! 1. Where what is in an object is bounded, each sum over it fits a word.
//! 2. A sum that may be more than a word holds is capped at the greatest word.
//!
//! Proved: each function over plain data is its definition: the queue (`enqueue`, `serve`), charges, cuts,
//! counts, and why an account refuses a charge (`refusal`). A sum too large for a word is the greatest word
//! (`capped`).
#![tactic(auto)]

pub mod amounts;
pub mod capsules;
pub mod charges;
pub mod component;
pub mod cuts;
pub mod naming;
pub mod object;
pub mod queue;
pub mod refusing;

pub use component::{Component, Side};
