//! A law of formatted disks, which stands above both the image and the pools: the heap that a disk gives once it was formatted keeps
//! a heap without a block or a ticket.
//!
//! Proved: a disk that was just formatted gives a heap with both pools, no block and no ticket (`formatted_keeps`).
#![tactic(auto)]

mod laws;

pub use laws::formatted_keeps;
