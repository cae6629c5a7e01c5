//! Tests of `sdr_turn`, over a value that keeps a list.
//!
//! One thread with two seats shows the order step by step. Many threads show what no clause says: that all of them come
//! to their turn and back. The list that they leave has to be the numbers from 1 up, one for each turn.
//!
//! Proved: nothing; these are tests.
#![tactic(auto)]

mod tally;
mod threads;
#[cfg(test)]
mod turn_tests;

pub use tally::{Line, Rows, Tally, take_turns, turn_of};
pub use threads::{Bounds, serve, serve_all, serve_many, serve_often};
