//! Tests of `sdr_board`.
//!
//! The journal of the tests has eight kinds of entries in turn, so the totals of its first entries are reckoned from their count
//! alone. One writer publishes it, entry by entry, while three readers read: each read has to be the totals of some first
//! entries, and of no fewer than the read before.
//!
//! Proved: nothing; these are tests.
#![tactic(auto)]

#[cfg(test)]
mod board_tests;
mod entries;
mod threads;

pub use entries::{entry_at, first_entries, totals_of_first};
pub use threads::{Bounds, Tally, read_often, readers_beside_writer, write_often};
