//! Tests of the orders of `sdr_list` and of `sdr_station`, as rows of literals.
//!
//! 1. A row of the orders is two keys, and how they compare. Here stands what no clause says and no script shows: what the orders come
//!    to on keys, and that a function can be stored as a comparison.
//! 2. A row of the station is what is asked of it on a disk in memory, and what it says then. Its literals come from worked rows and
//!    from the rules, and not from the code. Here stands what no clause and no script shows: that calls succeed with ample memory,
//!    what a station tells beside its answers, and that its callback is called. Disks that fail, and the calls that a disk gets, are
//!    rows of `test_shell`, through the program's public call.
//!
//! Proved: nothing; these are tests.
#![tactic(auto)]

#[cfg(test)]
mod disks;
#[cfg(test)]
mod notice_tests;
#[cfg(test)]
mod order_tests;
#[cfg(test)]
mod telling_tests;
