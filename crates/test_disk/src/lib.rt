//! Tests of `sdr_base`, `sdr_disk`, `sdr_log`, `sdr_media` and `sdr_system`, as rows of literals.
//!
//! 1. A row is what is called, and what is answered then. Its literals come from worked rows, and not
//!    from the code.
//! 2. A function plays rows in a loop, with one call of what is tested in it, and answers the first
//!    row that got something else. A test wants that there is none.
//! 3. Here stands what no clause says: that calls succeed with ample memory, which device calls are
//!    made in which order, and what the clauses' definitions come to in numbers.
//!
//! Proved: nothing; these are tests.
#![tactic(auto)]

#[cfg(test)]
mod disk_tests;
#[cfg(test)]
mod file_tests;
#[cfg(test)]
mod frame_tests;
#[cfg(test)]
mod media_tests;
#[cfg(test)]
mod outside_tests;
#[cfg(test)]
mod recovery_tests;
