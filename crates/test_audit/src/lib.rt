//! Tests of `audit_blocks`, `audit_owners`, `audit_counts` and `sdr_audit`, as rows of literals, over heap regions in memory.
//!
//! 1. A row is what is changed in a region that is right, and what is told then. Its literals come from the format, and not from the
//!    code.
//! 2. A row's region is made anew, changed, and checked once. A test wants that each row is told as it says.
//! 3. Here stands what no clause says: that an audit finds memory, that a small heap with lists of both pools passes it, and which
//!    places its rules come to in numbers.
//!
//! Proved: nothing; these are tests.
#![tactic(auto)]

#[cfg(test)]
mod byte_tests;
#[cfg(test)]
mod check_tests;
#[cfg(test)]
mod content_tests;
#[cfg(test)]
mod count_tests;
#[cfg(test)]
mod first_tests;
#[cfg(test)]
mod owner_regions;
#[cfg(test)]
mod owner_tests;
#[cfg(test)]
mod regions;
