//! Tests of `sdr_image`, as rows of literals.
//!
//! 1. A row is what is called, and what is answered then. Its literals come from worked rows, and not
//!    from the code.
//! 2. A function plays rows in a loop, with one call of what is tested in it, and answers the first
//!    row that got something else. A test wants that there is none.
//! 3. Here stands what no clause says: that calls succeed with ample memory, which device calls are
//!    made in which order, and what opening makes of the image of a crash at each moment.
//!
//! Proved: nothing; these are tests.
#![tactic(auto)]

#[cfg(test)]
mod commit_tests;
#[cfg(test)]
mod crashes;
#[cfg(test)]
mod hostile_tests;
#[cfg(test)]
mod image_tests;
#[cfg(test)]
mod spill_tests;
#[cfg(test)]
mod works;
