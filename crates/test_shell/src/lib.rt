//! Tests of `mem_machine` and `sdr_shell`, from events and words to answers and statuses, as rows of literals.
//!
//! 1. A row is what is called, and what is answered then. Its literals come from worked rows, and not
//!    from the code.
//! 2. A function plays rows, with one call of what is tested in it, and answers the first
//!    row that got something else. A test wants that there is none.
//! 3. Here stands what no clause says: that calls succeed with ample memory, and what a disk holds then.
//!
//! Proved: nothing; these are tests.
#![tactic(auto)]

#[cfg(test)]
mod call_tests;
#[cfg(test)]
mod disks;
#[cfg(test)]
mod format_tests;
#[cfg(test)]
mod load_tests;
#[cfg(test)]
mod machine_tests;
#[cfg(test)]
mod recover_tests;
#[cfg(test)]
mod replay_tests;
