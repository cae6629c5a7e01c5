//! Tests of `zco_pieces`, as rows of literals.
//!
//! A row is what is called on a heap over an image of a disk in memory, which has nothing, and what each call answers. Its literals
//! come from worked rows and from the rules, and not from the code. Here stands what no clause says: that the calls succeed with ample
//! memory, and at which addresses.
//!
//! Proved: nothing beside that each call has what it needs; these are tests.
#![tactic(auto)]

#[cfg(test)]
mod calls;
#[cfg(test)]
mod heaps;
#[cfg(test)]
mod piece_tests;
