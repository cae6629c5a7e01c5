//! Tests of daemons in threads, by `top` with the word `run` on disks in memory.
//!
//! 1. A gate holds two daemons until each has come so far as the other waits for. It fails where daemons run one after
//!    another, which every clause allows.
//! 2. The disk fails at each call in turn, while other daemons are at work: each leaves, and the status tells of it.
//!
//! Proved: nothing; these are tests.
#![tactic(auto)]

#[cfg(test)]
mod fault_tests;
#[cfg(test)]
mod gate_tests;
#[cfg(test)]
mod runs;
