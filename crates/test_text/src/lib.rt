//! Tests of `sdr_text`, `sdr_words` and `sdr_load`, what is printed, read and made, as rows of literals.
//!
//! 1. A row is what is read or printed, and what comes of it. Its literals come from the grammar and from
//!    the table of answers, and not from the code.
//! 2. A function plays rows in a loop, with one call of what is tested in it, and answers the first
//!    row that got something else. A test wants that there is none.
//! 3. Here stands what no clause says: that calls succeed with ample memory, and what the definitions of
//!    the grammar, of events and of printed lines come to in bytes and numbers.
//!
//! Proved: nothing; these are tests.
#![tactic(auto)]

#[cfg(test)]
mod event_tests;
#[cfg(test)]
mod grammar_tests;
#[cfg(test)]
mod journal_tests;
#[cfg(test)]
mod load_tests;
#[cfg(test)]
mod name_tests;
#[cfg(test)]
mod scripts;
#[cfg(test)]
mod text_tests;
