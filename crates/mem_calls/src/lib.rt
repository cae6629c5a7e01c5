//! What calls on raw objects, strings, the catalogue, accounts, lists, tables and hashes do to a world in memory. Each call's contract
//! is its step of the world.
//!
//! Proved: each of these calls is its step of the world (`CallsMemory`, `StepsDry`); out of memory leaves the world as
//! it was.
//!
//! Only tested: each call's answers (`tests/cases`).
#![tactic(auto)]

pub mod account_calls;
pub mod element_calls;
pub mod hash_calls;
pub mod insert_calls;
pub mod list_calls;
pub mod name_calls;
pub mod ordered_calls;
pub mod raw_calls;
pub mod table_calls;
pub mod text_calls;
