//! Zero-copy objects that are bonded: their headers and trailers become extents.
//!
//! 1. The account is charged first for what the object charges more: an extent of a text for each
//!    header and trailer, less what that charged.
//! 2. Each header, first to last, and then each trailer gets a raw object of its text and a source
//!    that takes this over. An extent of all bytes of the source comes at its place in the chain of
//!    extents: of a header before those that were there, of a trailer behind them. Then its own
//!    block is given back.
//! 3. The object's block tells of the new chain last. Its part is the whole.
//!
//! Proved: `bond` makes an extent of each header and trailer, and charges the account first (`bonded`). All else
//! stays, with exactly the row's moves. Refusals come in their order; where heap or log room ends, some first
//! moves were made (`refused`).
//!
//! Only tested: each call's answers (`tests/cases`).
#![tactic(auto)]

mod bonding;
mod chaining;
mod charging;
mod gap;
mod placing;
mod text;

pub use bonding::bond;
