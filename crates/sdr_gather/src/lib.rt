//! The bytes that lie with media: pieces of them, read one after another.
//!
//! 1. A piece that lies in a file or an item is asked once of media, for all of it.
//! 2. Where media have fewer bytes of a piece than it has, the read stops there and says so.
//! 3. The caller has the room for the bytes, so that no memory is taken once media are asked.
//!
//! Proved: `gather` gives the bytes of all pieces, those of media as media tell them (`gathered`), or why it
//! can't: media failed, or had too few bytes of a piece, and the count of that rose (`gap`). On every outcome media
//! are asked at most once for each piece that lies with them (`asks`).
//!
//! Only tested: its answers (`tests/cases`).
#![tactic(auto)]

mod gathering;

pub use gathering::{Gap, gather};
