//! A journal that is printed: its entries wait in a buffer, and go out together.
//!
//! 1. An entry is one text. Where it doesn't fit behind those that wait, these are passed on, and it goes out line by line.
//! 2. Nothing here takes memory.
//! 3. Where the sink fails, a part of the text from its front was written.
//!
//! Proved: `write_entries` writes `journal_text` of a journal, whole, or a part from the front if the sink failed (`ok`,
//! `err`, `cause`).
#![tactic(auto)]

mod journal;

pub use journal::write_entries;
