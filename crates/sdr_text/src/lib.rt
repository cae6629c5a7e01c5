//! The printed texts: a line for each answer, the journal, and its totals.
//!
//! 1. A line is built in place and goes out in one write, one that shows the bytes of a call too.
//! 2. Nothing here takes memory.
//! 3. Where the sink fails, a part of the text from its front was written.
//!
//! Proved: `write_answer` writes `line_text` of each answer, `write_journal` `journal_text` of a journal and `write_totals`
//! `totals_text` of totals, whole, or a part from the front if the sink failed (`ok`, `err`, `cause`). None takes memory.
//!
//! Only tested: that these definitions print what a reader expects of each answer, reason, refusal and entry, and of totals
//! (`test_text`).
#![tactic(auto)]

mod answer;
mod given;
mod journal;
mod line;
mod refused;
mod totals;

pub use answer::{add_grant, write_answer};
pub use given::{are_text_bytes, write_given, write_literal};
pub use journal::write_journal;
pub use line::Line;
pub use refused::add_space;
pub use totals::write_totals;
