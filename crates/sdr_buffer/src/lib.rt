//! A buffer of output: printed bytes that wait, and go out together.
//!
//! 1. A buffer is a sink in memory. It takes bytes while it has room, and refuses others.
//! 2. A text is put behind what waits. Where it doesn't fit, all that waits is passed on, and the text is written
//!    straight to the output.
//! 3. Nothing here takes memory. What waits is passed on by a call (`pass_on`); nothing else writes it.
//!
//! Proved: what the output took, and behind it what waits, is what was put, whole and in its order (`ok`), or a part of
//! it from the front if the output failed (`err`, `cause`). `pass_on` leaves nothing waiting (`empty`), and loses and
//! doubles nothing, at a fault too (`same`). The output isn't called while a text fits, or where nothing waits (`idle`).
#![tactic(auto)]

mod buffer;
mod printed;

pub use buffer::OutputBuffer;
pub use printed::{Printed, put};
