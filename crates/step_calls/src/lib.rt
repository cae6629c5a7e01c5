//! The answer of each call, over any blocks and any media: the choice among the steps below.
//!
//! 1. Each call is a step of the machine on the world that the blocks stand for. Those that ask an object's bytes read media, and no
//!    other does.
//! 2. What the functions below ask of a heap holds wherever it stands for a world in which calls are served, and a call that its row
//!    answers touches no more lines than its transaction may by what it has asked.
//!
//! Proved: `answer`: each call, on blocks that stand for a whole world, is a step of the machine (`comes`), or is
//! refused as its row has it, or for want of a block or of log room. It touches at most the lines of `call_lines`
//! (`works`), and a reading call leaves those that were touched (`lines`). Media are read only by a call that asks an object's
//! bytes (`unread`), at most once for each extent that lies with them and of which it needs bytes (`asks`).
//!
//! Only tested: each call's answers (`tests/cases`).
#![tactic(auto)]

mod answering;
mod giving;

pub use giving::answer;
