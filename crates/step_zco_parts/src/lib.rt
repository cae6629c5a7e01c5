//! The calls that set, clone, strip and bond parts of zero-copy objects, and those that read an object's bytes, as steps of the
//! machine, over any blocks.
//!
//! 1. Each call is a step of the machine on the world that the blocks stand for, whatever that has.
//! 2. A clone's extents name the sources that were named: these count them in the world after the call.
//! 3. `strip` serves the queue of the object's account itself: that is part of its step. `bond` serves none: it charges the account,
//!    and gives nothing back.
//! 4. The bytes that an object's blocks and media give are those of the world that the blocks stand for, and of what media tell. Where
//!    media fail or have too few bytes, the step says so, and the world stays.
//!
//! Proved: `delimit`, `clone_part`, `strip` and `bond` are steps of the machine (`comes`), within their lines: `strip` within 21, 28
//! for each block that goes and 32 for each ticket granted; `bond` within 8 and those of each header and trailer (`works`).
//! `transmit` and the `receive_` calls are steps of the machine (`comes`). What they show agrees with what media tell
//! (`agrees`). A fault or a short answer of media has its cause, and then heap and shown bytes stay (`cause`, `looks`,
//! `shown`). Media stay where the call is refused for another reason (`unread`), and on every outcome are asked at most once for each
//! extent that lies with them and of which the call needs bytes (`asks`).
//!
//! Only tested: each call's answers (`tests/cases`).
#![tactic(auto)]

mod bonding;
mod cloning;
mod parts;
mod stripping;
pub mod wire_calls;

pub use bonding::bond;
pub use cloning::clone_part;
pub use parts::delimit;
pub use stripping::strip;
