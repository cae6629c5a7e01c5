//! The machine in memory: `apply` makes one call on a world, `MemoryGround` is a world in memory with its media as the ground of a
//! lock, and `MemoryRun` is a run on it, event by event, as `dry` plays a schedule on.
//!
//! 1. `MemoryGround` meets all that a lock asks of its ground: its calls are steps whose blocks have the next addresses, it never
//!    fails, and a crash leaves nothing of it. It has room for 2^22 calls, by which no object has more pieces and no more than
//!    2^46 blocks are taken.
//! 2. Media are asked within the call that needs their bytes. All memory is taken before, so that want of memory leaves media
//!    as before, too.
//! 3. No journal is kept of a run in memory, since the world tells no moves. `Plain` is such a run over media that hold nothing.
//!
//! Proved: `apply`: each call is its step, on a world on which calls can be made (`MayCall`). `MemoryRun` meets what is asked of a run
//! (`Runs`): each event is a step of the machine that agrees with what media tell; out of memory leaves all as it was (`err`); media are
//! asked at most once for each extent of which the event needs bytes (`MakesNext`). `Plain::event` is a step of the machine (`step`).
//! `leave_all` makes the leaves at the end of the input.
//!
//! Only tested: a row of events (`test_shell`); each call's answers (`tests/cases`).
#![tactic(auto)]

mod answering;
mod calls;
mod memory_ground;
mod memory_run;
mod plain;

pub use calls::apply;
pub use memory_ground::MemoryGround;
pub use memory_run::MemoryRun;
pub use plain::Plain;
