//! What calls on sources and zero-copy objects do to a world in memory, and the pieces of the bytes of objects. Each
//! call's contract is its step of the world.
//!
//! Proved: each call on sources and objects is its step of the world (`CallsMemory`, `StepsDry`), on a world on which
//! calls can be made (`MayCall`); out of memory leaves the world as it was. `parts` gives the pieces of a
//! transmit or receive (`pieces_asked`).
//!
//! Only tested: each call's answers (`tests/cases`).
#![tactic(auto)]

pub mod append_calls;
pub mod bond_calls;
pub mod capsule_calls;
pub mod clone_calls;
pub mod destroy_calls;
mod gone;
pub mod object_calls;
pub mod part_calls;
pub mod source_calls;
pub mod strip_calls;
mod wire;
pub mod wire_calls;
