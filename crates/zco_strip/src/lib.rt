//! Zero-copy objects whose extents are cut to their part.
//!
//! 1. A place in a chain of extents is found by a walk to it, which writes nothing.
//! 2. An extent is cut to a part of its bytes, and charges what it did: itself, and its whole source.
//! 3. The extents outside the part, before it and behind it, are linked into a chain of their own:
//!    a few words are set, however many there are.
//! 4. An object whose chain begins and ends with those in the part gives that other chain back, in
//!    order, each extent after what goes with it.
//!
//! Proved: `strip` cuts an object's extents to its part (`stripped`): the others go in order, each behind what
//! goes with it; the account gets back what is charged less; all else stays, with exactly the row's moves.
//!
//! Only tested: each call's answers (`tests/cases`).
#![tactic(auto)]

mod chain;
mod finding;
mod linking;
mod parting;
mod stripping;

pub use linking::link_after;
pub use stripping::strip;
