//! Clones that have the parts of a text become one object: it gets their extents, in order, and they go. No byte is copied.
//!
//! 1. The object is made in an account, which is charged for it.
//! 2. It gets an extent for each extent of the clones, in order, of the same bytes of the same source.
//! 3. The clones are destroyed, in order. Their sources stay, since the object names each of them.
//!
//! Proved: the object has extents of what the clones' extents named, in order, its part is its whole, and it stands in their place:
//! the only blocks that are taken are its own and its extents', and those that go are the clones' (`joined`). Lines are bounded (`works`).
#![tactic(auto)]

mod filled;
mod joining;

pub use filled::Filled;
pub use joining::join_clones;
