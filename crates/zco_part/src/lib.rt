//! Parts of zero-copy objects: how one is set, and how one is cloned.
//!
//! 1. An object's part is so many of its extents' bytes, from a place on. It may have none.
//! 2. A clone of a range of the part is an object of the same account. Its extents name the same
//!    sources, cut at the ends of the range, and its part is its whole. No byte is copied: each
//!    source counts its extents more.
//! 3. All that may be refused is tested, and the account is charged, before a block is taken. So the
//!    chain of extents is walked twice: to count those of the range, and to copy them.
//! 4. The clone's own block comes first, and then its extents' in order, each behind the others.
//!
//! Proved: `delimit` sets the two words of an object's part (`delimited`). `clone_part` makes an object whose
//! extents name the same sources: it takes blocks for the object and its extents alone, each source counts its
//! extents, and the account is charged for these blocks alone (`cloned`). Lines are bounded (`works`).
//!
//! Only tested: each call's answers (`tests/cases`).
#![tactic(auto)]

mod charging;
mod cloning;
mod copying;
mod part;
mod span;

pub use cloning::clone_part;
pub use part::delimit;
