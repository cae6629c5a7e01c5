//! Hashes: values by keys of one length.
//!
//! 1. A hash's block has the bytes of a key, the count of buckets, the count of entries, and then the
//!    first entry of each bucket. Its entries are a chain for each bucket, each in a block of its own.
//! 2. The bucket of a key is the sum of its bytes modulo the buckets. A call walks that bucket alone,
//!    and reads the key of an entry once. A new entry goes to the front of its bucket.
//! 3. A walk ends after as many entries as the heap has room for.
//!
//! Proved: each call works on the bucket of its key, and changes no other block (`inserted`, `revised`,
//! `removed`, `destroyed`), with exactly the row's moves and refusals in their order (`refused`). At most 38
//! lines are touched, and in a destruction 24 for each block.
#![tactic(auto)]

mod bucket;
mod changing;
mod destroying;
mod entry;
mod hash;
mod searching;

pub use changing::{insert, remove, revise};
pub use destroying::destroy;
pub use hash::{count, create};
pub use searching::retrieve;
