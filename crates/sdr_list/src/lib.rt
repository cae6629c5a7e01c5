//! Lists: doubly linked elements, each in a block of its own.
//!
//! 1. A list's block has its length and its two ends, an element's its list and its two neighbours.
//! 2. An element comes and goes between two neighbours, each of which is an element or the list's
//!    end. That reads four words at most and sets three, however long the list is.
//! 3. A chain is walked by the list's length, and never for ever.
//! 4. The key of an element is the first bytes of the raw object that its datum names, 64 at most.
//!    Any other datum has the empty key.
//!
//! Proved: each call changes the list's blocks as its row says, and no other block, with exactly the row's moves
//! (`inserted`, `deleted`, `destroyed`, `set`). Ordered insertion and search go by the comparison, for every
//! collation (`ordered`). At most 35 lines are touched, in a destruction 24 for each block.
//!
//! Only tested: lists in order by bytes and by length (`tests/cases`); the orders on keys (`test_things`).
#![tactic(auto)]

mod collation;
mod destroying;
mod element;
mod insert;
mod key;
mod link;
mod list;
mod ordered;
mod orders;
mod reading;
mod remove;

pub use collation::{Collate, Collation};
pub use destroying::destroy;
pub use element::{datum, next, prev, set_datum};
pub use insert::{insert_after, insert_before, insert_first, insert_last};
pub use list::{create, first, last, length, set_user_data, user_data};
pub use ordered::{insert_ordered, search};
pub use orders::{Compare, ListKeys, Stored};
pub use remove::delete;
