//! An audit of the counts and the queues in a heap region, behind the audit of its owners.
//!
//! What blocks and control words tell of other blocks has to be what those come to. It is checked in this order, over a copy of the
//! region in memory:
//!
//! 1. Lists, hashes and names are right, which `audit_owners` tells (`wrong_key`).
//! 2. Each source tells for both accounts how many extents of that account's objects name it (`wrong_source`).
//! 3. Sources, extents and objects keep the rules of one another (`wrong_rule`).
//! 4. The control words of both accounts tell what is occupied: what objects charge, for themselves, their extents, headers and
//!    trailers; the whole length of each source that they name, by the counts of step 2; and what is left of tickets
//!    (`wrong_occupancy`). Steps 1 to 4 are `wrong_count`.
//! 5. The queues of tickets keep their law, the inbound one first (`wrong_queue`).
//!
//! The blocks of a chain are those to which its links lead; where the owners are right, these are the chain's, and each step is linear
//! (`chains_are_members` in `audit_owners`). `wrong_thing` checks a region's owners, and takes these steps;
//! it tells what is wrong first. A region that passes isn't wrong anywhere (`right_regions_are_not_wrong`), and another is
//! wrong first at one place alone (`one_place_is_wrong_first`). A small bundle, counted: `a_bundle_is_counted`.
//!
//! Proved: `wrong_thing` finds nothing only where owners, counts, rules, occupancies and queues are right, and else what
//! is wrong first. A region that passes isn't wrong anywhere, and another is wrong first at one place, by one check
//! (`one_place_is_wrong_first`).
//!
//! Only tested: that it finds memory, and which places it gives, in numbers (`test_audit`).
#![tactic(auto)]

mod audit;
mod charges;
mod counts;
mod examples;
mod laws;
mod occupied;
mod queues;
mod rules;
mod tickets;

pub use audit::{wrong_count, wrong_thing};
pub use examples::a_bundle_is_counted;
pub use laws::{one_place_is_wrong_first, right_regions_are_not_wrong};
pub use queues::wrong_queue;
