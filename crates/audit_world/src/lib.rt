//! The world that the bytes of a heap region tell. Of a region that passes the audit `world_in` makes it in memory; and that such a region
//! stands for the world and with the pools that it tells, are laws, each the contract of a function that does nothing.
//!
//! Proved: laws: a region that passes the audit stands for the world that its bytes tell, with no other pools
//! than those (`counted_heaps_stand_for_worlds`, `passing_regions_stand_for_worlds`, `heaps_tell_their_pools`).
//! `world_in` makes that world.
//!
//! Only tested: that it finds memory, and what two worlds are (`test_audit`).
#![tactic(auto)]

mod accounts;
mod blocks;
mod names;
mod pools;
mod telling;
mod things;
mod world;
mod zco;

pub use pools::heaps_tell_their_pools;
pub use telling::{counted_heaps_stand_for_worlds, passing_regions_stand_for_worlds};
pub use world::world_in;
