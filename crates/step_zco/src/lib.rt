//! The calls on sources, on accounts and tickets, and those that make, fill, measure and destroy zero-copy objects, as steps of the
//! machine, over any blocks.
//!
//! 1. Each call is a step of the machine on the world that the blocks stand for, whatever that has.
//! 2. A call that makes room in an account, or takes from an object, serves the account's queue itself: that is part of its step.
//! 3. A look sees of a ticket what the world shows.
//! 4. Sources, objects and the queues of accounts are kept, with what they name and what they may name, wherever a heap stands for
//!    such a world.
//!
//! Proved: each of these calls is a step of the machine, with its charges, counts and queue (`comes`), within its lines and 32
//! for each ticket granted (`works`). `serve` leaves blocks that stand for the world with the queue served (`served`). `look`
//! tells what the world shows, and touches no line (`seen`, `looks`).
//!
//! Only tested: each call's answers (`tests/cases`).
#![tactic(auto)]

pub mod accounts;
pub mod appending;
pub mod capsules;
pub mod destroying;
pub mod objects;
pub mod sources;
pub mod tickets;

pub use accounts::serve;
pub use tickets::look;
