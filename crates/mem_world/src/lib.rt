//! A world in memory that can be put back to what it was at the begin of the open transaction, and whole changes of it: what is
//! charged for blocks, requests of tickets, components of objects, and what goes.
//!
//! 1. Contracts see the world at the begin and the world now, and which addresses were touched since.
//! 2. Where a change is refused, the world is as before. Where one finds no memory, the world now is as before: what was charged is
//!    given back.
//! 3. What an account is charged and how many extents name a source are asked of the store, which keeps both. A source that names a raw
//!    object is looked for in the things where one ever did.
//!
//! Proved: by the invariant of `DraftWorld` things own the blocks inside them (`AllOwnInside`). Blocks, charges,
//! rooms, uses and the source of a raw object are found as defined (`block`, `occupied`, `room`, `uses`,
//! `source_naming`). `roll_back` gives the world at begin. A charge is allowed or refused as the account says, and given back
//! where nothing comes of it (`allowed`, `refused`, `same`, `err`). Requests, components and what goes with extents are as defined.
#![tactic(auto)]

pub mod bonding;
pub mod charging;
mod draft_world;
pub mod dropping;
pub mod growing;
pub mod taking;

pub use draft_world::DraftWorld;
