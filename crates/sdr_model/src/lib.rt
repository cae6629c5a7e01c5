//! The object machine as plain data and definitions: the world that a user sees, and one step of the machine.
//! No code here changes a world; amounts of space are reckoned here.
//!
//! 1. A world has maps and lists, and no count, sum or address chain that could disagree with them.
//! 2. One call is one step: a relation by cases on the call, with its refusals in a fixed order.
//! 3. A world is whole where it is valid, its sources and extents fit each other, and its queues keep their laws.
//! 4. The same definitions are cited by the machine in memory and by that over a heap.
//!
//! Proved: definitions of the world and of one step of a call (`ScriptStep`, `ByRow`), of valid and whole worlds. The
//! pieces of a transmit, joined, are the bytes that it asks for (`pieces_told-part`, `asked-row`).
//!
//! Only tested: each call's answers (`tests/cases`).
#![tactic(auto)]

mod accounts;
pub mod amounts;
mod answer;
mod call;
mod event;
mod hash;
mod journal;
mod keys;
mod name;
mod piece;
mod script;
mod table;
mod things;
mod world;
mod zco;

pub use accounts::{Account, Accounts, MOST_AMOUNT, Pending, Ticket};
pub use answer::{Answer, Close, Reply};
pub use call::Call;
pub use event::{Event, Leave};
pub use hash::SdrHash;
pub use journal::{Entry, Journal, Moves, Said, Saids, What};
pub use keys::Keys;
pub use name::Name;
pub use piece::Piece;
pub use script::{Arg, Args, Script, ScriptStep};
pub use table::SdrTable;
pub use things::{Element, HashEntry, SdrList, Spot, Thing, UsedBlock};
pub use world::{Parts, World};
pub use zco::{Capsule, Extent, Part, Subject, ZcoObject, ZcoSource};
