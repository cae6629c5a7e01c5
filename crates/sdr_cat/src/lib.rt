//! The catalogue: objects by name, in the order of cataloguing.
//!
//! 1. Its entries are a chain from one control word to another, each in a block of its own.
//! 2. A new name is last. A name is looked for from the front on, and its bytes are read once.
//! 3. A walk ends after as many entries as the heap has room for.
//!
//! Proved: `catlg` adds an entry behind all others, and `uncatlg` takes one out (`catalogued`, `uncatalogued`);
//! all else stays. `find` and `entry` tell what is there (`found`, `given`). Refusals come in their order. At
//! most 30 lines are touched (`works`).
#![tactic(auto)]

mod changing;
mod finding;
mod linking;
mod name;
mod searching;

pub use changing::{catlg, uncatlg};
pub use finding::{entry, find};
