//! What a world in memory is kept in, each with an undo of its own: the things, the catalogue and both accounts. Each
//! is put back to what it was at the begin of the open transaction.
//!
//! 1. What is changed is noted once in a transaction, with what it was before; putting back takes as long as the changes.
//! 2. Each block inside a thing has an owner, by which it is found.
//! 3. A tally of each account says how many extents of its objects name each source, and what they charge it. Each change of a thing takes
//!    the thing out of it and puts it in again, so a charge looks at no thing. A tally that no memory or no word holds is lost, and
//!    what it would say is found in passes over the things.
//!
//! Proved: what was touched of things, catalogue and accounts is put back as it was at begin, or kept as the next
//! begin (`roll_back`, `keep`). An account is charged for its objects, and once for each source that they name (`charged`), by a
//! tally that is right after each change (`Tallies`).
#![tactic(auto)]

mod catalogue;
mod charged;
mod ledger;
mod names;
mod owners;
mod place;
mod store;
mod tallied;
mod tally;

pub use catalogue::Catalogue;
pub use ledger::Ledger;
pub use names::{Named, Names};
pub use owners::Owners;
pub use place::Place;
pub use store::Store;
