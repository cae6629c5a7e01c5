//! Outbound queues with deadlines: objects wait in three classes, and those that are overdue are destroyed.
//!
//! 1. Four lists keep the queues: one for each class, and the line of all that wait.
//! 2. An item keeps what is said of one that waits: a raw object with its deadline, ordinal, class, sequence number, the
//!    object, and its elements in the list of its class and in the line.
//! 3. The list of a class is in the order of the ordinals, the highest first, and the line in that of the deadlines, the
//!    earliest first. Items that tie stand as they were put.
//! 4. The line's user data is the next sequence number, from 1 on.
//!
//! Proved: `create`, `put`, `take`, `expire`, `length` and `earliest` do what their rules say of whichever queues are kept, and touch no
//! other block (`created`, `put`, `taken`, `expired`, `told`). Over any run of calls that weren't stopped, of the objects that were put
//! just those wait that were neither taken nor overdue at an expiry behind that (`queues_keep`). From a heap without a block or a ticket
//! on, each call hands on what the next one needs (`bundles_keep`).
//!
//! Only tested: that the calls succeed with ample memory, and at which addresses (`test_queue`).
#![tactic(auto)]

mod class;
mod expiring;
mod item;
mod laws;
mod orders;
mod putting;
mod queues;
mod taking;

pub use class::Class;
pub use expiring::expire;
pub use laws::{bundles_keep, queues_keep};
pub use orders::{EarliestFirst, HighestFirst, Orders};
pub use putting::{LAST_NUMBER, put};
pub use queues::{FIRST_NUMBER, Queues, create, earliest, length};
pub use taking::take;
