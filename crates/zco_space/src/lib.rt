//! Tickets: requests for space, granted in the order of their account's queue.
//!
//! 1. A new ticket goes behind those that stand before it: those that are granted, and those of no
//!    less priority.
//! 2. The first ticket that waits is granted while each amount that it asks is at most the room,
//!    and a grant is occupied from then on. The stored callback is told of what is asked and of the
//!    room, and its answer counts.
//! 3. A ticket that is shredded goes, and what is left of its grant is given back.
//!
//! Proved: `request` puts a ticket where its priority says, and serves the queue (`requested`). An answered
//! `serve` leaves a first waiting ticket that asks for more than the room (`served`). `shred` gives back what is
//! left of a grant, and serves (`shredded`). Lines are bounded, 32 for each ticket granted (`works`);
//! `serve` touches those of what is occupied and of the grants alone (`lines`). A refusal leaves them (`untouched`).
//!
//! Only tested: each call's answers (`tests/cases`).
#![tactic(auto)]

mod finding;
mod linking;
mod requesting;
mod serving;
mod shredding;

pub use finding::{Standing, awarded, find_ticket};
pub use requesting::request;
pub use serving::serve;
pub use shredding::shred;
