//! The accounts of space: what is occupied of each space, what may be at most, and the charges that
//! count on both.
//!
//! 1. What is occupied and the maxima stand in control words, one for each space of an account.
//! 2. The tickets of an account are a chain from one control word to another, in queue order. A
//!    ticket is read at once, and its grant is written at once. A walk ends after as many tickets
//!    as the heap has room for.
//! 3. A charge first uses what is left of its ticket's grant. All its checks are made before
//!    anything changes.
//!
//! Proved: `charge` uses its ticket's grant first, and makes every check before it changes anything, in the order
//! BadTicket, NotAwarded, Queue, NoSpace (`charged`, `refused`). Occupancies and maxima are told and set
//! (`given`, `set`). At most 5 lines are touched (`works`), and no other than the words' and the grant's (`lines`) by
//! what sets these; a refusal leaves them (`untouched`).
//!
//! Only tested: occupancies and maxima (`tests/cases`); that the callback is called (`test_things`).
#![tactic(auto)]

mod account;
mod charging;
mod notice;
mod queue;
mod ticket;

pub use account::{
    first_word, last_word, maxima, maximum, occupancy, occupied, release, set_maximum, set_occupied,
};
pub use charging::charge;
pub use notice::{Compares, Notice, Notify, Stored, Tell};
pub use queue::{Found, MOST_TICKETS, Sought, search};
pub use ticket::{Queued, put_grant, read_ticket};
