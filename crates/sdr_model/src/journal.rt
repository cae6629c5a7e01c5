// The history of transactions, by rising lock number.
use crate::{Answer, Close, Event, Leave};
use sdr_base::{Bytes, Items, Move};

/// The moves of a call, in order.
pub type Moves = Items<Move>;

/// One event of a transaction and its answer.
#[derive(Drop)]
pub struct Said {
    /// The line of the statement, from 1.
    pub line: u64,
    pub event: Event,
    pub answer: Answer,
    /// The bytes that the call gave.
    pub bytes: Bytes,
    pub moves: Moves,
}

/// The events of a transaction, from its first begin to its closing event. A look that met a disk fault
/// stands alone in an entry of its own.
pub type Saids = Items<Said>;

/// What an entry is of.
#[derive(Drop)]
pub enum What {
    /// A transaction, and how it closed.
    Work { said: Saids, close: Close },
    /// A look at a ticket that waited.
    Waits { ticket: u64 },
    /// A look at a ticket that was granted.
    Awarded { ticket: u64 },
    /// A second look at a ticket that waited, where no daemon was left that could serve it.
    Stalled { ticket: u64 },
    /// The daemon left.
    Leaves { leave: Leave },
}

/// An entry of the journal.
#[derive(Drop)]
pub struct Entry {
    /// The lock number.
    pub number: u64,
    pub daemon: u8,
    /// The disk's moment as the closing event was made.
    pub begun: u64,
    /// The disk's moment as the closing event returned: from then on the entry is acknowledged.
    pub done: u64,
    pub what: What,
}

/// The entries by rising lock number.
pub type Journal = Items<Entry>;
