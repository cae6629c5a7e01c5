// What the machine answers.
use sdr_base::{Addr, Reason, Refusal};

/// The answer to a call. Every refusal, fault and `Failed` is a reply, also where the event isn't a
/// call.
#[derive(Clone, Copy, Debug, PartialEq, Eq)]
pub enum Reply {
    /// It was done.
    Done,
    /// What was made or found is at this address.
    At { addr: Addr },
    Value { value: u64 },
    Pair { first: u64, second: u64 },
    /// So many bytes were given; they are the ones that the world shows.
    Bytes { count: u64 },
    /// An entry of the catalogue: the bytes of its name, its type and its object.
    Named { count: u64, kind: u32, addr: u64 },
    /// A ticket's number, and whether it was granted at once.
    Ticket { number: u64, granted: bool },
    Refused(Refusal),
    /// A read of a file or an item failed. The call changed nothing.
    MediaFault,
    /// The disk failed. The transaction is over.
    DiskFault,
    /// The disk failed before, and had this moment then. The heap has to be opened again.
    Failed { moment: u64 },
}

/// How a transaction closed.
#[derive(Clone, Copy, Debug, PartialEq, Eq)]
pub enum Close {
    Ended,
    /// It was left by an exit, with nothing changed.
    Exited,
    Cancelled(Reason),
    /// The disk failed. No answer is this one.
    Faulted,
}

/// The answer to an event.
#[derive(Clone, Copy, Debug, PartialEq, Eq)]
pub enum Answer {
    /// The daemon's lock number.
    Lock { number: u64 },
    /// The depth of nested transactions after an inner begin, end, cancel or exit.
    Depth { depth: u64 },
    /// The outermost transaction closed.
    Closed(Close),
    Reply(Reply),
    /// The ticket that was looked at is granted.
    Awarded,
    /// It waits.
    Waits,
    /// It waits, and no daemon is left that could serve it.
    Stalled,
}
