// What a daemon may do.

use crate::Call;

/// Why a daemon leaves.
#[derive(Clone, Copy)]
pub enum Leave {
    /// Its script is done.
    Done,
    /// The disk failed.
    Fault,
    /// It found no memory.
    Memory,
    /// It has drawn as many lock numbers as a daemon may.
    Spent,
}

/// One event of a daemon.
#[derive(Drop)]
pub enum Event {
    /// Asks for the lock: draws a number where the daemon holds none.
    Request,
    /// Begins a transaction, or one nested in it.
    Begin,
    /// Makes a call in its transaction.
    Say(Call),
    /// Ends its innermost transaction.
    End,
    /// Cancels it; at the outermost, all that it changed is as before.
    Cancel,
    /// Leaves it; at the outermost, nothing may have been changed.
    Exit,
    /// Looks at a ticket, outside a transaction.
    Look(u64),
    Leaves(Leave),
}
