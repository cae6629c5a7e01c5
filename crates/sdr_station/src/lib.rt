//! Transactions on the disk.
//!
//! 1. `HeapGround` is a heap on an image as the ground of a lock. What it stands for is a relation: the bytes at begin stand
//!    for the world before the transaction, and the heap now for the one that it has made. Each call is a step of the machine.
//!    Those that ask an object's bytes read the media that its sources name, and no other does.
//! 2. Where a changing call is refused, the transaction can only be put back: another call, and a commit, may not be asked for.
//!    `HeapGround` tells the moves of its last call and the bytes that it shows, and how many there may be (`Tells`).
//! 3. `Station` nests transactions on such a ground: an end is all or nothing, a doomed call is refused, and after a disk
//!    fault everything fails.
//!
//! Proved: a heap on an image is a ground of the lock (`Backing for HeapGround`): each call is a step of the
//! machine, and a crash at any moment leaves the world before the transaction or, in its end, that or the new
//! one. Opening takes exactly the heaps that stand for a world (`opened`, `why`). `Station` nests transactions.
//! A reading call touches no line (`lines`), and where none is touched the disk is only read (`quiet`). A call, a look and a close may meet a
//! fault of the disk, whose count then rose; the heap stands for nothing behind it (`fault`). A close that has touched no line makes no call
//! of the disk, nor does one that puts back where no batch is open; each other makes at most a write for each line and seven writes and
//! syncs more (`AsksDisk`). Opening only reads
//! a disk on which no batch is open, and else makes a write for each line that it puts back and at most three writes and syncs more (`quiet`, `calls`).
//! On every outcome a call asks media at most once for each extent that lies with them and of which it needs bytes, in the world for
//! which the heap stands (`asks`); ends, cancels, exits and looks leave them (`media`).
//! No byte outside the disk's regions changes (`inside`), and a disk that wasn't opened may be handed in again,
//! unless it failed as its recovery closed the first gate (`again`).
#![tactic(auto)]

mod closing;
mod error;
mod ground;
mod sending;
mod station;
mod tells;

pub use error::{OpenError, Shut};
pub use ground::HeapGround;
pub use sending::ground_is_send;
pub use station::{Closed, Station};
