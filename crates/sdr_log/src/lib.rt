//! The undo log: the lines that a crash would put back, the head of the disk that says where the
//! log region and the heap region lie, and recovery.
//!
//! 1. A disk has a head of one line, then the log region, then the heap region.
//! 2. A batch in the log region is a gate byte, a count, and as many records, each a line's number
//!    and its old bytes. The next gate stands behind it, so the batch ends before the region does.
//! 3. A gate of 0 is closed. The open batches are those from the first gate on, up to the first
//!    closed one.
//! 4. The heap put back is the heap region with the old bytes of each line that an open batch
//!    names.
//! 5. Lines are changed in steps, each synced before the next begins: `write_batch` writes the
//!    batch of their old bytes behind its closed gate, with the next gate closed too, and opens its
//!    gate; `put_lines` writes the lines; `close` closes the first gate.
//! 6. Up to there a crash leaves what is put back to the heap from before, and from there on the
//!    lines as changed.
//! 7. A transaction may write lines before it ends: `spill` opens a batch of their old bytes behind the open ones
//!    and puts the lines, and `put_through` puts a line that is named already. Up to its end a crash leaves the
//!    bytes at begin. It ends with `end_with` or `end_spilled`, or is undone by `undo`, which puts the old bytes
//!    back as it reads them and closes the first gate.
//! 8. `read_frame` reads the head. `put_back_found` then checks all open batches, puts their lines
//!    back and closes the first gate; `put_back` does both. A crash on the way leaves what is put
//!    back to the same heap.
//!
//! Proved: in `write_batch`, `put_lines` and `close`, a crash at any moment leaves what is put back to the heap
//! before, or, from `close` on, to the changed lines (`any_moment`). Recovery gives the heap that the disk gave
//! (`back`), and `BadLog` exactly where it gives none. Where nothing was pending before it, a crash leaves at each
//! moment other bytes in the lines that open batches name and at the first gate alone, and another gate only over
//! old lines (`left`). After a fault in recovery the disk may be put back again, or bytes are pending at its first
//! gate alone, over lines that are put back and synced (`faulted`).
//! No call changes a byte outside the log region and the heap region (`inside`).
//!
//! Only tested: heads; recovery at each moment of a change of two lines, with each tear; a fault at each call of
//! a recovery; wrong logs.
#![tactic(auto)]

mod batch;
mod closing;
mod ending;
mod error;
mod finding;
mod frame;
mod gathering;
mod lines;
mod noted;
mod reading;
mod record;
mod recovery;
mod saving;
mod spilling;
mod undoing;

pub use batch::write_batch;
pub use closing::close;
pub use ending::{end_spilled, end_with};
pub use error::BackError;
pub use finding::read_frame;
pub use frame::{Frame, LEAST_LOG, MOST_LOG};
pub use lines::put_lines;
pub use record::Record;
pub use recovery::{put_back, put_back_found};
pub use spilling::{put_through, spill};
pub use undoing::undo;
