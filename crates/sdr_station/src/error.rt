// Why a heap isn't opened.
use sdr_audit::Check;

/// Why a heap isn't opened.
#[derive(Clone, Copy, Debug, PartialEq, Eq)]
pub enum OpenError {
    /// The disk gives no heap.
    NotFormatted,
    /// No world stands for the heap that the disk gives, by what is wrong first, at a place in it.
    Damaged { place: u64, why: Check },
    /// The disk failed.
    DiskFault,
    /// There is no memory for the heap, or for the undo of a transaction.
    NoMemory,
}

/// A disk whose heap isn't opened, and why. Its bytes are as before where it didn't fail, but for open batches
/// that were put back. The media are those that were handed in with it.
#[derive(Drop)]
pub struct Shut<D, M> {
    pub why: OpenError,
    pub disk: D,
    pub media: M,
}
