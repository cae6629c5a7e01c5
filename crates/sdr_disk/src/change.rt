// What a disk in memory remembers of its writes and syncs.
use sdr_base::Bytes;

/// How a write or a sync ended.
#[derive(Clone, Copy, PartialEq, Eq)]
pub enum Outcome {
    Done,
    Failed,
}

/// A write or a sync that was made, and how it ended.
#[derive(Drop)]
pub enum Change {
    Write {
        place: u64,
        from: Bytes,
        outcome: Outcome,
    },
    Sync(Outcome),
}

/// A change, with what stood where it wrote.
#[derive(Drop)]
pub struct KeptChange {
    pub change: Change,
    pub before: Bytes,
}
