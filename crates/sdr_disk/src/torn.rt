// How a crash tears what was written.

/// How much a crash leaves of each write that no sync has made last.
#[derive(Clone, Copy)]
pub enum Torn {
    /// Nothing: what stood in its range at the last good sync.
    Old,
    /// All of it, though it may have failed.
    New,
    /// Nothing of it, and this byte in all of its range.
    Filled(u8),
}
