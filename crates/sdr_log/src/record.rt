// What the log keeps of a line.

/// A line of the heap region and its bytes.
#[derive(Clone, Copy)]
pub struct Record {
    /// The line's number, from 0.
    pub line: u32,
    pub bytes: [u8; 64],
}
