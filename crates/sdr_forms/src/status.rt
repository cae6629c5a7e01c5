// The statuses that the top call gives.

/// All was done, and the input read to its end.
pub const DONE: u8 = 0;

/// The words are no form that the tool knows.
pub const USAGE: u8 = 2;

/// The input failed.
pub const INPUT_FAULT: u8 = 3;

/// The output failed.
pub const OUTPUT_FAULT: u8 = 4;

/// The disk failed.
pub const DISK_FAULT: u8 = 5;

/// The disk gives no heap.
pub const NOT_FORMATTED: u8 = 6;

/// No world stands for the heap that the disk gives.
pub const DAMAGED: u8 = 7;

/// A line of the script is refused, before anything runs.
pub const REFUSED_LINE: u8 = 8;

/// There was no memory.
pub const NO_MEMORY: u8 = 9;

/// The regions take more bytes than the disk has.
pub const TOO_SMALL: u8 = 10;
