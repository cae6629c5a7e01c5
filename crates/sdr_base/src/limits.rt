// The limits of things, in bytes where nothing else is said.

/// A raw object, and the rows of a table together. A table also has at most so many rows, and a row so
/// many bytes.
pub const LONGEST_RAW: u64 = 1_048_576;

/// A string.
pub const LONGEST_STRING: u64 = 255;

/// A name in the catalogue, which has at least one.
pub const LONGEST_NAME: u64 = 31;

/// A key of a hash, which has at least one.
pub const LONGEST_KEY: u64 = 255;

/// The buckets of a hash, of which there is at least one.
pub const MOST_BUCKETS: u64 = 256;

/// What one read gives.
pub const LONGEST_READ: u64 = 4_096;

/// The key of a list's comparison.
pub const LONGEST_SORT_KEY: usize = 64;

/// The path of a file, which has at least one.
pub const LONGEST_PATH: u64 = 255;

/// A source.
pub const LONGEST_SOURCE: u64 = 1 << 40;

/// A header or trailer, which has at least one.
pub const LONGEST_CAPSULE: u64 = 1_024;
