// Parts of a text that are filled.

use sdr_base::Addr;

/// A part of a text: its first byte, how many they are, and the clone that has them. 0 is none: then the part is a gap.
#[derive(Clone, Copy, Debug, PartialEq, Eq)]
pub struct Filled {
    pub offset: u64,
    pub length: u64,
    pub object: Addr,
}
