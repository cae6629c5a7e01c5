// An entry of the catalogue.
use sdr_base::{Addr, Bytes};

/// An entry of the catalogue.
#[derive(Drop)]
pub struct Name {
    /// The address of the entry's own block.
    pub block: Addr,
    pub name: Bytes,
    /// The type, a number of the user's.
    pub kind: u32,
    /// The object, a plain number.
    pub object: u64,
}
