// Places in chains of extents.
use sdr_base::Addr;

// A place in a chain of extents: the last one before it, and the first one behind it, 0 for none.
#[derive(Clone, Copy)]
pub struct Gap {
    pub previous: Addr,
    pub next: Addr,
}

// The first and the last extent of a chain, 0 for none.
#[derive(Clone, Copy)]
pub struct Chain {
    pub first: Addr,
    pub last: Addr,
}
