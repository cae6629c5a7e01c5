// Why a call had no reply.

/// The disk failed.
#[derive(Clone, Copy)]
pub struct Fault;

/// Why a call had no reply.
#[derive(Clone, Copy)]
pub enum Halt {
    /// It found no memory; all is as before.
    Memory,
    /// The disk failed.
    Fault,
}
