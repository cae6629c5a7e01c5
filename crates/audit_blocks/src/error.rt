// What an audit finds wrong.

/// The check that found something wrong, in the order in which they are taken.
#[derive(Clone, Copy, Debug, PartialEq, Eq)]
pub enum Check {
    /// The control words.
    Control,
    /// The blocks of both pools, as their leaders tell.
    Block,
    /// The start bits.
    Bits,
    /// The lists of free blocks.
    Free,
    /// What stands in a block in use.
    Content,
    /// The chains of blocks, and who names whom.
    Owner,
    /// What lists, hashes and sources count, and what is occupied.
    Count,
    /// The queues of tickets.
    Queue,
}

/// What is wrong first in a heap region.
#[derive(Clone, Copy, Debug, PartialEq, Eq)]
pub struct Damage {
    /// Where it is, in bytes: the place of a byte, of a control word or of a block, or a block's address.
    pub place: u64,
    /// The check that found it.
    pub why: Check,
}
