//! The heap: blocks of a kind and a length in both pools, over any `Cells`, with the marks and the
//! moves of a transaction; and the calls on raw objects over any `Objects`.
//!
//! 1. A block in use has its kind and its length in its leader. A small one has just the words that
//!    its length needs, a large one those or more.
//! 2. A request takes the small pool's block, or else the large one's. The block is zero bytes, and
//!    marked.
//! 3. Each block taken and given back is a move. Room for all moves of one call is taken when the
//!    heap is made, and so are the marks: no later call takes memory.
//! 4. The map of the blocks and the pools are read from the cells, and nothing of them is kept
//!    beside.
//!
//! Where a call answers anything but `Ok` or `NoBlock`, the bytes may keep no heap: the transaction
//! has to be cancelled.
//!
//! Proved: a take gives a marked block of zero bytes by the rules of both pools, and `NoBlock` exactly where
//! these give none. A give, a write and a control word change only what they name. After each call the blocks
//! tile the heap (`works`). `free` of a raw object that a source names is refused (`refused`). Only `new` takes memory.
//!
//! Only tested: the addresses of rows of calls on a heap over an `Image`, against literals.
#![tactic(auto)]

mod blocks;
mod choosing;
mod giving;
mod heap;
mod marks;
mod moves;
mod objects;
mod raw;

pub use heap::{Heap, HeapShut};
pub use raw::{free, length, malloc, read, stage, write};
