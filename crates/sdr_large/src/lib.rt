//! The large pool of a heap: blocks that are found by order, cut, merged and given back, over any
//! `Cells`.
//!
//! 1. Large blocks follow one another from `high` to the end of the heap. A block has two words
//!    before its own and two behind them, its frame: a leader, the next of its list, the one before
//!    it in its list, and a last word with its size and whether it is in use.
//! 2. A free block stands in the list of its order, the place of the highest bit of its words, and
//!    in no other. The lists are linked both ways.
//! 3. No two free blocks touch, and the block at `high` isn't free.
//! 4. Exactly the blocks in use have their start bit set.
//! 5. A request takes the first block of the list of its order that has as many words; else the
//!    front of the first higher list that isn't empty; else a new block that ends at `high`, where
//!    that begins at `low` or above; else none. Where 12 words or more would be left, only the low
//!    end is taken.
//! 6. A block that is given back is one with the free blocks that touch it. Where that begins at
//!    `high`, `high` becomes its end; else it becomes the front of the list of its order.
//!
//! The code moves from pool to pool over a gap: a block that leaves its list or its use is a gap,
//! which grows over its neighbours and is filled again, so that each step keeps all other blocks.
//!
//! What a call reads and writes, in cells, beside 2 reads for each block that is passed in the list
//! of the request's order, which is all that grows with the heap:
//!
//! | | Reads | Writes |
//! |---|---|---|
//! | a block of the own list, whole | 6 | 7 |
//! | a block of the own list, cut | 8 | 13 |
//! | a block of a higher list, whole or cut | up to 20 more | the same |
//! | a new block | up to 24 | 6 |
//! | none | up to 23 | 0 |
//! | giving back at `high` | 6, and 3 where the one above is free | 2, and 2 there |
//! | giving back into a list | 9, and 3 for each free neighbour | 7, and 2 for each |
//!
//! Where a call answers anything but `Ok`, the bytes may keep no pool: the transaction has to be
//! cancelled.
//!
//! Proved: `take` and `give` follow the rules of the pool exactly, with cutting and merging (`taken`, `given`).
//! Other blocks in use stay (`others`), and no two free blocks touch. At most 20 lines are touched (`room`), and
//! none by a take that gives no block (`none`). The calls of each pool keep the other pool.
//!
//! Only tested: that calls succeed, with the addresses of the rules (`tests/cases`).
#![tactic(auto)]

mod block;
mod finding;
mod giving;
mod links;
mod taking;

pub use giving::give;
pub use taking::take;
