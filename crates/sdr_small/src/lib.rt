//! The small pool of a heap: blocks of 1 to 64 words, from 64 lists of free blocks and a place from
//! which new ones are cut, over any `Cells`.
//!
//! 1. Small blocks follow one another from the first block place to `low`. A block is a leader and
//!    its words; its address is that of its first word, and it never grows, shrinks or merges.
//! 2. A free block stands in the list of its words, and in no other. Its first word is the next of
//!    that list.
//! 3. Exactly the blocks in use have their start bit set.
//! 4. A request takes the front of the list of its words; else a new block at `low`, where that
//!    ends at `high` or below; else none. A block that is given back becomes the front of its list.
//!
//! Where a call answers anything but `Ok`, the bytes may keep no pool: the transaction has to be
//! cancelled.
//!
//! Proved: `take` and `give` follow the rules of the pool exactly (`taken`, `given`). A take touches at most 6
//! lines, a give 20 (`room`), and a take that gives no block none (`none`). Both are refused only where the log
//! has no room (`refused`).
//!
//! Only tested: that calls succeed, with the addresses of the rules (`tests/cases`).
#![tactic(auto)]

mod giving;
mod taking;

pub use giving::give;
pub use taking::take;
