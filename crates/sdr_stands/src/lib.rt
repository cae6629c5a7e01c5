//! When the bytes of a heap stand for a world. Each law is the contract of a function that does nothing.
//!
//! `StandsFor` says it of the bytes of a heap region between transactions, and `HeapStandsFor` of a heap in a
//! transaction: the blocks in use are just the world's, each with the bytes of what it keeps, and the control words
//! are the world's. That the world is whole is a fact beside it.
//!
//! 1. A part of the blocks in use becomes another, and all else stays (`parts_change`).
//! 2. A thing that comes, changes or goes is such a part (`things_change`). Where what is there then names what was
//!    named there before, nothing changes in other things' blocks (`alike_things_tie_alike`), so it is a part of the
//!    world's (`alike_things_are_parts`); and one that is neither a source nor a zero-copy object changes no control
//!    word besides (`untied_things_stay_apart`). The catalogue and each queue are parts too (`names_and_tickets_change`).
//! 3. So a heap stands for the world with the other part (`a_part_changes`), and with the thing that came, changed or
//!    went (`a_thing_comes`, `a_thing_changes`, `a_thing_goes`).
//! 4. The blocks in use are the blocks of the world, no more and no fewer (`no_block_leaks`).
//! 5. A fresh heap stands for the world without things, which is whole (`fresh_heap_stands`).
//! 6. A transaction begins with a heap that stands for the world at rest, and ends with bytes that stand for it
//!    (`transactions_begin_and_end`).
//! 7. A small world, byte by byte (`bundle_is_kept_so`), and where the control words stand
//!    (`control_words_stand_so`).
//!
//! Proved: laws: as a thing, a name or a ticket comes, changes or goes, the heap stands for the changed world
//! (`a_thing_comes`, `a_thing_changes`, `a_thing_goes`, `a_part_changes`). The blocks in use are just the world's
//! (`no_block_leaks`). A fresh heap stands for a whole world without things (`fresh_heap_stands`).
#![tactic(auto)]

mod blocks;
mod changes;
mod example;
mod fresh;
mod parts;
mod rest;

pub use blocks::no_block_leaks;
pub use changes::{a_part_changes, a_thing_changes, a_thing_comes, a_thing_goes};
pub use example::{bundle_is_kept_so, control_words_stand_so};
pub use fresh::fresh_heap_stands;
pub use parts::{
    alike_things_are_parts, alike_things_tie_alike, names_and_tickets_change, parts_change,
    things_change, untied_things_stay_apart,
};
pub use rest::transactions_begin_and_end;
