//! An audit of who owns each block of a heap region in memory, behind the audit of the region's structure, and of what lists, hashes
//! and names tell of what they own.
//!
//! Blocks are linked into chains: the catalogue's entries, the tickets of both accounts, and the elements, entries, extents and
//! capsules of lists, hashes and zero-copy objects. It is checked in this order:
//!
//! 1. The chains whose ends stand in control words, and then those of the blocks by rising address, are right: each link leads to
//!    a block of the chain's kind that no chain reached before, and which names its owner and the block before it; and the word
//!    for the last block is right (`check_chains`).
//! 2. Extents, sources and raw objects name one another, and each block that only stands in chains was reached (`check_rules`).
//!
//! `check_owners` takes both steps over a region in memory, and tells the first place that is wrong. A heap that passes isn't
//! wrong anywhere (`owned_heaps_are_not_wrong`), and another is wrong first at one place alone (`one_place_is_wrong_first`). The
//! blocks that keep a row of things make a chain (`linked_rows_make_chains`), and a right chain's are such (`chains_are_linked_rows`),
//! where each is that of what is read of it, as it is in the form of its kind (`chained_blocks_read_back`).
//! Small heaps with one thing wrong in each: `small_heaps_are_wrong_so`.
//!
//! Where the owners are right, the blocks of a chain are those to which its links lead, as many as the region has words at most
//! (`members`, `chains_are_members`). `wrong_key` then checks in this order, each of all blocks by rising address:
//!
//! 1. A list tells how many elements it has.
//! 2. A hash tells how many entries it has; each has a key of the hash's length, in its bucket; and no two have the same key.
//! 3. No entry of the catalogue, in its order, has the name of an earlier one.
//!
//! Proved: `check_owners` answers Ok exactly where all chains and the five rules are right (`owned`), and else
//! the first wrong place (`wrong`), whatever the bytes, and takes no memory. Right chains are rows of linked
//! blocks, and such rows are right chains (`chains_are_linked_rows`, `linked_rows_make_chains`). `wrong_key` is the first
//! wrong list, hash or name of the definition, and none exactly where all are right (`keyed_regions_are_not_wrong`).
//!
//! Only tested: which places its rules give, in numbers (`test_audit`).
#![tactic(auto)]

mod chain;
mod check;
mod entries;
mod error;
mod examples;
mod key_chain;
mod key_check;
mod key_laws;
pub mod key_rules;
mod laws;
mod linking;
mod owner;
mod owners;
mod region;
mod rules;
mod scan;
mod texts;

pub use check::check_owners;
pub use error::Wrong;
pub use examples::small_heaps_are_wrong_so;
pub use key_chain::members;
pub use key_check::wrong_key;
pub use key_laws::{chains_are_members, keyed_regions_are_not_wrong};
pub use key_rules::KeyRule;
pub use laws::{one_place_is_wrong_first, owned_heaps_are_not_wrong};
pub use linking::{chained_blocks_read_back, chains_are_linked_rows, linked_rows_make_chains};
pub use owner::{Owner, Site};
pub use region::{is_kind, length_of, root, word};
pub use rules::{OwnerRule, names_raw};
pub use scan::{next_block, next_of};
pub use texts::EntryText;
