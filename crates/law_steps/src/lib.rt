//! Laws above one step of the object machine: what holds of every call, whichever it is. Each law is the
//! contract of a function that does nothing.
//!
//! 1. A refused call and a fault leave the world (`refused_leaves`). A stop on the way is the answer of no row
//!    (`stops_are_no_rows`).
//! 2. A reading call changes nothing but the bytes shown, and `stage` adds a mark (`reading_shows`).
//! 3. An answered call has just the moves of its row (`moves_are_the_rows`).
//! 4. A row leaves no choice but that of the addresses of blocks taken and of the bytes that media give
//!    (`rows_decide`), and without a heap that of bytes alone (`dry_decides`).
//! 5. A changing call that is answered marks just the blocks that it takes (`taken_are_marked`).
//! 6. The blocks of a valid world, in which sources and extents fit each other, change just by the moves
//!    (`blocks_move`), and the one that begins at an address is among them (`blocks_are_found`).
//! 7. A valid world stays valid, where the blocks taken are fresh (`valid_kept`). Where there is no heap,
//!    addresses by a count are fresh (`valid_kept_dry`), so every world that is reached there is valid
//!    (`dry_worlds_are_valid`).
//! 8. The numbers of a world keep fitting the fields of its blocks, bytes and words (`fields_fit`).
//! 9. Both queues of tickets keep their order, and the numbers stay distinct (`queues_kept`).
//! 10. Where a queue has been served, the first ticket that waits asks for more than the room
//!     (`served_is_barred`), and each step keeps that (`front_kept`).
//! 11. What is occupied moves by what a call charges, releases and grants (`occupancy_moves`).
//! 12. A clone takes blocks for an object and for extents alone (`clone_takes_no_payload`).
//! 13. Sources and extents fit each other after each step: the source of an extent is never gone, and
//!     one that goes with its last extent has one until then (`sources_kept`).
//! 14. So a whole world stays whole (`whole_kept`), and each that is reached without a heap is whole.
//! 15. Both orders of a list's keys are total (`key_orders_are_total`).
//!
//! `example_meets_the_laws`, `small_world_meets_the_laws` and `fresh_world_meets_the_laws` show worlds and
//! steps that meet what the laws ask for. `a_source_is_charged_once` tells what objects of both accounts
//! charge that name one file.
//!
//! Proved: laws of every step: a whole world stays whole (`whole_kept`); an extent's source is never gone
//! (`sources_kept`); queues keep their order (`queues_kept`); blocks change just by the moves (`blocks_move`); a
//! refused call and a media fault leave the world (`refused_leaves`); a clone takes no payload
//! (`clone_takes_no_payload`).
#![tactic(auto)]

mod blocks;
mod clones;
mod decided;
mod example;
mod fields;
mod marks;
mod moves;
mod occupancies;
mod orders;
mod queues;
mod reading;
mod refused;
mod sources;
mod validity;
mod zco_example;

pub use blocks::{blocks_are_found, blocks_move};
pub use clones::clone_takes_no_payload;
pub use decided::{dry_decides, rows_decide};
pub use example::example_meets_the_laws;
pub use fields::fields_fit;
pub use marks::taken_are_marked;
pub use moves::moves_are_the_rows;
pub use occupancies::{front_kept, occupancy_moves, served_is_barred};
pub use orders::key_orders_are_total;
pub use queues::queues_kept;
pub use reading::reading_shows;
pub use refused::{refused_leaves, stops_are_no_rows};
pub use sources::sources_kept;
pub use validity::{dry_worlds_are_valid, valid_kept, valid_kept_dry, whole_kept};
pub use zco_example::{
    a_source_is_charged_once, fresh_world_meets_the_laws, small_world_meets_the_laws,
};
