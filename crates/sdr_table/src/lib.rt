//! Tables: rows of one size by number, each table in one block.
//!
//! 1. A table's block has the user's number, the bytes of a row and the count of rows, then the rows.
//! 2. A row is read or written at once, where it stands.
//!
//! Proved: each call changes the table's one block as its row says, and no other block, with the row's moves and
//! its refusals in their order. A size beyond every number is refused as one above the limit is.
#![tactic(auto)]

mod rows;
mod table;

pub use rows::{LONGEST_ROW, row, set_row};
pub use table::{LARGEST_TABLE, create, destroy, dimensions, user_data};
