//! Pieces of a zero-copy object, and the text that they make again: fragments and their reassembly, without a copied byte.
//!
//! 1. A piece is an object of some bytes of a text, with its offset in the text and the text's length. `cut` makes it as a
//!    clone of a part of an object.
//! 2. A text that is rebuilt keeps the parts that are filled, by rising offset: each is a clone of bytes of a piece. What of a
//!    piece is filled already is not cloned again, so no byte stands there twice.
//! 3. Where nothing is missing, the clones become one object, and they go (`zco_join`).
//!
//! Proved: `count` and `cut` do what their rules say of whichever object is kept (`told`, `cut`), `add` clones just the gaps that its
//! piece meets (`added`), and `missing` tells the bytes that
//! aren't filled. `finish` makes one object of the clones, whose extents are theirs in order (`finished`); with missing bytes it
//! is refused, and nothing changes (`refused`, `early`). Pieces of a text, added in any order, with repeats and overlaps, leave as many bytes missing as places that none
//! covers; where none is missing, their clones have the bytes of the text in order; and the pieces that an object is cut into fit its
//! bytes and cover them (`pieces_rebuild`).
#![tactic(auto)]

mod adding;
mod cutting;
mod finishing;
mod laws;
mod piece;
mod rebuild;

pub use cutting::{count, cut};
pub use laws::pieces_rebuild;
pub use piece::{Piece, PieceStop};
pub use rebuild::{LONGEST_TEXT, Rebuild};
pub use zco_join::Filled;
