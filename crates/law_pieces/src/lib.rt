//! Law: calls that cut an object, add its pieces to a text and finish that hand on what the next call needs, from a heap on that has nothing,
//! and the object that a text becomes has the text's bytes.
//!
//! 1. A raw object is taken, an object is made, and it gets bytes of the raw object (`HasRaw`, `HasEmpty`, `SomeText`).
//! 2. Beside a text stand its clones and other objects. Each call needs room for so many moves, and leaves the room that it doesn't use.
//! 3. With a text go the pieces that were added to it and the rows of their objects, and the rows of the other objects (`HoldsRebuilt`).
//!
//! Proved: what each call leaves, and what each needs (`texts_keep`); that what `add` does to blocks is a step of the law of rebuilding
//! (`zco_pieces`), so that as many bytes are missing as places that no piece covers, and where none is, the object that the text becomes has
//! the bytes of whichever text the pieces fit; and that a piece that is cut fits the bytes of its object (`pieces_add_up`). A case is worked
//! out in `proofs/WorkedPieces.antt`.
#![tactic(auto)]

mod laws;
mod rebuilding;

pub use laws::texts_keep;
pub use rebuilding::pieces_add_up;
