//! The printed text of a world: what an operator sees of a heap.
//!
//! 1. Lines of tickets, of the catalogue and of things wait in a buffer, and go out together where
//!    one doesn't fit, and behind the last.
//! 2. What a line tells of other things (the source that names a raw object, the extents that name
//!    a source, the sources that an account is charged) is counted over the world once (`Tied`). That
//!    alone takes memory, and comes before anything is written.
//! 3. Where the sink fails, a part of the text from its front was written.
//!
//! Proved: `write_world` writes `world_text` of a world and a census, whole (`ok`), or a part from the front if
//! the sink failed (`output`, `cause`); out of memory it has written nothing (`memory`). Two small worlds are
//! printed as worked out by hand (`bundle_is_printed_so`, `mixed_world_is_printed_so`).
#![tactic(auto)]

mod account;
mod example;
mod laws;
mod occupied;
mod thing;
mod tied;
mod world;

pub use example::{bundle_is_printed_so, mixed_world_is_printed_so};
pub use laws::whole_worlds_have_small_sums;
pub use world::{PrintError, write_world};
