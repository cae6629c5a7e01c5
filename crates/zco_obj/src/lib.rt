//! Zero-copy objects: headers, extents of sources, and trailers, each in a block of its own.
//!
//! 1. An object's block has its account, both ends of its three chains, and its part. Each header,
//!    extent and trailer has the address of the next one of its chain.
//! 2. A call that adds to an object charges its account first: all checks are made before anything
//!    changes. A call that takes from it gives the account back what that charged.
//! 3. A header or trailer comes and goes between two others, each of which may be the end of its
//!    chain.
//! 4. An extent names a part of a source, which counts it among those of the object's account. It
//!    comes behind the others. Of a raw object a source is made first, which takes it over.
//! 5. The first extent of an account that names a source charges the whole source, and the last one of
//!    them gives that back: each extent charges its own block beside.
//! 6. An object goes after its parts, which go in the order of its chains. A source that goes with
//!    its last extent goes before that, and before it the raw object that it has taken over.
//!
//! Proved: objects are made, filled, measured and destroyed as their rows say (`made`, `added`, `appended`,
//! `discarded`, `told`, `destroyed`). All else stays, with the row's moves and bounded lines (`works`). What is
//! occupied stays the sum of charges and grants (`OccupancyLaws`, lemmas). What a destroyed object leaves of the sources that it
//! named is a lemma (`destroy_leaves`).
//!
//! Only tested: each call's answers (`tests/cases`).
#![tactic(auto)]

mod adding;
mod appending;
mod capsule;
mod charging;
mod destroying;
mod discarding;
mod extent;
mod link;
mod linking;
mod object;
mod seeing;
mod summing;

pub use adding::{append_trailer, prepend_header};
pub use appending::append_extent;
pub use capsule::TEXT_FROM;
pub use charging::{EXTENT_BYTES, capsule_bytes, charge_object, extent_amounts, heap_amounts};
pub use destroying::{destroy, give_extents};
pub use discarding::{discard_first_header, discard_last_trailer};
pub use extent::{ExtentPiece, link_extent};
pub use link::{Link, see_link};
pub use object::{Firsts, OBJECT_BYTES, account, create, first_parts, make_object};
pub use seeing::{
    SeenCapsule, SeenExtent, SeenSource, TOO_MANY_PARTS, see_capsule, see_extent, see_source,
};
pub use summing::{extents_length, length, source_length};
