//! The bytes of zero-copy objects: those that go out on the wire, and those that came in.
//!
//! 1. What is read of an object is the bytes of its headers, of what its extents name, and of its
//!    trailers, in order, from a place on.
//! 2. The bytes of an extent lie in a raw object's block, or with media, which are asked once for all
//!    that a call needs of it. Each byte is copied once, into the caller's buffer.
//! 3. Where media have fewer bytes than they are asked for, or fail, the call says so, and the heap
//!    and the reader are as before. A reader moves only past bytes that were given.
//!
//! Proved: `transmit` and the `receive_` calls give just the bytes of their stretch of the object, those of media
//! as media tell them (`given`). `SourceShort` and `MediaFault` come only where such bytes are asked and the
//! media's count rose (`stops`). On every outcome media are asked at most once for each extent that lies with them
//! and of which a byte is asked (`asks`). The heap stays (`looks`).
//!
//! Only tested: each call's answers (`tests/cases`).
#![tactic(auto)]

mod cursor;
mod extents;
mod heads;
mod reader;
mod receiving;
mod sending;
mod source;

pub use reader::{Reader, start_receiving, start_sending};
pub use receiving::{receive_headers, receive_source, receive_trailers};
pub use sending::transmit;
