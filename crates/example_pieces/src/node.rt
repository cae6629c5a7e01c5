// What the node does with a payload.
ghost use Rattle.std.specs.Prelude.{◌≡◌, ◌≤◌, ◌∷◌, [], ℕ, IfOk, OnOk};
ghost use Rattle.sdr_base.specs.Moves.{KeepsSome};
ghost use Rattle.sdr_base.specs.Objects.{Heap};
ghost use Rattle.sdr_base.specs.declared.account.Acct.TheVariants as accts;
ghost use Rattle.zco_join.specs.Joining.{Joins, SomeToJoin};
ghost use Rattle.zco_wire.specs.Naming.{IsWire};
ghost use Rattle.law_pieces.specs.Texts.{HasNothing, SomeText};
ghost use Rattle.example_pieces.specs.Nodes.{AddsNext, HasPayload, SomePayload};

use law_pieces::texts_keep;
use sdr_base::{Acct, Addr, Kind, NoMedia, Objects, Stop, take_bytes};
use std::alloc::Global;
use zco_obj::append_extent;
use zco_pieces::{PieceStop, Rebuild, count, cut};
use zco_wire::{start_sending, transmit};

/// The payload.
pub static TEXT: &[u8; 26] = b"fragments over a slow link";

// The block of a raw object of it: a word of zeros, and the bytes.
static BLOCK: &[u8; 34] = b"\0\0\0\0\0\0\0\0fragments over a slow link";

/// What one run comes to.
#[derive(Clone, Copy, Drop)]
pub struct Rebuilt {
    /// How many pieces the payload has by either size.
    pub by_ten: u64,
    pub by_seven: u64,
    /// How many bytes are missing behind each piece.
    pub missing: [u64; 5],
    /// The bytes that the rebuilt object sends.
    pub bytes: [u8; 26],
}

// Makes an object of the payload.
fn make_payload<O: Objects>(o: &mut O) -> Result<Addr, Stop>
    requires kept { KeepsSome (O.keeps o.old) }
    requires nothing { HasNothing (O.heap o.old) }
    requires spare { 304 ≤ (O.heap o.old).spare }
    ensures kept { OnOk result (KeepsSome (O.keeps o.new)) }
    ensures text { IfOk result (λ object. SomeText (O.heap o.new) [] (object ∷ []) 1 300) }
{
    texts_keep();
    let raw = take_bytes(o, Kind::Raw, BLOCK)?;
    let object = zco_obj::create(o, Acct::Inbound, 0)?;
    append_extent(o, object, 0, raw, 0, 26)?;
    Ok(object)
}

// Cuts a piece of the payload, adds it, and answers what is missing then.
fn add_next<O: Objects>(
    o: &mut O,
    object: Addr,
    text: &mut Rebuild,
    most: u64,
    k: u64,
) -> Result<u64, PieceStop>
    requires kept { KeepsSome (O.keeps o.old) }
    requires payload { SomePayload (O.heap o.old) text.old.parts object }
    ensures kept { OnOk result (KeepsSome (O.keeps o.new)) }
    ensures text { OnOk result
        (AddsNext (O.heap o.old) (O.heap o.new) text.old.parts text.new.parts object) }
{
    texts_keep();
    let piece = cut(o, object, 0, most, k)?;
    let missing = text.add(o, 0, &piece)?;
    Ok(missing)
}

// Adds pieces by ten bytes and by seven, in an order of their own, and answers what is missing behind each.
fn add_all<O: Objects>(o: &mut O, object: Addr, text: &mut Rebuild) -> Result<[u64; 5], PieceStop>
    requires kept { KeepsSome (O.keeps o.old) }
    requires payload { HasPayload (O.heap o.old) text.old.parts object 0 300 }
    ensures kept { OnOk result (KeepsSome (O.keeps o.new)) }
    ensures text { OnOk result (HasPayload (O.heap o.new) text.new.parts object 31 176) }
{
    let first = add_next(o, object, text, 10, 2)?;
    let second = add_next(o, object, text, 7, 1)?;
    let third = add_next(o, object, text, 10, 2)?;
    let fourth = add_next(o, object, text, 10, 0)?;
    let fifth = add_next(o, object, text, 7, 2)?;
    Ok([first, second, third, fourth, fifth])
}

// Finishes the text, and sends the object.
fn finish_and_send<O: Objects>(o: &mut O, text: &mut Rebuild) -> Result<[u8; 26], Stop>
    requires kept { KeepsSome (O.keeps o.old) }
    requires clones { SomeToJoin (O.heap o.old) accts.Outbound text.old.parts }
    requires wire { (object : ℕ) (new : Heap) →
        Joins accts.Outbound 0 text.old.parts (O.heap o.old) new object
        → IsWire new.blocks object }
{
    let object = text.finish(o, Acct::Outbound, 0)?;
    let mut media = NoMedia::new();
    let mut reader = start_sending(o, object)?;
    let mut bytes = [0; 26];
    let _ = transmit(o, &mut media, &mut reader, &mut bytes)?;
    Ok(bytes)
}

/// One run, on a heap without a block or a ticket.
pub fn run<O: Objects>(o: &mut O, alloc: Global) -> Result<Rebuilt, PieceStop>
    requires kept { KeepsSome (O.keeps o.old) }
    requires nothing { HasNothing (O.heap o.old) }
    requires spare { 304 ≤ (O.heap o.old).spare }
{
    texts_keep();
    let object = make_payload(o)?;
    let by_ten = count(o, object, 10)?;
    let by_seven = count(o, object, 7)?;
    let mut text = Rebuild::new(alloc, 26);
    let missing = add_all(o, object, &mut text)?;
    let bytes = finish_and_send(o, &mut text)?;
    Ok(Rebuilt {
        by_ten,
        by_seven,
        missing,
        bytes,
    })
}
