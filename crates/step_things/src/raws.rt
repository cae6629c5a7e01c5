// The calls on raw objects, as steps of the machine.
ghost use Rattle.std.specs.Prelude.{IfErr, OnOk, [], length, ℕ, ◌+◌, ◌/◌, ◌<◌, ◌≡◌, ◌≤◌};
ghost use Rattle.sdr_base.specs.Moves.{KeepsSome};
ghost use Rattle.sdr_base.specs.Works.{Looks, Spends};
ghost use Rattle.sdr_heap.specs.Raw.{HasSourceWord, ReadStops};
ghost use Rattle.sdr_model.specs.Fields.{AreBytes};
ghost use Rattle.sdr_model.specs.declared.call.Call.TheVariants as calls;
ghost use Rattle.step_things.specs.Answering.{ComesInEach};

use crate::page::{PAGE, Page};
use sdr_base::limits::LONGEST_READ;
use sdr_base::{Addr, Kind, Objects, Refusal, Stop, expect_kind};
use sdr_model::Reply;

/// Makes a raw object.
pub fn malloc<O: Objects>(o: &mut O, bytes: u64, page: &mut Page) -> Result<Reply, Stop>
    requires kept { KeepsSome (O.keeps o.old) }
    requires spare { 1 ≤ (O.heap o.old).spare }
    requires unmoved { (O.heap o.old).moves ≡ [] }
    ensures comes { ComesInEach (calls.Malloc bytes) (O.heap o.old) (O.heap o.new) page.old page.new
        result }
    ensures works { Spends O.HasHeap (24 + (8 + bytes) / 64) o.old o.new result }
{
    let addr = sdr_heap::malloc(o, bytes)?;
    page.clear();
    Ok(Reply::At { addr })
}

/// The length of a thing.
pub fn length<O: Objects>(o: &mut O, addr: Addr, page: &mut Page) -> Result<Reply, Stop>
    requires kept { KeepsSome (O.keeps o.old) }
    requires unmoved { (O.heap o.old).moves ≡ [] }
    ensures comes { ComesInEach (calls.Length addr) (O.heap o.old) (O.heap o.new) page.old page.new
        result }
    ensures works { Spends O.HasHeap 0 o.old o.new result }
    ensures touched { (O.transaction o.new).touched ≡ (O.transaction o.old).touched }
{
    let value = sdr_heap::length(o, addr)?;
    page.clear();
    Ok(Reply::Value { value })
}

// Refuses a read of more bytes than a page: the object's address comes first.
fn refuse_count<O: Objects>(o: &mut O, addr: Addr, count: u64) -> Result<Reply, Stop>
    requires kept { KeepsSome (O.keeps o.old) }
    requires many { LONGEST_READ < count }
    ensures refused { IfErr result (λ stop. (place : ℕ) →
        ReadStops ((O.heap o.old).blocks addr) addr place count stop) }
    ensures only { OnOk result ⊥ }
    ensures looks { Looks O.HasHeap o.old o.new result }
{
    expect_kind(o, addr, Kind::Raw)?;
    Err(Stop::Refused(Refusal::BadLength {
        length: count,
        most: LONGEST_READ,
    }))
}

// Reads bytes of a raw object from a place on into a buffer of their number.
fn read_into<O: Objects>(
    o: &mut O,
    addr: Addr,
    place: u64,
    count: u64,
    into: &mut [u8],
    page: &mut Page,
) -> Result<Reply, Stop>
    requires kept { KeepsSome (O.keeps o.old) }
    requires whole { HasSourceWord ((O.heap o.old).blocks addr) }
    requires unmoved { (O.heap o.old).moves ≡ [] }
    requires count { length into.old ≡ count }
    requires few { count ≤ LONGEST_READ }
    ensures comes { ComesInEach (calls.Read addr place count) (O.heap o.old) (O.heap o.new) page.old
        page.new result }
    ensures works { Spends O.HasHeap 0 o.old o.new result }
    ensures touched { (O.transaction o.new).touched ≡ (O.transaction o.old).touched }
{
    sdr_heap::read(o, addr, place, into)?;
    page.show(into);
    Ok(Reply::Bytes { count })
}

/// Reads bytes of a raw object from a place on.
pub fn read<O: Objects>(
    o: &mut O,
    addr: Addr,
    place: u64,
    count: u64,
    page: &mut Page,
) -> Result<Reply, Stop>
    requires kept { KeepsSome (O.keeps o.old) }
    requires whole { HasSourceWord ((O.heap o.old).blocks addr) }
    requires unmoved { (O.heap o.old).moves ≡ [] }
    ensures comes { ComesInEach (calls.Read addr place count) (O.heap o.old) (O.heap o.new) page.old
        page.new result }
    ensures works { Spends O.HasHeap 0 o.old o.new result }
    ensures touched { (O.transaction o.new).touched ≡ (O.transaction o.old).touched }
{
    if count > LONGEST_READ {
        return refuse_count(o, addr, count);
    }
    let mut bytes = [0; PAGE];
    read_into(o, addr, place, count, &mut bytes[..count as usize], page)
}

// Reads the first bytes of a raw object into a buffer of their number, and marks it.
fn stage_into<O: Objects>(
    o: &mut O,
    addr: Addr,
    count: u64,
    into: &mut [u8],
    page: &mut Page,
) -> Result<Reply, Stop>
    requires kept { KeepsSome (O.keeps o.old) }
    requires whole { HasSourceWord ((O.heap o.old).blocks addr) }
    requires unmoved { (O.heap o.old).moves ≡ [] }
    requires count { length into.old ≡ count }
    requires few { count ≤ LONGEST_READ }
    ensures comes { ComesInEach (calls.Stage addr count) (O.heap o.old) (O.heap o.new) page.old page.new
        result }
    ensures works { Spends O.HasHeap 0 o.old o.new result }
    ensures touched { (O.transaction o.new).touched ≡ (O.transaction o.old).touched }
{
    sdr_heap::stage(o, addr, into)?;
    page.show(into);
    Ok(Reply::Bytes { count })
}

/// Reads the first bytes of a raw object, which may be written in this transaction from now on.
pub fn stage<O: Objects>(o: &mut O, addr: Addr, count: u64, page: &mut Page) -> Result<Reply, Stop>
    requires kept { KeepsSome (O.keeps o.old) }
    requires whole { HasSourceWord ((O.heap o.old).blocks addr) }
    requires unmoved { (O.heap o.old).moves ≡ [] }
    ensures comes { ComesInEach (calls.Stage addr count) (O.heap o.old) (O.heap o.new) page.old page.new
        result }
    ensures works { Spends O.HasHeap 0 o.old o.new result }
    ensures touched { (O.transaction o.new).touched ≡ (O.transaction o.old).touched }
{
    if count > LONGEST_READ {
        return refuse_count(o, addr, count);
    }
    let mut bytes = [0; PAGE];
    stage_into(o, addr, count, &mut bytes[..count as usize], page)
}

/// Writes bytes into a raw object from a place on.
pub fn write<O: Objects>(
    o: &mut O,
    addr: Addr,
    place: u64,
    from: &[u8],
    page: &mut Page,
) -> Result<Reply, Stop>
    requires kept { KeepsSome (O.keeps o.old) }
    requires whole { HasSourceWord ((O.heap o.old).blocks addr) }
    requires unmoved { (O.heap o.old).moves ≡ [] }
    ensures comes { ComesInEach (calls.Write addr place from.now) (O.heap o.old) (O.heap o.new) page.old
        page.new result }
    ensures works { Spends O.HasHeap (2 + length from.now / 64) o.old o.new result }
    ensures bytes { AreBytes from.now }
{
    sdr_heap::write(o, addr, place, from)?;
    page.clear();
    Ok(Reply::Done)
}
