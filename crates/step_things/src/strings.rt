// The calls on strings, as steps of the machine.
ghost use Rattle.std.specs.Prelude.{[], length, ◌+◌, ◌/◌, ◌≡◌, ◌≤◌};
ghost use Rattle.step_things.specs.Answering.{ComesInEach};
ghost use Rattle.sdr_base.specs.Moves.{KeepsSome};
ghost use Rattle.sdr_base.specs.Works.{Spends};
ghost use Rattle.sdr_model.specs.Fields.{AreBytes};
ghost use Rattle.sdr_model.specs.declared.call.Call.TheVariants as calls;
ghost use Rattle.sdr_string.specs.Calls.{IsString};

use crate::page::Page;
use sdr_base::limits::LONGEST_STRING;
use sdr_base::{Addr, Objects, Stop};
use sdr_model::Reply;

/// Makes a string.
pub fn string<O: Objects>(o: &mut O, text: &[u8], page: &mut Page) -> Result<Reply, Stop>
    requires kept { KeepsSome (O.keeps o.old) }
    requires spare { 1 ≤ (O.heap o.old).spare }
    requires unmoved { (O.heap o.old).moves ≡ [] }
    ensures comes { ComesInEach (calls.String text.now) (O.heap o.old) (O.heap o.new) page.old page.new
        result }
    ensures works { Spends O.HasHeap (26 + (1 + length text.now) / 32) o.old o.new result }
    ensures bytes { AreBytes text.now }
{
    let addr = sdr_string::create(o, text)?;
    page.clear();
    Ok(Reply::At { addr })
}

/// The length of a string.
pub fn string_length<O: Objects>(o: &mut O, addr: Addr, page: &mut Page) -> Result<Reply, Stop>
    requires kept { KeepsSome (O.keeps o.old) }
    requires string { IsString ((O.heap o.old).blocks addr) }
    requires unmoved { (O.heap o.old).moves ≡ [] }
    ensures comes { ComesInEach (calls.StringLength addr) (O.heap o.old) (O.heap o.new) page.old page.new
        result }
    ensures works { Spends O.HasHeap 0 o.old o.new result }
    ensures touched { (O.transaction o.new).touched ≡ (O.transaction o.old).touched }
{
    let value = sdr_string::length(o, addr)?;
    page.clear();
    Ok(Reply::Value { value })
}

/// Reads a string.
pub fn string_read<O: Objects>(o: &mut O, addr: Addr, page: &mut Page) -> Result<Reply, Stop>
    requires kept { KeepsSome (O.keeps o.old) }
    requires string { IsString ((O.heap o.old).blocks addr) }
    requires unmoved { (O.heap o.old).moves ≡ [] }
    ensures comes { ComesInEach (calls.StringRead addr) (O.heap o.old) (O.heap o.new) page.old page.new
        result }
    ensures works { Spends O.HasHeap 0 o.old o.new result }
    ensures touched { (O.transaction o.new).touched ≡ (O.transaction o.old).touched }
{
    let mut text = [0; LONGEST_STRING as usize];
    let count = sdr_string::read(o, addr, &mut text)?;
    page.show(&text[..count as usize]);
    Ok(Reply::Bytes { count })
}

/// Makes a string of the same text.
pub fn string_dup<O: Objects>(o: &mut O, addr: Addr, page: &mut Page) -> Result<Reply, Stop>
    requires kept { KeepsSome (O.keeps o.old) }
    requires spare { 1 ≤ (O.heap o.old).spare }
    requires string { IsString ((O.heap o.old).blocks addr) }
    requires unmoved { (O.heap o.old).moves ≡ [] }
    ensures comes { ComesInEach (calls.StringDup addr) (O.heap o.old) (O.heap o.new) page.old page.new
        result }
    ensures works { Spends O.HasHeap 34 o.old o.new result }
{
    let copy = sdr_string::dup(o, addr)?;
    page.clear();
    Ok(Reply::At { addr: copy })
}
