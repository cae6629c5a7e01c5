// Texts of headers and trailers, which get raw objects with sources of their own.
ghost use Rattle.std.specs.Prelude.{◌≡◌, ◌≤◌, ◌+◌, ◌/◌, length, IfErr, IfOk, OnOk};
ghost use Rattle.sdr_base.specs.Moves.{KeepsSome};
ghost use Rattle.sdr_base.specs.Objects.{OnlyFault, OnlyShort};
ghost use Rattle.sdr_base.specs.Wanting.{OnlyWanting};
ghost use Rattle.sdr_base.specs.Works.{Looks, Spends};
ghost use Rattle.zco_bond.specs.Rows.{RowStops};
ghost use Rattle.zco_bond.specs.Texts.{CopiesText, FillsRaw, IsSourceRow, IsText, MakesSource};

use sdr_base::limits::LONGEST_CAPSULE;
use sdr_base::{Addr, Kind, Objects, Stop, put_at, take_bytes};
use zco_obj::TEXT_FROM;
use zco_ref::heap_source;

// The text of a header or trailer: where that stands, and how many bytes it has.
#[derive(Clone, Copy)]
pub struct Text {
    pub of: Addr,
    pub bytes: u64,
}

// Fills a buffer with the block of a raw object of a text, which no source names. It has the text
// where the block of the header or trailer has it.
fn fill<O: Objects>(o: &mut O, text: Text, into: &mut [u8]) -> Result<(), Stop>
    requires kept { KeepsSome (O.keeps o.old) }
    requires text { IsText (O.heap o.old).blocks text }
    requires long { length into.old ≡ TEXT_FROM + text.bytes }
    ensures filled { OnOk result (FillsRaw ((O.heap o.old).blocks text.of) into.new) }
    ensures refused { IfErr result OnlyFault }
    ensures looks { Looks O.HasHeap o.old o.new result }
{
    o.get(text.of, 0, into)?;
    put_at(into, 0, &[0; TEXT_FROM]);
    Ok(())
}

// Makes a raw object of a text.
fn copy_text<O: Objects>(o: &mut O, text: Text) -> Result<Addr, Stop>
    requires kept { KeepsSome (O.keeps o.old) }
    requires spare { 1 ≤ (O.heap o.old).spare }
    requires short { text.bytes ≤ LONGEST_CAPSULE }
    requires text { IsText (O.heap o.old).blocks text }
    ensures copied { IfOk result (CopiesText text (O.heap o.old) (O.heap o.new)) }
    ensures refused { IfErr result
        (OnlyShort (TEXT_FROM + text.bytes) (O.heap o.old) (O.heap o.new)) }
    ensures works { Spends O.HasHeap (26 + (TEXT_FROM + text.bytes) / 32) o.old o.new result }
{
    let mut buffer = [0; TEXT_FROM + LONGEST_CAPSULE as usize];
    let block = &mut buffer[..TEXT_FROM + text.bytes as usize];
    fill(o, text, block)?;
    take_bytes(o, Kind::Raw, block)
}

// Makes a source of a text, which takes over a raw object of it.
#[tactic(auto, using(sdr_base::proofs::LeavingLemmas::wanting))]
pub fn make_source<O: Objects>(o: &mut O, text: Text) -> Result<Addr, Stop>
    requires kept { KeepsSome (O.keeps o.old) }
    requires spare { 2 ≤ (O.heap o.old).spare }
    requires short { text.bytes ≤ LONGEST_CAPSULE }
    requires text { IsText (O.heap o.old).blocks text }
    ensures made { IfOk result (MakesSource text (O.heap o.old) (O.heap o.new)) }
    ensures refused { IfErr result
        (RowStops (IsSourceRow text.bytes) (O.heap o.old) (O.heap o.new)) }
    ensures wants { IfErr result OnlyWanting }
    ensures works { Spends O.HasHeap (57 + (TEXT_FROM + text.bytes) / 32) o.old o.new result }
{
    let raw = copy_text(o, text)?;
    heap_source(o, raw)
}
