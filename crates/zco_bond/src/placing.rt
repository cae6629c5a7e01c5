// Headers and trailers that become extents at a place in a chain.
ghost use Rattle.std.specs.Prelude.{◌≡◌, ◌≢◌, ◌≤◌, ◌+◌, ◌/◌, IfErr, IfOk};
ghost use Rattle.sdr_base.specs.Blocks.{UsesRange};
ghost use Rattle.sdr_base.specs.Moves.{KeepsSome};
ghost use Rattle.sdr_base.specs.Objects.{OnlyShort};
ghost use Rattle.sdr_base.specs.Wanting.{OnlyWanting};
ghost use Rattle.sdr_base.specs.Works.{Spends};
ghost use Rattle.zco_bond.specs.Placing.{BondsText, InsertsExtent, IsTextRow, SomePlace};
ghost use Rattle.zco_bond.specs.Rows.{RowStops};

use crate::gap::Gap;
use crate::text::{Text, make_source};
use sdr_base::limits::LONGEST_CAPSULE;
use sdr_base::{Acct, Addr, Kind, Objects, Stop, take_words};
use zco_obj::TEXT_FROM;
use zco_ref::attach;
use zco_strip::link_after;

// Makes an extent at a place, of the first bytes of a source, so many.
fn insert_extent<O: Objects>(o: &mut O, source: Addr, bytes: u64, gap: Gap) -> Result<Addr, Stop>
    requires kept { KeepsSome (O.keeps o.old) }
    requires spare { 1 ≤ (O.heap o.old).spare }
    requires previous { gap.previous ≢ 0 → UsesRange (O.heap o.old).blocks gap.previous 0 32 }
    ensures inserted { IfOk result
        (InsertsExtent source bytes gap (O.heap o.old) (O.heap o.new)) }
    ensures refused { IfErr result (OnlyShort 32 (O.heap o.old) (O.heap o.new)) }
    ensures works { Spends O.HasHeap 31 o.old o.new result }
{
    let extent = take_words(o, Kind::Extent, &[source, 0, bytes, gap.next])?;
    link_after(o, gap.previous, extent)?;
    Ok(extent)
}

// Makes an extent at a place of a header or trailer, and gives that back. An extent of the account
// names its source, which has taken over a raw object of the text.
#[tactic(auto, using(sdr_base::proofs::LeavingLemmas::wanting))]
pub fn bond_text<O: Objects>(o: &mut O, acct: Acct, text: Text, gap: Gap) -> Result<Addr, Stop>
    requires kept { KeepsSome (O.keeps o.old) }
    requires spare { 4 ≤ (O.heap o.old).spare }
    requires short { text.bytes ≤ LONGEST_CAPSULE }
    requires place { SomePlace (O.heap o.old).blocks text gap }
    ensures bonded { IfOk result (BondsText acct text gap (O.heap o.old) (O.heap o.new)) }
    ensures refused { IfErr result (RowStops (IsTextRow text) (O.heap o.old) (O.heap o.new)) }
    ensures wants { IfErr result OnlyWanting }
    ensures works { Spends O.HasHeap (114 + (TEXT_FROM + text.bytes) / 32) o.old o.new result }
{
    let source = make_source(o, text)?;
    let extent = insert_extent(o, source, text.bytes, gap)?;
    attach(o, source, acct)?;
    o.give(text.of)?;
    Ok(extent)
}
