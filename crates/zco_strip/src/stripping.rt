// An object that is cut to its part.
ghost use Rattle.std.specs.Prelude.{◌≡◌, ◌≤◌, List, IfErr, IfOk, OnOk};
ghost use Rattle.sdr_base.specs.Blocks.{IsKind};
ghost use Rattle.sdr_base.specs.Moves.{KeepsSome};
ghost use Rattle.sdr_base.specs.Objects.{OnlyFault, OnlyUnmoved};
ghost use Rattle.sdr_base.specs.Transaction.{LeavesTouched};
ghost use Rattle.sdr_base.specs.Works.{Looks, Spends};
ghost use Rattle.sdr_base.specs.ZcoObjects.{ObjectRow};
ghost use Rattle.sdr_base.specs.declared.kind.Kind.TheVariants as kinds;
ghost use Rattle.zco_strip.specs.Stripping.{CutsObject, IsToStrip, KeepsToStrip, SomeToStrip};
ghost use Rattle.zco_strip.specs.Stripping.{StripsObject, StripStops, TellsSpan, strip_lines};
ghost use Rattle.zco_obj.specs.Gone.{NamedSource};
ghost use Rattle.zco_obj.specs.Kept.{SomeObject};

use crate::chain::{Parted, part_chain};
use crate::linking::set_ends;
use sdr_base::layout::object as words;
use sdr_base::{Addr, Kind, Objects, Stop, expect_kind, word};
use zco_acct::release;
use zco_obj::{account, give_extents};

// The first extent of an object, 0 for none, and where its part begins and ends among their bytes.
#[derive(Clone, Copy)]
struct Span {
    first: Addr,
    from: u64,
    to: u64,
}

/// Cuts the extents of an object to its part, which then begins with the first of them. Those of
/// which no byte lies in it are given back, each after what goes with it, as where an object is
/// destroyed; and to its account what they charged, and what the sources did that no other extent of it
/// names. An extent that is cut charges what it did. It is linear in the extents, and doesn't serve the
/// account's queue.
///
/// It is refused `BadAddress` or `WrongKind` where the object isn't there, and `LogFull`, behind which
/// the transaction has to be cancelled.
#[tactic(auto, using(sdr_base::proofs::LeavingLemmas::leaving))]
pub fn strip<O: Objects>(o: &mut O, object: Addr) -> Result<(), Stop>
    requires kept { KeepsSome (O.keeps o.old) }
    requires object { IsToStrip (O.heap o.old) object }
    ensures stripped { OnOk result (StripsObject object (O.heap o.old) (O.heap o.new)) }
    ensures refused { IfErr result (StripStops object (O.heap o.old) (O.heap o.new)) }
    ensures untouched { IfErr result (LeavesTouched (O.transaction o.old) (O.transaction o.new)) }
    ensures works { (row : ObjectRow) (sources : List NamedSource) →
        KeepsToStrip (O.heap o.old).blocks object row sources →
        Spends O.HasHeap (strip_lines row sources) o.old o.new result }
    ensures missed { (IsKind ((O.heap o.old).blocks object) kinds.Object → ⊥) →
        Spends O.HasHeap 0 o.old o.new result }
{
    expect_kind(o, object, Kind::Object)?;
    let acct = account(o, object)?;
    let parted = cut_object(o, object)?;
    let charged = give_extents(o, acct, parted.out)?;
    release(o, acct, &charged)
}

// Cuts the extents of an object to its part, and links those outside into a chain of their own.
fn cut_object<O: Objects>(o: &mut O, object: Addr) -> Result<Parted, Stop>
    requires kept { KeepsSome (O.keeps o.old) }
    requires object { SomeToStrip (O.heap o.old) object }
    ensures cut { IfOk result (CutsObject object (O.heap o.old) (O.heap o.new)) }
    ensures refused { IfErr result (OnlyUnmoved (O.heap o.old) (O.heap o.new)) }
    ensures works { Spends O.HasHeap 18 o.old o.new result }
{
    let span = part_span(o, object)?;
    let parted = part_chain(o, span.first, span.from, span.to)?;
    set_ends(o, object, parted.first, parted.last)?;
    Ok(parted)
}

// Where the part of an object lies.
fn part_span<O: Objects>(o: &mut O, object: Addr) -> Result<Span, Stop>
    requires kept { KeepsSome (O.keeps o.old) }
    requires object { SomeObject (O.heap o.old).blocks object }
    ensures told { IfOk result (TellsSpan (O.heap o.old).blocks object) }
    ensures refused { IfErr result OnlyFault }
    ensures looks { Looks O.HasHeap o.old o.new result }
{
    let first = word(o, object, words::FIRST_EXTENT)?;
    let from = word(o, object, words::PART_OFFSET)?;
    let bytes = word(o, object, words::PART_LENGTH)?;
    Ok(Span {
        first,
        from,
        to: from + bytes,
    })
}
