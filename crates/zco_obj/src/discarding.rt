// Headers and trailers that go.
ghost use Rattle.std.specs.Prelude.{◌≡◌, ◌≢◌, ◌≤◌, IfErr, OnOk};
ghost use Rattle.sdr_base.specs.Moves.{KeepsSome};
ghost use Rattle.sdr_base.specs.Transaction.{LeavesTouched};
ghost use Rattle.sdr_base.specs.Wanting.{OnlyWanting};
ghost use Rattle.sdr_base.specs.Works.{Spends};
ghost use Rattle.zco_obj.specs.Chains.{SomeSpot};
ghost use Rattle.zco_obj.specs.Discards.{DiscardsCapsule, DiscardsSpot, DiscardStops, SpotStops};
ghost use Rattle.zco_obj.specs.Discards.{first_header, last_trailer, without_header, without_trailer};
ghost use Rattle.zco_obj.specs.Kept.{IsObject};
ghost use Rattle.zco_obj.specs.Walks.{SeesCapsule};

use crate::capsule::remove_capsule;
use crate::charging::{capsule_bytes, heap_amounts};
use crate::linking::Side;
use crate::object::account;
use crate::seeing::{SeenCapsule, find_last, see_capsule};
use sdr_base::layout::object as words;
use sdr_base::limits::LONGEST_CAPSULE;
use sdr_base::{Addr, Kind, Objects, Refusal, Stop, expect_kind, word};
use zco_acct::release;

/// Gives the first header of an object back, and what it charged. It doesn't serve the account's
/// queue.
#[tactic(auto, using(sdr_base::proofs::LeavingLemmas::leaving))]
pub fn discard_first_header<O: Objects>(o: &mut O, object: Addr) -> Result<(), Stop>
    requires kept { KeepsSome (O.keeps o.old) }
    requires spare { 1 ≤ (O.heap o.old).spare }
    requires object { IsObject (O.heap o.old).blocks object }
    ensures discarded { OnOk result
        (DiscardsCapsule first_header without_header object (O.heap o.old) (O.heap o.new)) }
    ensures refused { IfErr result
        (DiscardStops first_header object (O.heap o.old) (O.heap o.new)) }
    ensures untouched { IfErr result (LeavesTouched (O.transaction o.old) (O.transaction o.new)) }
    ensures works { Spends O.HasHeap 31 o.old o.new result }
{
    expect_kind(o, object, Kind::Object)?;
    let first = word(o, object, words::FIRST_HEADER)?;
    if first == 0 {
        return Err(Stop::Refused(Refusal::NoCapsule));
    }
    let seen = see_capsule(o, first)?;
    discard(o, object, Side::Headers, 0, first, seen)
}

/// Gives the last trailer of an object back, and what it charged. It is linear in the trailers. It
/// doesn't serve the account's queue.
#[tactic(auto, using(sdr_base::proofs::LeavingLemmas::leaving))]
pub fn discard_last_trailer<O: Objects>(o: &mut O, object: Addr) -> Result<(), Stop>
    requires kept { KeepsSome (O.keeps o.old) }
    requires spare { 1 ≤ (O.heap o.old).spare }
    requires object { IsObject (O.heap o.old).blocks object }
    ensures discarded { OnOk result
        (DiscardsCapsule last_trailer without_trailer object (O.heap o.old) (O.heap o.new)) }
    ensures refused { IfErr result
        (DiscardStops last_trailer object (O.heap o.old) (O.heap o.new)) }
    ensures untouched { IfErr result (LeavesTouched (O.transaction o.old) (O.transaction o.new)) }
    ensures works { Spends O.HasHeap 31 o.old o.new result }
{
    expect_kind(o, object, Kind::Object)?;
    let first = word(o, object, words::FIRST_TRAILER)?;
    if first == 0 {
        return Err(Stop::Refused(Refusal::NoCapsule));
    }
    let last = find_last(o, first)?;
    let seen = see_capsule(o, last.addr)?;
    discard(o, object, Side::Trailers, last.previous, last.addr, seen)
}

// Gives a header or trailer back that stands behind another, or is its chain's first where that is
// 0, and what it charged.
#[tactic(auto, using(sdr_base::proofs::LeavingLemmas::wanting))]
fn discard<O: Objects>(
    o: &mut O,
    object: Addr,
    side: Side,
    prev: Addr,
    gone: Addr,
    seen: SeenCapsule,
) -> Result<(), Stop>
    requires kept { KeepsSome (O.keeps o.old) }
    requires spare { 1 ≤ (O.heap o.old).spare }
    requires spot { SomeSpot side (O.heap o.old).blocks object prev gone seen.next }
    requires seen { SeesCapsule ((O.heap o.old).blocks gone) seen }
    requires short { seen.bytes ≤ LONGEST_CAPSULE }
    ensures discarded { OnOk result
        (DiscardsSpot side object prev gone seen.next (O.heap o.old) (O.heap o.new)) }
    ensures refused { IfErr result (SpotStops gone (O.heap o.old) (O.heap o.new)) }
    ensures wants { IfErr result OnlyWanting }
    ensures works { Spends O.HasHeap 31 o.old o.new result }
{
    let acct = account(o, object)?;
    remove_capsule(o, object, side, prev, gone, seen.next)?;
    release(o, acct, &heap_amounts(capsule_bytes(seen.bytes)))
}
