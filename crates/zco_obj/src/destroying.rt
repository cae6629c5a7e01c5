// The end of an object.
ghost use Rattle.std.specs.Prelude.{◌≡◌, ◌≤◌, ◌+◌, ◌*◌, ◌^◌, List, length, IfErr, IfOk, OnOk};
ghost use Rattle.sdr_base.specs.Blocks.{IsKind};
ghost use Rattle.sdr_base.specs.Moves.{KeepsSome};
ghost use Rattle.sdr_base.specs.Transaction.{LeavesTouched};
ghost use Rattle.sdr_base.specs.Wanting.{OnlyWanting};
ghost use Rattle.sdr_base.specs.Works.{Spends};
ghost use Rattle.sdr_base.specs.ZcoObjects.{CapsuleRow, ExtentRow, ObjectRow};
ghost use Rattle.sdr_base.specs.declared.kind.Kind.TheVariants as kinds;
ghost use Rattle.zco_obj.specs.Destroying.{DestroysObject, DestroyStops, GivesParts, IsWithSources};
ghost use Rattle.zco_obj.specs.Destroying.{KeepsSources, PartStops, SomeWithSources, parts_lines};
ghost use Rattle.zco_obj.specs.Giving.{AreAtMost, CapsuleGiveStops};
ghost use Rattle.zco_obj.specs.Uses.{ExtentGiveStops, ExtentsGiveStops};
ghost use Rattle.zco_obj.specs.Giving.{GivesCapsules, SomeCapsulesToGive};
ghost use Rattle.zco_obj.specs.Uses.{GivesExtent, GivesExtents};
ghost use Rattle.zco_obj.specs.Uses.{SomeUse, SomeUses, UsesAt, going_with, uses_lines};
ghost use Rattle.zco_obj.specs.Gone.{NamedSource};
ghost use Rattle.zco_obj.specs.Reading.{Tells};
ghost use Rattle.zco_obj.specs.Walks.{CapsulesAt};

use crate::charging::{capsule_bytes, heap_amounts, naming_amounts};
use crate::object::{OBJECT_BYTES, account, first_parts};
use crate::seeing::{TOO_MANY_PARTS, see_capsule, see_count, see_extent, see_source};
use sdr_base::{Acct, Addr, Amounts, Kind, Objects, Stop, check_failed, expect_kind};
use sdr_model::amounts::{NOTHING, plus};
use zco_acct::release;
use zco_ref::detach;

// What is charged less for an extent that was given back, and the address of the next one, 0 for none.
#[derive(Clone, Copy)]
struct GivenExtent {
    charged: Amounts,
    next: Addr,
}

/// Gives an object back: its headers, its extents, its trailers, and then its own block; and to its
/// account what they charged, and what the sources did that no other extent of it names. A source that
/// has taken over a raw object, or is flagged, goes with the last extent that names it, before that,
/// and before it the raw object that it has taken over.
/// It is linear in the parts, and doesn't serve the account's queue.
#[tactic(auto, using(sdr_base::proofs::LeavingLemmas::leaving))]
pub fn destroy<O: Objects>(o: &mut O, object: Addr) -> Result<(), Stop>
    requires kept { KeepsSome (O.keeps o.old) }
    requires object { IsWithSources (O.heap o.old) object }
    ensures destroyed { OnOk result (DestroysObject object (O.heap o.old) (O.heap o.new)) }
    ensures refused { IfErr result (DestroyStops object (O.heap o.old) (O.heap o.new)) }
    ensures untouched { IfErr result (LeavesTouched (O.transaction o.old) (O.transaction o.new)) }
    ensures works { (row : ObjectRow) (sources : List NamedSource) →
        KeepsSources (O.heap o.old).blocks object row sources →
        Spends O.HasHeap (27 + parts_lines row sources) o.old o.new result }
    ensures missed { (IsKind ((O.heap o.old).blocks object) kinds.Object → ⊥) →
        Spends O.HasHeap 0 o.old o.new result }
{
    expect_kind(o, object, Kind::Object)?;
    let acct = account(o, object)?;
    let parts = give_parts(o, object, acct)?;
    o.give(object)?;
    release(o, acct, &plus(&parts, &heap_amounts(OBJECT_BYTES)))
}

// Gives the parts of an object back, and answers what is charged less.
#[tactic(auto, using(sdr_base::proofs::LeavingLemmas::wanting))]
fn give_parts<O: Objects>(o: &mut O, object: Addr, acct: Acct) -> Result<Amounts, Stop>
    requires kept { KeepsSome (O.keeps o.old) }
    requires object { SomeWithSources (O.heap o.old) object }
    requires acct { Tells (O.heap o.old).blocks object (λ row. row.account) acct }
    ensures given { IfOk result (GivesParts object (O.heap o.old) (O.heap o.new)) }
    ensures most { IfOk result (AreAtMost (2 ^ 63)) }
    ensures refused { IfErr result (PartStops object (O.heap o.old) (O.heap o.new)) }
    ensures wants { IfErr result OnlyWanting }
    ensures works { (row : ObjectRow) (sources : List NamedSource) →
        KeepsSources (O.heap o.old).blocks object row sources →
        Spends O.HasHeap (parts_lines row sources) o.old o.new result }
{
    let first = first_parts(o, object)?;
    let headers = give_capsules(o, first.header)?;
    let extents = give_extents(o, acct, first.extent)?;
    let trailers = give_capsules(o, first.trailer)?;
    Ok(plus(&extents, &heap_amounts(headers + trailers)))
}

// Gives the headers or trailers of a chain back, and answers how many bytes of heap space they
// charged.
#[tactic(auto, using(sdr_base::proofs::LeavingLemmas::wanting))]
fn give_capsules<O: Objects>(o: &mut O, first: Addr) -> Result<u64, Stop>
    requires kept { KeepsSome (O.keeps o.old) }
    requires chain { SomeCapsulesToGive (O.heap o.old) first }
    ensures given { IfOk result (GivesCapsules first (O.heap o.old) (O.heap o.new)) }
    ensures most { IfOk result (λ charged. charged ≤ 2 ^ 33) }
    ensures refused { IfErr result (CapsuleGiveStops first (O.heap o.old) (O.heap o.new)) }
    ensures wants { IfErr result OnlyWanting }
    ensures works { (rows : List CapsuleRow) → CapsulesAt (O.heap o.old).blocks first rows →
        Spends O.HasHeap (24 * length rows) o.old o.new result }
{
    check_failed(o)?;
    let mut charged = 0;
    let mut addr = first;
    for i in 0..TOO_MANY_PARTS {
        if addr == 0 {
            break;
        }
        let seen = see_capsule(o, addr)?;
        o.give(addr)?;
        charged += capsule_bytes(seen.bytes);
        addr = seen.next;
    }
    Ok(charged)
}

/// Gives the extents of a chain back, each after what goes with it, and answers what is charged less:
/// what they charged, and the sources that no other extent of the account names. At most their blocks
/// and those of their sources go. It is linear in the extents.
#[tactic(auto, using(sdr_base::proofs::LeavingLemmas::wanting))]
pub fn give_extents<O: Objects>(o: &mut O, acct: Acct, first: Addr) -> Result<Amounts, Stop>
    requires kept { KeepsSome (O.keeps o.old) }
    requires chain { SomeUses acct (O.heap o.old) first }
    ensures given { IfOk result (GivesExtents acct first (O.heap o.old) (O.heap o.new)) }
    ensures most { IfOk result (AreAtMost (2 ^ 62 + 2 ^ 27)) }
    ensures refused { IfErr result (ExtentsGiveStops acct first (O.heap o.old) (O.heap o.new)) }
    ensures wants { IfErr result OnlyWanting }
    ensures works { (extents : List ExtentRow) (sources : List NamedSource) →
        UsesAt acct (O.heap o.old).blocks first extents sources →
        Spends O.HasHeap (uses_lines extents sources) o.old o.new result }
{
    check_failed(o)?;
    let mut charged = NOTHING;
    let mut extent = first;
    for i in 0..TOO_MANY_PARTS {
        if extent == 0 {
            break;
        }
        let given = give_extent(o, acct, extent)?;
        charged = plus(&charged, &given.charged);
        extent = given.next;
    }
    Ok(charged)
}

// Gives an extent back, once its source counts one less, and is gone where it goes with it.
#[tactic(auto, using(sdr_base::proofs::LeavingLemmas::wanting))]
fn give_extent<O: Objects>(o: &mut O, acct: Acct, extent: Addr) -> Result<GivenExtent, Stop>
    requires kept { KeepsSome (O.keeps o.old) }
    requires spare { 1 + going_with (O.heap o.old).blocks extent ≤ (O.heap o.old).spare }
    requires extent { SomeUse acct (O.heap o.old).blocks extent }
    ensures given { IfOk result (GivesExtent acct extent (O.heap o.old) (O.heap o.new)) }
    ensures most { IfOk result (λ given. AreAtMost (2 ^ 40 + 32) given.charged) }
    ensures refused { IfErr result (ExtentGiveStops acct extent (O.heap o.old) (O.heap o.new)) }
    ensures wants { IfErr result OnlyWanting }
    ensures works { Spends O.HasHeap
        (28 + 24 * going_with (O.heap o.old).blocks extent) o.old o.new result }
{
    let seen = see_extent(o, extent)?;
    let source = see_source(o, seen.source)?;
    let count = see_count(o, seen.source, acct)?;
    detach(o, seen.source, acct)?;
    o.give(extent)?;
    Ok(GivenExtent {
        charged: naming_amounts(source, count == 1),
        next: seen.next,
    })
}
