// What an object is charged for that is bonded.
ghost use Rattle.std.specs.Prelude.{◌≡◌, ◌≤◌, ◌*◌, IfErr, IfOk, OnOk};
ghost use Rattle.sdr_base.specs.Moves.{KeepsSome};
ghost use Rattle.sdr_base.specs.Objects.{OnlyFault};
ghost use Rattle.sdr_base.specs.Transaction.{LeavesTouched};
ghost use Rattle.sdr_base.specs.Works.{Looks, Spends};
ghost use Rattle.zco_bond.specs.Charging.{BondChargeStops, ChargesBond, TellsRise};
ghost use Rattle.zco_obj.specs.Kept.{SomeWithQueue};
ghost use Rattle.zco_obj.specs.Walks.{SomeCapsules};

use sdr_base::{Addr, Objects, Space, Stop, check_failed};
use zco_obj::{
    TOO_MANY_PARTS, capsule_bytes, charge_object, extent_amounts, first_parts, heap_amounts,
    see_capsule,
};

// What the headers or trailers of a chain charge more of heap space as extents, in bytes.
fn bond_rise<O: Objects>(o: &mut O, first: Addr) -> Result<u64, Stop>
    requires kept { KeepsSome (O.keeps o.old) }
    requires chain { SomeCapsules (O.heap o.old).blocks first }
    ensures told { IfOk result (TellsRise (O.heap o.old).blocks first) }
    ensures most { IfOk result (λ total. total ≤ 32 * TOO_MANY_PARTS) }
    ensures refused { IfErr result OnlyFault }
    ensures looks { Looks O.HasHeap o.old o.new result }
{
    check_failed(o)?;
    let mut total = 0;
    let mut addr = first;
    for i in 0..TOO_MANY_PARTS {
        if addr == 0 {
            break;
        }
        let seen = see_capsule(o, addr)?;
        let extent = extent_amounts(Space::Heap, seen.bytes);
        total += extent.heap - capsule_bytes(seen.bytes);
        addr = seen.next;
    }
    Ok(total)
}

// Charges an object's account for what the object charges more once it is bonded.
#[tactic(auto, using(sdr_base::proofs::LeavingLemmas::leaving))]
pub fn charge_bond<O: Objects>(o: &mut O, object: Addr, ticket: u64) -> Result<(), Stop>
    requires kept { KeepsSome (O.keeps o.old) }
    requires object { SomeWithQueue (O.heap o.old) object }
    ensures charged { OnOk result (ChargesBond object ticket (O.heap o.old) (O.heap o.new)) }
    ensures refused { IfErr result
        (BondChargeStops object ticket (O.heap o.old) (O.heap o.new)) }
    ensures untouched { IfErr result (LeavesTouched (O.transaction o.old) (O.transaction o.new)) }
    ensures works { Spends O.HasHeap 5 o.old o.new result }
{
    let first = first_parts(o, object)?;
    let headers = bond_rise(o, first.header)?;
    let trailers = bond_rise(o, first.trailer)?;
    charge_object(o, object, ticket, &heap_amounts(headers + trailers))
}
