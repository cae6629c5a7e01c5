// Headers and trailers that come.
ghost use Rattle.std.specs.Prelude.{◌≡◌, ◌≤◌, ◌+◌, ◌/◌, length, IfErr, OnOk};
ghost use Rattle.sdr_base.specs.Moves.{KeepsSome};
ghost use Rattle.sdr_base.specs.Transaction.{LeavesTouched};
ghost use Rattle.sdr_base.specs.Works.{Spends};
ghost use Rattle.zco_obj.specs.Capsules.{AddsCapsule, CapsuleStops, ChargesCapsule, IsCapsuleLength, TextRefused};
ghost use Rattle.zco_obj.specs.Capsules.{with_header, with_trailer};
ghost use Rattle.zco_obj.specs.Kept.{IsWithQueue};

use crate::capsule::{TEXT_FROM, insert_capsule};
use crate::charging::{capsule_bytes, charge_object, heap_amounts};
use crate::linking::Side;
use sdr_base::layout::object as words;
use sdr_base::limits::LONGEST_CAPSULE;
use sdr_base::{Addr, Kind, Objects, Refusal, Stop, expect_kind, word};

/// Puts a header in front of an object's others, and charges the object's account for it. What is
/// left of the grant of the ticket of this number covers what it can; 0 is no ticket.
#[tactic(auto, using(sdr_base::proofs::LeavingLemmas::leaving))]
pub fn prepend_header<O: Objects>(
    o: &mut O,
    object: Addr,
    ticket: u64,
    text: &[u8],
) -> Result<(), Stop>
    requires kept { KeepsSome (O.keeps o.old) }
    requires spare { 1 ≤ (O.heap o.old).spare }
    requires object { IsWithQueue (O.heap o.old) object }
    ensures added { OnOk result
        (AddsCapsule with_header object ticket text.now (O.heap o.old) (O.heap o.new)) }
    ensures refused { IfErr result
        (CapsuleStops object ticket text.now (O.heap o.old) (O.heap o.new)) }
    ensures untouched { IfErr result (LeavesTouched (O.transaction o.old) (O.transaction o.new)) }
    ensures works { Spends O.HasHeap
        (35 + (TEXT_FROM + length text.now) / 32) o.old o.new result }
{
    charge_capsule(o, object, ticket, text)?;
    let first = word(o, object, words::FIRST_HEADER)?;
    insert_capsule(o, object, Side::Headers, 0, first, text)?;
    Ok(())
}

/// Puts a trailer behind an object's others, and charges the object's account for it. What is left
/// of the grant of the ticket of this number covers what it can; 0 is no ticket.
#[tactic(auto, using(sdr_base::proofs::LeavingLemmas::leaving))]
pub fn append_trailer<O: Objects>(
    o: &mut O,
    object: Addr,
    ticket: u64,
    text: &[u8],
) -> Result<(), Stop>
    requires kept { KeepsSome (O.keeps o.old) }
    requires spare { 1 ≤ (O.heap o.old).spare }
    requires object { IsWithQueue (O.heap o.old) object }
    ensures added { OnOk result
        (AddsCapsule with_trailer object ticket text.now (O.heap o.old) (O.heap o.new)) }
    ensures refused { IfErr result
        (CapsuleStops object ticket text.now (O.heap o.old) (O.heap o.new)) }
    ensures untouched { IfErr result (LeavesTouched (O.transaction o.old) (O.transaction o.new)) }
    ensures works { Spends O.HasHeap
        (35 + (TEXT_FROM + length text.now) / 32) o.old o.new result }
{
    charge_capsule(o, object, ticket, text)?;
    let last = word(o, object, words::LAST_TRAILER)?;
    insert_capsule(o, object, Side::Trailers, last, 0, text)?;
    Ok(())
}

// Charges an object's account for a header or trailer of this text.
#[tactic(auto, using(sdr_base::proofs::LeavingLemmas::leaving))]
fn charge_capsule<O: Objects>(o: &mut O, object: Addr, ticket: u64, text: &[u8]) -> Result<(), Stop>
    requires kept { KeepsSome (O.keeps o.old) }
    requires object { IsWithQueue (O.heap o.old) object }
    ensures charged { OnOk result
        (ChargesCapsule object ticket text.now (O.heap o.old) (O.heap o.new)) }
    ensures refused { IfErr result
        (CapsuleStops object ticket text.now (O.heap o.old) (O.heap o.new)) }
    ensures untouched { IfErr result (LeavesTouched (O.transaction o.old) (O.transaction o.new)) }
    ensures works { Spends O.HasHeap 5 o.old o.new result }
{
    expect_kind(o, object, Kind::Object)?;
    check_text(text.len() as u64)?;
    charge_object(
        o,
        object,
        ticket,
        &heap_amounts(capsule_bytes(text.len() as u64)),
    )
}

// Refuses a text of no byte or of too many.
fn check_text(count: u64) -> Result<(), Stop>
    ensures fits { OnOk result (IsCapsuleLength count) }
    ensures refused { IfErr result (TextRefused count) }
{
    if count == 0 || count > LONGEST_CAPSULE {
        return Err(Stop::Refused(Refusal::BadLength {
            length: count,
            most: LONGEST_CAPSULE,
        }));
    }
    Ok(())
}
