// What is charged to an object's account.
ghost use Rattle.std.specs.Prelude.{◌≡◌, ◌≤◌, IfErr, OnOk, if◌then◌else◌};
ghost use Rattle.sdr_base.specs.Moves.{KeepsSome};
ghost use Rattle.sdr_base.specs.Transaction.{LeavesTouched};
ghost use Rattle.sdr_base.specs.Works.{Spends};
ghost use Rattle.sdr_model.specs.Charges.{capsule_bytes, extent_bytes};
ghost use Rattle.sdr_model.specs.Limits.{longest_source};
ghost use Rattle.zco_obj.specs.Amounts.{extent_amounts, heap_amounts};
ghost use Rattle.zco_obj.specs.Charging.{ChargesObject, ObjectChargeStops};
ghost use Rattle.zco_obj.specs.Kept.{SomeWithQueue};

use crate::object::account;
use crate::seeing::SeenSource;
use sdr_base::limits::LONGEST_CAPSULE;
use sdr_base::{Addr, Amounts, Objects, Space, Stop};
use zco_acct::charge;

/// What an extent charges of heap space for itself, in bytes.
pub const EXTENT_BYTES: u64 = 32;

/// So many bytes of heap space.
pub fn heap_amounts(bytes: u64) -> Amounts
    ensures { result ≡ heap_amounts bytes }
{
    Amounts {
        file: 0,
        bulk: 0,
        heap: bytes,
    }
}

/// What an extent charges that is the first of an account's to name a source of so many bytes, which are
/// in this space: these, and its own block.
pub fn extent_amounts(space: Space, bytes: u64) -> Amounts
    requires short { bytes ≤ longest_source }
    ensures { result ≡ extent_amounts space bytes }
{
    match space {
        Space::File => Amounts {
            file: bytes,
            bulk: 0,
            heap: EXTENT_BYTES,
        },
        Space::Bulk => Amounts {
            file: 0,
            bulk: bytes,
            heap: EXTENT_BYTES,
        },
        Space::Heap => heap_amounts(bytes + EXTENT_BYTES),
    }
}

// What an extent charges that names a source: its own block, and the bytes of the source, where it is
// the only one of the account to name that.
pub fn naming_amounts(source: SeenSource, only: bool) -> Amounts
    requires short { source.bytes ≤ longest_source }
    ensures { result
        ≡ (if only then extent_amounts source.space source.bytes else heap_amounts extent_bytes) }
{
    if only {
        extent_amounts(source.space, source.bytes)
    } else {
        heap_amounts(EXTENT_BYTES)
    }
}

/// What a header or trailer of so many bytes charges of heap space: its words, with the link.
pub fn capsule_bytes(bytes: u64) -> u64
    requires short { bytes ≤ LONGEST_CAPSULE }
    ensures { result ≡ capsule_bytes bytes }
{
    8 * ((15 + bytes) / 8)
}

/// Charges the account of an object.
#[tactic(auto, using(sdr_base::proofs::LeavingLemmas::leaving))]
pub fn charge_object<O: Objects>(
    o: &mut O,
    object: Addr,
    ticket: u64,
    amounts: &Amounts,
) -> Result<(), Stop>
    requires kept { KeepsSome (O.keeps o.old) }
    requires object { SomeWithQueue (O.heap o.old) object }
    ensures charged { OnOk result
        (ChargesObject object ticket (λ acct. amounts.now) (O.heap o.old) (O.heap o.new)) }
    ensures refused { IfErr result
        (ObjectChargeStops object ticket (λ acct. amounts.now) (O.heap o.old) (O.heap o.new)) }
    ensures untouched { IfErr result (LeavesTouched (O.transaction o.old) (O.transaction o.new)) }
    ensures works { Spends O.HasHeap 5 o.old o.new result }
{
    let acct = account(o, object)?;
    charge(o, acct, ticket, amounts)
}
