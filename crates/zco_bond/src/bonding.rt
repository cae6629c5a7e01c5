// Objects that are bonded.
ghost use Rattle.std.specs.Prelude.{◌≡◌, ◌≤◌, ◌+◌, ◌==◌, List, IfErr, IfOk, OnOk, if◌then◌else◌};
ghost use Rattle.sdr_base.specs.Blocks.{IsKind, UsesRange};
ghost use Rattle.sdr_base.specs.Moves.{KeepsSome};
ghost use Rattle.sdr_base.specs.Objects.{OnlyUnmoved};
ghost use Rattle.sdr_base.specs.Transaction.{LeavesTouched};
ghost use Rattle.sdr_base.specs.Wanting.{OnlyWanting};
ghost use Rattle.sdr_base.specs.Works.{Spends};
ghost use Rattle.sdr_base.specs.ZcoObjects.{ObjectRow};
ghost use Rattle.sdr_base.specs.declared.kind.Kind.TheVariants as kinds;
ghost use Rattle.sdr_model.specs.declared.accounts.Ticket.{Ticket};
ghost use Rattle.zco_bond.specs.Bonding.{BondsObject, BondsParts, BondStops, IsToBond, PartsStop};
ghost use Rattle.zco_bond.specs.Bonding.{SetsWhole, SomeToBond, ends_lines};
ghost use Rattle.zco_obj.specs.Kept.{KeepsObject, KeepsWithQueue};

use crate::chaining::bond_chain;
use crate::charging::charge_bond;
use crate::gap::{Chain, Gap};
use byteorder::{BigEndian, ByteOrder};
use sdr_base::layout::object as words;
use sdr_base::{Addr, Kind, Objects, Stop, expect_kind, word};
use zco_obj::{account, extents_length, first_parts};

/// Makes extents of an object's headers and trailers: of those before the others, and of these
/// behind them, each of a source of its own, which takes over a raw object of the text. The part
/// becomes the whole. The account is charged for what the object charges more; what is left of the
/// grant of the ticket of this number covers what it can, and 0 is no ticket. It is linear in the
/// parts.
///
/// It is refused `BadAddress` or `WrongKind` where the object isn't there, `BadTicket`, `NotAwarded`,
/// `Queue` or `NoSpace` by the account; and `NoBlock` or `LogFull`, behind which the transaction has
/// to be cancelled.
#[tactic(auto, using(sdr_base::proofs::LeavingLemmas::leaving))]
pub fn bond<O: Objects>(o: &mut O, object: Addr, ticket: u64) -> Result<(), Stop>
    requires kept { KeepsSome (O.keeps o.old) }
    requires object { IsToBond (O.heap o.old) object }
    ensures bonded { OnOk result (BondsObject object ticket (O.heap o.old) (O.heap o.new)) }
    ensures refused { IfErr result (BondStops object ticket (O.heap o.old) (O.heap o.new)) }
    ensures untouched { IfErr result (LeavesTouched (O.transaction o.old) (O.transaction o.new)) }
    ensures works { (row : ObjectRow) (tickets : List Ticket) →
        KeepsWithQueue (O.heap o.old) object row tickets →
        Spends O.HasHeap (8 + ends_lines row) o.old o.new result }
    ensures missed { (IsKind ((O.heap o.old).blocks object) kinds.Object → ⊥) →
        Spends O.HasHeap 0 o.old o.new result }
{
    expect_kind(o, object, Kind::Object)?;
    charge_bond(o, object, ticket)?;
    let chain = bond_parts(o, object)?;
    let bytes = extents_length(o, chain.first)?;
    set_whole(o, object, chain, bytes)
}

// Makes extents of an object's headers and trailers, and one chain of all its extents, of which it
// answers the ends.
#[tactic(auto, using(sdr_base::proofs::LeavingLemmas::wanting))]
fn bond_parts<O: Objects>(o: &mut O, object: Addr) -> Result<Chain, Stop>
    requires kept { KeepsSome (O.keeps o.old) }
    requires object { SomeToBond (O.heap o.old) object }
    ensures bonded { IfOk result (BondsParts object (O.heap o.old) (O.heap o.new)) }
    ensures refused { IfErr result (PartsStop object (O.heap o.old) (O.heap o.new)) }
    ensures wants { IfErr result OnlyWanting }
    ensures works { (row : ObjectRow) → KeepsObject (O.heap o.old).blocks object row →
        Spends O.HasHeap (ends_lines row) o.old o.new result }
{
    let acct = account(o, object)?;
    let first = first_parts(o, object)?;
    let last = word(o, object, words::LAST_EXTENT)?;
    let before = Gap {
        previous: 0,
        next: first.extent,
    };
    let headers = bond_chain(o, acct, first.header, before)?;
    let behind = Gap {
        previous: either(last, headers.last),
        next: 0,
    };
    let trailers = bond_chain(o, acct, first.trailer, behind)?;
    Ok(Chain {
        first: either(headers.first, trailers.first),
        last: trailers.last,
    })
}

// The first of two addresses, or the second where that is 0.
fn either(first: Addr, second: Addr) -> Addr
    ensures { result ≡ (if first == 0 then second else first) }
{
    if first == 0 { second } else { first }
}

// Tells an object that a chain of so many bytes is all that it has. Its part is the whole.
fn set_whole<O: Objects>(o: &mut O, object: Addr, chain: Chain, bytes: u64) -> Result<(), Stop>
    requires kept { KeepsSome (O.keeps o.old) }
    requires object { UsesRange (O.heap o.old).blocks object 0 72 }
    ensures set { OnOk result (SetsWhole object chain bytes (O.heap o.old) (O.heap o.new)) }
    ensures refused { IfErr result (OnlyUnmoved (O.heap o.old) (O.heap o.new)) }
    ensures works { Spends O.HasHeap 3 o.old o.new result }
{
    let mut buffer = [0; 64];
    BigEndian::write_u64_into(
        &[chain.first, chain.last, 0, 0, 0, 0, 0, bytes],
        &mut buffer,
    );
    o.put(object, 8, &buffer)
}
