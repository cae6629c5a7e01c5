// Parts of objects that are cloned.
ghost use Rattle.std.specs.Prelude.{◌≡◌, ◌≤◌, ◌+◌, ◌*◌, List, length, IfErr, IfOk, OnOk};
ghost use Rattle.sdr_base.specs.Blocks.{IsKind};
ghost use Rattle.sdr_base.specs.Moves.{KeepsSome};
ghost use Rattle.sdr_base.specs.Objects.{OnlyFault};
ghost use Rattle.sdr_base.specs.Transaction.{LeavesTouched};
ghost use Rattle.sdr_base.specs.Works.{Looks, Spends};
ghost use Rattle.sdr_base.specs.ZcoObjects.{ObjectRow};
ghost use Rattle.sdr_base.specs.declared.kind.Kind.TheVariants as kinds;
ghost use Rattle.sdr_model.specs.declared.accounts.Ticket.{Ticket};
ghost use Rattle.zco_acct.specs.Kept.{SomeQueue};
ghost use Rattle.zco_obj.specs.Gone.{NamedSource};
ghost use Rattle.zco_obj.specs.Walks.{SomeExtents};
ghost use Rattle.zco_part.specs.Cloning.{ChargesClone, ClonesPart, CloneStops, HasRange, IsBad};
ghost use Rattle.zco_part.specs.Cloning.{IsToClone, KeepsToClone, SeesAsked, SomeToClone, StopsClone};
ghost use Rattle.zco_part.specs.Delimiting.{OfObject};
ghost use Rattle.zco_part.specs.Pieces.{asked};

use crate::charging::count_pieces;
use crate::copying::copy_chain;
use crate::span::Span;
use sdr_base::layout::object as words;
use sdr_base::{Acct, Addr, Kind, Objects, Refusal, Stop, expect_kind, word};
use zco_acct::charge;
use zco_obj::{EXTENT_BYTES, OBJECT_BYTES, account, heap_amounts, make_object};

// Where the extents of an object begin, 0 for none, and the places of their bytes that are asked for.
#[derive(Clone, Copy)]
struct Asked {
    first: Addr,
    span: Span,
}

/// Makes an object of so many bytes of an object's part, from a place in it on, in the same account:
/// its extents name the same sources, which count them, and its part is its whole. The account is
/// charged for its blocks: it is charged for the sources already. What is left of the grant of the
/// ticket of this number covers what it can; 0 is no ticket. It is linear in the extents, and copies
/// none of their bytes.
///
/// It is refused `BadAddress` or `WrongKind` where the object isn't there, `BadRange` for no byte or
/// more than its part has from the place on, `BadTicket`, `NotAwarded`, `Queue` or `NoSpace` by the
/// account; and `NoBlock` or `LogFull`, behind which the transaction has to be cancelled.
#[tactic(auto, using(sdr_base::proofs::LeavingLemmas::leaving))]
pub fn clone_part<O: Objects>(
    o: &mut O,
    object: Addr,
    ticket: u64,
    offset: u64,
    bytes: u64,
) -> Result<Addr, Stop>
    requires kept { KeepsSome (O.keeps o.old) }
    requires object { IsToClone (O.heap o.old) object offset bytes }
    ensures cloned { IfOk result
        (ClonesPart object ticket offset bytes (O.heap o.old) (O.heap o.new)) }
    ensures refused { IfErr result
        (CloneStops object ticket offset bytes (O.heap o.old) (O.heap o.new)) }
    ensures untouched { IfErr result (LeavesTouched (O.transaction o.old) (O.transaction o.new)) }
    ensures works { (row : ObjectRow) (tickets : List Ticket) (sources : List NamedSource) →
        KeepsToClone (O.heap o.old) object row tickets sources →
        Spends O.HasHeap (34 + 33 * length (asked offset bytes row)) o.old o.new result }
    ensures missed { (IsKind ((O.heap o.old).blocks object) kinds.Object → ⊥) →
        Spends O.HasHeap 0 o.old o.new result }
{
    expect_kind(o, object, Kind::Object)?;
    let have = word(o, object, words::PART_LENGTH)?;
    check_range(offset, bytes, have)?;
    make_clone(o, object, ticket, offset, bytes)
}

// Refuses a range that has no byte, or doesn't lie within so many.
fn check_range(offset: u64, bytes: u64, have: u64) -> Result<(), Stop>
    ensures some { OnOk result (1 ≤ bytes) }
    ensures within { OnOk result (offset + bytes ≤ have) }
    ensures refused { IfErr result (IsBad offset bytes have) }
{
    if bytes == 0 || bytes > have || offset > have - bytes {
        return Err(Stop::Refused(Refusal::BadRange {
            offset,
            length: bytes,
            have,
        }));
    }
    Ok(())
}

// Makes an object of a range that the part of an object has, and charges its account.
#[tactic(auto, using(sdr_base::proofs::LeavingLemmas::leaving))]
fn make_clone<O: Objects>(
    o: &mut O,
    object: Addr,
    ticket: u64,
    offset: u64,
    bytes: u64,
) -> Result<Addr, Stop>
    requires kept { KeepsSome (O.keeps o.old) }
    requires object { SomeToClone (O.heap o.old) object offset bytes }
    requires has { OfObject (HasRange offset bytes) object (O.heap o.old) }
    ensures cloned { IfOk result
        (ClonesPart object ticket offset bytes (O.heap o.old) (O.heap o.new)) }
    ensures refused { IfErr result
        (CloneStops object ticket offset bytes (O.heap o.old) (O.heap o.new)) }
    ensures untouched { IfErr result (LeavesTouched (O.transaction o.old) (O.transaction o.new)) }
    ensures works { (row : ObjectRow) (tickets : List Ticket) (sources : List NamedSource) →
        KeepsToClone (O.heap o.old) object row tickets sources →
        Spends O.HasHeap (34 + 33 * length (asked offset bytes row)) o.old o.new result }
{
    let acct = account(o, object)?;
    let seen = see_asked(o, object, offset, bytes)?;
    charge_clone(o, acct, ticket, seen)?;
    let clone = make_object(o, acct)?;
    copy_chain(o, clone, seen.first, seen.span)?;
    Ok(clone)
}

// Reads what of an object is asked for.
fn see_asked<O: Objects>(o: &mut O, object: Addr, offset: u64, bytes: u64) -> Result<Asked, Stop>
    requires kept { KeepsSome (O.keeps o.old) }
    requires object { SomeToClone (O.heap o.old) object offset bytes }
    requires has { OfObject (HasRange offset bytes) object (O.heap o.old) }
    ensures seen { IfOk result (SeesAsked (O.heap o.old).blocks object offset bytes) }
    ensures refused { IfErr result OnlyFault }
    ensures looks { Looks O.HasHeap o.old o.new result }
{
    let first = word(o, object, words::FIRST_EXTENT)?;
    let start = word(o, object, words::PART_OFFSET)?;
    let from = start + offset;
    Ok(Asked {
        first,
        span: Span {
            from,
            to: from + bytes,
        },
    })
}

// Charges an account for the blocks of an object of what is asked for.
#[tactic(auto, using(sdr_base::proofs::LeavingLemmas::leaving))]
fn charge_clone<O: Objects>(o: &mut O, acct: Acct, ticket: u64, asked: Asked) -> Result<(), Stop>
    requires kept { KeepsSome (O.keeps o.old) }
    requires queue { SomeQueue (O.heap o.old) acct }
    requires chain { SomeExtents (O.heap o.old).blocks asked.first }
    ensures charged { OnOk result
        (ChargesClone acct ticket asked (O.heap o.old) (O.heap o.new)) }
    ensures refused { IfErr result (StopsClone acct ticket asked (O.heap o.old) (O.heap o.new)) }
    ensures untouched { IfErr result (LeavesTouched (O.transaction o.old) (O.transaction o.new)) }
    ensures works { Spends O.HasHeap 5 o.old o.new result }
{
    let extents = count_pieces(o, asked.first, asked.span)?;
    charge(
        o,
        acct,
        ticket,
        &heap_amounts(OBJECT_BYTES + EXTENT_BYTES * extents),
    )
}
