// Clones become one object.
ghost use Rattle.std.specs.Prelude.{◌*◌, ◌+◌, [], List, length, map, IfErr, IfOk, OnOk};
ghost use Rattle.sdr_base.specs.Moves.{KeepsSome};
ghost use Rattle.sdr_base.specs.Objects.{Heap};
ghost use Rattle.sdr_base.specs.Works.{Spends};
ghost use Rattle.sdr_base.specs.declared.account.Acct.{Acct};
ghost use Rattle.zco_obj.specs.declared.extent.ExtentPiece.{ExtentPiece};
ghost use Rattle.zco_join.specs.Appending.{AppendsAll, AppendsClone, CloneAt, HasAppended};
ghost use Rattle.zco_join.specs.Appending.{SomeAppended, SomeClone, StopsAll, StopsClone};
ghost use Rattle.zco_join.specs.Joining.{DestroysEach, DestroysSomeOf, Joins, JoinStops};
ghost use Rattle.zco_join.specs.Joining.{KeepsToJoin, SomeToJoin, Together, pieces_in};
ghost use Rattle.zco_join.specs.Leaving.{Doomed, KeepsToDestroy, SomeToDestroy};
ghost use Rattle.zco_join.specs.Stocks.{Standing};
ghost use Rattle.zco_join.specs.declared.filled.Filled.{Filled};

use crate::filled::Filled;
use sdr_base::layout::object as words;
use sdr_base::{Acct, Addr, Objects, Stop, check_failed, word};
use zco_obj::{TOO_MANY_PARTS, append_extent, create, destroy, see_link};

/// Makes an object of the clones of parts, in an account: its extents name what those of the clones do, in
/// order. The clones go. The account is charged as it is by `create` and for each extent; the clones' accounts
/// are given back what is charged less. What is left of the grant of the ticket of this number covers what it
/// can; 0 is no ticket. It appends the extents one by one, and each append reads those before it.
///
/// It is refused as `create`, `append_extent` and `destroy` are. Behind each of these refusals but those of
/// `create` by the account the transaction has to be cancelled.
pub fn join_clones<O: Objects>(
    o: &mut O,
    acct: Acct,
    ticket: u64,
    parts: &[Filled],
) -> Result<Addr, Stop>
    requires kept { KeepsSome (O.keeps o.old) }
    requires clones { SomeToJoin (O.heap o.old) acct parts.now }
    ensures joined { IfOk result (Joins acct ticket parts.now (O.heap o.old) (O.heap o.new)) }
    ensures refused { IfErr result (JoinStops acct ticket parts.now (O.heap o.old) (O.heap o.new)) }
    ensures works { (t : Together) → KeepsToJoin (O.heap o.old) acct parts.now t →
        Spends O.HasHeap
        (34 + 70 * length (pieces_in t.clones) + 27 * length t.clones) o.old o.new result }
{
    let object = create(o, acct, ticket)?;
    append_clones(o, object, ticket, parts)?;
    destroy_clones(o, parts)?;
    Ok(object)
}

// Gives an object the extents of the clones, in order.
fn append_clones<O: Objects>(
    o: &mut O,
    object: Addr,
    ticket: u64,
    parts: &[Filled],
) -> Result<(), Stop>
    requires kept { KeepsSome (O.keeps o.old) }
    requires clones { SomeAppended (O.heap o.old) object parts.now }
    ensures appended { OnOk result
        (AppendsAll object ticket parts.now (O.heap o.old) (O.heap o.new)) }
    ensures refused { IfErr result
        (StopsAll object ticket parts.now (O.heap o.old) (O.heap o.new)) }
    ensures works { (start : Heap) (acct : Acct) (t : Together) →
        HasAppended start acct parts.now t object [] (pieces_in t.clones) (O.heap o.old) →
        Spends O.HasHeap (42 * length (pieces_in t.clones)) o.old o.new result }
{
    check_failed(o)?;
    for part in parts {
        append_clone(o, object, ticket, part.object)?;
    }
    Ok(())
}

// Gives an object the extents of a clone.
fn append_clone<O: Objects>(o: &mut O, object: Addr, ticket: u64, clone: Addr) -> Result<(), Stop>
    requires kept { KeepsSome (O.keeps o.old) }
    requires clone { SomeClone (O.heap o.old) object clone }
    ensures appended { OnOk result
        (AppendsClone object ticket clone (O.heap o.old) (O.heap o.new)) }
    ensures refused { IfErr result
        (StopsClone object ticket clone (O.heap o.old) (O.heap o.new)) }
    ensures works { (start : Heap) (acct : Acct) (parts : List Filled) (t : Together)
        (done left : List ExtentPiece) (z : Standing) →
        CloneAt start acct parts t object clone done z left (O.heap o.old) →
        Spends O.HasHeap (42 * length z.row.extents) o.old o.new result }
{
    let mut extent = word(o, clone, words::FIRST_EXTENT)?;
    for i in 0..TOO_MANY_PARTS {
        if extent == 0 {
            break;
        }
        let link = see_link(o, extent)?;
        append_extent(
            o,
            object,
            ticket,
            link.piece.of,
            link.piece.offset,
            link.piece.bytes,
        )?;
        extent = link.next;
    }
    Ok(())
}

// Destroys the clones, in order.
fn destroy_clones<O: Objects>(o: &mut O, parts: &[Filled]) -> Result<(), Stop>
    requires kept { KeepsSome (O.keeps o.old) }
    requires clones { SomeToDestroy (O.heap o.old) parts.now }
    ensures destroyed { OnOk result (DestroysEach
        (map (λ p. p.object) parts.now) (O.heap o.old) (O.heap o.new)) }
    ensures refused { IfErr result (DestroysSomeOf
        (map (λ p. p.object) parts.now) (O.heap o.old) (O.heap o.new)) }
    ensures works { (d : Doomed) → KeepsToDestroy (O.heap o.old) parts.now d →
        Spends O.HasHeap (27 * length d.clones + 28 * length (pieces_in d.clones))
        o.old o.new result }
{
    check_failed(o)?;
    for part in parts {
        destroy(o, part.object)?;
    }
    Ok(())
}
