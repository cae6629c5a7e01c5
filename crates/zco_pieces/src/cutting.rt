// An object is cut into pieces.
ghost use Rattle.std.specs.Prelude.{◌≡◌, ◌*◌, ◌+◌, ◌≤◌, List, length, min, IfErr, IfOk, OnOk};
ghost use Rattle.std.specs.Int.{div_ceil};
ghost use Rattle.sdr_base.specs.Moves.{KeepsSome};
ghost use Rattle.sdr_base.specs.Works.{Looks, Spends};
ghost use Rattle.sdr_base.specs.ZcoObjects.{ObjectRow};
ghost use Rattle.sdr_base.specs.declared.refusal.Refusal.TheVariants as refusals;
ghost use Rattle.sdr_base.specs.declared.stop.Stop.TheVariants as stops;
ghost use Rattle.sdr_model.specs.declared.accounts.Ticket.{Ticket};
ghost use Rattle.zco_obj.specs.Gone.{NamedSource};
ghost use Rattle.zco_obj.specs.Kept.{IsObject};
ghost use Rattle.zco_obj.specs.Reading.{TellsObject};
ghost use Rattle.zco_part.specs.Cloning.{KeepsToClone};
ghost use Rattle.zco_part.specs.Pieces.{asked};
ghost use Rattle.zco_pieces.specs.Cutting.{CountStops, CutsPiece, CutStops, IsToCut};
ghost use Rattle.zco_pieces.specs.Places.{cut_length};

use crate::piece::Piece;
use sdr_base::{Addr, Objects, Refusal, Stop};
use zco_obj::source_length;
use zco_part::clone_part;

/// How many pieces of at most so many bytes an object's part has.
///
/// It is refused `BadAddress` or `WrongKind` where the object isn't there, and `BadRange` where the pieces
/// are to have no byte.
pub fn count<O: Objects>(o: &mut O, object: Addr, most: u64) -> Result<u64, Stop>
    requires kept { KeepsSome (O.keeps o.old) }
    requires object { IsObject (O.heap o.old).blocks object }
    ensures told { IfOk result (TellsObject (O.heap o.old).blocks object
        (λ row. div_ceil row.part_length most)) }
    ensures some { OnOk result (1 ≤ most) }
    ensures refused { IfErr result (CountStops object most (O.heap o.old)) }
    ensures looks { Looks O.HasHeap o.old o.new result }
{
    let length = source_length(o, object)?;
    if most == 0 {
        return Err(bad_range(0, 0, length));
    }
    Ok(length.div_ceil(most))
}

/// Makes piece `k` of an object, from 0 on, where each has at most so many bytes: the last one has those that
/// are left. It is a clone, and no byte is copied. What is left of the grant of the ticket of this number
/// covers what it can; 0 is no ticket.
///
/// It is refused `BadAddress` or `WrongKind` where the object isn't there, `BadRange` where there is no such
/// piece, and then as a clone of a part is.
pub fn cut<O: Objects>(
    o: &mut O,
    object: Addr,
    ticket: u64,
    most: u64,
    k: u64,
) -> Result<Piece, Stop>
    requires kept { KeepsSome (O.keeps o.old) }
    requires object { IsToCut (O.heap o.old) object most k }
    ensures cut { IfOk result (CutsPiece object ticket most k (O.heap o.old) (O.heap o.new)) }
    ensures refused { IfErr result
        (CutStops object ticket most k (O.heap o.old) (O.heap o.new)) }
    ensures works { (row : ObjectRow) (tickets : List Ticket) (sources : List NamedSource) →
        KeepsToClone (O.heap o.old) object row tickets sources → Spends O.HasHeap
        (34 + 33 * length (asked (k * most) (cut_length row.part_length most k) row))
        o.old o.new result }
{
    let total = source_length(o, object)?;
    if most == 0 || k >= total.div_ceil(most) {
        return Err(bad_range(k, most, total));
    }
    let offset = k * most;
    let clone = clone_part(o, object, ticket, offset, most.min(total - offset))?;
    Ok(Piece {
        object: clone,
        offset,
        total,
    })
}

// The refusal of a range of so many bytes from an offset on, where there are so many.
pub fn bad_range(offset: u64, length: u64, have: u64) -> Stop
    ensures { result ≡ stops.Refused (refusals.BadRange offset length have) }
{
    Stop::Refused(Refusal::BadRange {
        offset,
        length,
        have,
    })
}
