// The part of an object.
ghost use Rattle.std.specs.Prelude.{◌≡◌, ◌≤◌, ◌+◌, IfErr, OnOk};
ghost use Rattle.sdr_base.specs.Moves.{KeepsSome};
ghost use Rattle.sdr_base.specs.Transaction.{LeavesTouched};
ghost use Rattle.sdr_base.specs.Works.{Spends};
ghost use Rattle.zco_obj.specs.Kept.{IsObject};
ghost use Rattle.zco_part.specs.Delimiting.{Delimits, DelimitStops, IsPast};

use sdr_base::layout::object as words;
use sdr_base::{Addr, Kind, Objects, Refusal, Stop, expect_kind, set_word, word};
use zco_obj::extents_length;

/// Sets the part of an object to so many bytes of its extents, from a place among all of them on. It
/// may have no byte. It is linear in the extents.
///
/// It is refused `BadAddress` or `WrongKind` where the object isn't there, `BadRange` where the
/// extents have fewer bytes, and `LogFull`, behind which the transaction has to be cancelled.
#[tactic(auto, using(sdr_base::proofs::LeavingLemmas::leaving))]
pub fn delimit<O: Objects>(o: &mut O, object: Addr, offset: u64, bytes: u64) -> Result<(), Stop>
    requires kept { KeepsSome (O.keeps o.old) }
    requires object { IsObject (O.heap o.old).blocks object }
    ensures delimited { OnOk result (Delimits object offset bytes (O.heap o.old) (O.heap o.new)) }
    ensures refused { IfErr result
        (DelimitStops object offset bytes (O.heap o.old) (O.heap o.new)) }
    ensures untouched { IfErr result (LeavesTouched (O.transaction o.old) (O.transaction o.new)) }
    ensures works { Spends O.HasHeap 4 o.old o.new result }
{
    expect_kind(o, object, Kind::Object)?;
    let first = word(o, object, words::FIRST_EXTENT)?;
    let have = extents_length(o, first)?;
    check_part(offset, bytes, have)?;
    set_word(o, object, words::PART_OFFSET, offset)?;
    set_word(o, object, words::PART_LENGTH, bytes)
}

// Refuses a part that doesn't lie within so many bytes.
fn check_part(offset: u64, bytes: u64, have: u64) -> Result<(), Stop>
    ensures within { OnOk result (offset + bytes ≤ have) }
    ensures refused { IfErr result (IsPast offset bytes have) }
{
    if bytes > have || offset > have - bytes {
        return Err(Stop::Refused(Refusal::BadRange {
            offset,
            length: bytes,
            have,
        }));
    }
    Ok(())
}
