// An object's own block.
ghost use Rattle.std.specs.Prelude.{◌≡◌, ◌≤◌, IfOk, IfErr};
ghost use Rattle.sdr_base.specs.Moves.{KeepsSome};
ghost use Rattle.sdr_base.specs.Making.{MakesThing};
ghost use Rattle.sdr_base.specs.Objects.{OnlyFault, OnlyShort};
ghost use Rattle.sdr_base.specs.Transaction.{LeavesTouched};
ghost use Rattle.sdr_base.specs.Works.{Looks, Spends};
ghost use Rattle.sdr_base.specs.ZcoObjects.{object_entries};
ghost use Rattle.sdr_model.specs.Charges.{object_bytes};
ghost use Rattle.zco_acct.specs.Kept.{SomeQueue};
ghost use Rattle.zco_obj.specs.Kept.{SomeObject};
ghost use Rattle.zco_obj.specs.Making.{CreatesObject, CreateStops, empty_row};
ghost use Rattle.zco_obj.specs.Reading.{Tells, TellsFirsts};

use crate::charging::heap_amounts;
use sdr_base::layout::object as words;
use sdr_base::{Acct, Addr, Kind, Objects, Stop, take_words, word};
use zco_acct::charge;

/// What an object charges of heap space for itself, in bytes.
pub const OBJECT_BYTES: u64 = 72;

/// The first header, extent and trailer of an object, 0 for none.
#[derive(Clone, Copy)]
pub struct Firsts {
    pub header: Addr,
    pub extent: Addr,
    pub trailer: Addr,
}

/// Makes an object with nothing in it in an account, and charges the account for it. What is left
/// of the grant of the ticket of this number covers what it can; 0 is no ticket.
#[tactic(auto, using(sdr_base::proofs::LeavingLemmas::leaving))]
pub fn create<O: Objects>(o: &mut O, acct: Acct, ticket: u64) -> Result<Addr, Stop>
    requires kept { KeepsSome (O.keeps o.old) }
    requires spare { 1 ≤ (O.heap o.old).spare }
    requires queue { SomeQueue (O.heap o.old) acct }
    ensures made { IfOk result (λ object.
        CreatesObject acct ticket object (O.heap o.old) (O.heap o.new)) }
    ensures refused { IfErr result (CreateStops acct ticket (O.heap o.old) (O.heap o.new)) }
    ensures untouched { IfErr result (LeavesTouched (O.transaction o.old) (O.transaction o.new)) }
    ensures works { Spends O.HasHeap 34 o.old o.new result }
{
    charge(o, acct, ticket, &heap_amounts(OBJECT_BYTES))?;
    make_object(o, acct)
}

/// Makes an object with nothing in it in an account, which isn't charged for it.
pub fn make_object<O: Objects>(o: &mut O, acct: Acct) -> Result<Addr, Stop>
    requires kept { KeepsSome (O.keeps o.old) }
    requires spare { 1 ≤ (O.heap o.old).spare }
    ensures made { IfOk result (λ object. MakesThing object_bytes object
        (object_entries object (empty_row acct)) (O.heap o.old) (O.heap o.new)) }
    ensures refused { IfErr result (OnlyShort object_bytes (O.heap o.old) (O.heap o.new)) }
    ensures works { Spends O.HasHeap 29 o.old o.new result }
{
    let number = acct.number();
    take_words(o, Kind::Object, &[number, 0, 0, 0, 0, 0, 0, 0, 0])
}

/// The account of an object.
pub fn account<O: Objects>(o: &mut O, object: Addr) -> Result<Acct, Stop>
    requires kept { KeepsSome (O.keeps o.old) }
    requires object { SomeObject (O.heap o.old).blocks object }
    ensures told { IfOk result (Tells (O.heap o.old).blocks object (λ row. row.account)) }
    ensures refused { IfErr result OnlyFault }
    ensures looks { Looks O.HasHeap o.old o.new result }
{
    let number = word(o, object, words::ACCOUNT)?;
    if number == 0 {
        Ok(Acct::Inbound)
    } else {
        Ok(Acct::Outbound)
    }
}

/// Where the chains of an object begin.
pub fn first_parts<O: Objects>(o: &mut O, object: Addr) -> Result<Firsts, Stop>
    requires kept { KeepsSome (O.keeps o.old) }
    requires object { SomeObject (O.heap o.old).blocks object }
    ensures told { IfOk result (TellsFirsts (O.heap o.old).blocks object) }
    ensures refused { IfErr result OnlyFault }
    ensures looks { Looks O.HasHeap o.old o.new result }
{
    let header = word(o, object, words::FIRST_HEADER)?;
    let extent = word(o, object, words::FIRST_EXTENT)?;
    let trailer = word(o, object, words::FIRST_TRAILER)?;
    Ok(Firsts {
        header,
        extent,
        trailer,
    })
}
