// A list as a whole, and what it says.
ghost use Rattle.std.specs.Prelude.{◌≡◌, ◌≤◌, [], ◌∷◌, length, IfOk, IfErr, OnOk};
ghost use Rattle.sdr_base.specs.Linked.{first_of, last_of};
ghost use Rattle.sdr_base.specs.Lists.{addr_of, list_entries};
ghost use Rattle.sdr_base.specs.Making.{MakesThing};
ghost use Rattle.sdr_base.specs.Moves.{KeepsSome};
ghost use Rattle.sdr_base.specs.Objects.{Misses, OnlyShort};
ghost use Rattle.sdr_base.specs.Transaction.{LeavesTouched};
ghost use Rattle.sdr_base.specs.Works.{Looks, Spends};
ghost use Rattle.sdr_base.specs.declared.kind.Kind.TheVariants as kinds;
ghost use Rattle.sdr_list.specs.Calls.{ChangeStops, SetsInList, TellsOfList};
ghost use Rattle.sdr_list.specs.Kept.{IsList};

use crate::reading::list_word;
use sdr_base::layout::list as words;
use sdr_base::{Addr, Kind, Objects, Stop, expect_kind, set_word, take_words};

/// Makes a list without elements, with the user's number.
pub fn create<O: Objects>(o: &mut O, user: u64) -> Result<Addr, Stop>
    requires kept { KeepsSome (O.keeps o.old) }
    requires spare { 1 ≤ (O.heap o.old).spare }
    ensures made { IfOk result (λ list. MakesThing 32 list
        (list_entries list (record { user = user; elements = [] })) (O.heap o.old) (O.heap o.new)) }
    ensures refused { IfErr result (OnlyShort 32 (O.heap o.old) (O.heap o.new)) }
    ensures works { Spends O.HasHeap 29 o.old o.new result }
{
    take_words(o, Kind::List, &[user, 0, 0, 0])
}

/// How many elements a list has.
pub fn length<O: Objects>(o: &mut O, list: Addr) -> Result<u64, Stop>
    requires kept { KeepsSome (O.keeps o.old) }
    requires list { IsList (O.heap o.old).blocks list }
    ensures given { IfOk result
        (TellsOfList list (λ row. length row.elements) (O.heap o.old).blocks) }
    ensures refused { IfErr result (Misses ((O.heap o.old).blocks list) list kinds.List) }
    ensures looks { Looks O.HasHeap o.old o.new result }
{
    list_word(o, list, words::LENGTH)
}

/// The user's number of a list.
pub fn user_data<O: Objects>(o: &mut O, list: Addr) -> Result<u64, Stop>
    requires kept { KeepsSome (O.keeps o.old) }
    requires list { IsList (O.heap o.old).blocks list }
    ensures given { IfOk result (TellsOfList list (λ row. row.user) (O.heap o.old).blocks) }
    ensures refused { IfErr result (Misses ((O.heap o.old).blocks list) list kinds.List) }
    ensures looks { Looks O.HasHeap o.old o.new result }
{
    list_word(o, list, words::USER)
}

/// Sets the user's number of a list.
#[tactic(auto, using(sdr_base::proofs::LeavingLemmas::leaving))]
pub fn set_user_data<O: Objects>(o: &mut O, list: Addr, user: u64) -> Result<(), Stop>
    requires kept { KeepsSome (O.keeps o.old) }
    requires list { IsList (O.heap o.old).blocks list }
    ensures set { OnOk result
        (SetsInList list (λ row. record row { user = user }) (O.heap o.old) (O.heap o.new)) }
    ensures refused { IfErr result (ChangeStops kinds.List list (O.heap o.old) (O.heap o.new)) }
    ensures untouched { IfErr result (LeavesTouched (O.transaction o.old) (O.transaction o.new)) }
    ensures works { Spends O.HasHeap 2 o.old o.new result }
{
    expect_kind(o, list, Kind::List)?;
    set_word(o, list, words::USER, user)
}

/// The first element of a list, 0 where there is none.
pub fn first<O: Objects>(o: &mut O, list: Addr) -> Result<Addr, Stop>
    requires kept { KeepsSome (O.keeps o.old) }
    requires list { IsList (O.heap o.old).blocks list }
    ensures given { IfOk result
        (TellsOfList list (λ row. first_of addr_of 0 row.elements) (O.heap o.old).blocks) }
    ensures refused { IfErr result (Misses ((O.heap o.old).blocks list) list kinds.List) }
    ensures looks { Looks O.HasHeap o.old o.new result }
{
    list_word(o, list, words::FIRST)
}

/// The last element of a list, 0 where there is none.
pub fn last<O: Objects>(o: &mut O, list: Addr) -> Result<Addr, Stop>
    requires kept { KeepsSome (O.keeps o.old) }
    requires list { IsList (O.heap o.old).blocks list }
    ensures given { IfOk result
        (TellsOfList list (λ row. last_of addr_of 0 row.elements) (O.heap o.old).blocks) }
    ensures refused { IfErr result (Misses ((O.heap o.old).blocks list) list kinds.List) }
    ensures looks { Looks O.HasHeap o.old o.new result }
{
    list_word(o, list, words::LAST)
}
