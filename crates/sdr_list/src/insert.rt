// Insertions at a place that is known.
ghost use Rattle.std.specs.Prelude.{◌≡◌, ◌+◌, ◌≤◌, [], ◌∷◌, length, IfOk, IfErr};
ghost use Rattle.sdr_base.specs.Making.{Made};
ghost use Rattle.sdr_base.specs.Moves.{KeepsSome};
ghost use Rattle.sdr_base.specs.Objects.{OnlyShort};
ghost use Rattle.sdr_base.specs.Transaction.{LeavesTouched};
ghost use Rattle.sdr_base.specs.Works.{Spends};
ghost use Rattle.sdr_base.specs.declared.kind.Kind.TheVariants as kinds;
ghost use Rattle.sdr_base.specs.declared.moves.Move.TheVariants.{Took};
ghost use Rattle.sdr_list.specs.Calls.{InsertsBeside, InsertsInList, InsertStops};
ghost use Rattle.sdr_list.specs.Gaps.{InsertsBetween, SomePlace};
ghost use Rattle.sdr_list.specs.Kept.{IsElement, IsList};

use crate::link::{link_next, link_prev};
use crate::reading::{element_word, list_word};
use sdr_base::layout::{element as element_words, list as words};
use sdr_base::{Addr, Kind, Objects, Stop, set_word, take_words, word};

/// Makes a new first element of a list.
#[tactic(auto, using(sdr_base::proofs::LeavingLemmas::leaving))]
pub fn insert_first<O: Objects>(o: &mut O, list: Addr, datum: u64) -> Result<Addr, Stop>
    requires kept { KeepsSome (O.keeps o.old) }
    requires spare { 1 ≤ (O.heap o.old).spare }
    requires list { IsList (O.heap o.old).blocks list }
    ensures inserted { IfOk result (λ addr.
        InsertsInList list (λ row. 0) datum addr (O.heap o.old) (O.heap o.new)) }
    ensures refused { IfErr result (InsertStops kinds.List list (O.heap o.old) (O.heap o.new)) }
    ensures untouched { IfErr result (LeavesTouched (O.transaction o.old) (O.transaction o.new)) }
    ensures works { Spends O.HasHeap 35 o.old o.new result }
{
    let first = list_word(o, list, words::FIRST)?;
    insert_between(o, list, 0, first, datum)
}

/// Makes a new last element of a list.
#[tactic(auto, using(sdr_base::proofs::LeavingLemmas::leaving))]
pub fn insert_last<O: Objects>(o: &mut O, list: Addr, datum: u64) -> Result<Addr, Stop>
    requires kept { KeepsSome (O.keeps o.old) }
    requires spare { 1 ≤ (O.heap o.old).spare }
    requires list { IsList (O.heap o.old).blocks list }
    ensures inserted { IfOk result (λ addr. InsertsInList list
        (λ row. length row.elements) datum addr (O.heap o.old) (O.heap o.new)) }
    ensures refused { IfErr result (InsertStops kinds.List list (O.heap o.old) (O.heap o.new)) }
    ensures untouched { IfErr result (LeavesTouched (O.transaction o.old) (O.transaction o.new)) }
    ensures works { Spends O.HasHeap 35 o.old o.new result }
{
    let last = list_word(o, list, words::LAST)?;
    insert_between(o, list, last, 0, datum)
}

/// Makes a new element before another, in its list.
#[tactic(auto, using(sdr_base::proofs::LeavingLemmas::leaving))]
pub fn insert_before<O: Objects>(o: &mut O, element: Addr, datum: u64) -> Result<Addr, Stop>
    requires kept { KeepsSome (O.keeps o.old) }
    requires spare { 1 ≤ (O.heap o.old).spare }
    requires element { IsElement (O.heap o.old).blocks element }
    ensures inserted { IfOk result (λ addr.
        InsertsBeside element (λ place. place) datum addr (O.heap o.old) (O.heap o.new)) }
    ensures refused { IfErr result
        (InsertStops kinds.Element element (O.heap o.old) (O.heap o.new)) }
    ensures untouched { IfErr result (LeavesTouched (O.transaction o.old) (O.transaction o.new)) }
    ensures works { Spends O.HasHeap 35 o.old o.new result }
{
    let list = element_word(o, element, element_words::LIST)?;
    let prev = word(o, element, element_words::PREVIOUS)?;
    insert_between(o, list, prev, element, datum)
}

/// Makes a new element behind another, in its list.
#[tactic(auto, using(sdr_base::proofs::LeavingLemmas::leaving))]
pub fn insert_after<O: Objects>(o: &mut O, element: Addr, datum: u64) -> Result<Addr, Stop>
    requires kept { KeepsSome (O.keeps o.old) }
    requires spare { 1 ≤ (O.heap o.old).spare }
    requires element { IsElement (O.heap o.old).blocks element }
    ensures inserted { IfOk result (λ addr.
        InsertsBeside element (λ place. place + 1) datum addr (O.heap o.old) (O.heap o.new)) }
    ensures refused { IfErr result
        (InsertStops kinds.Element element (O.heap o.old) (O.heap o.new)) }
    ensures untouched { IfErr result (LeavesTouched (O.transaction o.old) (O.transaction o.new)) }
    ensures works { Spends O.HasHeap 35 o.old o.new result }
{
    let list = element_word(o, element, element_words::LIST)?;
    let next = word(o, element, element_words::NEXT)?;
    insert_between(o, list, element, next, datum)
}

// Makes a new element between two of a list, or at its ends where they are 0.
pub fn insert_between<O: Objects>(
    o: &mut O,
    list: Addr,
    prev: Addr,
    next: Addr,
    datum: u64,
) -> Result<Addr, Stop>
    requires kept { KeepsSome (O.keeps o.old) }
    requires spare { 1 ≤ (O.heap o.old).spare }
    requires place { SomePlace (O.heap o.old).blocks list prev next }
    ensures inserted { IfOk result (λ addr. InsertsBetween
        (O.heap o.old).blocks (O.heap o.new).blocks list prev next addr datum) }
    ensures made { IfOk result (λ addr. Made (Took 32 addr ∷ []) (O.heap o.old) (O.heap o.new)) }
    ensures refused { IfErr result (OnlyShort 32 (O.heap o.old) (O.heap o.new)) }
    ensures works { Spends O.HasHeap 35 o.old o.new result }
{
    let length = word(o, list, words::LENGTH)?;
    let added = take_words(o, Kind::Element, &[list, prev, next, datum])?;
    link_next(o, list, prev, added)?;
    link_prev(o, list, next, added)?;
    set_word(o, list, words::LENGTH, length + 1)?;
    Ok(added)
}
