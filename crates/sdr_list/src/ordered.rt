// Lists in the order of their keys.
ghost use Rattle.std.specs.Prelude.{◌≡◌, ◌≢◌, ◌≤◌, IfOk, IfErr};
ghost use Rattle.sdr_base.specs.Moves.{KeepsSome};
ghost use Rattle.sdr_base.specs.Objects.{Misses, OnlyFault};
ghost use Rattle.sdr_base.specs.Transaction.{LeavesTouched};
ghost use Rattle.sdr_base.specs.Works.{Looks, Spends};
ghost use Rattle.sdr_base.specs.declared.kind.Kind.TheVariants as kinds;
ghost use Rattle.sdr_list.specs.Calls.{InsertsInList, InsertStops, TellsOfList};
ghost use Rattle.sdr_list.specs.Gaps.{FollowsIn, SomePlaceBehind};
ghost use Rattle.sdr_list.specs.InOrder.{StaysInOrder};
ghost use Rattle.sdr_list.specs.Kept.{IsList, SomeList};
ghost use Rattle.sdr_list.specs.Orders.{FindsEqual, FindsPlace, IsKey};
ghost use Rattle.sdr_list.specs.Orders.{equal_addr, ordered_place};

use crate::collation::{Collate, Collation};
use crate::insert::insert_between;
use crate::key::{compare_element, read_key};
use sdr_base::layout::{element as element_words, list as words};
use sdr_base::limits::LONGEST_SORT_KEY;
use sdr_base::{Addr, Kind, Objects, Stop, expect_kind, word};

/// Makes a new element of a list behind the last one whose key is less than or equal to that of
/// the datum, else first. Each key is read once.
#[tactic(auto, using(sdr_base::proofs::LeavingLemmas::leaving))]
pub fn insert_ordered<O: Objects, F: Collate>(
    o: &mut O,
    list: Addr,
    datum: u64,
    by: &Collation<F>,
) -> Result<Addr, Stop>
    requires kept { KeepsSome (O.keeps o.old) }
    requires spare { 1 ≤ (O.heap o.old).spare }
    requires list { IsList (O.heap o.old).blocks list }
    ensures inserted { IfOk result (λ addr. InsertsInList list
        (ordered_place (F.order by.now.by) (O.heap o.old).blocks datum) datum addr
        (O.heap o.old) (O.heap o.new)) }
    // Where the list was in order, it is.
    ensures ordered { IfOk result (StaysInOrder (F.order by.now.by) (O.heap o.old).blocks list
        (ordered_place (F.order by.now.by) (O.heap o.old).blocks datum) datum) }
    ensures refused { IfErr result (InsertStops kinds.List list (O.heap o.old) (O.heap o.new)) }
    ensures untouched { IfErr result (LeavesTouched (O.transaction o.old) (O.transaction o.new)) }
    ensures works { Spends O.HasHeap 35 o.old o.new result }
{
    expect_kind(o, list, Kind::List)?;
    let mut buffer = [0; LONGEST_SORT_KEY];
    let count = read_key(o, datum, &mut buffer)?;
    let prev = last_upto(o, list, &buffer[..count], by)?;
    let next = following(o, list, prev)?;
    insert_between(o, list, prev, next, datum)
}

/// The first element of a list whose key is equal to that of the datum, 0 where none is. Each key
/// is read once.
pub fn search<O: Objects, F: Collate>(
    o: &mut O,
    list: Addr,
    datum: u64,
    by: &Collation<F>,
) -> Result<Addr, Stop>
    requires kept { KeepsSome (O.keeps o.old) }
    requires list { IsList (O.heap o.old).blocks list }
    ensures found { IfOk result (TellsOfList list
        (equal_addr (F.order by.now.by) (O.heap o.old).blocks datum)
        (O.heap o.old).blocks) }
    ensures refused { IfErr result (Misses ((O.heap o.old).blocks list) list kinds.List) }
    ensures looks { Looks O.HasHeap o.old o.new result }
{
    expect_kind(o, list, Kind::List)?;
    let mut buffer = [0; LONGEST_SORT_KEY];
    let count = read_key(o, datum, &mut buffer)?;
    first_equal(o, list, &buffer[..count], by)
}

// The last element whose key is less than or equal to another, 0 where none is: from the end on.
fn last_upto<O: Objects, F: Collate>(
    o: &mut O,
    list: Addr,
    key: &[u8],
    by: &Collation<F>,
) -> Result<Addr, Stop>
    requires kept { KeepsSome (O.keeps o.old) }
    requires list { SomeList (O.heap o.old).blocks list }
    requires key { IsKey key.now }
    ensures found { IfOk result (λ prev. FindsPlace
        (F.order by.now.by) (O.heap o.old).blocks list key.now prev) }
    ensures refused { IfErr result OnlyFault }
    ensures looks { Looks O.HasHeap o.old o.new result }
{
    let length = word(o, list, words::LENGTH)?;
    let mut cursor = word(o, list, words::LAST)?;
    for i in 0..length {
        let answer = compare_element(o, cursor, key, by)?;
        if !answer.is_gt() {
            return Ok(cursor);
        }
        cursor = word(o, cursor, element_words::PREVIOUS)?;
    }
    Ok(0)
}

// The first element whose key is equal to another, 0 where none is: from the front on.
fn first_equal<O: Objects, F: Collate>(
    o: &mut O,
    list: Addr,
    key: &[u8],
    by: &Collation<F>,
) -> Result<Addr, Stop>
    requires kept { KeepsSome (O.keeps o.old) }
    requires list { SomeList (O.heap o.old).blocks list }
    requires key { IsKey key.now }
    ensures found { IfOk result (λ found. FindsEqual
        (F.order by.now.by) (O.heap o.old).blocks list key.now found) }
    ensures refused { IfErr result OnlyFault }
    ensures looks { Looks O.HasHeap o.old o.new result }
{
    let length = word(o, list, words::LENGTH)?;
    let mut cursor = word(o, list, words::FIRST)?;
    for i in 0..length {
        let answer = compare_element(o, cursor, key, by)?;
        if answer.is_eq() {
            return Ok(cursor);
        }
        cursor = word(o, cursor, element_words::NEXT)?;
    }
    Ok(0)
}

// The element behind another, or the first of the list where that is 0.
fn following<O: Objects>(o: &mut O, list: Addr, prev: Addr) -> Result<Addr, Stop>
    requires kept { KeepsSome (O.keeps o.old) }
    requires place { SomePlaceBehind (O.heap o.old).blocks list prev }
    ensures given { IfOk result (FollowsIn (O.heap o.old).blocks list prev) }
    ensures refused { IfErr result OnlyFault }
    ensures looks { Looks O.HasHeap o.old o.new result }
{
    if prev == 0 {
        word(o, list, words::FIRST)
    } else {
        word(o, prev, element_words::NEXT)
    }
}
