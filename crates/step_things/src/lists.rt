// The calls on lists and on their elements, as steps of the machine.
ghost use Rattle.std.specs.Prelude.{[], ◌*◌, ◌+◌, ◌/◌, ◌≡◌, ◌≤◌};
ghost use Rattle.step_things.specs.Answering.{ComesInEach};
ghost use Rattle.step_things.specs.Sorting.{Sorts};
ghost use Rattle.sdr_base.specs.Moves.{KeepsSome};
ghost use Rattle.sdr_base.specs.Works.{Spends};
ghost use Rattle.sdr_list.specs.Kept.{IsElement, IsList, elements_in};
ghost use Rattle.sdr_model.specs.Fields.{IsWord};
ghost use Rattle.sdr_model.specs.declared.call.Call.TheVariants as calls;

use crate::page::Page;
use sdr_base::{Addr, Objects, Stop};
use sdr_list::Collation;
use sdr_model::{Keys, Reply};

// The order that a call names, with the fact that it is one.
fn collation(keys: Keys) -> Collation<sdr_list::ListKeys>
    ensures { Sorts keys result.by }
{
    match keys {
        Keys::ByBytes => Collation::new(sdr_list::ListKeys::ByBytes),
        Keys::ByLength => Collation::new(sdr_list::ListKeys::ByLength),
    }
}

/// Makes a list.
pub fn list<O: Objects>(o: &mut O, user: u64, page: &mut Page) -> Result<Reply, Stop>
    requires kept { KeepsSome (O.keeps o.old) }
    requires spare { 1 ≤ (O.heap o.old).spare }
    requires unmoved { (O.heap o.old).moves ≡ [] }
    ensures comes { ComesInEach (calls.List user) (O.heap o.old) (O.heap o.new) page.old page.new result }
    ensures works { Spends O.HasHeap 29 o.old o.new result }
    ensures word { IsWord user }
{
    let addr = sdr_list::create(o, user)?;
    page.clear();
    Ok(Reply::At { addr })
}

/// Gives a list back with its elements.
pub fn list_destroy<O: Objects>(o: &mut O, list: Addr, page: &mut Page) -> Result<Reply, Stop>
    requires kept { KeepsSome (O.keeps o.old) }
    requires spare { (O.heap o.old).size / 4 + 4 ≤ (O.heap o.old).spare }
    requires list { IsList (O.heap o.old).blocks list }
    requires unmoved { (O.heap o.old).moves ≡ [] }
    ensures comes { ComesInEach (calls.ListDestroy list) (O.heap o.old) (O.heap o.new) page.old page.new
        result }
    ensures works { Spends O.HasHeap (24 * (elements_in ((O.heap o.old).blocks list) + 1)) o.old
        o.new result }
{
    sdr_list::destroy(o, list)?;
    page.clear();
    Ok(Reply::Done)
}

/// How many elements a list has.
pub fn list_length<O: Objects>(o: &mut O, list: Addr, page: &mut Page) -> Result<Reply, Stop>
    requires kept { KeepsSome (O.keeps o.old) }
    requires list { IsList (O.heap o.old).blocks list }
    requires unmoved { (O.heap o.old).moves ≡ [] }
    ensures comes { ComesInEach (calls.ListLength list) (O.heap o.old) (O.heap o.new) page.old page.new
        result }
    ensures works { Spends O.HasHeap 0 o.old o.new result }
    ensures touched { (O.transaction o.new).touched ≡ (O.transaction o.old).touched }
{
    let value = sdr_list::length(o, list)?;
    page.clear();
    Ok(Reply::Value { value })
}

/// The user's number of a list.
pub fn list_user<O: Objects>(o: &mut O, list: Addr, page: &mut Page) -> Result<Reply, Stop>
    requires kept { KeepsSome (O.keeps o.old) }
    requires list { IsList (O.heap o.old).blocks list }
    requires unmoved { (O.heap o.old).moves ≡ [] }
    ensures comes { ComesInEach (calls.ListUser list) (O.heap o.old) (O.heap o.new) page.old page.new
        result }
    ensures works { Spends O.HasHeap 0 o.old o.new result }
    ensures touched { (O.transaction o.new).touched ≡ (O.transaction o.old).touched }
{
    let value = sdr_list::user_data(o, list)?;
    page.clear();
    Ok(Reply::Value { value })
}

/// Sets the user's number of a list.
pub fn set_list_user<O: Objects>(
    o: &mut O,
    list: Addr,
    user: u64,
    page: &mut Page,
) -> Result<Reply, Stop>
    requires kept { KeepsSome (O.keeps o.old) }
    requires list { IsList (O.heap o.old).blocks list }
    requires unmoved { (O.heap o.old).moves ≡ [] }
    ensures comes { ComesInEach (calls.SetListUser list user) (O.heap o.old) (O.heap o.new) page.old
        page.new result }
    ensures works { Spends O.HasHeap 2 o.old o.new result }
    ensures word { IsWord user }
{
    sdr_list::set_user_data(o, list, user)?;
    page.clear();
    Ok(Reply::Done)
}

/// Makes a new first element of a list.
pub fn insert_first<O: Objects>(
    o: &mut O,
    list: Addr,
    datum: u64,
    page: &mut Page,
) -> Result<Reply, Stop>
    requires kept { KeepsSome (O.keeps o.old) }
    requires spare { 1 ≤ (O.heap o.old).spare }
    requires list { IsList (O.heap o.old).blocks list }
    requires unmoved { (O.heap o.old).moves ≡ [] }
    ensures comes { ComesInEach (calls.InsertFirst list datum) (O.heap o.old) (O.heap o.new) page.old
        page.new result }
    ensures works { Spends O.HasHeap 35 o.old o.new result }
    ensures word { IsWord datum }
{
    let addr = sdr_list::insert_first(o, list, datum)?;
    page.clear();
    Ok(Reply::At { addr })
}

/// Makes a new last element of a list.
pub fn insert_last<O: Objects>(
    o: &mut O,
    list: Addr,
    datum: u64,
    page: &mut Page,
) -> Result<Reply, Stop>
    requires kept { KeepsSome (O.keeps o.old) }
    requires spare { 1 ≤ (O.heap o.old).spare }
    requires list { IsList (O.heap o.old).blocks list }
    requires unmoved { (O.heap o.old).moves ≡ [] }
    ensures comes { ComesInEach (calls.InsertLast list datum) (O.heap o.old) (O.heap o.new) page.old
        page.new result }
    ensures works { Spends O.HasHeap 35 o.old o.new result }
    ensures word { IsWord datum }
{
    let addr = sdr_list::insert_last(o, list, datum)?;
    page.clear();
    Ok(Reply::At { addr })
}

/// Makes a new element before another.
pub fn insert_before<O: Objects>(
    o: &mut O,
    element: Addr,
    datum: u64,
    page: &mut Page,
) -> Result<Reply, Stop>
    requires kept { KeepsSome (O.keeps o.old) }
    requires spare { 1 ≤ (O.heap o.old).spare }
    requires element { IsElement (O.heap o.old).blocks element }
    requires unmoved { (O.heap o.old).moves ≡ [] }
    ensures comes { ComesInEach (calls.InsertBefore element datum) (O.heap o.old) (O.heap o.new) page.old
        page.new result }
    ensures works { Spends O.HasHeap 35 o.old o.new result }
    ensures word { IsWord datum }
{
    let addr = sdr_list::insert_before(o, element, datum)?;
    page.clear();
    Ok(Reply::At { addr })
}

/// Makes a new element behind another.
pub fn insert_after<O: Objects>(
    o: &mut O,
    element: Addr,
    datum: u64,
    page: &mut Page,
) -> Result<Reply, Stop>
    requires kept { KeepsSome (O.keeps o.old) }
    requires spare { 1 ≤ (O.heap o.old).spare }
    requires element { IsElement (O.heap o.old).blocks element }
    requires unmoved { (O.heap o.old).moves ≡ [] }
    ensures comes { ComesInEach (calls.InsertAfter element datum) (O.heap o.old) (O.heap o.new) page.old
        page.new result }
    ensures works { Spends O.HasHeap 35 o.old o.new result }
    ensures word { IsWord datum }
{
    let addr = sdr_list::insert_after(o, element, datum)?;
    page.clear();
    Ok(Reply::At { addr })
}

/// Makes a new element where its key has its place in order.
pub fn insert_ordered<O: Objects>(
    o: &mut O,
    list: Addr,
    datum: u64,
    keys: Keys,
    page: &mut Page,
) -> Result<Reply, Stop>
    requires kept { KeepsSome (O.keeps o.old) }
    requires spare { 1 ≤ (O.heap o.old).spare }
    requires list { IsList (O.heap o.old).blocks list }
    requires unmoved { (O.heap o.old).moves ≡ [] }
    ensures comes { ComesInEach (calls.InsertOrdered list datum keys) (O.heap o.old) (O.heap o.new)
        page.old page.new result }
    ensures works { Spends O.HasHeap 35 o.old o.new result }
    ensures word { IsWord datum }
{
    let addr = sdr_list::insert_ordered(o, list, datum, &collation(keys))?;
    page.clear();
    Ok(Reply::At { addr })
}

/// The first element of an equal key.
pub fn search<O: Objects>(
    o: &mut O,
    list: Addr,
    datum: u64,
    keys: Keys,
    page: &mut Page,
) -> Result<Reply, Stop>
    requires kept { KeepsSome (O.keeps o.old) }
    requires list { IsList (O.heap o.old).blocks list }
    requires unmoved { (O.heap o.old).moves ≡ [] }
    ensures comes { ComesInEach (calls.Search list datum keys) (O.heap o.old) (O.heap o.new) page.old
        page.new result }
    ensures works { Spends O.HasHeap 0 o.old o.new result }
    ensures touched { (O.transaction o.new).touched ≡ (O.transaction o.old).touched }
{
    let addr = sdr_list::search(o, list, datum, &collation(keys))?;
    page.clear();
    Ok(Reply::At { addr })
}

/// Takes an element out of its list.
pub fn delete<O: Objects>(o: &mut O, element: Addr, page: &mut Page) -> Result<Reply, Stop>
    requires kept { KeepsSome (O.keeps o.old) }
    requires spare { 1 ≤ (O.heap o.old).spare }
    requires element { IsElement (O.heap o.old).blocks element }
    requires unmoved { (O.heap o.old).moves ≡ [] }
    ensures comes { ComesInEach (calls.Delete element) (O.heap o.old) (O.heap o.new) page.old page.new
        result }
    ensures works { Spends O.HasHeap 30 o.old o.new result }
{
    sdr_list::delete(o, element)?;
    page.clear();
    Ok(Reply::Done)
}

/// The first element of a list.
pub fn first<O: Objects>(o: &mut O, list: Addr, page: &mut Page) -> Result<Reply, Stop>
    requires kept { KeepsSome (O.keeps o.old) }
    requires list { IsList (O.heap o.old).blocks list }
    requires unmoved { (O.heap o.old).moves ≡ [] }
    ensures comes { ComesInEach (calls.First list) (O.heap o.old) (O.heap o.new) page.old page.new
        result }
    ensures works { Spends O.HasHeap 0 o.old o.new result }
    ensures touched { (O.transaction o.new).touched ≡ (O.transaction o.old).touched }
{
    let addr = sdr_list::first(o, list)?;
    page.clear();
    Ok(Reply::At { addr })
}

/// The last element of a list.
pub fn last<O: Objects>(o: &mut O, list: Addr, page: &mut Page) -> Result<Reply, Stop>
    requires kept { KeepsSome (O.keeps o.old) }
    requires list { IsList (O.heap o.old).blocks list }
    requires unmoved { (O.heap o.old).moves ≡ [] }
    ensures comes { ComesInEach (calls.Last list) (O.heap o.old) (O.heap o.new) page.old page.new result }
    ensures works { Spends O.HasHeap 0 o.old o.new result }
    ensures touched { (O.transaction o.new).touched ≡ (O.transaction o.old).touched }
{
    let addr = sdr_list::last(o, list)?;
    page.clear();
    Ok(Reply::At { addr })
}

/// The element behind another.
pub fn next<O: Objects>(o: &mut O, element: Addr, page: &mut Page) -> Result<Reply, Stop>
    requires kept { KeepsSome (O.keeps o.old) }
    requires element { IsElement (O.heap o.old).blocks element }
    requires unmoved { (O.heap o.old).moves ≡ [] }
    ensures comes { ComesInEach (calls.Next element) (O.heap o.old) (O.heap o.new) page.old page.new
        result }
    ensures works { Spends O.HasHeap 0 o.old o.new result }
    ensures touched { (O.transaction o.new).touched ≡ (O.transaction o.old).touched }
{
    let addr = sdr_list::next(o, element)?;
    page.clear();
    Ok(Reply::At { addr })
}

/// The element before another.
pub fn prev<O: Objects>(o: &mut O, element: Addr, page: &mut Page) -> Result<Reply, Stop>
    requires kept { KeepsSome (O.keeps o.old) }
    requires element { IsElement (O.heap o.old).blocks element }
    requires unmoved { (O.heap o.old).moves ≡ [] }
    ensures comes { ComesInEach (calls.Prev element) (O.heap o.old) (O.heap o.new) page.old page.new
        result }
    ensures works { Spends O.HasHeap 0 o.old o.new result }
    ensures touched { (O.transaction o.new).touched ≡ (O.transaction o.old).touched }
{
    let addr = sdr_list::prev(o, element)?;
    page.clear();
    Ok(Reply::At { addr })
}

/// An element's datum.
pub fn datum<O: Objects>(o: &mut O, element: Addr, page: &mut Page) -> Result<Reply, Stop>
    requires kept { KeepsSome (O.keeps o.old) }
    requires element { IsElement (O.heap o.old).blocks element }
    requires unmoved { (O.heap o.old).moves ≡ [] }
    ensures comes { ComesInEach (calls.Datum element) (O.heap o.old) (O.heap o.new) page.old page.new
        result }
    ensures works { Spends O.HasHeap 0 o.old o.new result }
    ensures touched { (O.transaction o.new).touched ≡ (O.transaction o.old).touched }
{
    let value = sdr_list::datum(o, element)?;
    page.clear();
    Ok(Reply::Value { value })
}

/// Sets an element's datum.
pub fn set_datum<O: Objects>(
    o: &mut O,
    element: Addr,
    datum: u64,
    page: &mut Page,
) -> Result<Reply, Stop>
    requires kept { KeepsSome (O.keeps o.old) }
    requires element { IsElement (O.heap o.old).blocks element }
    requires unmoved { (O.heap o.old).moves ≡ [] }
    ensures comes { ComesInEach (calls.SetDatum element datum) (O.heap o.old) (O.heap o.new) page.old
        page.new result }
    ensures works { Spends O.HasHeap 2 o.old o.new result }
    ensures word { IsWord datum }
{
    sdr_list::set_datum(o, element, datum)?;
    page.clear();
    Ok(Reply::Done)
}
