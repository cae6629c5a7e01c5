// One more is put.
ghost use Rattle.std.specs.Prelude.{◌≢◌, ◌≤◌, ◌<◌, ◌^◌, [], ◌∷◌, IfOk, IfErr, OnOk};
ghost use Rattle.sdr_base.specs.Making.{Made};
ghost use Rattle.sdr_base.specs.Moves.{KeepsSome};
ghost use Rattle.sdr_base.specs.Objects.{OnlyFault, OnlyUnmoved};
ghost use Rattle.sdr_base.specs.Works.{Looks, Spends};
ghost use Rattle.bp_queue.specs.Kept.{SomeQueues};
ghost use Rattle.bp_queue.specs.Lacking.{LacksRoom};
ghost use Rattle.bp_queue.specs.Putting.{Admits, Enlists, FindsItem, NotesElements, PutsLast};
ghost use Rattle.bp_queue.specs.Putting.{NewStops, PutStops, SomeListed, SomeUnlisted};

use crate::class::Class;
use crate::item::words;
use crate::orders::Orders;
use crate::queues::{Queues, list_of};
use sdr_base::{
    Addr, Kind, Objects, Refusal, Stop, check_failed, expect_kind, set_word, take_words, word,
};
use sdr_list::{Collate, insert_ordered, set_user_data, user_data};

/// No item has this sequence number or a higher one.
pub const LAST_NUMBER: u64 = 1 << 40;

// What is said of one that is to wait.
#[derive(Clone, Copy)]
pub struct Wanted {
    pub class: Class,
    pub ordinal: u8,
    pub deadline: u64,
    pub object: Addr,
    pub number: u64,
}

// The elements of an item, in the list of its class and in the line.
#[derive(Clone, Copy)]
pub struct Elements {
    pub in_class: Addr,
    pub in_line: Addr,
}

/// Puts an object into a class, behind those whose ordinal is as high or higher, and into the line,
/// behind those whose deadline is as early or earlier. It answers the address of its item. The
/// object stays the caller's.
///
/// It is refused `BadAddress` or `WrongKind` where the object isn't there; `KeyTaken` with its item
/// where it waits already; `BadRow` where no sequence number is left; and `NoBlock` or `LogFull`,
/// behind which the transaction has to be cancelled.
pub fn put<O: Objects, F: Collate + Drop, G: Collate + Drop>(
    o: &mut O,
    q: &Queues,
    class: Class,
    ordinal: u8,
    deadline: u64,
    object: Addr,
    by: &Orders<F, G>,
) -> Result<Addr, Stop>
    requires kept { KeepsSome (O.keeps o.old) }
    requires spare { 3 ≤ (O.heap o.old).spare }
    requires queues { SomeQueues (O.heap o.old).blocks q.now }
    ensures put { IfOk result (λ item. PutsLast q.now
        (record {
          item = item;
          class = class;
          ordinal = ordinal;
          deadline = deadline;
          object = object;
        }) (O.heap o.old) (O.heap o.new)) }
    ensures refused { IfErr result (PutStops q.now object (O.heap o.old) (O.heap o.new)) }
    ensures works { Spends O.HasHeap 105 o.old o.new result }
{
    expect_kind(o, object, Kind::Object)?;
    let number = user_data(o, q.line)?;
    let wanted = Wanted {
        class,
        ordinal,
        deadline,
        object,
        number,
    };
    match item_naming(o, q, object)? {
        Some(value) => Err(Stop::Refused(Refusal::KeyTaken { value })),
        None => put_new(o, q, wanted, by),
    }
}

// Puts an object that doesn't wait yet, where its sequence number is low enough.
fn put_new<O: Objects, F: Collate + Drop, G: Collate + Drop>(
    o: &mut O,
    q: &Queues,
    wanted: Wanted,
    by: &Orders<F, G>,
) -> Result<Addr, Stop>
    requires kept { KeepsSome (O.keeps o.old) }
    requires spare { 3 ≤ (O.heap o.old).spare }
    requires queues { SomeQueues (O.heap o.old).blocks q.now }
    requires object { wanted.object ≢ 0 }
    ensures admitted { IfOk result (λ item.
        Admits q.now wanted item (O.heap o.old) (O.heap o.new)) }
    ensures reached { OnOk result (wanted.number < 2 ^ 40) }
    ensures refused { IfErr result (NewStops wanted.number (O.heap o.old) (O.heap o.new)) }
    ensures works { Spends O.HasHeap 105 o.old o.new result }
{
    if wanted.number >= LAST_NUMBER {
        check_failed(o)?;
        return Err(Stop::Refused(Refusal::BadRow {
            row: LAST_NUMBER,
            rows: LAST_NUMBER,
        }));
    }
    admit(o, q, wanted, by)
}

// The item that names an object, where one does: from the front of the line on.
fn item_naming<O: Objects>(o: &mut O, q: &Queues, object: Addr) -> Result<Option<Addr>, Stop>
    requires kept { KeepsSome (O.keeps o.old) }
    requires queues { SomeQueues (O.heap o.old).blocks q.now }
    ensures found { IfOk result (FindsItem q.now object (O.heap o.old).blocks) }
    ensures refused { IfErr result OnlyFault }
    ensures looks { Looks O.HasHeap o.old o.new result }
{
    let count = sdr_list::length(o, q.line)?;
    let mut element = sdr_list::first(o, q.line)?;
    for i in 0..count {
        let item = sdr_list::datum(o, element)?;
        let named = word(o, item, words::OBJECT)?;
        if named == object {
            return Ok(Some(item));
        }
        element = sdr_list::next(o, element)?;
    }
    Ok(None)
}

// Makes an item, puts it into its lists, and raises the next sequence number.
fn admit<O: Objects, F: Collate + Drop, G: Collate + Drop>(
    o: &mut O,
    q: &Queues,
    wanted: Wanted,
    by: &Orders<F, G>,
) -> Result<Addr, Stop>
    requires kept { KeepsSome (O.keeps o.old) }
    requires spare { 3 ≤ (O.heap o.old).spare }
    requires queues { SomeQueues (O.heap o.old).blocks q.now }
    requires number { wanted.number < 2 ^ 40 }
    requires object { wanted.object ≢ 0 }
    ensures admitted { IfOk result (λ item.
        Admits q.now wanted item (O.heap o.old) (O.heap o.new)) }
    ensures refused { IfErr result
        (LacksRoom (56 ∷ 32 ∷ 32 ∷ []) (O.heap o.old) (O.heap o.new)) }
    ensures works { Spends O.HasHeap 105 o.old o.new result }
{
    let rank = u64::from_be_bytes([
        255 - wanted.ordinal,
        wanted.class.number(),
        0,
        0,
        0,
        0,
        0,
        0,
    ]);
    let fields = [0, wanted.deadline, rank, wanted.number, wanted.object, 0, 0];
    let item = take_words(o, Kind::Raw, &fields)?;
    let at = enlist(o, q, wanted, item, by)?;
    note_elements(o, q, wanted, item, at)?;
    Ok(item)
}

// Puts an item into the list of its class and into the line.
fn enlist<O: Objects, F: Collate + Drop, G: Collate + Drop>(
    o: &mut O,
    q: &Queues,
    wanted: Wanted,
    item: Addr,
    by: &Orders<F, G>,
) -> Result<Elements, Stop>
    requires kept { KeepsSome (O.keeps o.old) }
    requires spare { 2 ≤ (O.heap o.old).spare }
    requires item { SomeUnlisted (O.heap o.old).blocks q.now wanted item }
    ensures listed { IfOk result (Enlists q.now wanted item (O.heap o.old) (O.heap o.new)) }
    ensures refused { IfErr result
        (LacksRoom (32 ∷ 32 ∷ []) (O.heap o.old) (O.heap o.new)) }
    ensures works { Spends O.HasHeap 70 o.old o.new result }
{
    let in_class = insert_ordered(o, list_of(q, wanted.class), item, &by.ordinal)?;
    let in_line = insert_ordered(o, q.line, item, &by.deadline)?;
    Ok(Elements { in_class, in_line })
}

// Tells an item where its elements are, and the line the number behind its own.
fn note_elements<O: Objects>(
    o: &mut O,
    q: &Queues,
    wanted: Wanted,
    item: Addr,
    at: Elements,
) -> Result<(), Stop>
    requires kept { KeepsSome (O.keeps o.old) }
    requires number { wanted.number < 2 ^ 40 }
    requires item { SomeListed (O.heap o.old).blocks q.now wanted item at }
    ensures noted { OnOk result
        (NotesElements q.now wanted item at (O.heap o.old) (O.heap o.new)) }
    ensures refused { IfErr result (OnlyUnmoved (O.heap o.old) (O.heap o.new)) }
    ensures works { Spends O.HasHeap 6 o.old o.new result }
{
    set_word(o, item, words::IN_CLASS, at.in_class)?;
    set_word(o, item, words::IN_LINE, at.in_line)?;
    set_user_data(o, q.line, wanted.number + 1)
}
