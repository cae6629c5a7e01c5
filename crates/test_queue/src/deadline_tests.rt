// Deadlines, and an object that is put twice.
ghost use Rattle.std.specs.Prelude.{◌≤◌, ◌∷◌, [], IfOk};
ghost use Rattle.sdr_base.specs.Moves.{KeepsSome};
ghost use Rattle.bp_queue.specs.Bundles.{HasNothing, SomeBundles};

use crate::heaps::begun;
use bp_queue::{
    Class, EarliestFirst, HighestFirst, Orders, Queues, bundles_keep, create, earliest, expire,
    length, put, take,
};
use sdr_base::{Acct, Addr, Objects, Refusal, Stop};
use sdr_list::Collation;
use std::alloc::Global;

/// Queues, and three objects.
#[derive(Clone, Copy, Debug, PartialEq, Eq, Drop)]
struct Begun {
    queues: Queues,
    first: Addr,
    second: Addr,
    third: Addr,
}

fn orders() -> Orders<EarliestFirst, HighestFirst> {
    Orders::new(Collation::new(EarliestFirst), Collation::new(HighestFirst))
}

fn three<O: Objects>(o: &mut O) -> Result<Begun, Stop>
    requires kept { KeepsSome (O.keeps o.old) }
    requires nothing { HasNothing (O.heap o.old) }
    requires spare { 31 ≤ (O.heap o.old).spare }
    ensures kept { IfOk result (λ _. KeepsSome (O.keeps o.new)) }
    ensures bundles { IfOk result (λ made. SomeBundles (O.heap o.new) made.queues
        (made.third ∷ made.second ∷ made.first ∷ []) 12) }
{
    bundles_keep();
    let queues = create(o)?;
    let first = zco_obj::create(o, Acct::Outbound, 0)?;
    let second = zco_obj::create(o, Acct::Outbound, 0)?;
    let third = zco_obj::create(o, Acct::Outbound, 0)?;
    Ok(Begun {
        queues,
        first,
        second,
        third,
    })
}

// Puts the three objects; their items.
fn put_three<O: Objects>(o: &mut O, made: &Begun) -> Result<[Addr; 3], Stop>
    requires kept { KeepsSome (O.keeps o.old) }
    requires bundles { SomeBundles (O.heap o.old) made.now.queues
        (made.now.third ∷ made.now.second ∷ made.now.first ∷ []) 12 }
    ensures kept { IfOk result (λ _. KeepsSome (O.keeps o.new)) }
    ensures bundles { IfOk result (λ _. SomeBundles (O.heap o.new) made.now.queues [] 3) }
{
    bundles_keep();
    let by = orders();
    let q = &made.queues;
    let first = put(o, q, Class::Bulk, 0, 50, made.first, &by)?;
    let second = put(o, q, Class::Urgent, 1, 30, made.second, &by)?;
    let third = put(o, q, Class::Urgent, 9, 70, made.third, &by)?;
    Ok([first, second, third])
}

/// What the calls of the first row answer, in order.
#[derive(Clone, Copy, Debug, PartialEq, Eq, Drop)]
struct Told {
    urgent: u64,
    first: Option<u64>,
    early: u64,
    taken: Addr,
    late: u64,
    last: Option<u64>,
}

fn deadlines<O: Objects>(o: &mut O, q: &Queues) -> Result<Told, Stop>
    requires kept { KeepsSome (O.keeps o.old) }
    requires bundles { SomeBundles (O.heap o.old) q.now [] 3 }
{
    bundles_keep();
    let urgent = length(o, q, Class::Urgent)?;
    let first = earliest(o, q)?;
    let early = expire(o, q, 29)?;
    let taken = take(o, q)?;
    let late = expire(o, q, 50)?;
    let last = earliest(o, q)?;
    Ok(Told {
        urgent,
        first,
        early,
        taken,
        late,
        last,
    })
}

fn answers<O: Objects>(o: &mut O) -> Result<(Begun, [Addr; 3], Told), Stop>
    requires kept { KeepsSome (O.keeps o.old) }
    requires nothing { HasNothing (O.heap o.old) }
    requires spare { 31 ≤ (O.heap o.old).spare }
{
    let made = three(o)?;
    let items = put_three(o, &made)?;
    let answers = deadlines(o, &made.queues)?;
    Ok((made, items, answers))
}

// The first row, on a heap of its own. `None`: there is no heap.
fn first_row(alloc: Global) -> Option<Result<(Begun, [Addr; 3], Told), Stop>> {
    let Some(mut heap) = begun(alloc) else {
        return None;
    };
    Some(answers(&mut heap))
}

#[test]
fn the_first_of_the_highest_class_is_taken_and_those_that_are_overdue_go(rt: HostRuntime) {
    let made = Begun {
        queues: Queues {
            bulk: 2056,
            normal: 2096,
            urgent: 2136,
            line: 2176,
        },
        first: 2216,
        second: 2296,
        third: 2376,
    };
    let wanted = Told {
        urgent: 2,
        first: Some(30),
        early: 0,
        taken: 2376,
        late: 2,
        last: None,
    };
    assert_eq!(rt;
        first_row(rt.alloc()),
        Some(Ok((made, [2456, 2600, 2744], wanted)))
    );
}

// What is taken, once and again.
fn taken_twice<O: Objects>(
    o: &mut O,
    q: &Queues,
    loose: Addr,
    other: Addr,
) -> Result<(Addr, Addr), Stop>
    requires kept { KeepsSome (O.keeps o.old) }
    requires bundles { SomeBundles (O.heap o.old) q.now (loose ∷ other ∷ []) 9 }
{
    bundles_keep();
    let taken = take(o, q)?;
    let none = take(o, q)?;
    Ok((taken, none))
}

/// What the calls of the second row answer, in order: the item, the item that is told as it is put again, and what is taken.
type Twice = (Addr, Addr, (Addr, Addr));

// `None`: it was put again.
fn twice<O: Objects>(o: &mut O) -> Result<Option<Twice>, Stop>
    requires kept { KeepsSome (O.keeps o.old) }
    requires nothing { HasNothing (O.heap o.old) }
    requires spare { 31 ≤ (O.heap o.old).spare }
{
    bundles_keep();
    let made = three(o)?;
    let q = &made.queues;
    let by = orders();
    let item = put(o, q, Class::Bulk, 0, 50, made.first, &by)?;
    let told = match put(o, q, Class::Bulk, 0, 50, made.first, &by) {
        Err(Stop::Refused(Refusal::KeyTaken { value })) => value,
        Err(stop) => return Err(stop),
        Ok(_) => return Ok(None),
    };
    let taken = taken_twice(o, q, made.third, made.second)?;
    Ok(Some((item, told, taken)))
}

// The second row, on a heap of its own.
fn second_row(alloc: Global) -> Option<Result<Option<Twice>, Stop>> {
    let Some(mut heap) = begun(alloc) else {
        return None;
    };
    Some(twice(&mut heap))
}

#[test]
fn an_object_that_waits_is_not_put_again(rt: HostRuntime) {
    assert_eq!(rt;
        second_row(rt.alloc()),
        Some(Ok(Some((2456, 2456, (2216, 0)))))
    );
}
