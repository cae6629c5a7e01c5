// The first one of the highest class is taken.
ghost use Rattle.std.specs.Prelude.{◌≡◌, ◌≤◌, IfOk, IfErr, option_map};
ghost use Rattle.sdr_base.specs.Moves.{KeepsSome};
ghost use Rattle.sdr_base.specs.Objects.{OnlyFault};
ghost use Rattle.sdr_base.specs.Works.{Looks, Spends};
ghost use Rattle.bp_queue.specs.Calls.{Tells, highest_item};
ghost use Rattle.bp_queue.specs.Kept.{SomeQueues};
ghost use Rattle.bp_queue.specs.Taking.{TakesFirst, TakeStops};

use crate::item::{first_item, remove_item};
use crate::queues::Queues;
use sdr_base::{Addr, Objects, Stop};

/// Takes the first item of the highest class that isn't empty, gives it back with its elements, the
/// one in the list of its class first, and answers the object that it names, which stays. It is 0
/// exactly where none waits.
pub fn take<O: Objects>(o: &mut O, q: &Queues) -> Result<Addr, Stop>
    requires kept { KeepsSome (O.keeps o.old) }
    requires spare { 3 ≤ (O.heap o.old).spare }
    requires queues { SomeQueues (O.heap o.old).blocks q.now }
    ensures taken { IfOk result (TakesFirst q.now (O.heap o.old) (O.heap o.new)) }
    ensures refused { IfErr result (TakeStops q.now (O.heap o.old) (O.heap o.new)) }
    ensures works { Spends O.HasHeap 84 o.old o.new result }
{
    match highest(o, q)? {
        None => Ok(0),
        Some(item) => remove_item(o, item),
    }
}

// The first item of the highest class that isn't empty.
fn highest<O: Objects>(o: &mut O, q: &Queues) -> Result<Option<Addr>, Stop>
    requires kept { KeepsSome (O.keeps o.old) }
    requires queues { SomeQueues (O.heap o.old).blocks q.now }
    ensures told { IfOk result (Tells q.now highest_item (O.heap o.old).blocks) }
    ensures refused { IfErr result OnlyFault }
    ensures looks { Looks O.HasHeap o.old o.new result }
{
    let urgent = first_item(o, q.urgent)?;
    if urgent.is_some() {
        return Ok(urgent);
    }
    let normal = first_item(o, q.normal)?;
    if normal.is_some() {
        return Ok(normal);
    }
    first_item(o, q.bulk)
}
