// Queues, and what they tell.
ghost use Rattle.std.specs.Prelude.{◌≡◌, ◌≤◌, length, replicate, IfOk, IfErr};
ghost use Rattle.sdr_base.specs.Moves.{KeepsSome};
ghost use Rattle.sdr_base.specs.Objects.{OnlyFault};
ghost use Rattle.sdr_base.specs.Works.{Looks, Spends};
ghost use Rattle.bp_queue.specs.Calls.{CreatesQueues, Tells, earliest_of};
ghost use Rattle.bp_queue.specs.Kept.{SomeQueues, list_of, waiting_of};
ghost use Rattle.bp_queue.specs.States.{class_of};
ghost use Rattle.bp_queue.specs.Lacking.{LacksRoom};

use crate::class::Class;
use crate::item::{first_item, words};
use sdr_base::{Addr, Objects, Stop, word};

/// The number of the item that is put first.
pub const FIRST_NUMBER: u64 = 1;

/// The lists of queues, by their addresses: one for each class, and the line of all items.
#[derive(Clone, Copy, Debug, PartialEq, Eq)]
pub struct Queues {
    pub bulk: Addr,
    pub normal: Addr,
    pub urgent: Addr,
    /// All items, the earliest deadline first.
    pub line: Addr,
}

// The list of a class.
pub fn list_of(q: &Queues, class: Class) -> Addr
    ensures { result ≡ list_of q.now class }
{
    match class {
        Class::Bulk => q.bulk,
        Class::Normal => q.normal,
        Class::Urgent => q.urgent,
    }
}

/// Makes empty queues: the lists of the classes, the lowest first, and then the line.
pub fn create<O: Objects>(o: &mut O) -> Result<Queues, Stop>
    requires kept { KeepsSome (O.keeps o.old) }
    requires spare { 4 ≤ (O.heap o.old).spare }
    ensures created { IfOk result (λ q. CreatesQueues q (O.heap o.old) (O.heap o.new)) }
    ensures refused { IfErr result
        (LacksRoom (replicate 4 32) (O.heap o.old) (O.heap o.new)) }
    ensures works { Spends O.HasHeap 116 o.old o.new result }
{
    let bulk = sdr_list::create(o, u64::from(Class::Bulk.number()))?;
    let normal = sdr_list::create(o, u64::from(Class::Normal.number()))?;
    let urgent = sdr_list::create(o, u64::from(Class::Urgent.number()))?;
    let line = sdr_list::create(o, FIRST_NUMBER)?;
    Ok(Queues {
        bulk,
        normal,
        urgent,
        line,
    })
}

/// How many items of a class wait.
pub fn length<O: Objects>(o: &mut O, q: &Queues, class: Class) -> Result<u64, Stop>
    requires kept { KeepsSome (O.keeps o.old) }
    requires queues { SomeQueues (O.heap o.old).blocks q.now }
    ensures told { IfOk result (Tells q.now
        (λ rows. length (class_of waiting_of class rows)) (O.heap o.old).blocks) }
    ensures refused { IfErr result OnlyFault }
    ensures looks { Looks O.HasHeap o.old o.new result }
{
    sdr_list::length(o, list_of(q, class))
}

/// The earliest deadline of all items, `None` where none waits.
pub fn earliest<O: Objects>(o: &mut O, q: &Queues) -> Result<Option<u64>, Stop>
    requires kept { KeepsSome (O.keeps o.old) }
    requires queues { SomeQueues (O.heap o.old).blocks q.now }
    ensures told { IfOk result (Tells q.now earliest_of (O.heap o.old).blocks) }
    ensures refused { IfErr result OnlyFault }
    ensures looks { Looks O.HasHeap o.old o.new result }
{
    match first_item(o, q.line)? {
        None => Ok(None),
        Some(item) => {
            let deadline = word(o, item, words::DEADLINE)?;
            Ok(Some(deadline))
        }
    }
}
