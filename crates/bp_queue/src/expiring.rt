// Those that are overdue go, and their objects with them.
ghost use Rattle.std.specs.Prelude.{◌≡◌, ◌≤◌, ◌*◌, ℕ, List, length, IfOk, IfErr};
ghost use Rattle.sdr_base.specs.Entries.{Entries};
ghost use Rattle.sdr_base.specs.Moves.{KeepsSome};
ghost use Rattle.sdr_base.specs.Works.{Spends};
ghost use Rattle.sdr_base.specs.ZcoObjects.{ObjectRow};
ghost use Rattle.zco_obj.specs.Gone.{NamedSource};
ghost use Rattle.bp_queue.specs.Calls.{TellsFirst};
ghost use Rattle.bp_queue.specs.Expiring.{ExpiresAll, ExpiresFirst, ExpireStops, FirstStops};
ghost use Rattle.bp_queue.specs.Expiring.{KeepsOverdue, SomeOverdue, expiry_of, first_lines};
ghost use Rattle.bp_queue.specs.Kept.{Row, waiting_of};
ghost use Rattle.bp_queue.specs.States.{overdue};

use crate::item::{first_item, remove_item, words};
use crate::queues::Queues;
use sdr_base::{Addr, Objects, Stop, word};
use zco_obj::destroy;

/// Removes every item whose deadline is at most `now`, the earliest first, and destroys its object,
/// whose account is given back what is charged less; the account's queue isn't served. It answers how
/// many they were, and takes a step for each of them.
pub fn expire<O: Objects>(o: &mut O, q: &Queues, now: u64) -> Result<u64, Stop>
    requires kept { KeepsSome (O.keeps o.old) }
    requires overdue { SomeOverdue (O.heap o.old) q.now now }
    ensures expired { IfOk result (ExpiresAll q.now now (O.heap o.old) (O.heap o.new)) }
    ensures refused { IfErr result (ExpireStops q.now now (O.heap o.old) (O.heap o.new)) }
    ensures works { (next : ℕ) (rows : List Row) (object_at : ℕ → ObjectRow)
        (sources : List NamedSource) (rest : Entries) →
        KeepsOverdue (O.heap o.old).blocks q.now now next rows object_at sources rest →
        Spends O.HasHeap
        (96 * length (expiry_of now rows object_at sources rest (O.heap o.old)).gone)
        o.old o.new result }
{
    let count = sdr_list::length(o, q.line)?;
    for i in 0..count {
        let went = expire_first(o, q, now)?;
        if !went {
            return Ok(i);
        }
    }
    Ok(count)
}

// Removes the first item of the line, where it is overdue, and destroys its object. It answers
// whether it was.
fn expire_first<O: Objects>(o: &mut O, q: &Queues, now: u64) -> Result<bool, Stop>
    requires kept { KeepsSome (O.keeps o.old) }
    requires overdue { SomeOverdue (O.heap o.old) q.now now }
    ensures expired { IfOk result (ExpiresFirst q.now now (O.heap o.old) (O.heap o.new)) }
    ensures refused { IfErr result (FirstStops q.now now (O.heap o.old) (O.heap o.new)) }
    ensures works { (next : ℕ) (rows : List Row) (object_at : ℕ → ObjectRow)
        (sources : List NamedSource) (rest : Entries) →
        KeepsOverdue (O.heap o.old).blocks q.now now next rows object_at sources rest →
        Spends O.HasHeap (first_lines (overdue waiting_of now rows) object_at sources)
        o.old o.new result }
{
    match first_item(o, q.line)? {
        None => Ok(false),
        Some(item) => expire_item(o, q, item, now),
    }
}

// Removes the first item of the line, which this is, where it is overdue, and destroys its object.
fn expire_item<O: Objects>(o: &mut O, q: &Queues, item: Addr, now: u64) -> Result<bool, Stop>
    requires kept { KeepsSome (O.keeps o.old) }
    requires overdue { SomeOverdue (O.heap o.old) q.now now }
    requires first { TellsFirst q.now.line (O.heap o.old).blocks (Some item) }
    ensures expired { IfOk result (ExpiresFirst q.now now (O.heap o.old) (O.heap o.new)) }
    ensures refused { IfErr result (FirstStops q.now now (O.heap o.old) (O.heap o.new)) }
    ensures works { (next : ℕ) (rows : List Row) (object_at : ℕ → ObjectRow)
        (sources : List NamedSource) (rest : Entries) →
        KeepsOverdue (O.heap o.old).blocks q.now now next rows object_at sources rest →
        Spends O.HasHeap (first_lines (overdue waiting_of now rows) object_at sources)
        o.old o.new result }
{
    let deadline = word(o, item, words::DEADLINE)?;
    if deadline > now {
        return Ok(false);
    }
    let object = remove_item(o, item)?;
    destroy(o, object)?;
    Ok(true)
}
