// What the daemon does with its queues.
ghost use Rattle.std.specs.Prelude.{◌≤◌, ◌∷◌, [], IfOk, OnOk};
ghost use Rattle.sdr_base.specs.Moves.{KeepsSome};
ghost use Rattle.bp_queue.specs.Bundles.{HasNothing, SomeBundles};

use bp_queue::{
    Class, EarliestFirst, HighestFirst, Orders, Queues, bundles_keep, create, earliest, expire,
    put, take,
};
use sdr_base::{Acct, Addr, Objects, Stop};
use sdr_list::Collation;

/// Queues, and the bundles that are to be sent.
#[derive(Clone, Copy, Drop)]
struct Outbox {
    queues: Queues,
    telemetry: Addr,
    command: Addr,
    alarm: Addr,
}

/// What one run of the daemon comes to.
#[derive(Clone, Copy, Drop)]
pub struct Sent {
    pub earliest: Option<u64>,
    pub early: u64,
    pub taken: Addr,
    pub late: u64,
    pub left: Option<u64>,
}

// Makes the queues, and three bundles.
fn make<O: Objects>(o: &mut O) -> Result<Outbox, Stop>
    requires kept { KeepsSome (O.keeps o.old) }
    requires nothing { HasNothing (O.heap o.old) }
    requires spare { 31 ≤ (O.heap o.old).spare }
    ensures kept { OnOk result (KeepsSome (O.keeps o.new)) }
    ensures bundles { IfOk result (λ outbox. SomeBundles (O.heap o.new) outbox.queues
        (outbox.alarm ∷ outbox.command ∷ outbox.telemetry ∷ []) 12) }
{
    bundles_keep();
    let queues = create(o)?;
    let telemetry = zco_obj::create(o, Acct::Outbound, 0)?;
    let command = zco_obj::create(o, Acct::Outbound, 0)?;
    let alarm = zco_obj::create(o, Acct::Outbound, 0)?;
    Ok(Outbox {
        queues,
        telemetry,
        command,
        alarm,
    })
}

// Puts the bundles into their classes.
fn put_all<O: Objects>(o: &mut O, outbox: &Outbox) -> Result<(), Stop>
    requires kept { KeepsSome (O.keeps o.old) }
    requires bundles { SomeBundles (O.heap o.old) outbox.now.queues
        (outbox.now.alarm ∷ outbox.now.command ∷ outbox.now.telemetry ∷ []) 12 }
    ensures kept { OnOk result (KeepsSome (O.keeps o.new)) }
    ensures bundles { OnOk result (SomeBundles (O.heap o.new) outbox.now.queues [] 3) }
{
    bundles_keep();
    let by = Orders::new(Collation::new(EarliestFirst), Collation::new(HighestFirst));
    let q = &outbox.queues;
    put(o, q, Class::Bulk, 0, 50, outbox.telemetry, &by)?;
    put(o, q, Class::Urgent, 1, 30, outbox.command, &by)?;
    put(o, q, Class::Urgent, 9, 70, outbox.alarm, &by)?;
    Ok(())
}

// Takes the first bundle, and destroys those that are overdue, before that and behind it.
fn send<O: Objects>(o: &mut O, q: &Queues) -> Result<Sent, Stop>
    requires kept { KeepsSome (O.keeps o.old) }
    requires bundles { SomeBundles (O.heap o.old) q.now [] 3 }
{
    bundles_keep();
    let first = earliest(o, q)?;
    let early = expire(o, q, 29)?;
    let taken = take(o, q)?;
    let late = expire(o, q, 50)?;
    let left = earliest(o, q)?;
    Ok(Sent {
        earliest: first,
        early,
        taken,
        late,
        left,
    })
}

/// One run, on a heap without a block or a ticket.
pub fn run<O: Objects>(o: &mut O) -> Result<Sent, Stop>
    requires kept { KeepsSome (O.keeps o.old) }
    requires nothing { HasNothing (O.heap o.old) }
    requires spare { 31 ≤ (O.heap o.old).spare }
{
    let outbox = make(o)?;
    put_all(o, &outbox)?;
    send(o, &outbox.queues)
}
