// The end of a ticket.
ghost use Rattle.std.specs.Prelude.{◌≡◌, ◌≤◌, ◌+◌, ◌*◌, List, IfErr, OnOk};
ghost use Rattle.sdr_base.specs.Moves.{KeepsSome};
ghost use Rattle.sdr_base.specs.Objects.{OnlyUnmoved};
ghost use Rattle.sdr_base.specs.Transaction.{LeavesTouched};
ghost use Rattle.sdr_base.specs.Works.{Spends};
ghost use Rattle.sdr_base.specs.declared.account.Acct.TheVariants as accts;
ghost use Rattle.sdr_model.specs.declared.accounts.Ticket.{Ticket as GhostTicket};
ghost use Rattle.zco_acct.specs.Kept.{KeepsQueue, SomeQueue};
ghost use Rattle.zco_space.specs.Shreds.{SomeFirst, ShredsTicket, ShredStops, TakesOut, shreds_granted};

use crate::finding::find_ticket;
use crate::linking::{link_last, link_next};
use crate::serving::serve;
use sdr_base::{Acct, Objects, Refusal, Stop};
use zco_acct::{Found, Notice, Notify, release};

/// Ends the ticket of this number, of either account, gives back what is left of its grant, and
/// serves its account's queue.
#[tactic(auto, using(sdr_base::proofs::LeavingLemmas::leaving))]
pub fn shred<O: Objects, F: Notify>(o: &mut O, ticket: u64, notice: &Notice<F>) -> Result<(), Stop>
    requires kept { KeepsSome (O.keeps o.old) }
    requires spare { 1 ≤ (O.heap o.old).spare }
    requires inbound { SomeQueue (O.heap o.old) accts.Inbound }
    requires outbound { SomeQueue (O.heap o.old) accts.Outbound }
    ensures shredded { OnOk result (ShredsTicket ticket (O.heap o.old) (O.heap o.new)) }
    ensures refused { IfErr result (ShredStops ticket (O.heap o.old) (O.heap o.new)) }
    ensures untouched { IfErr result (LeavesTouched (O.transaction o.old) (O.transaction o.new)) }
    ensures works { (inbound outbound : List GhostTicket) →
        KeepsQueue (O.heap o.old) accts.Inbound inbound →
        KeepsQueue (O.heap o.old) accts.Outbound outbound →
        Spends O.HasHeap (30 + 32 * shreds_granted (O.heap o.old) ticket inbound outbound)
        o.old o.new result }
{
    let Some(standing) = find_ticket(o, ticket)? else {
        return Err(Stop::Refused(Refusal::BadTicket { ticket }));
    };
    take_out(o, standing.acct, &standing.found)?;
    release(o, standing.acct, &standing.found.ticket.left)?;
    serve(o, standing.acct, notice)?;
    Ok(())
}

// Takes a ticket out of its queue, and gives its block back.
fn take_out<O: Objects>(o: &mut O, acct: Acct, found: &Found) -> Result<(), Stop>
    requires kept { KeepsSome (O.keeps o.old) }
    requires spare { 1 ≤ (O.heap o.old).spare }
    requires first { SomeFirst acct found.now (O.heap o.old) }
    ensures taken { OnOk result (TakesOut acct found.now (O.heap o.old) (O.heap o.new)) }
    ensures refused { IfErr result (OnlyUnmoved (O.heap o.old) (O.heap o.new)) }
    ensures works { Spends O.HasHeap 27 o.old o.new result }
{
    link_next(o, acct, found.previous, found.next)?;
    link_last(o, acct, found.next, found.previous)?;
    o.give(found.ticket.block)
}
