// The service of an account's queue.
ghost use Rattle.std.specs.Prelude.{◌≡◌, ◌+◌, ◌*◌, ◌<◌, ◌^◌, List, ◌++◌, IfErr, IfOk};
ghost use Rattle.sdr_base.specs.Blocks.{UsesRange};
ghost use Rattle.sdr_base.specs.Cells.{TouchesWithin};
ghost use Rattle.sdr_base.specs.Moves.{KeepsSome};
ghost use Rattle.sdr_base.specs.Objects.{OnlyUnmoved};
ghost use Rattle.sdr_base.specs.Works.{Spends};
ghost use Rattle.sdr_model.specs.Amounts.{plus};
ghost use Rattle.sdr_model.specs.declared.accounts.Ticket.{Ticket as GhostTicket};
ghost use Rattle.zco_acct.specs.Kept.{AmountsFit, KeepsQueue, SomeQueue};
ghost use Rattle.zco_acct.specs.Tickets.{grant_lines, with_grant};
ghost use Rattle.zco_acct.specs.Words.{occupied_lines, with_occupied};
ghost use Rattle.zco_space.specs.Served.{GrantsTicket, ServesQueue, granted_anew, newly_granted};
ghost use Rattle.zco_space.specs.Served.{queue_served, serving_lines};

use sdr_base::{Acct, Amounts, Objects, Stop};
use sdr_model::Ticket;
use sdr_model::amounts::{minus, plus};
use zco_acct::{
    MOST_TICKETS, Notice, Notify, first_word, maxima, occupied, put_grant, read_ticket,
    set_occupied,
};

/// Serves the queue of an account, and answers how many tickets it has granted: the first that
/// waits is granted while each amount that it asks is at most the room. It is linear in the queue. It
/// touches the lines of what is occupied in the account, and those of the grants.
pub fn serve<O: Objects, F: Notify>(o: &mut O, acct: Acct, notice: &Notice<F>) -> Result<u64, Stop>
    requires kept { KeepsSome (O.keeps o.old) }
    requires queue { SomeQueue (O.heap o.old) acct }
    ensures served { IfOk result (ServesQueue acct (O.heap o.old) (O.heap o.new)) }
    ensures refused { IfErr result (OnlyUnmoved (O.heap o.old) (O.heap o.new)) }
    ensures works { (tickets : List GhostTicket) → KeepsQueue (O.heap o.old) acct tickets →
        Spends O.HasHeap (32 * newly_granted tickets (queue_served (O.heap o.old) acct tickets))
        o.old o.new result }
    ensures lines { (tickets : List GhostTicket) → KeepsQueue (O.heap o.old) acct tickets →
        TouchesWithin (serving_lines acct (granted_anew (O.heap o.old) acct tickets))
        (O.transaction o.old) (O.transaction o.new) result }
{
    let most = maxima(o, acct)?;
    let mut taken = occupied(o, acct)?;
    let mut addr = o.root(first_word(acct))?;
    let mut granted = 0;
    for i in 0..MOST_TICKETS {
        if addr == 0 {
            return Ok(granted);
        }
        let here = read_ticket(o, addr)?;
        if here.ticket.granted {
            addr = here.next;
            continue;
        }
        if !notice.told(&here.ticket.asked, &minus(&most, &taken)) {
            return Ok(granted);
        }
        taken = grant(o, acct, &here.ticket, &taken)?;
        granted += 1;
        addr = here.next;
    }
    Ok(granted)
}

// Grants a ticket all that it asks, and answers what is occupied in the account then.
fn grant<O: Objects>(
    o: &mut O,
    acct: Acct,
    ticket: &Ticket,
    taken: &Amounts,
) -> Result<Amounts, Stop>
    requires kept { KeepsSome (O.keeps o.old) }
    requires inside { UsesRange (O.heap o.old).blocks ticket.now.block 56 32 }
    requires fits { AmountsFit (plus taken.now ticket.now.asked) }
    ensures granted { IfOk result
        (GrantsTicket acct ticket.now taken.now (O.heap o.old) (O.heap o.new)) }
    ensures refused { IfErr result (OnlyUnmoved (O.heap o.old) (O.heap o.new)) }
    ensures works { Spends O.HasHeap 5 o.old o.new result }
    ensures lines { TouchesWithin (grant_lines ticket.now.block ++ occupied_lines acct)
        (O.transaction o.old) (O.transaction o.new) result }
{
    put_grant(o, ticket.block, &ticket.asked)?;
    let after = plus(taken, &ticket.asked);
    set_occupied(o, acct, &after)?;
    Ok(after)
}
