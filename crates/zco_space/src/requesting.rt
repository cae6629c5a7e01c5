// Requests for space.
ghost use Rattle.std.specs.Prelude.{◌≡◌, ◌≤◌, ◌+◌, ◌*◌, List, IfErr, IfOk, OnOk};
ghost use Rattle.sdr_base.specs.Moves.{KeepsSome};
ghost use Rattle.sdr_base.specs.Objects.{OnlyFault, OnlyShort};
ghost use Rattle.sdr_base.specs.Transaction.{LeavesTouched};
ghost use Rattle.sdr_base.specs.Works.{Looks, Spends};
ghost use Rattle.sdr_model.specs.declared.accounts.Ticket.{Ticket as GhostTicket};
ghost use Rattle.zco_acct.specs.Kept.{KeepsQueue, SomeQueue};
ghost use Rattle.zco_space.specs.Places.{EntersQueue, FindsPlace, IsNew, TakesTicket};
ghost use Rattle.zco_space.specs.Requests.{IsNumbered, NumberStops, RequestsTicket, RequestStops, TellsGranted, requests_granted};

use crate::linking::{link_last, link_next};
use crate::serving::serve;
use sdr_base::control::NEXT_TICKET;
use sdr_base::{Acct, Addr, Amounts, Kind, Objects, Refusal, Stop, take_words};
use sdr_model::amounts::{NOTHING, amount, first_above};
use sdr_model::{MOST_AMOUNT, Ticket};
use zco_acct::{Notice, Notify, Sought, last_word, maxima, search};

/// Asks an account for so many bytes of each space, and serves its queue. Of two tickets that wait,
/// the one of the greater coarse priority goes first, then that of the greater fine one, then the
/// older. It answers the new ticket's number, and whether it was granted at once.
#[tactic(auto, using(sdr_base::proofs::LeavingLemmas::leaving))]
pub fn request<O: Objects, F: Notify>(
    o: &mut O,
    acct: Acct,
    asked: &Amounts,
    coarse: u8,
    fine: u8,
    notice: &Notice<F>,
) -> Result<(u64, bool), Stop>
    requires kept { KeepsSome (O.keeps o.old) }
    requires spare { 1 ≤ (O.heap o.old).spare }
    requires queue { SomeQueue (O.heap o.old) acct }
    ensures requested { IfOk result
        (RequestsTicket acct asked.now coarse fine (O.heap o.old) (O.heap o.new)) }
    ensures refused { IfErr result (RequestStops acct asked.now (O.heap o.old) (O.heap o.new)) }
    ensures untouched { IfErr result (LeavesTouched (O.transaction o.old) (O.transaction o.new)) }
    ensures works { (tickets : List GhostTicket) → KeepsQueue (O.heap o.old) acct tickets →
        Spends O.HasHeap
        (33 + 32 * requests_granted (O.heap o.old) acct asked.now coarse fine tickets)
        o.old o.new result }
{
    let number = next_number(o, acct, asked)?;
    let Amounts { file, bulk, heap } = *asked;
    let new = Ticket {
        block: 0,
        number,
        coarse,
        fine,
        asked: Amounts { file, bulk, heap },
        left: NOTHING,
        granted: false,
    };
    enqueue(o, acct, &new)?;
    o.set_root(NEXT_TICKET, number + 1)?;
    serve(o, acct, notice)?;
    let granted = is_granted(o, acct, number)?;
    Ok((number, granted))
}

// Whether the ticket of a number is granted.
fn is_granted<O: Objects>(o: &mut O, acct: Acct, number: u64) -> Result<bool, Stop>
    requires kept { KeepsSome (O.keeps o.old) }
    requires queue { SomeQueue (O.heap o.old) acct }
    ensures told { IfOk result (TellsGranted acct number (O.heap o.old)) }
    ensures refused { IfErr result OnlyFault }
    ensures looks { Looks O.HasHeap o.old o.new result }
{
    match search(o, acct, &Sought::Number(number))? {
        Some(found) => Ok(found.ticket.granted),
        None => Ok(false),
    }
}

// The number of a new ticket that asks for so much, which isn't above a maximum.
fn next_number<O: Objects>(o: &mut O, acct: Acct, asked: &Amounts) -> Result<u64, Stop>
    requires kept { KeepsSome (O.keeps o.old) }
    ensures numbered { IfOk result (IsNumbered acct asked.now (O.heap o.old)) }
    ensures refused { IfErr result (NumberStops acct asked.now (O.heap o.old)) }
    ensures looks { Looks O.HasHeap o.old o.new result }
{
    let most = maxima(o, acct)?;
    if let Some(space) = first_above(asked, &most) {
        return Err(Stop::Refused(Refusal::TooLarge {
            space,
            asked: amount(asked, space),
            most: amount(&most, space),
        }));
    }
    let number = o.root(NEXT_TICKET)?;
    if number >= MOST_AMOUNT {
        return Err(Stop::Refused(Refusal::BadTicket {
            ticket: MOST_AMOUNT,
        }));
    }
    Ok(number)
}

// Where a ticket goes: the addresses of those before and behind it, 0 for none.
#[derive(Clone, Copy)]
pub struct Place {
    pub previous: Addr,
    pub next: Addr,
}

// The place of a new ticket: behind those that stand before it.
fn place_for<O: Objects>(o: &mut O, acct: Acct, new: &Ticket) -> Result<Place, Stop>
    requires kept { KeepsSome (O.keeps o.old) }
    requires queue { SomeQueue (O.heap o.old) acct }
    ensures found { IfOk result (FindsPlace acct new.now (O.heap o.old)) }
    ensures refused { IfErr result OnlyFault }
    ensures looks { Looks O.HasHeap o.old o.new result }
{
    match search(o, acct, &Sought::Behind(*new))? {
        Some(found) => Ok(Place {
            previous: found.previous,
            next: found.ticket.block,
        }),
        None => {
            let previous = o.root(last_word(acct))?;
            Ok(Place { previous, next: 0 })
        }
    }
}

// A new ticket enters a queue, behind those that stand before it.
fn enqueue<O: Objects>(o: &mut O, acct: Acct, new: &Ticket) -> Result<Addr, Stop>
    requires kept { KeepsSome (O.keeps o.old) }
    requires spare { 1 ≤ (O.heap o.old).spare }
    requires queue { SomeQueue (O.heap o.old) acct }
    requires new { IsNew new.now }
    ensures entered { IfOk result (EntersQueue acct new.now (O.heap o.old) (O.heap o.new)) }
    ensures refused { IfErr result (OnlyShort 96 (O.heap o.old) (O.heap o.new)) }
    ensures works { Spends O.HasHeap 32 o.old o.new result }
{
    let place = place_for(o, acct, new)?;
    let added = take_ticket(o, acct, new, place.next)?;
    link_next(o, acct, place.previous, added)?;
    link_last(o, acct, place.next, added)?;
    Ok(added)
}

// Takes a block for a ticket that waits, before another.
fn take_ticket<O: Objects>(o: &mut O, acct: Acct, new: &Ticket, next: Addr) -> Result<Addr, Stop>
    requires kept { KeepsSome (O.keeps o.old) }
    requires spare { 1 ≤ (O.heap o.old).spare }
    requires new { IsNew new.now }
    ensures taken { IfOk result (TakesTicket acct new.now next (O.heap o.old) (O.heap o.new)) }
    ensures refused { IfErr result (OnlyShort 96 (O.heap o.old) (O.heap o.new)) }
    ensures works { Spends O.HasHeap 29 o.old o.new result }
{
    let asked = &new.asked;
    let number = acct.number();
    take_words(
        o,
        Kind::Ticket,
        &[
            new.number,
            number,
            new.coarse as u64,
            new.fine as u64,
            asked.file,
            asked.bulk,
            asked.heap,
            0,
            0,
            0,
            0,
            next,
        ],
    )
}
