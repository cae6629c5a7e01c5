// Charges, with a ticket or without.
ghost use Rattle.std.specs.Prelude.{◌≡◌, IfOk, IfErr, OnOk};
ghost use Rattle.sdr_base.specs.Moves.{KeepsSome};
ghost use Rattle.sdr_base.specs.Objects.{OnlyUnmoved};
ghost use Rattle.sdr_base.specs.Transaction.{LeavesTouched};
ghost use Rattle.sdr_base.specs.Works.{Looks, Spends};
ghost use Rattle.sdr_model.specs.Amounts.{plus};
ghost use Rattle.zco_acct.specs.Charges.{ChargesAccount, ChargeStops, SomeGrant, UsesGrant};
ghost use Rattle.zco_acct.specs.Kept.{SomeQueue};
ghost use Rattle.zco_acct.specs.Refusals.{Allows, GrantsOf, RefusedAs};
ghost use Rattle.zco_acct.specs.Refusals.{left_of, no_space, queue_refusal, room_refusal, ticket_refusal};
ghost use Rattle.zco_acct.specs.Words.{maxima_in, occupied_in};

use crate::account::{maxima, occupied, set_occupied};
use crate::queue::{Found, Sought, search};
use crate::ticket::put_grant;
use sdr_base::{Acct, Amounts, Objects, Refusal, Space, Stop, check_failed};
use sdr_model::amounts::{NOTHING, amount, first_above, is_nothing, minus, plus};

/// Charges an account so many bytes of each space. What is left of the grant of the ticket of this
/// number covers what it can, and gives that up; what it doesn't cover is occupied from then on. 0
/// is no ticket.
#[tactic(auto, using(sdr_base::proofs::LeavingLemmas::leaving))]
pub fn charge<O: Objects>(o: &mut O, acct: Acct, ticket: u64, amounts: &Amounts) -> Result<(), Stop>
    requires kept { KeepsSome (O.keeps o.old) }
    requires queue { SomeQueue (O.heap o.old) acct }
    ensures charged { OnOk result
        (ChargesAccount acct ticket amounts.now (O.heap o.old) (O.heap o.new)) }
    ensures refused { IfErr result
        (ChargeStops acct ticket amounts.now (O.heap o.old) (O.heap o.new)) }
    ensures untouched { IfErr result (LeavesTouched (O.transaction o.old) (O.transaction o.new)) }
    ensures works { Spends O.HasHeap 5 o.old o.new result }
{
    let grant = grant_of(o, acct, ticket)?;
    let uncovered = minus(amounts, &left_of(&grant));
    let after = occupied_with(o, acct, &uncovered)?;
    use_grant(o, &grant, amounts)?;
    set_occupied(o, acct, &after)
}

// The ticket that a charge names, which is the account's and granted. 0 names none.
fn grant_of<O: Objects>(o: &mut O, acct: Acct, number: u64) -> Result<Option<Found>, Stop>
    requires kept { KeepsSome (O.keeps o.old) }
    requires queue { SomeQueue (O.heap o.old) acct }
    ensures granted { IfOk result (GrantsOf (O.heap o.old) acct number) }
    ensures refused { IfErr result
        (RefusedAs (O.heap o.old) acct (λ tickets. ticket_refusal tickets number)) }
    ensures looks { Looks O.HasHeap o.old o.new result }
{
    check_failed(o)?;
    if number == 0 {
        return Ok(None);
    }
    match search(o, acct, &Sought::Number(number))? {
        None => Err(Stop::Refused(Refusal::BadTicket { ticket: number })),
        Some(found) if found.ticket.granted => Ok(Some(found)),
        Some(_) => Err(Stop::Refused(Refusal::NotAwarded { ticket: number })),
    }
}

// What is left of the grant of a ticket, nothing where there is none.
fn left_of(grant: &Option<Found>) -> Amounts
    ensures { result ≡ left_of grant.now }
{
    match grant {
        Some(found) => found.ticket.left,
        None => NOTHING,
    }
}

// Goes on where nothing of these amounts is to be charged, or no ticket waits.
fn check_queue<O: Objects>(o: &mut O, acct: Acct, uncovered: &Amounts) -> Result<(), Stop>
    requires kept { KeepsSome (O.keeps o.old) }
    requires queue { SomeQueue (O.heap o.old) acct }
    ensures free { OnOk result
        (Allows (O.heap o.old) acct (λ tickets. queue_refusal tickets uncovered.now)) }
    ensures refused { IfErr result
        (RefusedAs (O.heap o.old) acct (λ tickets. queue_refusal tickets uncovered.now)) }
    ensures looks { Looks O.HasHeap o.old o.new result }
{
    if is_nothing(uncovered) {
        return check_failed(o);
    }
    match search(o, acct, &Sought::Waiting)? {
        None => Ok(()),
        Some(front) => Err(Stop::Refused(Refusal::Queue {
            ticket: front.ticket.number,
        })),
    }
}

// What is occupied in an account with these amounts more, where no ticket waits before them and
// there is room.
fn occupied_with<O: Objects>(o: &mut O, acct: Acct, uncovered: &Amounts) -> Result<Amounts, Stop>
    requires kept { KeepsSome (O.keeps o.old) }
    requires queue { SomeQueue (O.heap o.old) acct }
    ensures sum { IfOk result (λ after.
        after ≡ plus (occupied_in (O.heap o.old) acct) uncovered.now) }
    ensures free { OnOk result (Allows (O.heap o.old) acct (λ tickets. room_refusal tickets
        uncovered.now (occupied_in (O.heap o.old) acct) (maxima_in (O.heap o.old) acct))) }
    ensures refused { IfErr result (RefusedAs (O.heap o.old) acct (λ tickets. room_refusal tickets
        uncovered.now (occupied_in (O.heap o.old) acct) (maxima_in (O.heap o.old) acct))) }
    ensures looks { Looks O.HasHeap o.old o.new result }
{
    check_queue(o, acct, uncovered)?;
    let before = occupied(o, acct)?;
    let most = maxima(o, acct)?;
    match first_above(uncovered, &minus(&most, &before)) {
        None => Ok(plus(&before, uncovered)),
        Some(space) => Err(no_space(space, &before, uncovered, &most)),
    }
}

// The refusal of amounts for which a space has no room.
fn no_space(space: Space, occupied: &Amounts, asked: &Amounts, most: &Amounts) -> Stop
    ensures { result ≡ Stop.Refused (no_space occupied.now asked.now most.now space) }
{
    Stop::Refused(Refusal::NoSpace {
        space,
        occupied: amount(occupied, space),
        asked: amount(asked, space),
        most: amount(most, space),
    })
}

// The grant of a ticket covers of these amounts what it can.
fn use_grant<O: Objects>(o: &mut O, grant: &Option<Found>, amounts: &Amounts) -> Result<(), Stop>
    requires kept { KeepsSome (O.keeps o.old) }
    requires there { SomeGrant grant.now (O.heap o.old) }
    ensures used { OnOk result
        (UsesGrant grant.now amounts.now (O.heap o.old) (O.heap o.new)) }
    ensures refused { IfErr result (OnlyUnmoved (O.heap o.old) (O.heap o.new)) }
    ensures works { Spends O.HasHeap 2 o.old o.new result }
{
    match grant {
        None => check_failed(o),
        Some(found) => put_grant(o, found.ticket.block, &minus(&found.ticket.left, amounts)),
    }
}
