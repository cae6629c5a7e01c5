// Charges, maxima and requests of a world in the making.
ghost use Rattle.std.specs.Prelude.{◌≡◌, ◌<◌, ◌^◌, [], IfErr, IfOk, IfSome, OnErr, OnOk, length, true};
ghost use Rattle.sdr_model.specs.AccountSteps.{new_ticket, with_maximum, with_request, without_ticket};
ghost use Rattle.sdr_model.specs.Accounts.{IsInPlace, account_of, most_amount, tickets_of, with_account};
ghost use Rattle.sdr_model.specs.Charging.{grant_left, with_covered};
ghost use Rattle.sdr_model.specs.Dry.{with_taken, next_addr};
ghost use Rattle.sdr_model.specs.Queue.{with_served};
ghost use Rattle.mem_world.specs.Allowed.{MayCharge, RefusesCharge, with_back};
ghost use Rattle.mem_world.specs.Calling.{IsBound};
ghost use Rattle.mem_world.specs.Keeps.{SameBegin, StayTouched};

use crate::DraftWorld;
use sdr_base::{Acct, Amounts, NoMemory, Refusal, Space};
use sdr_model::amounts::{NOTHING, minus, with_amount};
use sdr_model::{Pending, Ticket};

// What is left of the grant of a ticket, nothing where there is none.
fn grant_left(granted: &Option<Pending>) -> Amounts
    ensures { result ≡ grant_left granted.now }
{
    match granted {
        Some(pending) => pending.ticket.left,
        None => NOTHING,
    }
}

/// Charges an account by a ticket; 0 is none. What is left of its grant covers what it can, and gives
/// that up. Want of memory leaves the world as before.
///
/// What a charge used may be given back by `take_back`, where the call then finds no memory.
pub fn charge_account(
    world: &mut DraftWorld,
    acct: Acct,
    number: u64,
    amounts: &Amounts,
) -> Result<Result<Option<Pending>, Refusal>, NoMemory>
    requires bound { IsBound world.old.now }
    ensures allowed { IfOk result (λ r. IfOk r (MayCharge world.old.now acct number amounts.now)) }
    ensures charged { IfOk result (λ r. IfOk r (λ p.
        world.new ≡ record world.old { now = with_covered world.old.now p amounts.now; saved = true })) }
    ensures stands { IfOk result (λ r. IfOk r (λ p. IfSome p (λ p.
        p.place < length (tickets_of world.new.now.accounts p.acct)))) }
    ensures back { IfOk result (λ r. IfOk r (λ p. with_back world.new.now p ≡ world.old.now)) }
    ensures touched { StayTouched world.old world.new }
    ensures refused { IfOk result (λ r. IfErr r (RefusesCharge world.old.now acct number
        amounts.now)) }
    ensures same { IfOk result (λ r. OnErr r (world.new ≡ world.old)) }
    ensures err { OnErr result (world.new ≡ world.old) }
{
    let granted = match world.grant_of(acct, number) {
        Ok(granted) => granted,
        Err(refusal) => return Ok(Err(refusal)),
    };
    let uncovered = minus(amounts, &grant_left(&granted));
    match world.refusal(acct, &uncovered) {
        None => {
            world.save_accounts()?;
            world.use_grant(granted, amounts);
            Ok(Ok(granted))
        }
        Some(refusal) => Ok(Err(refusal)),
    }
}

/// Sets the maximum of a space in an account, and serves its queue. Want of memory leaves the world as
/// before.
pub fn set_maximum(
    world: &mut DraftWorld,
    acct: Acct,
    space: Space,
    value: u64,
) -> Result<(), NoMemory>
    ensures ok { OnOk result (let accounts = world.old.now.accounts in world.new.now
        ≡ record (with_served (record world.old.now {
          accounts = with_account accounts acct (with_maximum (account_of accounts acct) space value);
        }) acct) { shown = [] }) }
    ensures keeps { SameBegin world.old world.new }
    ensures same { OnErr result (world.new.now ≡ world.old.now) }
{
    world.save_accounts()?;
    let maxima = with_amount(&world.accounts().account(acct).maxima, space, value);
    world.put_maxima(acct, maxima);
    world.serve(acct);
    world.hide();
    Ok(())
}

/// A new ticket asks an account for space, and its queue is served. The ticket has the next number and
/// address. Want of memory leaves the world as before.
pub fn request(
    world: &mut DraftWorld,
    acct: Acct,
    asked: Amounts,
    coarse: u8,
    fine: u8,
) -> Result<(), NoMemory>
    requires taken { world.old.now.taken < 2 ^ 60 }
    requires number { world.old.now.accounts.next < most_amount }
    ensures ok { OnOk result (let addr = next_addr world.old.now.taken in world.new.now
        ≡ with_taken (with_request world.old.now acct (new_ticket world.old.now.accounts.next addr asked coarse fine)) addr) }
    ensures keeps { SameBegin world.old world.new }
    ensures same { OnErr result (world.new.now ≡ world.old.now) }
{
    world.save_accounts()?;
    let marks = world.marks();
    let block = world.mark_next()?;
    let ticket = Ticket {
        block,
        number: world.accounts().next,
        coarse,
        fine,
        asked,
        left: NOTHING,
        granted: false,
    };
    match world.enter(acct, ticket) {
        Ok(()) => {
            world.serve(acct);
            world.count_blocks(1);
            Ok(())
        }
        Err(error) => {
            world.unmark(marks);
            Err(error)
        }
    }
}

/// A ticket goes, with what is left of its grant, and the queue is served. Want of memory leaves the
/// world as before.
pub fn shred(world: &mut DraftWorld, pending: &Pending) -> Result<(), NoMemory>
    requires stands { IsInPlace world.old.now.accounts pending.now }
    ensures ok { OnOk result (world.new.now ≡ record (without_ticket world.old.now pending.now) { shown = [] }) }
    ensures keeps { SameBegin world.old world.new }
    ensures same { OnErr result (world.new.now ≡ world.old.now) }
{
    world.save_accounts()?;
    world.drop_ticket(pending);
    world.serve(pending.acct);
    world.hide();
    Ok(())
}
