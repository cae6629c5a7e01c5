// What calls on accounts and their tickets do to a world.
ghost use Rattle.std.specs.Prelude.{◌≡◌};
ghost use Rattle.mem_calls.specs.Answers.{CallsMemory};
ghost use Rattle.mem_world.specs.Calling.{MayCall};
ghost use Rattle.sdr_model.specs.AccountSteps.{is_granted};
ghost use Rattle.sdr_model.specs.Accounts.{pending_in};

use mem_world::{DraftWorld, charging};
use sdr_base::{Acct, Amounts, NoMemory, Refusal, Space};
use sdr_model::amounts::{amount, first_above};
use sdr_model::{Call, MOST_AMOUNT, Reply};

/// What a ticket asks for.
#[derive(Clone, Copy)]
pub struct Asking {
    pub amounts: Amounts,
    /// The greater goes first.
    pub coarse: u8,
    /// The greater goes first, among tickets of one coarse priority.
    pub fine: u8,
}

pub fn occupancy(world: &mut DraftWorld, acct: Acct, space: Space) -> Result<Reply, NoMemory>
    requires may { MayCall world.old.now }
    ensures { CallsMemory (Call.Occupancy acct space) world.old world.new result }
{
    let value = amount(&world.occupied(acct), space);
    world.hide();
    Ok(Reply::Value { value })
}

pub fn maximum(world: &mut DraftWorld, acct: Acct, space: Space) -> Result<Reply, NoMemory>
    ensures { CallsMemory (Call.Maximum acct space) world.old world.new result }
{
    let value = amount(&world.accounts().account(acct).maxima, space);
    world.hide();
    Ok(Reply::Value { value })
}

// The refusal of more of a space than is allowed.
fn too_large(space: Space, asked: u64, most: u64) -> Reply
    ensures { result ≡ Reply.Refused (Refusal.TooLarge space asked most) }
{
    Reply::Refused(Refusal::TooLarge { space, asked, most })
}

// The refusal of a number that is no ticket's.
fn bad_ticket(ticket: u64) -> Reply
    ensures { result ≡ Reply.Refused (Refusal.BadTicket ticket) }
{
    Reply::Refused(Refusal::BadTicket { ticket })
}

pub fn set_maximum(
    world: &mut DraftWorld,
    acct: Acct,
    space: Space,
    value: u64,
) -> Result<Reply, NoMemory>
    ensures { CallsMemory (Call.SetMaximum acct space value) world.old world.new result }
{
    if value > MOST_AMOUNT {
        return Ok(too_large(space, value, MOST_AMOUNT));
    }
    charging::set_maximum(world, acct, space, value)?;
    Ok(Reply::Done)
}

// Whether the ticket of a number in an account is granted.
fn is_granted(world: &DraftWorld, acct: Acct, number: u64) -> bool
    ensures { result ≡ is_granted (pending_in world.now.now.accounts acct number) }
{
    match world.accounts().pending_in(acct, number) {
        Some(pending) => pending.ticket.granted,
        None => false,
    }
}

pub fn request(world: &mut DraftWorld, acct: Acct, asking: Asking) -> Result<Reply, NoMemory>
    requires may { MayCall world.old.now }
    ensures { let asked = asking.amounts in
        CallsMemory (Call.Request acct asked.file asked.bulk asked.heap asking.coarse asking.fine) world.old world.new result }
{
    let maxima = world.accounts().account(acct).maxima;
    if let Some(space) = first_above(&asking.amounts, &maxima) {
        let asked = amount(&asking.amounts, space);
        return Ok(too_large(space, asked, amount(&maxima, space)));
    }
    let number = world.accounts().next;
    if number == MOST_AMOUNT {
        return Ok(bad_ticket(MOST_AMOUNT));
    }
    charging::request(world, acct, asking.amounts, asking.coarse, asking.fine)?;
    let granted = is_granted(world, acct, number);
    Ok(Reply::Ticket { number, granted })
}

pub fn awarded(world: &mut DraftWorld, ticket: u64) -> Result<Reply, NoMemory>
    ensures { CallsMemory (Call.Awarded ticket) world.old world.new result }
{
    let Some(pending) = world.accounts().pending(ticket) else {
        return Ok(bad_ticket(ticket));
    };
    if !pending.ticket.granted {
        return Ok(Reply::Refused(Refusal::NotAwarded { ticket }));
    }
    world.hide();
    Ok(Reply::Done)
}

pub fn shred(world: &mut DraftWorld, ticket: u64) -> Result<Reply, NoMemory>
    ensures { CallsMemory (Call.Shred ticket) world.old world.new result }
{
    let Some(pending) = world.accounts().pending(ticket) else {
        return Ok(bad_ticket(ticket));
    };
    charging::shred(world, &pending)?;
    Ok(Reply::Done)
}
