// The queue of an account's tickets.
ghost use Rattle.std.specs.Prelude.{◌≡◌, ◌≤◌, OnErr, OnOk, Some, None, length};
ghost use Rattle.std.specs.List.{prefix_len};
ghost use Rattle.sdr_model.specs.Charges.{left_in};
ghost use Rattle.sdr_model.specs.Queue.{barrier, enqueued, front_waiting, granted, stands_before};
ghost use Rattle.mem_parts.specs.Capped.{capped_by};
ghost use Rattle.mem_parts.specs.Rooms.{served_in};

use crate::amounts::capped_plus;
use sdr_base::{Amounts, Items, NoMemory};
use sdr_model::Ticket;
use sdr_model::amounts::{NOTHING, are_within, is_nothing, minus};

// Whether a ticket stands before another that comes to wait.
fn stands_before(ticket: &Ticket, new: &Ticket) -> bool
    ensures { result ≡ stands_before ticket.now new.now }
{
    ticket.granted
        || ticket.coarse > new.coarse
        || (ticket.coarse == new.coarse && ticket.fine >= new.fine)
}

// The place of a new ticket: behind those that stand before it.
fn place_for(tickets: &[Ticket], new: &Ticket) -> usize
    ensures place { result ≡ prefix_len (λ t. stands_before t new.now) tickets.now }
    ensures within { result ≤ length tickets.now }
{
    for (place, ticket) in tickets.iter().enumerate() {
        if !stands_before(ticket, new) {
            return place;
        }
    }
    tickets.len()
}

/// A new ticket enters a queue, behind those that stand before it. Want of memory leaves the queue as
/// before.
pub fn enqueue(tickets: &mut Items<Ticket>, new: Ticket) -> Result<(), NoMemory>
    ensures ok { OnOk result (tickets.new ≡ enqueued tickets.old new) }
    ensures err { OnErr result (tickets.new ≡ tickets.old) }
{
    let place = place_for(tickets.as_slice(), &new);
    tickets.insert(place, new)
}

/// What is left of the grants of tickets, as far as words hold it.
pub fn left(tickets: &[Ticket]) -> Amounts
    ensures { result ≡ capped_by (λ space. left_in space tickets.now) }
{
    let mut left = NOTHING;
    for ticket in tickets {
        left = capped_plus(&left, &ticket.left);
    }
    left
}

// A ticket with all that it asks granted.
fn granted(ticket: Ticket) -> Ticket
    ensures { result ≡ granted ticket }
{
    Ticket {
        left: ticket.asked,
        granted: true,
        ..ticket
    }
}

/// Serves a queue in the room of its account: the first waiting ticket is granted while each amount that it asks is at most
/// the room, which a grant lessens. It is linear in the queue.
pub fn serve(tickets: &mut Items<Ticket>, room: Amounts)
    ensures { tickets.new ≡ served_in room tickets.old }
{
    let mut room = room;
    for place in 0..tickets.len() {
        let ticket = tickets.as_slice()[place];
        if ticket.granted {
            continue;
        }
        if !are_within(&ticket.asked, &room) {
            return;
        }
        room = minus(&room, &ticket.asked);
        tickets.set(place, granted(ticket));
    }
}

/// The first ticket that waits.
pub fn front_waiting(tickets: &[Ticket]) -> Option<Ticket>
    ensures { result ≡ front_waiting tickets.now }
{
    for ticket in tickets {
        if !ticket.granted {
            return Some(*ticket);
        }
    }
    None
}

/// The ticket that is before a charge: the first that waits, where anything isn't covered.
pub fn barrier(uncovered: &Amounts, tickets: &[Ticket]) -> Option<Ticket>
    ensures { result ≡ barrier uncovered.now tickets.now }
{
    if is_nothing(uncovered) {
        return None;
    }
    front_waiting(tickets)
}
