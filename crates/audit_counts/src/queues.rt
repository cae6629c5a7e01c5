// The queues of tickets.
ghost use Rattle.std.specs.Prelude.{◌≡◌, ◌≢◌, ◌<◌, ◌/◌, ◌++◌, ◌↔◌, ℕ, true, false, All, AllPairs, IsTrue, length, map, nat_eq, IfOk, IfSome, MatchOption, OnOk};
ghost use Rattle.std.specs.Option.{option_map};
ghost use Rattle.sdr_base.specs.Cells.{IsRegionSize};
ghost use Rattle.sdr_base.specs.declared.control.TheConstants.{NEXT_TICKET};
ghost use Rattle.sdr_base.specs.declared.line.TheConstants.{WORD};
ghost use Rattle.audit_counts.specs.Queues.{AreLawfulIn, IsLawful, IsQueue, IsWrongQueueIn, amounts_in, is_left_rightly, numbers_before, ticket_numbers, numbers_up_to, queue_place, room, ticket_in};
ghost use Rattle.sdr_model.specs.Amounts.{are_within};
ghost use Rattle.sdr_model.specs.Queue.{front_waiting};
ghost use Rattle.sdr_model.specs.Valid.{may_precede};
ghost use Rattle.audit_owners.specs.View.{view_in};

use crate::occupied::account_word;
use crate::tickets::{amounts_at, is_granted, is_left_rightly, may_precede};
use audit_owners::{Owner, members, root, word};
use sdr_base::control::{FILE_MAXIMUM, FILE_OCCUPANCY, FIRST_TICKET, NEXT_TICKET};
use sdr_base::layout::ticket;
use sdr_base::{Acct, Addr, Amounts, NoMemory, WORD};
use sdr_model::amounts::{are_within, minus};
use std::alloc::Global;
use std::collections::HashSet;

// Whether no two numbers are the same.
fn are_distinct(alloc: Global, numbers: &[u64]) -> Result<bool, NoMemory>
    ensures { IfOk result (λ yes. IsTrue yes ↔ AllPairs (λ a b. a ≢ b) numbers.now) }
{
    let set: HashSet<u64> = numbers.iter().copied().collect(alloc)?;
    Ok(set.len() == numbers.len())
}

// Puts the numbers of tickets behind others.
fn push_numbers(numbers: &mut Vec<u64>, heap: &[u8], tickets: &[Addr]) -> Result<(), NoMemory>
    requires region { IsRegionSize (length heap.now) }
    ensures { OnOk result (numbers.new.items ≡ numbers.old.items
        ++ ticket_numbers (map (ticket_in (view_in heap.now)) tickets.now)) }
{
    for addr in tickets {
        numbers.push(word(heap, *addr, ticket::NUMBER))?;
    }
    Ok(())
}

// Whether each of these tickets has a number below the next one.
fn are_below(heap: &[u8], tickets: &[Addr]) -> bool
    requires region { IsRegionSize (length heap.now) }
    ensures { IsTrue result ↔ All (λ n. n < (view_in heap.now).roots NEXT_TICKET)
        (ticket_numbers (map (ticket_in (view_in heap.now)) tickets.now)) }
{
    let next = root(heap, NEXT_TICKET);
    for addr in tickets {
        if word(heap, *addr, ticket::NUMBER) >= next {
            return false;
        }
    }
    true
}

// Whether each of these tickets may stand before those behind it.
fn are_in_order(heap: &[u8], tickets: &[Addr]) -> bool
    requires region { IsRegionSize (length heap.now) }
    ensures { IsTrue result ↔ AllPairs (λ a b. may_precede a b ≡ true)
        (map (ticket_in (view_in heap.now)) tickets.now) }
{
    for place in 1..tickets.len() {
        if !may_precede(heap, tickets[place - 1], tickets[place]) {
            return false;
        }
    }
    true
}

// Whether what is left of each of these tickets is right.
fn are_left_rightly(heap: &[u8], tickets: &[Addr]) -> bool
    requires region { IsRegionSize (length heap.now) }
    ensures { IsTrue result ↔ All (λ t. is_left_rightly t ≡ true)
        (map (ticket_in (view_in heap.now)) tickets.now) }
{
    for addr in tickets {
        if !is_left_rightly(heap, *addr) {
            return false;
        }
    }
    true
}

// The first of these tickets that waits.
fn front_waiting(heap: &[u8], tickets: &[Addr]) -> Option<Addr>
    requires region { IsRegionSize (length heap.now) }
    ensures { option_map (ticket_in (view_in heap.now)) result
        ≡ front_waiting (map (ticket_in (view_in heap.now)) tickets.now) }
{
    for addr in tickets {
        if !is_granted(heap, *addr) {
            return Some(*addr);
        }
    }
    None
}

// The amounts of each space in three control words of an account, from one on.
fn amounts_in(heap: &[u8], account: Acct, field: u64) -> Amounts
    requires region { IsRegionSize (length heap.now) }
    requires field { field < 100 }
    ensures { result ≡ amounts_in (view_in heap.now) account field }
{
    let begin = account_word(account) + field;
    Amounts {
        file: root(heap, begin),
        bulk: root(heap, begin + 1),
        heap: root(heap, begin + 2),
    }
}

// Whether the first of these tickets that waits asks of some space more than the room of the account.
fn is_barred(heap: &[u8], account: Acct, tickets: &[Addr]) -> bool
    requires region { IsRegionSize (length heap.now) }
    ensures { IsTrue result ↔ IfSome
        (front_waiting (map (ticket_in (view_in heap.now)) tickets.now))
        (λ t. are_within t.asked (room (view_in heap.now) account) ≡ false) }
{
    let Some(addr) = front_waiting(heap, tickets) else {
        return true;
    };
    let maxima = amounts_in(heap, account, FILE_MAXIMUM);
    let occupied = amounts_in(heap, account, FILE_OCCUPANCY);
    let asked = amounts_at(heap, addr, ticket::ASKED_FILE);
    !are_within(&asked, &minus(&maxima, &occupied))
}

// Whether these tickets make a queue of an account.
fn is_queue(heap: &[u8], account: Acct, tickets: &[Addr]) -> bool
    requires region { IsRegionSize (length heap.now) }
    ensures { IsTrue result ↔ IsQueue (view_in heap.now) account
        (map (ticket_in (view_in heap.now)) tickets.now) }
{
    if !are_below(heap, tickets) {
        return false;
    }
    if !are_in_order(heap, tickets) {
        return false;
    }
    if !are_left_rightly(heap, tickets) {
        return false;
    }
    is_barred(heap, account, tickets)
}

// Whether the queue of an account keeps its law, where these are the numbers that its own must differ from. Its own come behind them.
fn is_lawful(
    alloc: Global,
    heap: &[u8],
    account: Acct,
    numbers: &mut Vec<u64>,
) -> Result<bool, NoMemory>
    requires region { IsRegionSize (length heap.now) }
    requires before { numbers.old.items ≡ numbers_before (view_in heap.now)
        (length heap.now / WORD) account }
    ensures lawful { IfOk result (λ yes. IsTrue yes
        ↔ IsLawful (view_in heap.now) (length heap.now / WORD) account) }
    ensures numbers { OnOk result (numbers.new.items
        ≡ numbers_up_to (view_in heap.now) (length heap.now / WORD) account) }
{
    let tickets = members(alloc, heap, Owner::Queue(account))?;
    push_numbers(numbers, heap, &tickets)?;
    if !are_distinct(alloc, numbers)? {
        return Ok(false);
    }
    Ok(is_queue(heap, account, &tickets))
}

// Where the queue of an account is told wrong.
fn queue_place(account: Acct) -> u64
    ensures { result ≡ queue_place account }
{
    WORD * (account_word(account) + FIRST_TICKET)
}

/// The place of the control word with the first ticket of the first queue that doesn't keep the law, the inbound one first; `None`
/// where both do. No two numbers are the same, over both, and each is below the next one; granted tickets are first, and those that
/// wait go by coarse priority, by fine priority and by number; what is left of a ticket is at most what it asks, and nothing while it
/// waits; and the first one that waits asks of some space more than the room.
pub fn wrong_queue(alloc: Global, heap: &[u8]) -> Result<Option<u64>, NoMemory>
    requires region { IsRegionSize (length heap.now) }
    ensures { IfOk result (λ place. MatchOption place (AreLawfulIn heap.now)
        (IsWrongQueueIn heap.now)) }
{
    let mut numbers = Vec::new(alloc);
    if !is_lawful(alloc, heap, Acct::Inbound, &mut numbers)? {
        return Ok(Some(queue_place(Acct::Inbound)));
    }
    if !is_lawful(alloc, heap, Acct::Outbound, &mut numbers)? {
        return Ok(Some(queue_place(Acct::Outbound)));
    }
    Ok(None)
}
