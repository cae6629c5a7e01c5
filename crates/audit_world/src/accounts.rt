// The accounts of a heap.
ghost use Rattle.std.specs.Prelude.{◌≡◌, ◌≤◌, ◌<◌, ◌/◌, All, length, map, IfOk};
ghost use Rattle.sdr_base.specs.Cells.{IsRegionSize};
ghost use Rattle.sdr_base.specs.declared.account.Acct.{Acct};
ghost use Rattle.sdr_base.specs.declared.control.TheConstants.{FILE_MAXIMUM};
ghost use Rattle.sdr_base.specs.declared.line.TheConstants.{WORD};
ghost use Rattle.audit_counts.specs.Queues.{amounts_at, amounts_in, ticket_in};
ghost use Rattle.audit_owners.specs.View.{view_in};
ghost use Rattle.audit_world.specs.Made.{AreShort, IsShort};
ghost use Rattle.audit_world.specs.Told.{account_in, accounts_told};

use audit_owners::{Owner, members, root, word};
use sdr_base::control::{BULK_MAXIMUM, FILE_MAXIMUM, HEAP_MAXIMUM, INBOUND, NEXT_TICKET, OUTBOUND};
use sdr_base::layout::ticket;
use sdr_base::{Acct, Addr, Amounts, Items, NoMemory, WORD};
use sdr_model::{Account, Accounts, Ticket};
use std::alloc::Global;

// The amounts of file, bulk and heap space in three words of the block at an address, from one on.
fn amounts_at(heap: &[u8], addr: Addr, field: u64) -> Amounts
    requires region { IsRegionSize (length heap.now) }
    requires field { field ≤ 16 }
    ensures { result ≡ amounts_at (view_in heap.now) addr field }
{
    Amounts {
        file: word(heap, addr, field),
        bulk: word(heap, addr, field + 1),
        heap: word(heap, addr, field + 2),
    }
}

// The ticket at an address, whose priorities are bytes.
fn ticket_at(heap: &[u8], addr: Addr) -> Ticket
    requires region { IsRegionSize (length heap.now) }
    requires short { IsShort (view_in heap.now) addr }
    ensures { result ≡ ticket_in (view_in heap.now) addr }
{
    Ticket {
        block: addr,
        number: word(heap, addr, ticket::NUMBER),
        coarse: word(heap, addr, ticket::COARSE) as u8,
        fine: word(heap, addr, ticket::FINE) as u8,
        asked: amounts_at(heap, addr, ticket::ASKED_FILE),
        left: amounts_at(heap, addr, ticket::LEFT_FILE),
        granted: word(heap, addr, ticket::GRANTED) == 1,
    }
}

// The tickets at these addresses.
fn tickets_at(alloc: Global, heap: &[u8], addrs: &[Addr]) -> Result<Items<Ticket>, NoMemory>
    requires region { IsRegionSize (length heap.now) }
    requires short { All (IsShort (view_in heap.now)) addrs.now }
    ensures { IfOk result (λ row. row ≡ map (ticket_in (view_in heap.now)) addrs.now) }
{
    let mut row = Items::new(alloc);
    for addr in addrs {
        row.push(ticket_at(heap, *addr))?;
    }
    Ok(row)
}

// The maxima of an account.
fn maxima_in(heap: &[u8], account: Acct) -> Amounts
    requires region { IsRegionSize (length heap.now) }
    ensures { result ≡ amounts_in (view_in heap.now) account FILE_MAXIMUM }
{
    let first = match account {
        Acct::Inbound => INBOUND,
        Acct::Outbound => OUTBOUND,
    };
    Amounts {
        file: root(heap, first + FILE_MAXIMUM),
        bulk: root(heap, first + BULK_MAXIMUM),
        heap: root(heap, first + HEAP_MAXIMUM),
    }
}

// An account, the priorities of whose tickets are bytes.
fn account_in(alloc: Global, heap: &[u8], account: Acct) -> Result<Account, NoMemory>
    requires region { IsRegionSize (length heap.now) }
    requires short { AreShort (view_in heap.now) (length heap.now / WORD) account }
    ensures { IfOk result (λ made. made
        ≡ account_in (view_in heap.now) (length heap.now / WORD) account) }
{
    let addrs = members(alloc, heap, Owner::Queue(account))?;
    Ok(Account {
        tickets: tickets_at(alloc, heap, &addrs)?,
        maxima: maxima_in(heap, account),
    })
}

/// Both accounts, the priorities of whose tickets are bytes, and the number of the next ticket.
pub fn accounts_in(alloc: Global, heap: &[u8]) -> Result<Accounts, NoMemory>
    requires region { IsRegionSize (length heap.now) }
    requires short { (account : Acct) →
        AreShort (view_in heap.now) (length heap.now / WORD) account }
    ensures { IfOk result (λ made. made
        ≡ accounts_told (view_in heap.now) (length heap.now / WORD)) }
{
    Ok(Accounts {
        inbound: account_in(alloc, heap, Acct::Inbound)?,
        outbound: account_in(alloc, heap, Acct::Outbound)?,
        next: root(heap, NEXT_TICKET),
    })
}
