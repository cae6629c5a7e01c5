// Accounts of space, and the tickets in their queues.
ghost use Rattle.std.specs.Prelude.{◌≡◌, ◌<◌, ◌==◌, IfOk, IfSome, length, map, position};
ghost use Rattle.sdr_model.specs.Accounts.{IsInPlace, account_of, unused_account, fresh_accounts, pending_among, pending_in, block_for_ticket, ticket_blocks, with_account};
ghost use Rattle.sdr_model.specs.Things.{block_among};
ghost use Rattle.sdr_model.specs.declared.accounts.Account.{Account};

use crate::UsedBlock;
use sdr_base::{Acct, Addr, Amounts, Items, Kind, NoMemory};
use std::alloc::Global;
use std::mem;

/// The most that an account may allow of a space, the number of a ticket may be, and a ticket may ask.
pub const MOST_AMOUNT: u64 = 1 << 40;

/// A request for space.
#[derive(Clone, Copy)]
pub struct Ticket {
    /// The ticket's own address.
    pub block: Addr,
    pub number: u64,
    /// The greater goes first.
    pub coarse: u8,
    /// The greater goes first, among tickets of one coarse priority.
    pub fine: u8,
    pub asked: Amounts,
    /// What is left of its grant: nothing while it waits.
    pub left: Amounts,
    pub granted: bool,
}

/// A ticket, the account in whose queue it stands, and its place there, from 0.
#[derive(Clone, Copy)]
pub struct Pending {
    pub acct: Acct,
    pub place: usize,
    pub ticket: Ticket,
}

/// An account of space.
#[derive(Drop)]
pub struct Account {
    /// In queue order: those granted, and then those that wait.
    pub tickets: Items<Ticket>,
    /// What may be occupied at most.
    pub maxima: Amounts,
}

/// Both accounts.
#[derive(Drop)]
pub struct Accounts {
    pub inbound: Account,
    pub outbound: Account,
    /// The number of the next ticket.
    pub next: u64,
}

impl Ticket {
    fn own_block(&self) -> UsedBlock
        ensures { result ≡ block_for_ticket self.now }
    {
        UsedBlock {
            addr: self.block,
            kind: Kind::Ticket,
            bytes: 96,
        }
    }
}

// The place of the ticket of a number in a queue.
fn place_of(tickets: &[Ticket], number: u64) -> Option<usize>
    ensures { result ≡ position (λ t. t.number == number) tickets.now }
{
    tickets.iter().position(|ticket| ticket.number == number)
}

impl Account {
    /// An account without tickets, whose heap space has this maximum. It takes no memory.
    fn fresh(alloc: Global, heap: u64) -> Account
        ensures { result ≡ unused_account heap }
    {
        Account {
            tickets: Items::new(alloc),
            maxima: Amounts {
                file: MOST_AMOUNT,
                bulk: MOST_AMOUNT,
                heap,
            },
        }
    }

    // The block of the ticket at an address.
    fn block(&self, addr: Addr) -> Option<UsedBlock>
        ensures { result ≡ block_among addr (map block_for_ticket self.now.tickets) }
    {
        for ticket in self.tickets.as_slice() {
            if ticket.block == addr {
                return Some(ticket.own_block());
            }
        }
        None
    }

    fn copied(&self, alloc: Global) -> Result<Account, NoMemory>
        ensures { IfOk result (λ copy. copy ≡ self.now) }
    {
        Ok(Account {
            tickets: Items::copied(alloc, self.tickets.as_slice())?,
            maxima: self.maxima,
        })
    }
}

impl Accounts {
    /// Accounts without tickets, whose heap space has this maximum. It takes no memory.
    pub fn fresh(alloc: Global, heap: u64) -> Accounts
        ensures { result ≡ fresh_accounts heap }
    {
        Accounts {
            inbound: Account::fresh(alloc, heap),
            outbound: Account::fresh(alloc, heap),
            next: 1,
        }
    }

    /// The block of the ticket at an address, in either account.
    pub fn block(&self, addr: Addr) -> Option<UsedBlock>
        ensures { result ≡ block_among addr (ticket_blocks self.now) }
    {
        match self.inbound.block(addr) {
            Some(block) => Some(block),
            None => self.outbound.block(addr),
        }
    }

    /// One of both.
    pub fn account(&self, acct: Acct) -> &Account
        ensures { result.now ≡ account_of self.now acct }
    {
        match acct {
            Acct::Inbound => &self.inbound,
            Acct::Outbound => &self.outbound,
        }
    }

    /// Takes out one of both, to be changed and put again.
    pub fn take(&mut self, alloc: Global, acct: Acct) -> Account
        ensures taken { result ≡ account_of self.old acct }
        ensures again { (account : Account) → with_account self.new acct account
            ≡ with_account self.old acct account }
    {
        let none = Account::fresh(alloc, 0);
        match acct {
            Acct::Inbound => mem::replace(&mut self.inbound, none),
            Acct::Outbound => mem::replace(&mut self.outbound, none),
        }
    }

    /// Puts one in its place.
    pub fn put(&mut self, acct: Acct, account: Account)
        ensures { self.new ≡ with_account self.old acct account }
    {
        match acct {
            Acct::Inbound => self.inbound = account,
            Acct::Outbound => self.outbound = account,
        }
    }

    /// The ticket of a number, in the queue of an account. It is linear in the queue.
    pub fn pending_in(&self, acct: Acct, number: u64) -> Option<Pending>
        ensures pending { result ≡ pending_in self.now acct number }
        ensures stands { IfSome result (IsInPlace self.now) }
    {
        let tickets = self.account(acct).tickets.as_slice();
        let place = place_of(tickets, number)?;
        let ticket = *tickets.get(place)?;
        Some(Pending {
            acct,
            place,
            ticket,
        })
    }

    /// The ticket of a number, in the queue of either account. It is linear in both.
    pub fn pending(&self, number: u64) -> Option<Pending>
        ensures pending { result ≡ pending_among self.now number }
        ensures stands { IfSome result (IsInPlace self.now) }
    {
        match self.pending_in(Acct::Inbound, number) {
            Some(pending) => Some(pending),
            None => self.pending_in(Acct::Outbound, number),
        }
    }

    /// A copy of both.
    pub fn copied(&self, alloc: Global) -> Result<Accounts, NoMemory>
        ensures { IfOk result (λ copy. copy ≡ self.now) }
    {
        Ok(Accounts {
            inbound: self.inbound.copied(alloc)?,
            outbound: self.outbound.copied(alloc)?,
            next: self.next,
        })
    }
}
