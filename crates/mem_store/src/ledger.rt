// The accounts of a world in the making, which can be put back to what they were at the begin.
ghost use Rattle.std.specs.Prelude.{◌≡◌, ◌≤◌, ◌<◌, ◌+◌, OnErr, OnOk, true, false, length, remove};
ghost use Rattle.sdr_model.specs.Accounts.{account_of, fresh_accounts, most_amount, tickets_of, with_account, with_ticket, with_tickets};
ghost use Rattle.sdr_model.specs.Queue.{enqueued};
ghost use Rattle.mem_parts.specs.Rooms.{served_in};

use mem_parts::queue::{enqueue, serve};
use sdr_base::{Acct, Amounts, NoMemory};
use sdr_model::{Accounts, Pending, Ticket};
use std::alloc::Global;
use std::marker::Model;

/// Both accounts, now and at the begin of the open transaction. They are copied once in a transaction,
/// before they are first changed.
#[derive(Drop)]
pub struct Ledger {
    alloc: Global,
    current: Accounts,
    /// The accounts at the begin, where they were copied since.
    before: Option<Accounts>,
}

impl Model for Ledger {
    ghost use Rattle.std.specs.Prelude.{is_some, unwrap_or};
    ghost use Rattle.mem_store.specs.Ledger as ledger;

    ghost Value = { ledger.Ledger };

    ghost coded = { ledger.coded_ledger };

    ghost view = { λ s. record { begun = unwrap_or s.before s.current; now = s.current; saved = is_some s.before } };
}

impl Ledger {
    /// Accounts without tickets, whose heap space has this maximum. It takes no memory.
    pub fn new(alloc: Global, heap: u64) -> Ledger
        ensures { let fresh = fresh_accounts heap in result ≡ record { begun = fresh; now = fresh; saved = false } }
    {
        Ledger {
            alloc,
            current: Accounts::fresh(alloc, heap),
            before: None,
        }
    }

    /// The accounts now.
    pub fn now(&self) -> &Accounts
        ensures { result.now ≡ self.now.now }
    {
        &self.current
    }

    /// The accounts at the begin.
    pub fn begun(&self) -> &Accounts
        ensures { result.now ≡ self.now.begun }
    {
        match &self.before {
            Some(accounts) => accounts,
            None => &self.current,
        }
    }

    /// Copies the accounts, so that they may be changed. Want of memory leaves all as before.
    pub fn save(&mut self) -> Result<(), NoMemory>
        ensures saved { OnOk result (self.new ≡ record self.old { saved = true }) }
        ensures same { OnErr result (self.new ≡ self.old) }
    {
        if self.before.is_none() {
            self.before = Some(self.current.copied(self.alloc)?);
        }
        Ok(())
    }

    /// Serves the queue of an account in this room.
    pub fn serve(&mut self, acct: Acct, room: Amounts)
        requires saved { self.old.saved ≡ true }
        ensures { self.new ≡ record self.old {
          now = with_tickets self.old.now acct (served_in room (tickets_of self.old.now acct));
        } }
    {
        let mut account = self.current.take(self.alloc, acct);
        serve(&mut account.tickets, room);
        self.current.put(acct, account);
    }

    /// Puts another ticket in the place of one.
    pub fn put_ticket(&mut self, pending: &Pending, ticket: Ticket)
        requires saved { self.old.saved ≡ true }
        requires there { pending.now.place < length (tickets_of self.old.now pending.now.acct) }
        ensures { self.new ≡ record self.old { now = with_ticket self.old.now pending.now ticket } }
    {
        let mut account = self.current.take(self.alloc, pending.acct);
        account.tickets.set(pending.place, ticket);
        self.current.put(pending.acct, account);
    }

    /// Takes a ticket out of its queue.
    pub fn remove_ticket(&mut self, pending: &Pending)
        requires saved { self.old.saved ≡ true }
        requires there { pending.now.place < length (tickets_of self.old.now pending.now.acct) }
        ensures { self.new ≡ record self.old {
          now = with_tickets self.old.now pending.now.acct
              (remove (tickets_of self.old.now pending.now.acct) pending.now.place);
        } }
    {
        let mut account = self.current.take(self.alloc, pending.acct);
        account.tickets.remove(pending.place);
        self.current.put(pending.acct, account);
    }

    /// A new ticket, of the next number, enters the queue of an account. Want of memory leaves all as before.
    pub fn enqueue(&mut self, acct: Acct, ticket: Ticket) -> Result<(), NoMemory>
        requires saved { self.old.saved ≡ true }
        requires number { ticket.number < most_amount }
        ensures ok { OnOk result (self.new ≡ record self.old {
          now = record (with_tickets self.old.now acct (enqueued (tickets_of self.old.now acct) ticket)) { next = ticket.number + 1 };
        }) }
        ensures same { OnErr result (self.new ≡ self.old) }
    {
        let mut account = self.current.take(self.alloc, acct);
        let entered = enqueue(&mut account.tickets, ticket);
        self.current.put(acct, account);
        entered?;
        self.current.next = ticket.number + 1;
        Ok(())
    }

    /// Sets the maxima of an account.
    pub fn set_maxima(&mut self, acct: Acct, maxima: Amounts)
        requires saved { self.old.saved ≡ true }
        ensures { self.new ≡ record self.old {
          now = with_account self.old.now acct (record (account_of self.old.now acct) { maxima = maxima });
        } }
    {
        let mut account = self.current.take(self.alloc, acct);
        account.maxima = maxima;
        self.current.put(acct, account);
    }

    /// Takes the accounts now as those to begin from.
    pub fn keep(&mut self)
        ensures { self.new ≡ record { begun = self.old.now; now = self.old.now; saved = false } }
    {
        self.before = None;
    }

    /// Rolls the accounts back to what they were at the begin.
    pub fn roll_back(&mut self)
        ensures { self.new ≡ record { begun = self.old.begun; now = self.old.begun; saved = false } }
    {
        if let Some(accounts) = self.before.take() {
            self.current = accounts;
        }
    }
}
