// What a world in the making charges its accounts, and grants.
ghost use Rattle.std.specs.Prelude.{◌≡◌, ◌<◌, ◌+◌, IfErr, IfOk, IfSome, OnErr, OnOk, length, remove, true};
ghost use Rattle.sdr_base.specs.declared.account.Amounts.{Amounts as GhostAmounts};
ghost use Rattle.sdr_model.specs.Accounts.{IsInPlace, account_of, most_amount, tickets_of, with_account, with_tickets};
ghost use Rattle.sdr_model.specs.Charging.{with_covered};
ghost use Rattle.sdr_model.specs.Queue.{enqueued, with_served};
ghost use Rattle.mem_world.specs.Allowed.{IsGrantOf, RefusesCharge, refusal_of, with_back};
ghost use Rattle.mem_world.specs.Calling.{IsBound};

use crate::DraftWorld;
use mem_parts::refusing::refusal;
use sdr_base::{Acct, Amounts, NoMemory, Refusal};
use sdr_model::amounts::minus;
use sdr_model::{Accounts, Pending, Ticket};

impl DraftWorld {
    /// The accounts now.
    pub fn accounts(&self) -> &Accounts
        ensures { result.now ≡ self.now.now.accounts }
    {
        self.accounts.now()
    }

    /// Copies the accounts, so that they may be changed. Want of memory leaves the world as before.
    pub fn save_accounts(&mut self) -> Result<(), NoMemory>
        ensures saved { OnOk result (self.new ≡ record self.old { saved = true }) }
        ensures same { OnErr result (self.new ≡ self.old) }
    {
        self.accounts.save()
    }

    /// Serves the queue of an account. It is linear in the queue.
    pub fn serve(&mut self, acct: Acct)
        requires saved { self.old.saved ≡ true }
        ensures { self.new ≡ record self.old { now = with_served self.old.now acct } }
    {
        let room = self.room(acct);
        self.accounts.serve(acct, room);
    }

    /// The ticket that a charge names: it is the account's, and granted. 0 names none.
    pub fn grant_of(&self, acct: Acct, number: u64) -> Result<Option<Pending>, Refusal>
        ensures granted { IfOk result (IsGrantOf self.now.now.accounts acct number) }
        ensures stands { IfOk result (λ p. IfSome p (IsInPlace self.now.now.accounts)) }
        ensures refused { IfErr result (λ refusal. (amounts : GhostAmounts) →
            RefusesCharge self.now.now acct number amounts refusal) }
    {
        if number == 0 {
            return Ok(None);
        }
        let Some(pending) = self.accounts.now().pending_in(acct, number) else {
            return Err(Refusal::BadTicket { ticket: number });
        };
        if !pending.ticket.granted {
            return Err(Refusal::NotAwarded { ticket: number });
        }
        Ok(Some(pending))
    }

    /// Why an account refuses amounts that no grant covers.
    pub fn refusal(&mut self, acct: Acct, uncovered: &Amounts) -> Option<Refusal>
        requires bound { IsBound self.old.now }
        ensures value { result ≡ refusal_of self.old.now acct uncovered.now }
        ensures same { self.new ≡ self.old }
    {
        let occupied = self.occupied(acct);
        let account = self.accounts.now().account(acct);
        refusal(account, &occupied, uncovered)
    }

    /// The grant of a ticket covers of these amounts what it can.
    pub fn use_grant(&mut self, granted: Option<Pending>, amounts: &Amounts)
        requires saved { self.old.saved ≡ true }
        requires stands { IfSome granted (IsInPlace self.old.now.accounts) }
        ensures { self.new ≡ record self.old { now = with_covered self.old.now granted amounts.now } }
    {
        if let Some(pending) = granted {
            let left = minus(&pending.ticket.left, amounts);
            let ticket = Ticket {
                left,
                ..pending.ticket
            };
            self.accounts.put_ticket(&pending, ticket);
        }
    }

    /// Gives back to the grant of a ticket what a charge used of it, where the call came to nothing.
    pub fn take_back(&mut self, granted: Option<Pending>)
        requires saved { self.old.saved ≡ true }
        requires stands { IfSome granted (λ p. p.place < length (tickets_of self.old.now.accounts p.acct)) }
        ensures { self.new ≡ record self.old { now = with_back self.old.now granted } }
    {
        if let Some(pending) = granted {
            self.accounts.put_ticket(&pending, pending.ticket);
        }
    }

    /// Sets the maxima of an account.
    pub fn put_maxima(&mut self, acct: Acct, maxima: Amounts)
        requires saved { self.old.saved ≡ true }
        ensures { let accounts = self.old.now.accounts in self.new ≡ record self.old {
          now = record self.old.now {
            accounts = with_account accounts acct (record (account_of accounts acct) { maxima = maxima });
          };
        } }
    {
        self.accounts.set_maxima(acct, maxima);
    }

    /// A new ticket enters the queue of an account. Want of memory leaves the world as before.
    pub fn enter(&mut self, acct: Acct, ticket: Ticket) -> Result<(), NoMemory>
        requires saved { self.old.saved ≡ true }
        requires number { ticket.number < most_amount }
        ensures entered { OnOk result (let accounts = self.old.now.accounts in self.new ≡ record self.old {
          now = record self.old.now {
            accounts = record (with_tickets accounts acct (enqueued (tickets_of accounts acct) ticket)) { next = ticket.number + 1 };
          };
        }) }
        ensures same { OnErr result (self.new ≡ self.old) }
    {
        self.accounts.enqueue(acct, ticket)
    }

    /// A ticket goes out of its queue.
    pub fn drop_ticket(&mut self, pending: &Pending)
        requires saved { self.old.saved ≡ true }
        requires stands { IsInPlace self.old.now.accounts pending.now }
        ensures { let p = pending.now in let accounts = self.old.now.accounts in self.new ≡ record self.old {
          now = record self.old.now {
            accounts = with_tickets accounts p.acct (remove (tickets_of accounts p.acct) p.place);
          };
        } }
    {
        self.accounts.remove_ticket(pending);
    }
}
