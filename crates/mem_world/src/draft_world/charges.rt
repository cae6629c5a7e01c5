// What is charged and occupied in a world in the making.
ghost use Rattle.std.specs.Prelude.{◌≡◌, ◌≤◌, ◌^◌};
ghost use Rattle.mem_parts.specs.Capped.{capped_by};
ghost use Rattle.mem_store.specs.Charged.{is_used};
ghost use Rattle.sdr_model.specs.Amounts.{amounts_by};
ghost use Rattle.sdr_model.specs.Charges.{occupancy, rooms, use_charge};

use crate::DraftWorld;
use mem_parts::amounts::{capped_plus, room_beside};
use mem_parts::charges::{bytes_charge, heap_charge};
use mem_parts::queue::left;
use sdr_base::{Acct, Addr, Amounts};
use sdr_model::ZcoSource;

impl DraftWorld {
    /// Whether an extent of an account's objects names the source at an address.
    pub fn is_used(&self, source: Addr, acct: Acct) -> bool
        ensures { result ≡ is_used self.now.now source acct }
    {
        self.things.is_used(source, acct)
    }

    /// What one extent more of an account's objects charges that names the source at an address: itself, and the whole source
    /// where none of them names it yet.
    pub fn use_charge(&self, acct: Acct, addr: Addr, source: &ZcoSource) -> Amounts
        requires small { source.now.length ≤ 2 ^ 40 }
        ensures { result ≡ amounts_by (use_charge self.now.now acct addr source.now) }
    {
        if self.is_used(addr, acct) {
            return heap_charge(32);
        }
        bytes_charge(source.subject.space(), source.length)
    }

    /// What is occupied in an account, as far as words hold it. It is linear in the account's queue.
    pub fn occupied(&mut self, acct: Acct) -> Amounts
        ensures value { result ≡ capped_by (occupancy self.old.now acct) }
        ensures same { self.new ≡ self.old }
    {
        let charged = self.things.charged(acct);
        let account = self.accounts.now().account(acct);
        capped_plus(&charged, &left(account.tickets.as_slice()))
    }

    /// The room of an account: what of its maxima isn't occupied. It is linear in the account's queue.
    pub fn room(&mut self, acct: Acct) -> Amounts
        ensures value { result ≡ rooms self.old.now acct }
        ensures same { self.new ≡ self.old }
    {
        let occupied = self.occupied(acct);
        let account = self.accounts.now().account(acct);
        room_beside(&account.maxima, &occupied)
    }
}
