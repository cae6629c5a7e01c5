// The walk along an account's queue.
ghost use Rattle.std.specs.Prelude.{◌≡◌, IfOk, IfErr};
ghost use Rattle.sdr_base.specs.Moves.{KeepsSome};
ghost use Rattle.sdr_base.specs.Objects.{OnlyFault};
ghost use Rattle.sdr_base.specs.Works.{Looks};
ghost use Rattle.sdr_model.specs.Queue.{stands_before};
ghost use Rattle.zco_acct.specs.Kept.{SomeQueue};
ghost use Rattle.zco_acct.specs.Walks.{Searches, is_sought};

use crate::account::first_word;
use crate::ticket::read_ticket;
use sdr_base::{Acct, Addr, Objects, Stop};
use sdr_model::Ticket;

/// As many blocks in use as the largest heap may have, one for 16 bytes.
pub const MOST_TICKETS: u64 = 1_048_576;

/// Which ticket of a queue is looked for.
#[derive(Clone, Copy)]
pub enum Sought {
    /// The first of a number.
    Number(u64),
    /// The first that waits.
    Waiting,
    /// The first that a new ticket goes before.
    Behind(Ticket),
}

/// A ticket of a queue, with the addresses of those before and behind it, 0 for none.
#[derive(Clone, Copy)]
pub struct Found {
    pub previous: Addr,
    pub ticket: Ticket,
    pub next: Addr,
}

// Whether a ticket stands before another that comes to wait.
fn stands_before(ticket: &Ticket, new: &Ticket) -> bool
    ensures { result ≡ stands_before ticket.now new.now }
{
    ticket.granted
        || ticket.coarse > new.coarse
        || (ticket.coarse == new.coarse && ticket.fine >= new.fine)
}

impl Sought {
    // Whether it is this ticket.
    fn passes(&self, ticket: &Ticket) -> bool
        ensures { result ≡ is_sought self.now ticket.now }
    {
        match self {
            Sought::Number(number) => ticket.number == *number,
            Sought::Waiting => !ticket.granted,
            Sought::Behind(new) => !stands_before(ticket, new),
        }
    }
}

/// The first ticket in the queue of an account that is sought, where there is one. It is linear in
/// the queue.
pub fn search<O: Objects>(o: &mut O, acct: Acct, sought: &Sought) -> Result<Option<Found>, Stop>
    requires kept { KeepsSome (O.keeps o.old) }
    requires queue { SomeQueue (O.heap o.old) acct }
    ensures found { IfOk result (Searches (O.heap o.old) acct (is_sought sought.now)) }
    ensures refused { IfErr result OnlyFault }
    ensures looks { Looks O.HasHeap o.old o.new result }
{
    let mut previous = 0;
    let mut addr = o.root(first_word(acct))?;
    for i in 0..MOST_TICKETS {
        if addr == 0 {
            return Ok(None);
        }
        let here = read_ticket(o, addr)?;
        if sought.passes(&here.ticket) {
            return Ok(Some(Found {
                previous,
                ticket: here.ticket,
                next: here.next,
            }));
        }
        previous = addr;
        addr = here.next;
    }
    Ok(None)
}
