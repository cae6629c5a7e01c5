// A daemon, as a lock knows it.
ghost use Rattle.std.specs.Prelude.{◌≡◌};
ghost use Rattle.sdr_machine.specs.Roll.{when_done, after_leave, when_passed_over, after_wait, at_nesting, waits_for};

use crate::Nesting;

/// A lock number that a daemon holds, and what its transaction has come to.
#[derive(Clone, Copy)]
pub struct Holding {
    /// The lock number, from 1.
    pub number: u64,
    pub nesting: Nesting,
}

/// A daemon, as a lock knows it.
#[derive(Clone, Copy)]
pub struct Daemon {
    /// The daemon's number.
    pub id: u8,
    /// Whether it has left. It may come no more.
    pub left: bool,
    /// The ticket of its last entry, where that is a wait.
    pub waits: Option<u64>,
    /// The lock number that it holds.
    pub holds: Option<Holding>,
}

impl Daemon {
    /// Come to this nesting under its number.
    pub fn at_nesting(self, holding: Holding, nesting: Nesting) -> Daemon
        ensures { result ≡ at_nesting self holding nesting }
    {
        let holds = Some(Holding { nesting, ..holding });
        Daemon { holds, ..self }
    }

    /// The daemon once a transaction, an awarded look or a stalled look of it stands in the journal: it holds
    /// no number and waits for no ticket.
    pub fn when_done(self) -> Daemon
        ensures { result ≡ when_done self }
    {
        Daemon {
            waits: None,
            holds: None,
            ..self
        }
    }

    /// After a look at a ticket that waits.
    pub fn after_wait(self, ticket: u64) -> Daemon
        ensures { result ≡ after_wait self ticket }
    {
        Daemon {
            waits: Some(ticket),
            holds: None,
            ..self
        }
    }

    /// The daemon without its number: its look was refused, and stands in no entry.
    pub fn when_passed_over(self) -> Daemon
        ensures { result ≡ when_passed_over self }
    {
        Daemon {
            holds: None,
            ..self
        }
    }

    /// After its leave.
    pub fn after_leave(self) -> Daemon
        ensures { result ≡ after_leave self }
    {
        Daemon {
            left: true,
            waits: None,
            holds: None,
            ..self
        }
    }

    /// Whether its last entry is a wait for this ticket.
    pub fn waits_for(&self, ticket: u64) -> bool
        ensures { result ≡ waits_for self.now ticket }
    {
        match self.waits {
            None => false,
            Some(other) => other == ticket,
        }
    }
}
