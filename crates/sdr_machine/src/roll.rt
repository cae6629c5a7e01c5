// The roll of a lock: its daemons, and the numbers that they have drawn.
ghost use Rattle.std.specs.Prelude.{◌≡◌, ◌==◌, ◌<◌, ◌+◌, ◌^◌, IfOk, IfSome, length, position};
ghost use Rattle.sdr_machine.specs.Roll.{daemon_of, first_roll, least_held, lesser_of, newcomer, put_daemon, served_number, with_daemon, with_drawn, with_fault, with_number};
ghost use Rattle.sdr_machine.specs.Core.{has_left};
ghost use Rattle.sdr_machine.specs.Leaving.{holds_number, served_daemon};

use crate::{Daemon, Holding, Nesting};
use sdr_base::NoMemory;
use std::alloc::Global;
use std::marker::Model;

/// The daemons of a lock, how many lock numbers they have drawn, and whether the disk has failed. It takes
/// no memory once it is made.
#[derive(Drop)]
pub struct Roll {
    daemons: Vec<Daemon>,
    drawn: u64,
    /// The disk's moment as the event returned that met a disk fault.
    failed: Option<u64>,
}

impl Model for Roll {
    ghost use Rattle.sdr_machine.specs.Roll as roll;
    ghost use Rattle.sdr_machine.specs.CodedRoll.{coded_roll};

    ghost Value = { roll.Roll };

    ghost coded = { coded_roll };

    ghost view = { λ s. record { daemons = s.daemons.items; drawn = s.drawn; failed = s.failed } };
}

// A daemon that hasn't come yet.
fn newcomer(id: u8) -> Daemon
    ensures { result ≡ newcomer id }
{
    Daemon {
        id,
        left: false,
        waits: None,
        holds: None,
    }
}

// The lesser of a number that may be held and another, which is 0 where there is none.
fn lesser_of(held: Option<Holding>, number: u64) -> u64
    ensures { result ≡ lesser_of held number }
{
    match held {
        None => number,
        Some(holding) if number == 0 => holding.number,
        Some(holding) => holding.number.min(number),
    }
}

// The least number that one of these holds, 0 where none does.
fn least_held(daemons: &[Daemon]) -> u64
    ensures { result ≡ least_held daemons.now }
{
    match daemons {
        [] => 0,
        [first, others @ ..] => lesser_of(first.holds, least_held(others)),
    }
}

// The place of the daemon of a number among these.
fn place_of(daemons: &[Daemon], id: u8) -> Option<usize>
    ensures value { result ≡ position (λ d. d.id == id) daemons.now }
    ensures within { IfSome result (λ place. place < length daemons.now) }
{
    daemons.iter().position(|daemon| daemon.id == id)
}

// Puts a daemon in its place.
fn put(daemons: &mut [Daemon], daemon: Daemon)
    ensures { daemons.new ≡ put_daemon daemons.old daemon }
{
    if let Some(place) = place_of(daemons, daemon.id) {
        daemons[place] = daemon;
    }
}

// Whether the daemon holds this number.
fn holds(daemon: &Daemon, number: u64) -> bool
    ensures { result ≡ holds_number number daemon.now }
{
    match daemon.holds {
        None => false,
        Some(holding) => holding.number == number,
    }
}

impl Roll {
    /// No number drawn.
    pub fn new(alloc: Global, ids: &[u8]) -> Result<Roll, NoMemory>
        ensures { IfOk result (λ roll. roll ≡ first_roll ids.now) }
    {
        let daemons = ids.iter().copied().map(newcomer).collect(alloc)?;
        Ok(Roll {
            daemons,
            drawn: 0,
            failed: None,
        })
    }

    /// The daemons, in the order in which they were handed in.
    pub fn daemons(&self) -> &[Daemon]
        ensures { result.now ≡ self.now.daemons }
    {
        &self.daemons
    }

    /// The disk's moment as it failed.
    pub fn failed(&self) -> Option<u64>
        ensures { result ≡ self.now.failed }
    {
        self.failed
    }

    /// How many numbers were drawn.
    pub fn drawn(&self) -> u64
        ensures { result ≡ self.now.drawn }
    {
        self.drawn
    }

    /// The daemon of a number, if it is one of the lock's.
    pub fn daemon(&self, id: u8) -> Option<Daemon>
        ensures { result ≡ daemon_of self.now id }
    {
        self.daemons.iter().copied().find(|daemon| daemon.id == id)
    }

    /// The number that is served: the least that was drawn and isn't done; 0 where there is none.
    pub fn serving(&self) -> u64
        ensures { result ≡ served_number self.now }
    {
        least_held(&self.daemons)
    }

    /// The daemon whose number is served, if one is held.
    pub fn served(&self) -> Option<Daemon>
        ensures { result ≡ served_daemon self.now }
    {
        let number = self.serving();
        self.daemons
            .iter()
            .copied()
            .find(|daemon| holds(daemon, number))
    }

    /// Whether the daemon of a number has left.
    pub fn has_left(&self, id: u8) -> bool
        ensures { result ≡ has_left self.now id }
    {
        match self.daemon(id) {
            None => false,
            Some(daemon) => daemon.left,
        }
    }

    /// Puts a daemon in its place.
    pub fn put(&mut self, daemon: Daemon)
        ensures { self.new ≡ with_daemon self.old daemon }
    {
        put(&mut self.daemons, daemon);
    }

    /// A daemon draws the next number, and is at this depth.
    pub fn draw(&mut self, daemon: Daemon, depth: u64) -> u64
        requires { self.old.drawn < 2 ^ 60 }
        ensures number { result ≡ self.old.drawn + 1 }
        ensures drawn { self.new ≡ with_number self.old daemon depth }
    {
        let number = self.drawn + 1;
        let nesting = Nesting::at(depth);
        let holds = Some(Holding { number, nesting });
        self.put(Daemon { holds, ..daemon });
        self.drawn = number;
        number
    }

    /// A number is drawn and done.
    pub fn draw_done(&mut self)
        requires { self.old.drawn < 2 ^ 60 }
        ensures { self.new ≡ with_drawn self.old }
    {
        self.drawn += 1;
    }

    /// The disk has failed at this moment.
    pub fn fail(&mut self, moment: u64)
        ensures { self.new ≡ with_fault self.old moment }
    {
        self.failed = Some(moment);
    }
}
