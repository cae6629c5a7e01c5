// How deep a transaction is nested, and what has become of it.
ghost use Rattle.std.specs.Prelude.{◌≡◌, ◌<◌};
ghost use Rattle.sdr_machine.specs.Closing.{close_of};

use sdr_base::{Reason, Refusal};
use sdr_model::{Answer, Call, Close, Event, Reply};

/// Transactions are nested to this depth at most.
const DEEPEST: u64 = 64;

/// A transaction from its first begin on: how deep it is nested, and how it may close.
#[derive(Clone, Copy)]
pub struct Nesting {
    /// 1 from the first begin on, 0 where there was none yet.
    pub depth: u64,
    /// Why it can only be cancelled, if it is doomed.
    pub doom: Option<Reason>,
    /// Whether a changing call was answered in it.
    pub modified: bool,
}

/// The answer that is this refusal.
pub fn refused(refusal: Refusal) -> Answer
    ensures { result ≡ Answer.Reply (Reply.Refused refusal) }
{
    Answer::Reply(Reply::Refused(refusal))
}

// How an event closes a transaction that isn't doomed.
fn close_of(event: &Event, modified: bool) -> Close
    ensures { result ≡ close_of event.now modified }
{
    match event {
        Event::Cancel => Close::Cancelled(Reason::Asked),
        Event::Exit if modified => Close::Cancelled(Reason::Modified),
        Event::Exit => Close::Exited,
        Event::Leaves(_) => Close::Cancelled(Reason::Left),
        _ => Close::Ended,
    }
}

impl Nesting {
    ghost use Rattle.sdr_machine.specs.Nesting.{cancelled, closing, deepened, doomed_for, ended, nested, noted, unbegun};

    /// No transaction has begun.
    pub fn none() -> Nesting
        ensures { result ≡ unbegun }
    {
        Nesting::at(0)
    }

    /// At this depth, with nothing done.
    pub fn at(depth: u64) -> Nesting
        ensures { result ≡ nested depth }
    {
        Nesting {
            depth,
            doom: None,
            modified: false,
        }
    }

    // Only to be cancelled. The first reason is kept.
    fn doom(&mut self, reason: Reason)
        ensures { self.new ≡ doomed_for reason self.old }
    {
        self.doom = Some(self.doom.unwrap_or(reason));
    }

    /// An inner begin. It answers the depth, or `TooDeep` at the greatest, which dooms.
    pub fn begin(&mut self) -> Answer
        ensures answer { result ≡ (deepened self.old).answer }
        ensures after { self.new ≡ (deepened self.old).after }
    {
        if self.depth >= DEEPEST {
            let refusal = Refusal::TooDeep;
            self.doom(Reason::Refused(refusal.number()));
            return refused(refusal);
        }
        self.depth += 1;
        Answer::Depth { depth: self.depth }
    }

    /// An inner end or exit. It answers the depth that is left.
    pub fn end(&mut self) -> Answer
        requires { 0 < self.old.depth }
        ensures answer { result ≡ (ended self.old).answer }
        ensures after { self.new ≡ (ended self.old).after }
    {
        self.depth -= 1;
        Answer::Depth { depth: self.depth }
    }

    /// An inner cancel, which dooms. It answers the depth that is left.
    pub fn cancel(&mut self) -> Answer
        requires { 0 < self.old.depth }
        ensures answer { result ≡ (cancelled self.old).answer }
        ensures after { self.new ≡ (cancelled self.old).after }
    {
        self.depth -= 1;
        self.doom(Reason::Inner);
        Answer::Depth { depth: self.depth }
    }

    /// What a call that was answered so makes of its transaction: a refused change dooms it.
    pub fn note(&mut self, call: &Call, reply: Reply)
        ensures { self.new ≡ noted call.now reply self.old }
    {
        if call.is_reading() {
            return;
        }
        match reply {
            Reply::Refused(refusal) => self.doom(Reason::Refused(refusal.number())),
            _ => self.modified = true,
        }
    }

    /// How an outermost end, cancel or exit, or a leave, closes it.
    pub fn closing(&self, event: &Event) -> Close
        ensures { result ≡ closing self.now event.now }
    {
        match self.doom {
            None => close_of(event, self.modified),
            Some(reason) => Close::Cancelled(reason),
        }
    }
}
