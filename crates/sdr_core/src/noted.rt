// What is noted of an event.
ghost use Rattle.std.specs.Prelude.{◌≡◌, ◌||◌};
ghost use Rattle.sdr_machine.specs.Core.{closed_by, is_failed, is_passed_over, what_added};
ghost use Rattle.sdr_core.specs.Noting.{entry_noted, under_of};

use sdr_base::Refusal;
use sdr_machine::Came;
use sdr_model::{Answer, Close, Entry, Event, Leave, Reply, What};

/// What an event was made under.
#[derive(Clone, Copy)]
pub struct Under {
    /// The lock number of its daemon.
    pub number: u64,
    /// Whether it looks at a ticket for which the daemon waits.
    pub waited: bool,
    /// Whether the daemon has left by it.
    pub left: bool,
}

/// What is noted of an event that was made.
#[derive(Clone, Copy)]
pub struct Noted {
    /// The line of its statement.
    pub line: u64,
    pub daemon: u8,
    pub came: Came,
    /// The disk's moment as it was made.
    pub begun: u64,
    /// The disk's moment as it returned.
    pub done: u64,
    pub under: Under,
}

impl Noted {
    /// The entry of it.
    pub fn entry(&self, what: What) -> Entry
        ensures { result ≡ entry_noted self.now what }
    {
        Entry {
            number: self.under.number,
            daemon: self.daemon,
            begun: self.begun,
            done: self.done,
            what,
        }
    }
}

/// How the answer closes a transaction, if it does.
pub fn closed_by(answer: Answer) -> Option<Close>
    ensures { result ≡ closed_by answer }
{
    match answer {
        Answer::Closed(close) => Some(close),
        Answer::Reply(Reply::DiskFault) => Some(Close::Faulted),
        _ => None,
    }
}

// Whether it is an answer to an event outside every transaction, whatever the event.
fn passes(answer: Answer) -> bool
    ensures { result ≡ is_passed_over Event.Begin answer }
{
    match answer {
        Answer::Awarded | Answer::Waits | Answer::Stalled => true,
        Answer::Reply(Reply::Refused(Refusal::NotBegun)) => true,
        Answer::Reply(Reply::Refused(Refusal::Suspended { .. })) => true,
        _ => false,
    }
}

// Whether a look that was answered so stands in no transaction.
fn passes_look(answer: Answer, ticket: u64) -> bool
    ensures { result ≡ is_passed_over (Event.Look ticket) answer }
{
    match answer {
        Answer::Reply(Reply::Refused(Refusal::BadTicket { .. })) => true,
        _ => passes(answer),
    }
}

// Whether a leave that was answered so stands in no transaction.
fn passes_leave(answer: Answer, leave: Leave) -> bool
    ensures { result ≡ is_passed_over (Event.Leaves leave) answer }
{
    match answer {
        Answer::Reply(Reply::Done) => true,
        _ => passes(answer),
    }
}

// Whether an event that was answered so stands in no transaction, where the disk hasn't failed before.
fn is_passed_over(event: &Event, answer: Answer) -> bool
    ensures { result ≡ is_passed_over event.now answer }
{
    match event {
        Event::Request => true,
        Event::Begin => passes(answer),
        Event::Say(_) => passes(answer),
        Event::End => passes(answer),
        Event::Cancel => passes(answer),
        Event::Exit => passes(answer),
        Event::Look(ticket) => passes_look(answer, *ticket),
        Event::Leaves(leave) => passes_leave(answer, *leave),
    }
}

// Whether the disk had failed before.
fn is_failed(answer: Answer) -> bool
    ensures { result ≡ is_failed answer }
{
    matches!(answer, Answer::Reply(Reply::Failed { .. }))
}

/// Whether an event that was answered so stands in no transaction.
pub fn was_outside(event: &Event, answer: Answer) -> bool
    ensures { result ≡ (is_passed_over event.now answer || is_failed answer) }
{
    is_passed_over(event, answer) || is_failed(answer)
}

// The entry that a look at a ticket adds to the journal, if it adds one.
fn entry_of_look(under: &Under, ticket: u64, answer: Answer) -> Option<What>
    ensures { result ≡ what_added (under_of under.now) (Event.Look ticket) answer }
{
    match answer {
        Answer::Awarded => Some(What::Awarded { ticket }),
        Answer::Stalled => Some(What::Stalled { ticket }),
        Answer::Waits if under.waited => None,
        Answer::Waits => Some(What::Waits { ticket }),
        _ => None,
    }
}

/// The entry that a look or a leave adds to the journal, if it adds one.
pub fn what_added(under: &Under, event: &Event, answer: Answer) -> Option<What>
    ensures { result ≡ what_added (under_of under.now) event.now answer }
{
    match event {
        Event::Look(ticket) => entry_of_look(under, *ticket, answer),
        Event::Leaves(leave) if under.left => Some(What::Leaves { leave: *leave }),
        Event::Leaves(_) => None,
        Event::Request => None,
        Event::Begin => None,
        Event::Say(_) => None,
        Event::End => None,
        Event::Cancel => None,
        Event::Exit => None,
    }
}
