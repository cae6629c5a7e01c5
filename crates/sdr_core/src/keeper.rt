// The keeper of a log.
ghost use Rattle.std.specs.Prelude.{◌≡◌, ◌<◌, ◌≤◌, ◌+◌, ◌*◌, ◌++◌, ◌∷◌, [], ℕ, IfOk, IsSome, OnOk, vec_capacity, vec_len};
ghost use Rattle.sdr_machine.specs.Core.{log_after, said_by, what_of, with_said, without_work, closed_by};
ghost use Rattle.sdr_model.specs.declared.journal.What.TheVariants as whats;
ghost use Rattle.sdr_core.specs.Drafting.{FitsIn, IsBlank};
ghost use Rattle.sdr_core.specs.Keeping.{AreApart, AreSpacious, spoken_of, works_of};
ghost use Rattle.sdr_core.specs.Logging.{AddsEntries, AddsOne, AddsSome, ClosesKept, ClosesWithin, GoesOn, HasRoom, HasRoomFor, PassesUnlessClosing, entries_of, log_of};
ghost use Rattle.sdr_core.specs.Noting.{entry_noted, made_noted, said_noted, under_of};

use crate::noted::{closed_by, was_outside, what_added};
use crate::spoken::{reserve_said, say, take_spoken};
use crate::{Draft, Noted, Spoken};
use sdr_base::{Bytes, Items, Move, NoMemory};
use sdr_model::{Close, Entry, Event, Journal, Leave, Said, What};
use std::alloc::Global;
use std::mem;

/// A transaction has room for so many that are said in it before it takes more memory.
const FIRST_ROOM: usize = 6;

/// What each daemon has said in its open transaction, and the journal so far.
#[derive(Drop)]
pub struct Keeper {
    works: Vec<Spoken>,
    /// Room for the first that are said in the transaction that begins next.
    first: Vec<Said>,
    journal: Vec<Entry>,
    alloc: Global,
}

// What is said by a leave.
fn said_of_leave(alloc: Global, noted: &Noted, leave: Leave) -> Said
    ensures { result ≡ said_noted noted.now (Event.Leaves leave) [] [] }
{
    Said {
        line: noted.line,
        event: Event::Leaves(leave),
        answer: noted.came.answer,
        bytes: Bytes::of(Vec::new(alloc)),
        moves: Items::of(Vec::new(alloc)),
    }
}

impl Keeper {
    /// Nothing said, and no entry. There is room for two entries a daemon.
    pub fn new(alloc: Global, daemons: usize) -> Result<Keeper, NoMemory>
        requires { daemons ≤ 256 }
        ensures log { IfOk result (λ keeper. log_of keeper ≡ record { works = []; journal = [] }) }
        ensures room { IfOk result (λ keeper. HasRoomFor (2 * daemons) keeper) }
    {
        Ok(Keeper {
            works: Vec::with_capacity(alloc, daemons)?,
            first: Vec::new(alloc),
            journal: Vec::with_capacity(alloc, 2 * daemons)?,
            alloc,
        })
    }

    /// Takes the memory for an event of one of so many daemons, and behind it for two leaves of each.
    pub fn reserve(&mut self, daemon: u8, daemons: usize) -> Result<(), NoMemory>
        requires { daemons ≤ 256 }
        ensures same { log_of self.new ≡ log_of self.old }
        ensures ok { OnOk result (HasRoom self.new daemon) }
        ensures leaves { OnOk result (vec_len self.new.journal
            + (1 + 2 * daemons) ≤ vec_capacity self.new.journal) }
        ensures stays { (n : ℕ) → HasRoomFor n self.old → HasRoomFor n self.new }
    {
        self.works.reserve(1)?;
        self.first.clear();
        self.first.reserve(FIRST_ROOM)?;
        self.journal.reserve(1 + 2 * daemons)?;
        reserve_said(&mut self.works, daemon)
    }

    // A daemon has said this too in its transaction, or this first.
    fn keep(&mut self, daemon: u8, said: Said)
        requires room { HasRoom self.old daemon }
        ensures works { works_of self.new.works.items ≡ with_said (works_of self.old.works.items)
            daemon said }
        ensures journal { self.new.journal ≡ self.old.journal }
        ensures spacious { AreSpacious self.old.works.items → AreSpacious self.new.works.items }
    {
        if let Some(said) = say(&mut self.works, daemon, said) {
            let mut first = mem::replace(&mut self.first, Vec::new(self.alloc));
            first.push_reserved(said);
            self.works.push_reserved(Spoken {
                daemon,
                said: first,
            });
        }
    }

    // Adds an entry.
    fn add(&mut self, noted: &Noted, what: What)
        requires room { vec_len self.old.journal < vec_capacity self.old.journal }
        ensures works { self.new.works ≡ self.old.works }
        ensures journal { self.new.journal.items ≡ self.old.journal.items
            ++ entry_noted noted.now what ∷ [] }
        ensures room { AddsOne self.old.journal self.new.journal }
    {
        self.journal.push_reserved(noted.entry(what));
    }

    // All that a daemon has said in its transaction, which is closed.
    fn take_said(&mut self, daemon: u8) -> Vec<Said>
        requires apart { AreApart (works_of self.old.works.items) }
        ensures said { result.items ≡ said_by (works_of self.old.works.items) daemon }
        ensures works { works_of self.new.works.items ≡ without_work (works_of self.old.works.items)
            daemon }
        ensures journal { self.new.journal ≡ self.old.journal }
        ensures spacious { AreSpacious self.old.works.items → AreSpacious self.new.works.items }
    {
        match take_spoken(&mut self.works, daemon) {
            None => Vec::new(self.alloc),
            Some(spoken) => spoken.said,
        }
    }

    // Closes the transaction of a daemon, and adds its entry.
    fn close(&mut self, noted: &Noted, close: Close)
        requires apart { AreApart (works_of self.old.works.items) }
        requires room { vec_len self.old.journal < vec_capacity self.old.journal }
        ensures works { works_of self.new.works.items ≡ without_work (works_of self.old.works.items)
            noted.now.daemon }
        ensures journal { self.new.journal.items ≡ self.old.journal.items
            ++ entry_noted noted.now (whats.Work (said_by (works_of self.old.works.items) noted.now.daemon) close) ∷ [] }
        ensures room { AddsOne self.old.journal self.new.journal }
        ensures spacious { AreSpacious self.old.works.items → AreSpacious self.new.works.items }
    {
        let said = Items::of(self.take_said(noted.daemon));
        self.add(noted, What::Work { said, close });
    }

    // Notes what closes no transaction.
    fn go_on(&mut self, noted: &Noted, said: Said)
        requires room { HasRoom self.old noted.now.daemon }
        requires answer { said.answer ≡ noted.now.came.answer }
        ensures goes_on { GoesOn noted.now said (log_of self.old) (log_of self.new) }
        ensures room { AddsSome self.old.journal self.new.journal }
        ensures spacious { AreSpacious self.old.works.items → AreSpacious self.new.works.items }
    {
        let what = what_added(&noted.under, &said.event, noted.came.answer);
        if !was_outside(&said.event, noted.came.answer) {
            self.keep(noted.daemon, said);
        }
        if let Some(what) = what {
            self.add(noted, what);
        }
    }

    /// Notes an event that was made. It takes no memory.
    pub fn note(&mut self, noted: &Noted, draft: Draft, moves: &[Move], shown: &[u8])
        requires room { HasRoom self.old noted.now.daemon }
        requires blank { IsBlank draft }
        requires fit { FitsIn draft (said_noted noted.now draft.event moves.now shown.now) }
        requires within { ClosesWithin (said_noted noted.now draft.event moves.now shown.now) }
        requires apart { AreApart (works_of self.old.works.items) }
        ensures log { log_of self.new ≡ log_after (under_of noted.now.under) (log_of self.old)
            (made_noted noted.now draft.event moves.now shown.now) }
        ensures apart { AreApart (works_of self.new.works.items) }
        ensures room { AddsSome self.old.journal self.new.journal }
        ensures spacious { AreSpacious self.old.works.items → AreSpacious self.new.works.items }
    {
        let said = draft.said(noted, moves, shown);
        match closed_by(noted.came.answer) {
            None => self.go_on(noted, said),
            Some(close) => {
                self.keep(noted.daemon, said);
                self.close(noted, close);
            }
        }
    }

    // Closes the transaction of a daemon by its leave, and adds its entry.
    fn close_left(&mut self, noted: &Noted, close: Close, said: Said)
        requires apart { AreApart (works_of self.old.works.items) }
        requires room { HasRoomFor 1 self.old }
        requires kept { IsSome (spoken_of self.old.works.items noted.now.daemon) }
        ensures works { works_of self.new.works.items ≡ without_work (works_of self.old.works.items)
            noted.now.daemon }
        ensures journal { self.new.journal.items ≡ self.old.journal.items
            ++ entry_noted noted.now (whats.Work (said_by (works_of self.old.works.items) noted.now.daemon ++ said ∷ []) close) ∷ [] }
        ensures room { AddsOne self.old.journal self.new.journal }
        ensures spacious { AreSpacious self.new.works.items }
    {
        let Some(spoken) = take_spoken(&mut self.works, noted.daemon) else {
            unreachable!();
        };
        let mut all = spoken.said;
        all.push_reserved(said);
        let said = Items::of(all);
        self.add(noted, What::Work { said, close });
    }

    /// Notes a leave that was made. It takes no memory.
    pub fn note_leave(&mut self, noted: &Noted, event: &Event, leave: Leave)
        requires leaves { event.now ≡ Event.Leaves leave }
        requires room { HasRoomFor (entries_of (what_of (under_of noted.now.under)
            (works_of self.old.works.items) (made_noted noted.now event.now [] []))) self.old }
        requires kept { ClosesKept self.old noted.now.daemon noted.now.came.answer }
        requires apart { AreApart (works_of self.old.works.items) }
        requires outside { PassesUnlessClosing event.now noted.now.came.answer }
        ensures log { log_of self.new ≡ log_after (under_of noted.now.under) (log_of self.old)
            (made_noted noted.now event.now [] []) }
        ensures apart { AreApart (works_of self.new.works.items) }
        ensures room { AddsEntries (what_of (under_of noted.now.under)
            (works_of self.old.works.items) (made_noted noted.now event.now [] [])) self.old.journal
            self.new.journal }
        ensures spacious { AreSpacious self.new.works.items }
    {
        match closed_by(noted.came.answer) {
            None => {
                if let Some(what) = what_added(&noted.under, event, noted.came.answer) {
                    self.add(noted, what);
                }
            }
            Some(close) => {
                let said = said_of_leave(self.alloc, noted, leave);
                self.close_left(noted, close, said);
            }
        }
    }

    /// The entries so far.
    pub fn journal(&self) -> &[Entry]
        ensures { result.now ≡ (log_of self.now).journal }
    {
        self.journal.as_slice()
    }

    /// The journal. What daemons have said in open transactions is let go.
    pub fn into_journal(self) -> Journal
        ensures { result ≡ (log_of self).journal }
    {
        Items::of(self.journal)
    }
}
