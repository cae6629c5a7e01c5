// Totals of a journal.
ghost use Rattle.std.specs.Prelude.{◌≡◌, ◌+◌, ◌<◌, ◌^◌, ◌++◌, List, count_by, length};
ghost use Rattle.sdr_board.specs.Totals.{AddsUp, is_giving, is_taking, moves_said, totals, with_entry, with_moves, words_of};
ghost use Rattle.sdr_model.specs.declared.journal.Entry.{Entry};

use sdr_base::Move;
use sdr_model::{Close, Entry, Said, What};

/// Totals of a journal, or of its first entries.
#[derive(Clone, Copy, Debug, PartialEq, Eq)]
pub struct Totals {
    /// How many entries there are.
    pub entries: u64,
    /// The lock number of the last entry, or 0.
    pub number: u64,
    /// How many transactions ended.
    pub ended: u64,
    /// How many were cancelled.
    pub cancelled: u64,
    /// How many were left by an exit.
    pub exited: u64,
    /// In how many the disk failed.
    pub faulted: u64,
    /// How many looks at tickets there were.
    pub looks: u64,
    /// How many daemons left.
    pub left: u64,
    /// How many blocks ended transactions took: at most 2^64 - 1, where it stops.
    pub taken: u64,
    /// How many blocks they gave back: at most 2^64 - 1, where it stops.
    pub given: u64,
}

impl Totals {
    /// The totals of an empty journal.
    pub const NONE: Totals = Totals {
        entries: 0,
        number: 0,
        ended: 0,
        cancelled: 0,
        exited: 0,
        faulted: 0,
        looks: 0,
        left: 0,
        taken: 0,
        given: 0,
    };

    /// The totals of these entries.
    pub fn of(entries: &[Entry]) -> Totals
        ensures { result ≡ totals entries.now }
    {
        Totals::NONE.with_all(entries)
    }

    // The totals with these entries behind those that were counted.
    pub(crate) fn with_all(self, entries: &[Entry]) -> Totals
        requires adds { AddsUp self }
        requires room { self.entries + length entries.now < 2 ^ 64 }
        ensures { (before : List Entry) → self ≡ totals before → result ≡ totals (before ++ entries.now) }
    {
        let mut totals = self;
        for entry in entries {
            totals = totals.with(entry);
        }
        totals
    }

    // The totals with one entry more.
    fn with(self, entry: &Entry) -> Totals
        requires adds { AddsUp self }
        requires room { self.entries + 1 < 2 ^ 64 }
        ensures { result ≡ with_entry self entry.now }
    {
        let mut totals = self;
        totals.entries += 1;
        totals.number = entry.number;
        match &entry.what {
            What::Work { said, close } => match close {
                Close::Ended => {
                    totals.ended += 1;
                    return totals.with_said(said.as_slice());
                }
                Close::Exited => totals.exited += 1,
                Close::Cancelled(_) => totals.cancelled += 1,
                Close::Faulted => totals.faulted += 1,
            },
            What::Waits { .. } | What::Awarded { .. } | What::Stalled { .. } => totals.looks += 1,
            What::Leaves { .. } => totals.left += 1,
        }
        totals
    }

    // The totals with the moves of what was said.
    fn with_said(self, said: &[Said]) -> Totals
        ensures { result ≡ with_moves self (moves_said is_taking said.now) (moves_said is_giving said.now) }
    {
        let mut totals = self;
        for said in said {
            totals = totals.with_moves(said.moves.as_slice());
        }
        totals
    }

    // The totals with these moves.
    fn with_moves(self, moves: &[Move]) -> Totals
        ensures { result ≡ with_moves self (count_by is_taking moves.now) (count_by is_giving moves.now) }
    {
        let mut totals = self;
        for step in moves {
            match step {
                Move::Took { .. } => totals.taken = totals.taken.saturating_add(1),
                Move::Gave { .. } => totals.given = totals.given.saturating_add(1),
                Move::Short { .. } => {}
            }
        }
        totals
    }

    // The totals but the first, in order.
    pub(crate) fn words(self) -> [u64; 9]
        ensures { result ≡ words_of self }
    {
        [
            self.number,
            self.ended,
            self.cancelled,
            self.exited,
            self.faulted,
            self.looks,
            self.left,
            self.taken,
            self.given,
        ]
    }

    // The totals of this first and these other words.
    pub(crate) fn from_words(entries: u64, words: [u64; 9]) -> Totals
        ensures { (t : Totals) → entries ≡ t.entries → words ≡ words_of t → result ≡ t }
    {
        let [
            number,
            ended,
            cancelled,
            exited,
            faulted,
            looks,
            left,
            taken,
            given,
        ] = words;
        Totals {
            entries,
            number,
            ended,
            cancelled,
            exited,
            faulted,
            looks,
            left,
            taken,
            given,
        }
    }
}
