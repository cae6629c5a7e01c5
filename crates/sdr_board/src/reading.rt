// How a reader reads, and how one reader takes over what another has seen.
ghost use Rattle.std.specs.Prelude.{◌≡◌, ◌+◌, ◌≤◌, false, not, is_none, length, IsNone, IfSome};
ghost use mathlib.Core.List.{IsPrefix};
ghost use Rattle.sdr_board.specs.Known.{longer, HasLooked, HasRead};
ghost use Rattle.sdr_board.specs.Totals.{totals, words_of};
ghost use Rattle.sdr_board.specs.Views.{with_front};
ghost use Rattle.sdr_board.specs.declared.reading.TheConstants.{MOST_LOOKS};

use crate::board::Board;
use crate::pass::Pass;
use crate::rule::{BEGUN, Checks, Compares, FIRST, Looks, Peeks, Place, STANDS, Tells};
use crate::totals::Totals;
use crossbeam_utils::{Backoff, CachePadded};

/// How often a read looks at most.
pub const MOST_LOOKS: u64 = 8;

impl Board {
    /// The totals of entries that begin with all that this pass has seen. Each look costs a load for each word; between two
    /// looks it spins. Where each look meets the writer, it answers what it read last.
    pub fn read(&self, pass: &mut Pass) -> Totals
        requires board { pass.old.board ≡ self.now }

        ensures totals { result ≡ totals pass.new.entries }
        ensures seen { IsPrefix pass.old.entries pass.new.entries }
        ensures reads { HasRead MOST_LOOKS pass.old pass.new }
    {
        let backoff = Backoff::new();
        for _ in 0..MOST_LOOKS {
            if self.try_read(pass) {
                return *pass.last;
            }
            backoff.spin();
        }
        *pass.last
    }

    // Looks, and notes the totals. False where it meets the writer.
    fn try_read(&self, pass: &mut Pass) -> bool
        requires board { pass.old.board ≡ self.now }

        ensures looked { HasLooked pass.old pass.new }
        ensures met { result ≡ not pass.new.met }
    {
        match self.look(&mut pass.place) {
            Some(totals) => {
                pass.last = CachePadded::new(totals);
                true
            }
            None => false,
        }
    }

    // The totals that stand on the board. `None` where the writer was writing meanwhile.
    fn look(&self, place: &mut Place) -> Option<Totals>
        requires board { place.old.table_id ≡ self.now }
        requires reads { place.old.me.0.writes ≡ false }

        ensures totals { IfSome result (λ t. (t ≡ totals place.new.me.0.stood) × (place.new.me.0.seen ≡ place.new.me.0.stood)) }
        ensures none { IsNone result → place.new.me.0.seen ≡ place.old.me.0.seen }
        ensures met { place.new.me.0.met ≡ is_none result }
        ensures looks { place.new.me.0.looks ≡ place.old.me.0.looks + 1 }
        ensures stood { IsPrefix place.old.me.0.stood place.new.me.0.stood }
        ensures all { IsPrefix place.old.me.0.seen place.new.me.0.stood }
        ensures place { (place.new.table_id ≡ self.now) × (place.new.me.0.writes ≡ false) × (place.new.me.1 ≡ place.old.me.1) }
    {
        let shared = &self.table.shared;
        let entries = shared.load::<Looks>(place, STANDS);
        let words = self.peek(place);
        if shared.load::<Checks>(place, BEGUN) != entries {
            return None;
        }
        Some(Totals::from_words(entries, words))
    }

    // The words of the totals but the first, as they stand, where no more totals are begun meanwhile.
    fn peek(&self, place: &mut Place) -> [u64; 9]
        requires board { place.old.table_id ≡ self.now }

        ensures words { place.new.me.0.front ≤ length place.old.me.0.stood → result ≡ words_of (totals place.old.me.0.stood) }
        ensures later { place.old.me.0.front ≤ place.new.me.0.front }
        ensures view { place.new.me ≡ (with_front place.old.me.0 place.new.me.0.front, place.old.me.1) }
        ensures board { place.new.table_id ≡ self.now }
    {
        let mut words = [0; 9];
        for i in 0..words.len() {
            words[i] = self.table.shared.load::<Peeks>(place, FIRST + i);
        }
        words
    }

    /// The pass has seen the longer of what both have seen, and each of the two begins it. It costs two loads.
    pub fn join(&self, mine: &mut Pass, other: Pass)
        requires board { (mine.old.board ≡ self.now) × (other.board ≡ self.now) }

        ensures longer { mine.new ≡ record mine.old { entries = longer mine.old.entries other.entries } }
        ensures mine { IsPrefix mine.old.entries mine.new.entries }
        ensures other { IsPrefix other.entries mine.new.entries }
    {
        let Pass { last, place } = other;
        self.table.shared.join_seat::<Tells>(&mut mine.place, place);
        self.table.shared.load::<Compares>(&mut mine.place, STANDS);
        if mine.last.entries <= last.entries {
            mine.last = last;
        }
    }
}
