// How the writer publishes.
ghost use Rattle.std.specs.Prelude.{◌≡◌, ◌<◌, [], length};
ghost use mathlib.Core.List.{IsPrefix};
ghost use Rattle.sdr_board.specs.Known.{published};
ghost use Rattle.sdr_board.specs.Totals.{totals, words_of};
ghost use Rattle.sdr_board.specs.Views.{writer_view, writing_view};

use crate::board::Board;
use crate::rule::{BEGUN, Begins, Ends, FIRST, Naming, Place, STANDS, Writes};
use crate::totals::Totals;
use crate::writer::Writer;
use sdr_model::Entry;
use std::marker::Brand;

impl Board {
    /// The totals of the whole journal stand on the board. It reckons with the entries that are new, and costs a store for
    /// each word; nothing where no entry is new.
    pub fn publish(&self, writer: &mut Writer, journal: &[Entry])
        requires board { writer.old.board ≡ self.now }
        requires begins { IsPrefix writer.old.entries journal.now }

        ensures published { writer.new ≡ published self.now journal.now }
    {
        self.publish_named::<Brand>(writer, journal);
    }

    // The same, for the journal that is named.
    fn publish_named<N: Naming>(&self, writer: &mut Writer, journal: &[Entry])
        requires named { journal.now ≡ N.journal }
        requires board { writer.old.board ≡ self.now }
        requires begins { IsPrefix writer.old.entries N.journal }

        ensures published { writer.new ≡ published self.now N.journal }
    {
        let before = writer.last.entries as usize;
        if before < journal.len() {
            let last = writer.last.with_all(&journal[before..]);
            self.post::<N>(&mut writer.place, last);
            writer.last = last;
        }
    }

    // Says of how many entries totals come, writes these, and says that they stand: those of the journal that is named.
    fn post<N: Naming>(&self, place: &mut Place, last: Totals)
        requires board { place.old.table_id ≡ self.now }
        requires writer { place.old.me.0 ≡ writer_view place.old.me.0.seen }
        requires begins { IsPrefix place.old.me.0.seen N.journal }
        requires totals { (last ≡ totals N.journal) × (length place.old.me.0.seen < last.entries) }

        ensures board { place.new.table_id ≡ self.now }
        ensures posted { place.new.me ≡ (writer_view N.journal, place.old.me.1) }
    {
        let shared = &self.table.shared;
        shared.store::<Begins>(place, BEGUN, last.entries);
        self.write(place, last);
        shared.store::<Ends<N>>(place, STANDS, last.entries);
    }

    // Writes the totals that were begun, but the first.
    fn write(&self, place: &mut Place, last: Totals)
        requires board { place.old.table_id ≡ self.now }
        requires begun { place.old.me.0 ≡ writing_view place.old.me.0.seen place.old.me.0.begun [] }
        requires more { length place.old.me.0.seen < place.old.me.0.begun }

        ensures board { place.new.table_id ≡ self.now }
        ensures written { place.new.me ≡ (writing_view place.old.me.0.seen place.old.me.0.begun (words_of last), place.old.me.1) }
    {
        let words = last.words();
        for i in 0..words.len() {
            self.table
                .shared
                .store::<Writes>(place, FIRST + i, words[i]);
        }
    }
}
