// A run of daemons whose journal is on a board.
ghost use Rattle.std.specs.Prelude.{◌≡◌, ◌<◌, [], false, length, map};
ghost use Rattle.sdr_board.specs.Known.{published};
ghost use Rattle.sdr_core.specs.Numbers.{numbers_done};
ghost use Rattle.sdr_daemon.specs.Coming.{coming_at, is_over};
ghost use Rattle.sdr_daemon.specs.Drawing.{DrawsAt, entries_at, have_leave, starved};

use sdr_board::{Board, Writer};
use sdr_core::Origin;
use sdr_daemon::{Coming, Scripted, ScriptedRun};
use sdr_machine::Tells;
use sdr_model::Entry;
use sdr_turn::Kept;
use std::marker::{Brand, Model, PhantomData};

/// Names the board on which a run is published. The caller that hands it in picks it.
pub trait Posting {
    ghost use Rattle.atomic_table.specs.Seated.{TableId};

    ghost board: { TableId };
}

impl Posting for Brand {
    ghost use Rattle.sdr_live.specs.Posted.{no_board};

    ghost board = { no_board };
}

/// A run of daemons, and the writer of the board of its totals. What the writer published last are the first entries of the journal.
/// Between two turns they are all of it.
pub struct PostedRun<T: Tells, J: Origin, S: Scripted, B: Posting> {
    run: ScriptedRun<T, J, S>,
    writer: Writer,
    of: PhantomData<B>,
}

impl<T: Tells, J: Origin, S: Scripted, B: Posting> Model for PostedRun<T, J, S, B> {
    ghost use Rattle.std.specs.Prelude.{◌≡◌};
    ghost use mathlib.Core.List.{IsPrefix};
    ghost use Rattle.sdr_live.specs.Posted.{PostedCore};

    ghost Value = { PostedCore T };

    ghost view = { λ p. record { run = p.run; posted = p.writer.entries } };

    ghost invariant = { λ p. (p.writer.board ≡ B.board) × IsPrefix p.writer.entries p.run.core.log.journal };
}

impl<T: Tells, J: Origin, S: Scripted, B: Posting> Kept for PostedRun<T, J, S, B> {
    ghost use Rattle.std.specs.Prelude.{◌≡◌};
    ghost use Rattle.sdr_core.specs.Numbers.{numbers_done};
    ghost use Rattle.sdr_daemon.specs.Drawing.{place_of};

    type Entry = Entry;

    ghost entries = { λ v. v.run.core.log.journal };

    ghost number = { λ e. e.number };

    ghost maker = { λ e. place_of J.begins.daemons e.daemon };

    ghost turns = { λ v. numbers_done v.run.core.lock.roll };

    // Every number that was drawn is done, and the totals of the whole journal are on the board.
    ghost rests = { λ v. (numbers_done v.run.core.lock.roll ≡ v.run.core.lock.roll.drawn) × (v.posted ≡ v.run.core.log.journal) };
}

impl<T: Tells, J: Origin, S: Scripted, B: Posting> PostedRun<T, J, S, B> {
    /// A run, and the writer of its board, which has published nothing yet.
    pub fn new(run: ScriptedRun<T, J, S>, writer: Writer) -> PostedRun<T, J, S, B>
        requires { writer ≡ published B.board [] }
        ensures { result ≡ record { run = run; posted = [] } }
    {
        PostedRun {
            run,
            writer,
            of: PhantomData,
        }
    }

    /// The daemon at a place draws a number, as `ScriptedRun::draw_number` says, and the totals of the whole journal are published.
    /// Tells what the daemon does then.
    pub fn draw_number(&mut self, board: &Board, place: usize) -> Coming
        requires board { board.now ≡ B.board }
        requires place { place < length J.begins.daemons }
        requires stays { have_leave (entries_at J.begins.daemons place
            self.old.run.core.log.journal) ≡ false }
        ensures draws { DrawsAt J.begins.daemons place self.old.run self.new.run }
        ensures comes { result ≡ coming_at S.script place self.new.run }
        ensures passed { result ≡ Coming.Passes → ⊥ }
        ensures left { is_over result
            ≡ have_leave (entries_at J.begins.daemons place self.new.run.core.log.journal) }
        ensures done { numbers_done self.new.run.core.lock.roll ≡ self.new.run.core.lock.roll.drawn }
        ensures posted { self.new.posted ≡ self.new.run.core.log.journal }
    {
        let coming = self.run.draw_number(place);
        board.publish(&mut self.writer, self.run.journal());
        coming
    }

    /// All daemons mean to leave from now on, for want of memory unless they meant to before.
    pub fn starve(&mut self)
        ensures core { self.new.run.core ≡ self.old.run.core }
        ensures starved { self.new.run.progress ≡ map starved self.old.run.progress }
        ensures posted { self.new.posted ≡ self.old.posted }
    {
        self.run.starve();
    }

    /// The run, and the writer.
    pub fn into_parts(self) -> (ScriptedRun<T, J, S>, Writer)
        ensures run { result.0 ≡ self.run }
        ensures writer { result.1 ≡ published B.board self.posted }
    {
        let PostedRun { run, writer, of: _ } = self;
        (run, writer)
    }
}
