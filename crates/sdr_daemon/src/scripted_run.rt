// A core, and the progress of its daemons in their scripts.
ghost use Rattle.std.specs.Prelude.{◌≡◌, ◌<◌, ◌≤◌, false, is_some, length, map, not, true};
ghost use mathlib.Core.List.{IsPrefix};
ghost use Rattle.sdr_core.specs.CoreKept.{IsRunOf, KeepsRun};
ghost use Rattle.sdr_core.specs.Ended.{StandsEnded};
ghost use Rattle.sdr_core.specs.Numbers.{numbers_done};
ghost use Rattle.sdr_daemon.specs.Coming.{coming_at, is_over};
ghost use Rattle.sdr_daemon.specs.Drawing.{DrawsAt, GoesOnAt, entries_at, have_leave, starved};
ghost use Rattle.sdr_daemon.specs.Progressing.{IsFresh, IsScriptedRun, first_progress, have_left};
ghost use Rattle.sdr_daemon.specs.Scripts.{KeepsToScripts};
ghost use Rattle.sdr_daemon.specs.TakingTurns.{TurnsAt, is_gone};
ghost use Rattle.sdr_machine.specs.Crash.{is_sound};
ghost use Rattle.sdr_words.specs.Daemons.{daemons_of};

use crate::coming::{Coming, coming_of};
use crate::script_place::{ScriptPlace, Scripted, first_progress};
use crate::turn::turn;
use arrayvec::ArrayVec;
use sdr_base::Gate;
use sdr_core::{Core, Origin};
use sdr_machine::{Roll, Tells};
use sdr_model::{Entry, Journal, Leave, Script};
use sdr_turn::Kept;
use std::alloc::Global;
use std::marker::{Model, PhantomData};
use std::sync::Wait;

// So many daemons may a script name.
const MOST_DAEMONS: usize = 16;

/// A core, and the progress of its daemons in their scripts. Between two turns no number is held and no transaction is open, and
/// each daemon's entries are those of its lines that are done.
pub struct ScriptedRun<T: Tells, J: Origin, S: Scripted> {
    core: Core<T, J>,
    progress: ArrayVec<ScriptPlace, MOST_DAEMONS, Global>,
    script: Script,
    alloc: Global,
    of: PhantomData<S>,
}

impl<T: Tells, J: Origin, S: Scripted> Model for ScriptedRun<T, J, S> {
    ghost use Rattle.sdr_daemon.specs.Progressing.{IsScriptedRun, ScriptedCore};
    ghost use Rattle.std.specs.Prelude.{◌≡◌};

    ghost Value = { ScriptedCore T };

    ghost view = { λ s. record { core = s.core; progress = s.progress.items } };

    ghost invariant = { λ s. IsScriptedRun T.HasGround J.begins S.script s.core s.progress.items
        × (s.script ≡ S.script) };
}

impl<T: Tells, J: Origin, S: Scripted> Kept for ScriptedRun<T, J, S> {
    ghost use Rattle.std.specs.Prelude.{◌≡◌};
    ghost use Rattle.sdr_core.specs.Numbers.{numbers_done};
    ghost use Rattle.sdr_daemon.specs.Drawing.{place_of};

    type Entry = Entry;

    ghost entries = { λ v. v.core.log.journal };

    ghost number = { λ e. e.number };

    ghost maker = { λ e. place_of J.begins.daemons e.daemon };

    ghost turns = { λ v. numbers_done v.core.lock.roll };

    // Every number that was drawn is done.
    ghost rests = { λ v. numbers_done v.core.lock.roll ≡ v.core.lock.roll.drawn };
}

// The daemons of a roll before their first lines. It takes no memory.
fn progress_of(alloc: Global, roll: &Roll) -> ArrayVec<ScriptPlace, MOST_DAEMONS, Global>
    requires { length roll.now.daemons ≤ MOST_DAEMONS }
    ensures { result.items ≡ map (λ d. first_progress d.id) roll.now.daemons }
{
    let mut progress = ArrayVec::new_in(alloc);
    let daemons = roll.daemons();
    for daemon in daemons {
        progress.push(first_progress(alloc, daemon.id));
    }
    progress
}

// Each of these daemons means to leave from now on, for want of memory unless it meant to before.
fn starve_all(these: &mut [ScriptPlace])
    ensures { these.new ≡ map starved these.old }
{
    for own in these.iter_mut() {
        own.leaving = Some(own.leaving.unwrap_or(Leave::Memory));
    }
}

impl<T: Tells, J: Origin, S: Scripted> ScriptedRun<T, J, S> {
    /// Before any turn of the core's daemons. It takes no memory.
    pub fn new(alloc: Global, core: Core<T, J>, script: Script) -> ScriptedRun<T, J, S>
        requires fresh { IsFresh T.HasGround J.begins core }
        requires script { script ≡ S.script }
        requires named { J.begins.daemons ≡ daemons_of S.script }
        ensures { result ≡ record {
          core = core;
          progress = map first_progress J.begins.daemons;
        } }
    {
        let progress = progress_of(alloc, core.roll());
        ScriptedRun {
            core,
            progress,
            script,
            alloc,
            of: PhantomData,
        }
    }

    /// How many daemons there are. Their places are those below.
    pub fn places(&self) -> usize
        ensures places { result ≡ length self.now.progress }
        ensures daemons { result ≡ length J.begins.daemons }
        ensures few { result ≤ MOST_DAEMONS }
    {
        self.progress.len()
    }

    // Whether no daemon at a place takes turns: there is none, or it has left. The clauses from `run` on aren't about the answer:
    // they hand on what `Core::roll` ensures and what the type keeps.
    fn is_gone(&self, place: usize) -> bool
        ensures gone { result ≡ is_gone place self.now }
        ensures run { KeepsRun T.HasGround J.begins self.now.core }
        ensures few { length self.now.core.lock.roll.daemons ≤ 256 }
        ensures failed { is_some self.now.core.lock.roll.failed
            ≡ not (is_sound self.now.core.log.journal) }
        ensures holds { IsScriptedRun T.HasGround J.begins S.script self.now.core
            self.now.progress }
    {
        let roll = self.core.roll();
        match self.progress.as_slice().get(place) {
            None => true,
            Some(own) => roll.has_left(own.daemon),
        }
    }

    /// The entries so far.
    pub fn journal(&self) -> &[Entry]
        ensures { result.now ≡ self.now.core.log.journal }
    {
        self.core.journal()
    }

    /// What the daemon at a place does in its next turn, if memory isn't wanting there. The call takes no memory. Where nothing comes, a
    /// leave is among the entries of the daemon at that place (`left`). All numbers that were drawn are done (`done`).
    pub fn coming(&self, place: usize) -> Coming
        ensures comes { result ≡ coming_at S.script place self.now }
        ensures left { place < length J.begins.daemons → is_over result
            ≡ have_leave (entries_at J.begins.daemons place self.now.core.log.journal) }
        ensures done { numbers_done self.now.core.lock.roll ≡ self.now.core.lock.roll.drawn }
    {
        if self.is_gone(place) {
            return Coming::Gone;
        }
        let own = &self.progress.as_slice()[place];
        coming_of(self.core.roll(), own, self.script.as_slice())
    }

    /// The daemon at a place takes a turn, unless it has left.
    pub fn turn(&mut self, place: usize)
        ensures gone { is_gone place self.old ≡ true → self.new ≡ self.old }
        ensures turns { is_gone place self.old ≡ false →
            TurnsAt J.begins S.script place self.old self.new }
        ensures grows { IsPrefix self.old.core.log.journal self.new.core.log.journal }
    {
        if self.is_gone(place) {
            return;
        }
        let own = &mut self.progress.as_mut_slice()[place];
        turn::<T, J, S>(self.alloc, &mut self.core, own, self.script.as_slice());
    }

    /// The daemon at a place passes over its lines that are refused outside a transaction. Tells what it does then.
    pub fn pass_lines(&mut self, place: usize) -> Coming
        ensures core { self.new.core ≡ self.old.core }
        ensures own { GoesOnAt 0 place self.old.progress self.new.progress }
        ensures comes { result ≡ coming_at S.script place self.new }
        ensures passed { result ≡ Coming.Passes → ⊥ }
        ensures left { place < length J.begins.daemons → is_over result
            ≡ have_leave (entries_at J.begins.daemons place self.new.core.log.journal) }
        ensures done { numbers_done self.new.core.lock.roll ≡ self.new.core.lock.roll.drawn }
    {
        loop {
            match self.coming(place) {
                Coming::Passes => self.turn(place),
                coming => return coming,
            }
        }
    }

    // How many numbers were drawn. The clause `holds` hands on what the type keeps.
    fn drawn(&self) -> u64
        ensures drawn { result ≡ self.now.core.lock.roll.drawn }
        ensures holds { IsScriptedRun T.HasGround J.begins S.script self.now.core
            self.now.progress }
    {
        self.core.roll().drawn()
    }

    // The daemon at a place, which passes over no line, takes a turn. Where memory was wanting in that, it takes the next, in which it
    // leaves.
    fn draw_once(&mut self, place: usize)
        requires stays { is_gone place self.old ≡ false }
        requires comes { coming_at S.script place self.old ≡ Coming.Passes → ⊥ }
        ensures { DrawsAt J.begins.daemons place self.old self.new }
    {
        let before = self.drawn();
        self.turn(place);
        if self.drawn() > before {
            return;
        }
        self.turn(place);
    }

    /// The daemon at a place draws a number: it begins a transaction, looks at a ticket, or leaves. Lines that are refused outside a
    /// transaction are passed over before that and behind it. Tells what the daemon does then. Where memory is wanting for what it begins
    /// or looks at, it leaves with that number. The daemon is one that has made no leave (`stays`).
    pub fn draw_number(&mut self, place: usize) -> Coming
        requires place { place < length J.begins.daemons }
        requires stays { have_leave (entries_at J.begins.daemons place
            self.old.core.log.journal) ≡ false }
        ensures draws { DrawsAt J.begins.daemons place self.old self.new }
        ensures comes { result ≡ coming_at S.script place self.new }
        ensures passed { result ≡ Coming.Passes → ⊥ }
        ensures left { is_over result
            ≡ have_leave (entries_at J.begins.daemons place self.new.core.log.journal) }
        ensures done { numbers_done self.new.core.lock.roll ≡ self.new.core.lock.roll.drawn }
    {
        self.pass_lines(place);
        self.draw_once(place);
        self.pass_lines(place)
    }

    /// All daemons mean to leave from now on, for want of memory unless they meant to before.
    pub fn starve(&mut self)
        ensures core { self.new.core ≡ self.old.core }
        ensures starved { self.new.progress ≡ map starved self.old.progress }
    {
        starve_all(self.progress.as_mut_slice());
    }

    /// Whether all daemons have left.
    pub fn all_left(&self) -> bool
        ensures { result ≡ have_left self.now.core.lock.roll self.now.progress }
    {
        let roll = self.core.roll();
        self.progress
            .as_slice()
            .iter()
            .all(|own| roll.has_left(own.daemon))
    }

    // Each daemon takes a turn, unless it has left.
    fn turn_each<G: Gate>(&mut self, gate: &G)
        ensures { IsPrefix self.old.core.log.journal self.new.core.log.journal }
    {
        for place in 0..self.places() {
            if let Coming::Comes { daemon, line } = self.coming(place) {
                gate.before(daemon, line);
            }
            self.turn(place);
        }
    }

    /// The daemons take turns, one after another, until all have left. The gate is called before each begin, look and leave. The
    /// journal only grows. No clause says that it returns.
    pub fn take_turns<R: Wait, G: Gate>(&mut self, rt: &R, gate: &G)
        ensures left { have_left self.new.core.lock.roll self.new.progress ≡ true }
        ensures grows { IsPrefix self.old.core.log.journal self.new.core.log.journal }
    {
        for _ in rt.forever() {
            if self.all_left() {
                return;
            }
            self.turn_each(gate);
        }
        unreachable!()
    }

    /// Whether the disk failed in an entry.
    pub fn has_failed(&self) -> bool
        ensures { result ≡ not (is_sound self.now.core.log.journal) }
    {
        self.core.roll().failed().is_some()
    }

    /// The journal and the ground, once all daemons have left: the journal keeps to the scripts, and unless the disk failed in an
    /// entry, no transaction is open on the ground.
    pub fn finish(self) -> (Journal, T)
        requires left { have_left self.core.lock.roll self.progress ≡ true }
        ensures journal { result.0 ≡ self.core.log.journal }
        ensures base { result.1 ≡ self.core.lock.base }
        ensures run { IsRunOf T.HasGround J.begins result.0 result.1 }
        ensures ended { StandsEnded T.HasGround J.begins result.0 result.1 }
        ensures keeps { KeepsToScripts J.begins.told J.begins.first S.script
            result.0 }
    {
        let ScriptedRun {
            core,
            progress: _,
            script: _,
            alloc: _,
            of: _,
        } = self;
        core.finish()
    }
}
