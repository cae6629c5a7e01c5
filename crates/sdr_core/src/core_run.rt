// A lock, and the journal of its run.
ghost use Rattle.std.specs.Prelude.{◌≡◌, ◌≤◌, [], false, true, not, IfErr, IfOk, None, OnErr, Some, if◌then◌else◌, is_some, length};
ghost use Rattle.sdr_machine.specs.Core.{is_failed};
ghost use Rattle.sdr_machine.specs.Crash.{is_sound};
ghost use Rattle.sdr_machine.specs.Standing.{GroundState};
ghost use Rattle.sdr_machine.specs.Transaction.{bytes_given};
ghost use Rattle.sdr_machine.specs.Holders.{HoldFirst, hold_none};
ghost use Rattle.sdr_machine.specs.Legal.{IsLegal};
ghost use Rattle.sdr_machine.specs.Roll.{MayDraw, daemon_of, first_roll, held_by};
ghost use Rattle.sdr_core.specs.CoreKept.{BeginsOn, IsRunOf, KeepsRun, MakesCoreStep, HasState};
ghost use Rattle.sdr_core.specs.Ended.{StandsEnded};
ghost use Rattle.sdr_core.specs.Logging.{is_leave};

use crate::making::{leaves_now, looks_again, number_of, room_for};
use crate::{Draft, Keeper, Noted, Origin, Under};
use sdr_base::NoMemory;
use sdr_machine::{Came, Daemon, Lock, Roll, Tells};
use sdr_model::{Answer, Entry, Event, Journal, Leave, Reply};
use std::alloc::Global;
use std::marker::{Model, PhantomData};

/// A lock, and the journal of its run from the origin. At each moment since the first a crash leaves the state after some
/// first entries, all that are done by then among them.
pub struct Core<T: Tells, J: Origin> {
    lock: Lock<T>,
    keeper: Keeper,
    alloc: Global,
    of: PhantomData<J>,
}

impl<T: Tells, J: Origin> Model for Core<T, J> {
    ghost use Rattle.sdr_core.specs.CoreKept.{LoggedLock};

    ghost Value = { LoggedLock T };

    ghost use Rattle.sdr_core.specs.CoreFacts.{IsCore};
    ghost use Rattle.sdr_core.specs.Logging.{log_of};

    ghost view = { λ s. record { lock = s.lock; log = log_of s.keeper } };

    ghost invariant = { λ s. IsCore T.HasGround J.begins s.lock s.keeper };
}

impl<T: Tells, J: Origin> Core<T, J> {
    /// Before any event of these daemons, on a ground that is where the run begins. Want of memory gives it back.
    pub fn new(alloc: Global, daemons: &[u8], base: T) -> Result<Core<T, J>, (NoMemory, T)>
        requires few { length daemons.now ≤ 256 }
        requires begins { BeginsOn T.HasGround J.begins daemons.now base }
        ensures made { IfOk result (λ core. core ≡ record {
          lock = record { roll = first_roll daemons.now; base = base };
          log = record { works = []; journal = [] };
        }) }
        ensures back { IfErr result (λ why. why.1 ≡ base) }
    {
        let keeper = match Keeper::new(alloc, daemons.len()) {
            Ok(keeper) => keeper,
            Err(why) => return Err((why, base)),
        };
        match Lock::new(alloc, daemons, base) {
            Ok(lock) => Ok(Core {
                lock,
                keeper,
                alloc,
                of: PhantomData,
            }),
            Err(why) => Err(why),
        }
    }

    // Makes an event of one of its daemons, and notes it.
    fn make(
        &mut self,
        known: &Daemon,
        daemon: u8,
        line: u64,
        event: &Event,
    ) -> Result<Came, NoMemory>
        requires drawn { MayDraw self.old.lock.roll (held_by self.old.lock.roll daemon) }
        requires lasts { T.lasts self.old.lock.base 1 }
        requires found { daemon_of self.old.lock.roll daemon ≡ Some known.now }
        ensures makes { IfOk result (λ came. MakesCoreStep T.HasGround daemon line event.now came
            self.old.lock self.old.log self.new.lock self.new.log) }
        ensures err { OnErr result (self.new ≡ self.old) }
    {
        let number = number_of(self.lock.roll(), known);
        let waited = looks_again(known, event);
        let room = room_for(self.lock.base(), event)?;
        let draft = Draft::new(self.alloc, event, room)?;
        self.keeper
            .reserve(daemon, self.lock.roll().daemons().len())?;
        let begun = self.lock.moment();
        let came = self.lock.event(daemon, event)?;
        let left = leaves_now(self.lock.roll(), known);
        let done = self.lock.moment();
        let under = Under {
            number,
            waited,
            left,
        };
        let noted = Noted {
            line,
            daemon,
            came,
            begun,
            done,
            under,
        };
        self.keeper.note(
            &noted,
            draft,
            self.lock.base().moves(),
            self.lock.base().shown(),
        );
        Ok(came)
    }

    // Makes a leave of one of its daemons, and notes it. It takes no memory.
    fn leave(&mut self, known: &Daemon, daemon: u8, line: u64, leave: Leave) -> Came
        requires drawn { MayDraw self.old.lock.roll (held_by self.old.lock.roll daemon) }
        requires lasts { T.lasts self.old.lock.base 1 }
        requires found { daemon_of self.old.lock.roll daemon ≡ Some known.now }
        ensures { MakesCoreStep T.HasGround daemon line (Event.Leaves leave) result
            self.old.lock self.old.log self.new.lock self.new.log }
    {
        let event = Event::Leaves(leave);
        let number = number_of(self.lock.roll(), known);
        let begun = self.lock.moment();
        let Ok(came) = self.lock.event(daemon, &event) else {
            unreachable!();
        };
        let left = leaves_now(self.lock.roll(), known);
        let done = self.lock.moment();
        let under = Under {
            number,
            waited: false,
            left,
        };
        let noted = Noted {
            line,
            daemon,
            came,
            begun,
            done,
            under,
        };
        self.keeper.note_leave(&noted, &event, leave);
        came
    }

    /// Makes an event of a daemon, of the statement on a line. Want of memory leaves all as before; a leave takes none.
    pub fn event(&mut self, daemon: u8, line: u64, event: &Event) -> Result<Came, NoMemory>
        requires drawn { MayDraw self.old.lock.roll (held_by self.old.lock.roll daemon) }
        requires lasts { T.lasts self.old.lock.base 1 }
        ensures makes { IfOk result (λ came. MakesCoreStep T.HasGround daemon line event.now came
            self.old.lock self.old.log self.new.lock self.new.log) }
        ensures err { OnErr result (self.new ≡ self.old) }
        ensures leave { OnErr result (is_leave event.now ≡ false) }
        ensures failed { IfOk result (λ came.
            is_failed came.answer ≡ not (is_sound self.old.log.journal)) }
    {
        let Some(known) = self.lock.roll().daemon(daemon) else {
            return self.lock.event(daemon, event);
        };
        match event {
            Event::Leaves(leave) => Ok(self.leave(&known, daemon, line, *leave)),
            _ => self.make(&known, daemon, line, event),
        }
    }

    /// The entries so far.
    pub fn journal(&self) -> &[Entry]
        ensures journal { result.now ≡ self.now.log.journal }
        ensures legal { IsLegal J.begins.told J.begins.daemons J.begins.first result.now }
    {
        self.keeper.journal()
    }

    /// The roll of its daemons. Only those hold a number that may; and unless the disk has failed, the lock stands for something.
    /// There is a run from the first core to this one, so the laws of runs hold of it.
    pub fn roll(&self) -> &Roll
        ensures roll { result.now ≡ self.now.lock.roll }
        ensures few { length self.now.lock.roll.daemons ≤ 256 }
        ensures first { HoldFirst [] self.now.lock.roll.daemons }
        ensures stands { HasState T.stands self.now.lock }
        ensures run { KeepsRun T.HasGround J.begins self.now }
        ensures failed { is_some self.now.lock.roll.failed ≡ not (is_sound self.now.log.journal) }
    {
        self.lock.roll()
    }

    /// The bytes that the last event gave, which was answered so.
    pub fn given(&self, came: &Came) -> &[u8]
        ensures { (v : GroundState) → (came.now.called ≡ true → T.stands self.now.lock.base v) →
            result.now ≡ (if came.now.called then bytes_given came.now.answer v.now.world.shown else []) }
    {
        if !came.called {
            return &[];
        }
        match came.answer {
            Answer::Reply(Reply::Refused(_)) => &[],
            Answer::Reply(Reply::MediaFault) => &[],
            _ => self.lock.base().shown(),
        }
    }

    /// Its ground.
    pub fn base(&self) -> &T
        ensures { result.now ≡ self.now.lock.base }
    {
        self.lock.base()
    }

    /// The journal, and the ground. What daemons have said in open transactions is let go. Where no number is held unless the
    /// disk has failed, no transaction is open.
    pub fn finish(self) -> (Journal, T)
        ensures journal { result.0 ≡ self.log.journal }
        ensures base { result.1 ≡ self.lock.base }
        ensures run { IsRunOf T.HasGround J.begins result.0 result.1 }
        ensures ran { KeepsRun T.HasGround J.begins self }
        ensures ended { (self.lock.roll.failed ≡ None → hold_none self.lock.roll.daemons ≡ true)
            → StandsEnded T.HasGround J.begins result.0 result.1 }
    {
        let Core {
            lock,
            keeper,
            alloc: _,
            of: _,
        } = self;
        (keeper.into_journal(), lock.into_base())
    }
}
