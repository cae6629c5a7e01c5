// A run on a world in memory.
ghost use Rattle.std.specs.Prelude.{◌≡◌, ◌≤◌, ◌+◌, None, true, IfErr, IfOk, OnErr, OnOk, length};
ghost use Rattle.sdr_machine.specs.Asked.{outside_asked};
ghost use Rattle.sdr_machine.specs.Lapses.{HasLapseCause, LapsesLast};
ghost use Rattle.sdr_machine.specs.Roll.{MayDraw, held_by};
ghost use Rattle.sdr_machine.specs.Serving.{takes_memory};

use crate::MemoryGround;
use sdr_base::{Media, NoMemory};
use sdr_core::{HasRun, Runs};
use sdr_machine::{Came, Lock, Roll};
use sdr_model::{Answer, Event, Reply};
use std::alloc::Global;
use std::marker::Model;

/// A run at a lock on a world in memory, with the files and items that its sources name. No journal of it is kept: the ground
/// tells no moves.
#[derive(Drop)]
pub struct MemoryRun<M: Media> {
    lock: Lock<MemoryGround<M>>,
}

impl<M: Media> Model for MemoryRun<M> {
    ghost use Rattle.mem_machine.specs.CodedRun.{coded_run};
    ghost use Rattle.mem_machine.specs.MemoryRun as run;

    ghost Value = { run.MemoryRun M };

    ghost coded = { coded_run M.code };

    ghost view = { λ s. record { roll = s.lock.roll; worlds = s.lock.base.worlds; media = s.lock.base.media } };

    ghost invariant = { λ s. run.IsKept s.lock.roll };
}

impl<M: Media> MemoryRun<M> {
    ghost use Rattle.mem_machine.specs.Answering.{lapses_of};
    ghost use Rattle.mem_machine.specs.MemoryRun.{Responds, first_run, machine_of};

    /// A run of these daemons, before any event. Want of memory gives media back.
    pub fn new(alloc: Global, daemons: &[u8], media: M) -> Result<MemoryRun<M>, (NoMemory, M)>
        requires few { length daemons.now ≤ 256 }
        ensures made { IfOk result (λ run. run ≡ first_run daemons.now media) }
        ensures back { IfErr result (λ why. why.1 ≡ media) }
    {
        match Lock::new(alloc, daemons, MemoryGround::new(alloc, media)) {
            Ok(lock) => Ok(MemoryRun { lock }),
            Err((why, ground)) => Err((why, ground.into_media())),
        }
    }

    /// Makes an event of a daemon. Media are asked within its call. Want of memory leaves all as before; only a call and an end may
    /// find none.
    pub fn make(&mut self, daemon: u8, event: &Event) -> Result<Came, NoMemory>
        requires drawn { MayDraw self.old.roll (held_by self.old.roll daemon) }
        ensures responds { IfOk result (λ came. Responds (M.told self.old.media)
            (machine_of self.old) daemon event.now came (machine_of self.new)) }
        ensures gap { IfOk result (λ came. HasLapseCause came.answer
            (lapses_of M.Media self.old.media) (lapses_of M.Media self.new.media)) }
        ensures told { M.told self.new.media ≡ M.told self.old.media }
        ensures lapses { LapsesLast (lapses_of M.Media self.old.media)
            (lapses_of M.Media self.new.media) }
        ensures needs { OnOk result (M.asks self.new.media ≤ M.asks self.old.media
            + outside_asked (machine_of self.old) daemon event.now) }
        ensures drawn { OnOk result (self.new.roll.drawn ≤ self.old.roll.drawn + 1) }
        ensures daemons { length self.new.roll.daemons ≡ length self.old.roll.daemons }
        ensures err { OnErr result (self.new ≡ self.old) }
        ensures memory { OnErr result (takes_memory event.now ≡ true) }
    {
        self.lock.event(daemon, event)
    }

    /// No disk of it has failed, since it has none. It does nothing.
    pub fn never_fails(&self)
        ensures { self.now.roll.failed ≡ None }
    {
        let _ = &self.lock;
    }

    /// The files and items. What the open transaction has done is lost.
    pub fn into_media(self) -> M
        ensures { result ≡ self.media }
    {
        let MemoryRun { lock } = self;
        lock.into_base().into_media()
    }
}

impl<M: Media> HasRun for MemoryRun<M> {
    ghost use Rattle.std.specs.Prelude.{⊤};
    ghost use Rattle.mem_machine.specs.Answering.{lapses_of};
    ghost use Rattle.mem_machine.specs.MemoryRun as run;

    ghost at = { λ k c. run.IsAt k c };

    ghost roll_of = { λ k. k.roll };

    ghost told = { λ k. M.told k.media };

    ghost lapses = { λ k. lapses_of M.Media k.media };

    ghost asks = { λ k. M.asks k.media };

    ghost lasts = { λ _. ⊤ };

    ghost gives = { λ k came bytes. run.GivesBytes k came bytes };

    ghost rolls = { λ k c at. run.rolls_at k c at };
}

impl<M: Media> Runs for MemoryRun<M> {
    fn event(&mut self, daemon: u8, _line: u64, event: &Event) -> Result<Came, NoMemory> {
        self.make(daemon, event)
    }

    fn given(&self, came: &Came) -> &[u8] {
        match came.answer {
            Answer::Reply(Reply::Refused(_)) => &[],
            Answer::Reply(Reply::MediaFault) => &[],
            _ if came.called => self.lock.base().shown(),
            _ => &[],
        }
    }

    fn roll(&self) -> &Roll {
        self.lock.roll()
    }
}
