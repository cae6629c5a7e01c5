// The machine on a plain world.
ghost use Rattle.std.specs.Prelude.{◌≡◌, ◌≤◌, ◌<◌, ◌+◌, ◌*◌, ℕ, true, IfOk, OnErr, OnOk, length};
ghost use Rattle.mem_machine.specs.MemoryRun.{StepsAt, bytes_answered};
ghost use Rattle.mem_machine.specs.Plain.{AllLeaveFrom, first_plain, machine_of};
ghost use Rattle.sdr_machine.specs.Holders.{hold_none};

use crate::MemoryRun;
use sdr_base::{NoMedia, NoMemory};
use sdr_core::{Runs, leave_all};
use sdr_machine::Came;
use sdr_model::{Event, Leave};
use std::alloc::Global;
use std::marker::Model;

/// A machine that keeps a plain world, whose sources name files and items that hold nothing: the k-th block that a
/// call takes has address 8 k, and there is always one.
#[derive(Drop)]
pub struct Plain {
    run: MemoryRun<NoMedia>,
    /// How many events were made.
    events: u64,
}

impl Model for Plain {
    ghost use Rattle.mem_machine.specs.CodedRun.{coded_plain};
    ghost use Rattle.mem_machine.specs.Plain as plain;

    ghost Value = { plain.Plain };

    ghost coded = { coded_plain };

    ghost view = { λ s. record { roll = s.run.roll; worlds = s.run.worlds; events = s.events } };

    ghost invariant = { λ s. plain.IsCounted s.events s.run.roll };
}

impl Plain {
    /// A machine of these daemons, before any event.
    pub fn new(alloc: Global, daemons: &[u8]) -> Result<Plain, NoMemory>
        requires few { length daemons.now ≤ 256 }
        ensures { IfOk result (λ plain. plain ≡ first_plain daemons.now) }
    {
        match MemoryRun::new(alloc, daemons, NoMedia::new()) {
            Ok(run) => Ok(Plain { run, events: 0 }),
            Err((why, _)) => Err(why),
        }
    }

    /// The bytes that the last event gave, which was answered so.
    pub fn given(&self, came: &Came) -> &[u8]
        ensures { result.now ≡ bytes_answered came.now (machine_of self.now) }
    {
        self.run.given(came)
    }

    /// Makes an event of a daemon. Want of memory leaves all as before.
    pub fn event(&mut self, daemon: u8, event: &Event) -> Result<Came, NoMemory>
        requires events { self.old.events < 2_097_152 }
        ensures step { IfOk result (λ came. (line : ℕ) →
            StepsAt (machine_of self.old) daemon line event.now came (machine_of self.new)) }
        ensures events { OnOk result (self.new.events ≡ self.old.events + 1) }
        ensures daemons { length self.new.roll.daemons ≡ length self.old.roll.daemons }
        ensures err { OnErr result (self.new ≡ self.old) }
    {
        let came = self.run.make(daemon, event)?;
        self.events += 1;
        Ok(came)
    }

    /// Makes the leaves at the end of the input: the daemons that hold a number make one, in lock order, and then
    /// those that haven't left yet do, in their order. No number is held then. It takes no memory.
    pub fn leave_all(&mut self, leave: Leave)
        requires events { self.old.events + 2 * length self.old.roll.daemons ≤ 4_194_304 }
        ensures left { AllLeaveFrom leave (machine_of self.old) (machine_of self.new) }
        ensures none { hold_none self.new.roll.daemons ≡ true }
    {
        let daemons = self.run.roll().daemons().len() as u64;
        leave_all(&mut self.run, leave);
        self.run.never_fails();
        self.events += 2 * daemons;
    }
}
