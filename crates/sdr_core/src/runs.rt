// What a run is asked.
ghost use Rattle.std.specs.Prelude.{◌≡◌, ◌≤◌, [], false, IfOk, OnErr, length};
ghost use Rattle.sdr_machine.specs.Holders.{HoldFirst};
ghost use Rattle.sdr_machine.specs.Roll.{MayDraw, held_by};
ghost use Rattle.sdr_core.specs.Going.{HasCome, MakesNext};
ghost use Rattle.sdr_core.specs.Logging.{is_leave};

use crate::HasRun;
use sdr_base::NoMemory;
use sdr_machine::{Came, Roll};
use sdr_model::Event;

/// A run of the machine that goes on event by event. A core is one, whose journal is kept; so is a lock on a world in memory, of
/// which none is.
pub trait Runs: HasRun {
    /// Makes an event of a daemon, of the statement on a line. Want of memory leaves all as before; a leave takes none.
    fn event(&mut self, daemon: u8, line: u64, event: &Event) -> Result<Came, NoMemory>
        requires drawn { MayDraw (Self.roll_of self.old) (held_by (Self.roll_of self.old) daemon) }
        requires lasts { Self.lasts self.old }
        ensures makes { IfOk result (λ came.
            MakesNext Self.HasRun daemon line event.now came self.old self.new) }
        ensures err { OnErr result (self.new ≡ self.old) }
        ensures leave { OnErr result (is_leave event.now ≡ false) };

    /// The bytes that the last event gave, which was answered so.
    fn given(&self, came: &Came) -> &[u8]
        ensures { Self.gives self.now came.now result.now };

    /// The roll of its daemons. Only those hold a number that may. It has come to some core.
    fn roll(&self) -> &Roll
        ensures roll { result.now ≡ Self.roll_of self.now }
        ensures few { length (Self.roll_of self.now).daemons ≤ 256 }
        ensures first { HoldFirst [] (Self.roll_of self.now).daemons }
        ensures come { HasCome Self.HasRun self.now };
}
