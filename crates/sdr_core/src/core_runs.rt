// A core as a run.
use crate::{Core, HasRun, Origin, Runs};
use sdr_base::NoMemory;
use sdr_machine::{Came, Roll, Tells};
use sdr_model::Event;

impl<T: Tells, J: Origin> HasRun for Core<T, J> {
    ghost use Rattle.sdr_core.specs.CoreRun as run;
    ghost use Rattle.sdr_core.specs.Leaving.{LastsOn};

    ghost at = { λ k c. run.CoreAt T.HasGround k c };

    ghost roll_of = { λ k. k.lock.roll };

    ghost told = { λ k. T.told k.lock.base };

    ghost lapses = { λ k. T.lapses k.lock.base };

    ghost asks = { λ k. T.asks k.lock.base };

    ghost lasts = { λ k. LastsOn T.HasGround k.lock.base };

    ghost gives = { λ k came bytes. run.GivesBytes T.HasGround k came bytes };

    ghost rolls = { λ k c at. run.rolls_at T.HasGround k c at };
}

impl<T: Tells, J: Origin> Runs for Core<T, J> {
    fn event(&mut self, daemon: u8, line: u64, event: &Event) -> Result<Came, NoMemory> {
        Core::event(self, daemon, line, event)
    }

    fn given(&self, came: &Came) -> &[u8] {
        Core::given(self, came)
    }

    fn roll(&self) -> &Roll {
        Core::roll(self)
    }
}
