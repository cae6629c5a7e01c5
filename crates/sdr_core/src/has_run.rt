// A run that goes on event by event.
ghost use Rattle.std.specs.Prelude.{◌≡◌, ℕ, List, Option};
ghost use Rattle.sdr_base.specs.Media.{Told};
ghost use Rattle.sdr_machine.specs.Core.{Core};
ghost use Rattle.sdr_machine.specs.Lapses.{Lapses};
ghost use Rattle.sdr_machine.specs.Roll.{Roll};
ghost use Rattle.sdr_machine.specs.declared.came.Came.{Came};

/// A run of the machine that goes on event by event: what contracts say of it.
pub trait HasRun {
    /// It has come to this core.
    ghost at: { Self → Core → Type 0 };

    /// Its daemons.
    ghost roll_of: { Self → Roll };

    /// What its media tell.
    ghost told: { Self → Option Told };

    /// How often its media have failed, and have given fewer bytes than were asked for.
    ghost lapses: { Self → Lapses };

    /// How often its media were asked; 0 where it doesn't tell that.
    ghost asks: { Self → ℕ };

    /// Calls can be made without end.
    ghost lasts: { Self → Type 0 };

    /// These are the bytes that its last event gave, which was answered so.
    ghost gives: { Self → Came → List ℕ → Type 0 };

    /// Its daemons are those of the core to which it has come.
    ghost rolls: { (t : Self) (c : Core) → at t c → c.machine.roll ≡ roll_of t };
}
