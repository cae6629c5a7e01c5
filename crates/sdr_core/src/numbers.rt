// The lock numbers that are held, and those that are done.
ghost use Rattle.std.specs.Prelude.{◌≡◌, ◌+◌};
ghost use Rattle.sdr_machine.specs.Holders.{holders};
ghost use Rattle.law_runs.specs.Running.{OfEachRun};
ghost use Rattle.sdr_core.specs.Numbers.{HoldApart, numbers_done};

/// A law: in every core run no lock number is held by two daemons, and as many numbers are done as were drawn, less those
/// that are held. It does nothing.
pub fn drawn_numbers_are_held_or_done()
    ensures apart { OfEachRun (λ told daemons first core. HoldApart core.machine.roll.daemons) }
    ensures counted { OfEachRun (λ told daemons first core.
        numbers_done core.machine.roll + holders core.machine.roll.daemons ≡ core.machine.roll.drawn) }
{}
