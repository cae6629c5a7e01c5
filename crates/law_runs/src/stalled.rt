// Who waits and who has left.
ghost use Rattle.std.specs.List.{IsDistinct};
ghost use Rattle.std.specs.Prelude.{◌≡◌, nat_eq};
ghost use Rattle.sdr_machine.specs.Legal.{have_stalled};
ghost use Rattle.sdr_machine.specs.Roll.{is_stalled};
ghost use Rattle.sdr_model.specs.World.{World};
ghost use Rattle.law_runs.specs.LastEntries.{AgreesWithJournal};
ghost use Rattle.law_runs.specs.Running.{OfEachRun};

/// A law: in every core run the roll agrees with the journal. A daemon has left just where its last entry is a leave,
/// and waits for a ticket just where that is a wait for it. So the daemons of a machine, each with a number of its own,
/// have stalled by the roll just where the last entry of each is a leave, or a wait for a ticket that isn't granted. It
/// does nothing.
pub fn rolls_agree_with_journals()
    ensures agree { OfEachRun (λ told daemons first core. AgreesWithJournal core.log.journal
        core.machine.roll) }
    ensures stalled { OfEachRun (λ told daemons first core. IsDistinct nat_eq daemons →
        (w : World) →
        is_stalled core.machine.roll w ≡ have_stalled daemons core.log.journal w) }
{}
