// The leaves at the end of a schedule.
ghost use Rattle.std.specs.List.{IsDistinct};
ghost use Rattle.std.specs.Prelude.{◌≡◌, All, List, nat_eq, true};
ghost use Rattle.sdr_machine.specs.Core.{Core, has_left};
ghost use Rattle.sdr_machine.specs.Leaving.{AllLeave};
ghost use Rattle.sdr_machine.specs.Legal.{last_entry};
ghost use Rattle.sdr_machine.specs.Machine.{Made};
ghost use Rattle.sdr_model.specs.declared.event.Leave.{Leave};
ghost use Rattle.law_runs.specs.LastEntries.{is_by_leave};
ghost use Rattle.law_runs.specs.Running.{OfEachRun};

/// A law: after the leaves at the end of a schedule every daemon has left, and its last entry is a leave, also where
/// the disk has failed. It does nothing.
pub fn all_leave_at_the_end()
    ensures { OfEachRun (λ told daemons first core. IsDistinct nat_eq daemons →
        (leave : Leave) (leaving : List Made) (last : Core) → AllLeave told leave core leaving last →
        All (λ id. (has_left last.machine.roll id ≡ true)
        × (is_by_leave (last_entry last.log.journal id) ≡ true)) daemons) }
{}
