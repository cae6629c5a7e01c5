// Small runs.
ghost use Rattle.std.specs.Prelude.{ℕ, [], ◌∷◌};
ghost use Rattle.sdr_machine.specs.Ground.{State, bare};
ghost use Rattle.sdr_model.specs.World.{empty_world};
ghost use Rattle.law_runs.specs.DeepRow.{deep_journal, deep_made};
ghost use Rattle.law_runs.specs.FaultRow.{faulted_journal, faulted_made, fresh_state};
ghost use Rattle.law_runs.specs.NestedRow.{doomed_journal, doomed_made};
ghost use Rattle.law_runs.specs.Rows.{LeavesJournal};
ghost use Rattle.law_runs.specs.StalledRow.{stalled_journal, stalled_made};
ghost use Rattle.law_runs.specs.SuspendedRow.{suspended_journal, suspended_made};

/// A law: an inner cancel dooms. The call that follows is refused, the outermost end cancels for that reason, and what
/// was catalogued isn't found any more. It does nothing.
pub fn an_inner_cancel_dooms()
    ensures { LeavesJournal (1 ∷ []) (bare empty_world) doomed_made doomed_journal }
{}

/// A law: a second daemon is suspended while the first one's number is served, and is served then. It does nothing.
pub fn a_second_daemon_is_suspended()
    ensures { LeavesJournal (1 ∷ 2 ∷ []) (bare empty_world) suspended_made suspended_journal }
{}

/// A law: a daemon that looks again is told that all have stalled, where the last entry of each is a wait for a ticket
/// that isn't granted. Once one has another entry, the other isn't told so; it is awarded its ticket when the first has
/// given up its own. It does nothing.
pub fn all_have_stalled()
    ensures { LeavesJournal (1 ∷ 2 ∷ []) (bare empty_world) stalled_made stalled_journal }
{}

/// A law: transactions are nested to depth 64, on any ground. One more begin is refused and dooms. It does nothing.
pub fn depth_sixty_four()
    ensures { (s : State) → LeavesJournal (1 ∷ []) s deep_made deep_journal }
{}

/// A law: where the disk fails as a transaction ends, its entry tells so, and each later event is answered with the
/// moment at which that end returned. It does nothing.
pub fn the_first_sync_fails()
    ensures { (begun done : ℕ) →
        LeavesJournal (1 ∷ []) fresh_state (faulted_made begun done) (faulted_journal begun done) }
{}
