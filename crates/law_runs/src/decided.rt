// What a core run leaves open.
ghost use Rattle.std.specs.Prelude.{◌≡◌, ℕ, List, Option};
ghost use Rattle.sdr_base.specs.Media.{Told};
ghost use Rattle.sdr_machine.specs.Core.{Core, RunsCore, first_core};
ghost use Rattle.sdr_machine.specs.Ground.{State};
ghost use Rattle.sdr_machine.specs.Machine.{Made};
ghost use Rattle.law_runs.specs.Choosing.{RunAlike};

/// A law: a core run decides its answers, chance aside. Two runs from one state, in which the same daemons make the
/// same events at the same moments, give the same answers, bytes and moves, and leave the same state and journal.
/// What is left open is just this: whether a device fails, media have too few bytes or the undo log has no room for a
/// call, with which numbers, and after which of its moves; and where media tell nothing, their bytes. So each block
/// that is taken, and each that is wanting, is decided by the pools, and in memory by the count. It does nothing.
pub fn runs_decide()
    ensures { (told : Option Told) (daemons : List ℕ) (first : State) (made others : List Made)
        (core core' : Core) →
        RunAlike told made others →
        RunsCore told (first_core daemons first) made core →
        RunsCore told (first_core daemons first) others core' →
        (others ≡ made) × (core' ≡ core) }
{}
