// The journals of core runs.
ghost use Rattle.std.specs.List.{list_any};
ghost use Rattle.std.specs.Option.{option_to_list};
ghost use Rattle.std.specs.Prelude.{◌≡◌, ◌==◌, ◌<◌, ◌≤◌, ◌++◌, ℕ, All, List, Option, Some, length, true};
ghost use Rattle.sdr_base.specs.Media.{Told};
ghost use Rattle.sdr_machine.specs.Core.{AreInTime, Core, CoreStep, RunsCore, first_core};
ghost use Rattle.sdr_machine.specs.Ground.{State, resting};
ghost use Rattle.sdr_machine.specs.Legal.{IsAfter, IsLegal};
ghost use Rattle.sdr_machine.specs.Machine.{Made};
ghost use Rattle.sdr_machine.specs.Roll.{daemon_of};
ghost use Rattle.sdr_machine.specs.declared.daemon.Daemon.{Daemon};
ghost use Rattle.sdr_machine.specs.declared.daemon.Holding.{Holding};
ghost use Rattle.sdr_model.specs.declared.journal.Entry.{Entry};
ghost use Rattle.law_runs.specs.Adding.{AddsRightly, entry_added};
ghost use Rattle.law_runs.specs.Framed.{FramesWork};
ghost use Rattle.law_runs.specs.Rising.{NumbersRise};
ghost use Rattle.law_runs.specs.Running.{OfEachRun};

/// A law: the journal of a core run is legal, for all daemons and from every state in which no transaction is open,
/// where its events were made one after another. The state before the open transaction is the one after all entries,
/// from whatever state the run began, and each entry is of one of the daemons. It does nothing.
pub fn journals_are_legal()
    ensures legal { (told : Option Told) (daemons : List ℕ) (first : State) (moment : ℕ)
        (made : List Made) (core : Core) →
        first ≡ resting first.world first.base → AreInTime moment made →
        RunsCore told (first_core daemons first) made core → IsLegal told daemons first core.log.journal }
    ensures after { OfEachRun (λ told daemons first core.
        IsAfter told daemons first core.log.journal (length core.log.journal) core.machine.before) }
    ensures daemons { OfEachRun (λ told daemons first core.
        All (λ (x : Entry). list_any (λ n. n == x.daemon) daemons ≡ true) core.log.journal) }
{}

/// A law: an event of a core run adds at most one entry, the last. That entry may stand behind those before it, from
/// the state before the open transaction to the one after the event; where none is added, that state stays. It does
/// nothing.
pub fn entries_may_stand()
    ensures added { (told : Option Told) (core : Core) (e : Made) (next : Core) →
        CoreStep told core e next →
        next.log.journal ≡ core.log.journal ++ option_to_list (entry_added core e next.machine) }
    ensures stands { OfEachRun (λ told daemons first core.
        (e : Made) (next : Core) → CoreStep told core e next → AddsRightly told daemons core e next.machine) }
{}

/// A law: lock numbers rise in every core run, from 1 up. Those of the entries were drawn, and a number that a daemon
/// holds was drawn and is higher than that of each entry. It does nothing.
pub fn numbers_rise()
    ensures rise { OfEachRun (λ told daemons first core. NumbersRise 0 core.log.journal) }
    ensures drawn { OfEachRun (λ told daemons first core.
        All (λ (x : Entry). x.number ≤ core.machine.roll.drawn) core.log.journal) }
    ensures held { OfEachRun (λ told daemons first core. (id : ℕ) (d : Daemon) (h : Holding) →
        daemon_of core.machine.roll id ≡ Some d → d.holds ≡ Some h →
        (h.number ≤ core.machine.roll.drawn) × All (λ (x : Entry). x.number < h.number) core.log.journal) }
{}

/// A law: in a legal journal, so in that of every core run, each transaction begins with its first begin, which answers
/// the entry's number, and ends with what closes it; nothing between them does. A look that met a disk fault stands
/// alone. It does nothing.
pub fn transactions_are_framed()
    ensures { (told : Option Told) (daemons : List ℕ) (first : State) (journal : List Entry) →
        IsLegal told daemons first journal → All (λ (x : Entry). FramesWork x.number x.what) journal }
{}
