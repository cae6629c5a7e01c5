// What recovery gives that is stopped and begun again.
ghost use Rattle.std.specs.Prelude.{All, List, ℕ};
ghost use Rattle.sdr_log.specs.Left.{AreLeftFrom};
ghost use Rattle.sdr_log.specs.Logged.{GivesSame};

/// A law: however often recovery is stopped by a crash and begun again, the disk gives the same heap, or none as before. It
/// does nothing.
pub fn recover_many()
    ensures { (i : List ℕ) (js : List (List ℕ)) → AreLeftFrom i js → All (GivesSame i) js }
{}
