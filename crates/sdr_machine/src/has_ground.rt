// A ground that stands for states of the machine.
ghost use Rattle.std.specs.Prelude.{ℕ, List, Option, suc};
ghost use Rattle.sdr_base.specs.Media.{Told};
ghost use Rattle.sdr_machine.specs.Lapses.{Lapses};
ghost use Rattle.sdr_machine.specs.Ground.{State};
ghost use Rattle.sdr_machine.specs.Standing.{GroundState};

/// A ground that stands for states of the machine: what contracts say of it.
pub trait HasGround {
    /// What it stands for.
    ghost stands: { Self → GroundState → Type 0 };

    /// The disk's moment, 0 where there is no disk.
    ghost moment: { Self → ℕ };

    /// How many faults of the disk there were.
    ghost faults: { Self → ℕ };

    /// How often its media have failed, and have given fewer bytes than were asked for.
    ghost lapses: { Self → Lapses };

    /// How often its media were asked; 0 where it doesn't tell that.
    ghost asks: { Self → ℕ };

    /// What its media tell.
    ghost told: { Self → Option Told };

    /// So many calls more can be made.
    ghost lasts: { Self → ℕ → Type 0 };

    /// Its disk hasn't failed.
    ghost sound: { Self → Type 0 };

    /// No call of the open transaction was stopped on its way: another can be made, and the transaction can
    /// be kept.
    ghost going: { Self → Type 0 };

    /// No call was made since a transaction was last kept or put back: tickets can be looked at.
    ghost idle: { Self → Type 0 };

    /// What a crash at a moment may leave.
    ghost left: { Self → ℕ → List ℕ → Type 0 };

    /// The state that opening gives of what a crash left.
    ghost opens: { List ℕ → State → Type 0 };

    /// A crash now leaves what it stood for before the transaction.
    ghost crash_now: { (t : Self) (v : GroundState) (image : List ℕ) → stands t v → left t (moment t) image → opens image v.before };

    /// It lasts for fewer calls too.
    ghost lasts_less: { (t : Self) (n : ℕ) → lasts t (suc n) → lasts t n };

    /// No call was stopped where none was made.
    ghost idle_going: { (t : Self) → idle t → going t };

    /// None can be made where the disk has failed.
    ghost going_sound: { (t : Self) → going t → sound t };
}
