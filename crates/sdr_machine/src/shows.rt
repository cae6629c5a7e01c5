// A ground that tells the bytes that it shows.
ghost use Rattle.std.specs.Prelude.{◌≡◌};
ghost use Rattle.sdr_machine.specs.Standing.{GroundState};

use crate::Backing;

/// A ground that tells the bytes that it shows: those of the last answered call of the open transaction.
pub trait Shows: Backing {
    /// The bytes that it shows.
    fn shown(&self) -> &[u8]
        ensures { (v : GroundState) → Self.stands self.now v → result.now ≡ v.now.world.shown };
}
