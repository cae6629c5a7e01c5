// What holds of a world that stands in a heap region.
ghost use Rattle.std.specs.Prelude.{List, ℕ};
ghost use Rattle.sdr_stands.specs.Standing.{StandsForWhole};
ghost use Rattle.sdr_base.specs.Pools.{Pools};
ghost use Rattle.sdr_model.specs.World.{World};
ghost use Rattle.audit_owners.specs.Owned.{AreBytes};
ghost use Rattle.sdr_text_world.specs.WorldText.{HasSmallSums};

/// A law: a whole world for which the bytes of a heap region stand has sums below 2^64. It does
/// nothing.
pub fn whole_worlds_have_small_sums()
    ensures { (bytes : List ℕ) (w : World) (P : Pools) →
        StandsForWhole bytes w P → AreBytes bytes → HasSmallSums w }
{}
