// The structure of a heap that keeps a world.
ghost use Rattle.std.specs.Prelude.{List, ℕ};
ghost use Rattle.sdr_stands.specs.Standing.{StandsForWhole};
ghost use Rattle.sdr_base.specs.Pools.{Pools};
ghost use Rattle.sdr_model.specs.World.{World};
ghost use Rattle.audit_owners.specs.Owned.{AreBytes};
ghost use Rattle.audit_blocks.specs.Region.{IsSound, RegionIsWrongFirst};
ghost use Rattle.audit_blocks.specs.declared.error.Check.{Check};

/// A law: a heap region whose bytes stand for a whole world passes each check of its structure, which finds no place wrong. It does
/// nothing.
pub fn worlds_are_sound()
    ensures sound { (bytes : List ℕ) (w : World) (P : Pools) → StandsForWhole bytes w P →
        AreBytes bytes → IsSound bytes P.small P.large }
    ensures right { (bytes : List ℕ) (w : World) (P : Pools) (why : Check) (place : ℕ) →
        StandsForWhole bytes w P → AreBytes bytes → RegionIsWrongFirst bytes why place → ⊥ }
{}
