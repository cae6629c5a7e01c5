// The owners of a world's blocks.
ghost use Rattle.std.specs.Prelude.{List, ℕ};
ghost use Rattle.sdr_stands.specs.Standing.{StandsForWhole};
ghost use Rattle.sdr_base.specs.Pools.{Pools};
ghost use Rattle.sdr_model.specs.World.{World};
ghost use Rattle.audit_owners.specs.Owned.{IsOwnedRegion, IsWrongRegion};

/// A law: a heap region whose bytes stand for a whole world passes the audit of owners, which finds no place wrong. It does nothing.
pub fn worlds_are_owned()
    ensures owned { (bytes : List ℕ) (w : World) (P : Pools) →
        StandsForWhole bytes w P → IsOwnedRegion bytes }
    ensures right { (bytes : List ℕ) (w : World) (P : Pools) (place : ℕ) →
        StandsForWhole bytes w P → IsWrongRegion bytes place → ⊥ }
{}
