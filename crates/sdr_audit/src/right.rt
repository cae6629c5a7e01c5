// Counts, occupancies and queues of a heap that keeps a world.
ghost use Rattle.std.specs.Prelude.{List, ℕ};
ghost use Rattle.sdr_stands.specs.Standing.{StandsForWhole};
ghost use Rattle.sdr_base.specs.Pools.{Pools};
ghost use Rattle.audit_counts.specs.Checked.{IsRightRegion, CountsAreWrongFirst};
ghost use Rattle.audit_blocks.specs.declared.error.Check.{Check};
ghost use Rattle.sdr_model.specs.World.{World};
ghost use Rattle.audit_owners.specs.Owned.{AreBytes};

/// A law: in a heap region whose bytes stand for a whole world, lists, hashes and names, counts of sources, the rules of sources,
/// extents and objects, what is occupied, and the queues are right, and the audit of these finds no place wrong. It does nothing.
pub fn worlds_are_right()
    ensures right { (bytes : List ℕ) (w : World) (P : Pools) →
        StandsForWhole bytes w P → AreBytes bytes → IsRightRegion bytes }
    ensures not_wrong { (bytes : List ℕ) (w : World) (P : Pools) (why : Check) (place : ℕ) →
        StandsForWhole bytes w P → AreBytes bytes → CountsAreWrongFirst bytes why place → ⊥ }
{}
