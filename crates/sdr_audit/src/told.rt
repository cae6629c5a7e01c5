// The world that a heap tells which keeps one.
ghost use Rattle.std.specs.Prelude.{◌≡◌, List, ℕ};
ghost use Rattle.sdr_stands.specs.Standing.{StandsForWhole};
ghost use Rattle.sdr_base.specs.Pools.{Pools};
ghost use Rattle.sdr_model.specs.World.{World};
ghost use Rattle.audit_owners.specs.Owned.{AreBytes};
ghost use Rattle.audit_world.specs.Told.{world_of};

/// A law: a heap region whose bytes stand for a whole world tells that world. It does nothing.
pub fn worlds_are_told()
    ensures { (bytes : List ℕ) (w : World) (P : Pools) →
        StandsForWhole bytes w P → AreBytes bytes → world_of bytes ≡ w }
{}

/// A law: the bytes of a heap region stand for one whole world at most. It does nothing.
pub fn one_world_stands()
    ensures { (bytes : List ℕ) (w other : World) (P Q : Pools) → AreBytes bytes →
        StandsForWhole bytes w P → StandsForWhole bytes other Q → w ≡ other }
{}
