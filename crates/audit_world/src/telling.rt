// What a heap region that passes the audit stands for.
ghost use Rattle.std.specs.Prelude.{ℕ, List, length};
ghost use Rattle.sdr_stands.specs.Standing.{StandsFor};
ghost use Rattle.sdr_base.specs.Cells.{IsRegionSize};
ghost use Rattle.audit_counts.specs.Checked.{IsRightRegion};
ghost use Rattle.audit_owners.specs.Owned.{AreBytes};
ghost use Rattle.audit_world.specs.Standing.{IsCounted, StandsAsTold};
ghost use Rattle.audit_world.specs.Told.{world_of};
ghost use Rattle.audit_world.specs.ToldPools.{pools_of};
ghost use Rattle.audit_blocks.specs.Region.{IsSoundRegion};

/// A law: a region that passes the audit up to counts stands for `world_of` its bytes, with the pools `pools_of`. It does
/// nothing.
pub fn counted_heaps_stand_for_worlds()
    ensures { (bytes : List ℕ) → IsCounted bytes →
        StandsFor bytes (world_of bytes) (pools_of bytes) }
{}

/// A law: a heap region that passes each check of its structure, and whose owners, counts and queues are right, stands for the
/// world that it tells, with the pools that it tells; the world is whole, and its numbers fit the fields of blocks. It does nothing.
pub fn passing_regions_stand_for_worlds()
    ensures { (bytes : List ℕ) → IsRegionSize (length bytes) → AreBytes bytes → IsSoundRegion bytes →
        IsRightRegion bytes → StandsAsTold bytes }
{}
