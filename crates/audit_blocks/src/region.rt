// What the whole audit of a heap region says of the heap.
ghost use Rattle.std.specs.Prelude.{◌<◌, ◌^◌, All, List, ℕ, length};
ghost use Rattle.sdr_base.specs.Cells.{IsRegionSize};
ghost use Rattle.sdr_base.specs.KeptHeap.{KeepsHeap};
ghost use Rattle.sdr_base.specs.Pools.{PoolBlock, Pools};
ghost use Rattle.audit_blocks.specs.Content.{ContentIsRight};
ghost use Rattle.audit_blocks.specs.Control.{ControlIsRight};
ghost use Rattle.audit_blocks.specs.Region.{IsSound, IsSoundRegion, RegionIsWrongFirst, KeepsBlocks};
ghost use Rattle.audit_blocks.specs.declared.error.Check.{Check};

/// A law: a region with these blocks that passes each check keeps a heap that has just them, and each block in use has what its
/// kind's layout asks. It does nothing.
pub fn sound_regions_keep_heaps()
    ensures { (bytes : List ℕ) (small large : List PoolBlock) →
        IsRegionSize (length bytes) → IsSound bytes small large → KeepsBlocks bytes small large }
{}

/// A law: a region that passes each check isn't wrong by any. It does nothing.
pub fn sound_regions_are_not_wrong()
    ensures { (bytes : List ℕ) (why : Check) (place : ℕ) →
        IsSoundRegion bytes → RegionIsWrongFirst bytes why place → ⊥ }
{}

/// A law: where bytes keep a heap, its blocks, start bits and lists of free blocks are right, so a region whose control words and
/// contents are right besides passes each check. It does nothing.
pub fn kept_heaps_are_sound()
    ensures { (bytes : List ℕ) (P : Pools) → KeepsHeap bytes P → All (λ byte. byte < 2 ^ 8) bytes →
        ControlIsRight bytes → ContentIsRight bytes P.small P.large →
        IsSound bytes P.small P.large }
{}
