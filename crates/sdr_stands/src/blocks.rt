// The blocks in use.
ghost use Rattle.std.specs.Prelude.{◌≡◌, ℕ, List, map};
ghost use Rattle.sdr_stands.specs.Shape.{shape, shape_of};
ghost use Rattle.sdr_stands.specs.Standing.{HeapStandsFor, StandsFor, entries_of};
ghost use Rattle.sdr_base.specs.Blocks.{kind_length};
ghost use Rattle.sdr_base.specs.KeptHeap.{block_in};
ghost use Rattle.sdr_base.specs.Objects.{Heap};
ghost use Rattle.sdr_base.specs.Pools.{Pools};
ghost use Rattle.sdr_model.specs.Blocks.{blocks_of};
ghost use Rattle.sdr_model.specs.Things.{block_among};
ghost use Rattle.sdr_model.specs.Valid.{IsValid};
ghost use Rattle.sdr_model.specs.World.{World};

/// A law: where bytes or a heap stand for a valid world, the blocks in use are just the world's, by address, kind
/// and length: none of them belongs to nothing, and none of the world's is missing. It does nothing.
pub fn no_block_leaks()
    ensures shapes { (w : World) → IsValid w → map shape (entries_of w) ≡ blocks_of w }
    ensures at_rest { (bytes : List ℕ) (w : World) (P : Pools) (addr : ℕ) →
        StandsFor bytes w P → IsValid w →
        kind_length (block_in bytes addr) ≡ shape_of (block_among addr (blocks_of w)) }
    ensures in_transaction { (heap : Heap) (w : World) (addr : ℕ) →
        HeapStandsFor heap w → IsValid w →
        kind_length (heap.blocks addr) ≡ shape_of (block_among addr (blocks_of w)) }
{}
