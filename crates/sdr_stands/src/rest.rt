// Heaps between transactions, and in one.
ghost use Rattle.std.specs.Prelude.{◌≡◌, ℕ, [], false, List};
ghost use Rattle.sdr_stands.specs.Standing.{HeapStandsFor, StandsFor};
ghost use Rattle.sdr_base.specs.KeptHeap.{KeepsHeap, block_in, root_in};
ghost use Rattle.sdr_base.specs.Objects.{Heap};
ghost use Rattle.sdr_base.specs.Pools.{Pools};
ghost use Rattle.sdr_model.specs.World.{World, at_rest};

/// A law: where bytes stand for a world, the heap of these bytes without marks does; and where a heap stands for a
/// world in which no block is counted as taken, its bytes stand for that world at rest. It does nothing.
pub fn transactions_begin_and_end()
    ensures begins { (bytes : List ℕ) (heap : Heap) (w : World) (P : Pools) →
        StandsFor bytes w P → heap.blocks ≡ block_in bytes → heap.roots ≡ root_in bytes →
        ((addr : ℕ) → heap.marks addr ≡ false) → HeapStandsFor heap w }
    ensures ends { (bytes : List ℕ) (heap : Heap) (w : World) (P : Pools) →
        HeapStandsFor heap w → heap.blocks ≡ block_in bytes → heap.roots ≡ root_in bytes →
        KeepsHeap bytes P → w.taken ≡ 0 → StandsFor bytes (at_rest w) P }
{}
