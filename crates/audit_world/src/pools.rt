// The pools with which a heap region keeps a heap.
ghost use Rattle.std.specs.Prelude.{◌≡◌, ℕ, List};
ghost use Rattle.sdr_base.specs.KeptHeap.{KeepsHeap};
ghost use Rattle.sdr_base.specs.Pools.{Pools};
ghost use Rattle.audit_world.specs.ToldPools.{pools_of};

/// A law: a heap region keeps a heap with no other pools than those that it tells. It does nothing.
pub fn heaps_tell_their_pools()
    ensures { (bytes : List ℕ) (P : Pools) → KeepsHeap bytes P → P ≡ pools_of bytes }
{}
