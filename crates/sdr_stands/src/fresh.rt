// The fresh heap.
ghost use Rattle.std.specs.Prelude.{◌≤◌, ℕ, ◌*◌};
ghost use Rattle.sdr_stands.specs.Standing.{StandsForWhole};
ghost use Rattle.sdr_base.specs.FreshHeap.{fresh_heap};
ghost use Rattle.sdr_base.specs.Pools.{fresh_pools};
ghost use Rattle.sdr_base.specs.declared.line.TheConstants.{LEAST_LINES, MOST_LINES};
ghost use Rattle.sdr_model.specs.Fields.{FitsFields};
ghost use Rattle.sdr_model.specs.Valid.{IsValid};
ghost use Rattle.sdr_model.specs.World.{fresh_world};

/// A law: the fresh heap of so many lines stands for the world without things, in which each account may occupy
/// 32 bytes of heap space for each line, and the next ticket is number 1. That world is whole, and its numbers fit
/// the fields of blocks. It does nothing.
pub fn fresh_heap_stands()
    ensures stands { (lines : ℕ) → LEAST_LINES ≤ lines → lines ≤ MOST_LINES →
        StandsForWhole (fresh_heap lines) (fresh_world (32 * lines)) (fresh_pools lines) }
    ensures valid { (lines : ℕ) → IsValid (fresh_world (32 * lines)) }
    ensures fits { (lines : ℕ) → FitsFields (fresh_world (32 * lines)) }
{}
