// What a disk that was formatted keeps.
ghost use Rattle.std.specs.Prelude.{ℕ, List};
ghost use Rattle.sdr_base.specs.KeptPools.{KeepsSomeSmall};
ghost use Rattle.sdr_base.specs.Pools.{fresh_pools};
ghost use Rattle.sdr_base.specs.KeptHeap.{KeepsHeap};
ghost use Rattle.law_formatted.specs.Formatted.{GivesFormatted, KeepsNothing};
ghost use Rattle.sdr_large.specs.Both.{KeepsBoth};
ghost use Rattle.sdr_log.specs.declared.frame.Frame.{Frame};

/// A law: the heap that a disk gives once it was formatted keeps a small pool, both pools, and a heap
/// without a block. In its region no block is in use, and no ticket waits. It does nothing.
pub fn formatted_keeps()
    ensures small { (f : Frame) (disk bytes : List ℕ) →
        GivesFormatted f disk bytes → KeepsSomeSmall bytes }
    ensures both { (f : Frame) (disk bytes : List ℕ) →
        GivesFormatted f disk bytes → KeepsBoth bytes }
    ensures heap { (f : Frame) (disk bytes : List ℕ) →
        GivesFormatted f disk bytes → KeepsHeap bytes (fresh_pools f.heap_lines) }
    ensures nothing { (f : Frame) (disk bytes : List ℕ) →
        GivesFormatted f disk bytes → KeepsNothing f.heap_lines bytes }
{}
