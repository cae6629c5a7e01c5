// Choosing a block for a request.
ghost use Rattle.std.specs.Prelude.{◌≡◌, ◌≤◌, length, IfOk, IfErr};
ghost use Rattle.sdr_base.specs.Objects.{OnlyFull};
ghost use Rattle.sdr_base.specs.Transaction.{HasReason, NoneLeaves, TouchesAtMost};
ghost use Rattle.sdr_heap.specs.Calls.{Chooses};
ghost use Rattle.sdr_base.specs.KeptHeap.{KeepsSomeHeap};

use sdr_base::{Addr, Cells, Stop};

/// Takes the block that the rule gives for so many words, and answers its address, or `None` where
/// the rule gives none. The block has no kind and no length yet, and holds what it held.
pub fn choose<C: Cells>(c: &mut C, words: u64) -> Result<Option<Addr>, Stop>
    requires some { 1 ≤ words }
    requires kept { KeepsSomeHeap (C.bytes c.old) }
    ensures chosen { IfOk result (λ found. Chooses words found (C.bytes c.old) (C.bytes c.new)) }
    ensures refused { IfErr result OnlyFull }
    ensures size { length (C.bytes c.new) ≡ length (C.bytes c.old) }
    ensures room { TouchesAtMost 19 (C.transaction c.old) (C.transaction c.new) result }
    ensures none { NoneLeaves (C.transaction c.old) (C.transaction c.new) result }
    ensures cause { HasReason (C.transaction c.old) (C.transaction c.new) result }
    ensures quiet { C.quiet c.old c.new }
{
    match sdr_small::take(c, words)? {
        Some(addr) => Ok(Some(addr)),
        None => sdr_large::take(c, words),
    }
}
