// Giving a block back to its pool.
ghost use Rattle.std.specs.Prelude.{◌≡◌, ◌≤◌, length, OnOk, IfErr};
ghost use Rattle.sdr_base.specs.Blocks.{Uses};
ghost use Rattle.sdr_base.specs.Objects.{OnlyFull};
ghost use Rattle.sdr_base.specs.Transaction.{HasReason, TouchesAtMost};
ghost use Rattle.sdr_heap.specs.Calls.{GivesBack};
ghost use Rattle.sdr_base.specs.KeptHeap.{KeepsSomeHeap, block_in};

use sdr_base::control::LOW;
use sdr_base::{Addr, Cells, Stop, WORD, read_number};

/// Gives the block in use at an address back to its pool, which is told by `low`.
pub fn give_back<C: Cells>(c: &mut C, addr: Addr) -> Result<(), Stop>
    requires kept { KeepsSomeHeap (C.bytes c.old) }
    requires used { Uses (block_in (C.bytes c.old)) addr }
    ensures given { OnOk result (GivesBack addr (C.bytes c.old) (C.bytes c.new)) }
    ensures refused { IfErr result OnlyFull }
    ensures size { length (C.bytes c.new) ≡ length (C.bytes c.old) }
    ensures room { TouchesAtMost 20 (C.transaction c.old) (C.transaction c.new) result }
    ensures cause { HasReason (C.transaction c.old) (C.transaction c.new) result }
    ensures quiet { C.quiet c.old c.new }
{
    let low = read_number(c, WORD * LOW)?;
    if addr - WORD < low {
        sdr_small::give(c, addr)
    } else {
        sdr_large::give(c, addr)
    }
}
