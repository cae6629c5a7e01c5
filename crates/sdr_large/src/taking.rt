// Taking a block from the large pool.
ghost use Rattle.std.specs.Prelude.{◌≡◌, ◌+◌, ◌*◌, ◌-◌, ◌≤◌, ◌<◌, length, Some, IfOk, OnOk, IfErr};
ghost use Rattle.sdr_base.specs.Objects.{OnlyFull};
ghost use Rattle.sdr_base.specs.Transaction.{HasReason, NoneLeaves, TouchesAtMost};
ghost use Rattle.sdr_base.specs.KeptLarge.{KeepsSomeLarge};
ghost use Rattle.sdr_large.specs.Calls.{TakesLarge, TakesNew, IsGiveable, KeepsOthers, CanCut, Cuts};

use crate::block::Block;
use crate::finding::find;
use crate::links::{put_free, put_used, unlink};
use sdr_base::control::{HIGH, LARGE_FRAME, LEAST_REST, LOW};
use sdr_base::{Addr, Cells, Stop, WORD, read_number, write_number};

/// More words than any heap region has.
const TOO_MANY: u64 = 1 << 24;

/// Takes the block of so many words or more that the large pool gives, and answers its address, or
/// `None` where the pool gives none. The block's leader has kind 0 and length 0, and its words hold
/// what they held. `None` writes nothing.
pub fn take<C: Cells>(c: &mut C, words: u64) -> Result<Option<Addr>, Stop>
    requires some { 1 ≤ words }
    requires pools { KeepsSomeLarge (C.bytes c.old) }
    ensures taken { IfOk result (λ found. TakesLarge words found (C.bytes c.old) (C.bytes c.new)) }
    ensures used { IfOk result (λ found. IsGiveable found (C.bytes c.new)) }
    ensures kept { OnOk result (KeepsSomeLarge (C.bytes c.new)) }
    ensures others { OnOk result (KeepsOthers 0 (C.bytes c.old) (C.bytes c.new)) }
    ensures refused { IfErr result OnlyFull }
    ensures size { length (C.bytes c.new) ≡ length (C.bytes c.old) }
    ensures room { TouchesAtMost 13 (C.transaction c.old) (C.transaction c.new) result }
    ensures none { NoneLeaves (C.transaction c.old) (C.transaction c.new) result }
    ensures cause { HasReason (C.transaction c.old) (C.transaction c.new) result }
    ensures quiet { C.quiet c.old c.new }
{
    match find(c, words)? {
        Some(block) => {
            take_cut(c, words, block)?;
            Ok(Some(block.addr))
        }
        None => take_new(c, words),
    }
}

// Takes so many words of a free block: all of it, where less than 12 words would be left, and else
// its low end.
fn take_cut<C: Cells>(c: &mut C, words: u64, block: Block) -> Result<(), Stop>
    requires cut { CanCut words block.words block.addr (C.bytes c.old) }
    ensures cut { OnOk result
        (Cuts words block.words block.addr (C.bytes c.old) (C.bytes c.new)) }
    ensures refused { IfErr result OnlyFull }
    ensures size { length (C.bytes c.new) ≡ length (C.bytes c.old) }
    ensures room { TouchesAtMost 13 (C.transaction c.old) (C.transaction c.new) result }
    ensures cause { HasReason (C.transaction c.old) (C.transaction c.new) result }
    ensures quiet { C.quiet c.old c.new }
{
    unlink(c, block)?;
    if block.words < words + LEAST_REST {
        return put_used(c, block);
    }
    let low = Block {
        addr: block.addr,
        words,
    };
    put_used(c, low)?;
    let rest = Block {
        addr: block.addr + WORD * (LARGE_FRAME + words),
        words: block.words - words - LARGE_FRAME,
    };
    put_free(c, rest)
}

// Takes a new block that ends at `high`, where it begins at `low` or above.
fn take_new<C: Cells>(c: &mut C, words: u64) -> Result<Option<Addr>, Stop>
    requires some { 1 ≤ words }
    requires pools { KeepsSomeLarge (C.bytes c.old) }
    ensures taken { IfOk result (λ found. TakesNew words found (C.bytes c.old) (C.bytes c.new)) }
    ensures refused { IfErr result OnlyFull }
    ensures size { length (C.bytes c.new) ≡ length (C.bytes c.old) }
    ensures room { TouchesAtMost 6 (C.transaction c.old) (C.transaction c.new) result }
    ensures none { NoneLeaves (C.transaction c.old) (C.transaction c.new) result }
    ensures cause { HasReason (C.transaction c.old) (C.transaction c.new) result }
    ensures quiet { C.quiet c.old c.new }
{
    let low = read_number(c, WORD * LOW)?;
    let high = read_number(c, WORD * HIGH)?;
    if words >= TOO_MANY || high < low + WORD * (LARGE_FRAME + words) {
        return Ok(None);
    }
    let high = high - WORD * (LARGE_FRAME + words);
    write_number(c, WORD * HIGH, high)?;
    let addr = high + 2 * WORD;
    put_used(c, Block { addr, words })?;
    Ok(Some(addr))
}
