// Giving a block back to the large pool.
ghost use Rattle.std.specs.Prelude.{◌≡◌, ◌+◌, ◌*◌, ◌-◌, ◌/◌, ◌≤◌, ◌<◌, length, false, IfOk, OnOk, IfErr};
ghost use Rattle.sdr_base.specs.Objects.{OnlyFull};
ghost use Rattle.sdr_base.specs.Transaction.{HasReason, TouchesAtMost};
ghost use Rattle.sdr_base.specs.KeptLarge.{KeepsSomeLarge};
ghost use Rattle.sdr_large.specs.Calls.{KeepsUsedLarge, KeepsOthers, GivesLarge};
ghost use Rattle.sdr_large.specs.Giving.{HoldsLoose, Loosens, JoinsBelow, JoinsAbove, SetsFree};

use crate::block::Block;
use crate::links::{put_free, unlink};
use sdr_base::control::{HIGH, LARGE_FRAME};
use sdr_base::{
    Addr, Cells, Stop, WORD, clear_start_bit, read_last_word, read_leader_words, read_number,
    write_number,
};

/// Gives back the block at an address, which is in use. Together with the free blocks that touch it,
/// it becomes the front of the list of its order, or where it begins at `high`, unassigned space.
pub fn give<C: Cells>(c: &mut C, addr: Addr) -> Result<(), Stop>
    requires used { KeepsUsedLarge addr (C.bytes c.old) }
    ensures given { OnOk result (GivesLarge addr (C.bytes c.old) (C.bytes c.new)) }
    ensures kept { OnOk result (KeepsSomeLarge (C.bytes c.new)) }
    ensures others { OnOk result (KeepsOthers addr (C.bytes c.old) (C.bytes c.new)) }
    ensures refused { IfErr result OnlyFull }
    ensures size { length (C.bytes c.new) ≡ length (C.bytes c.old) }
    ensures room { TouchesAtMost 20 (C.transaction c.old) (C.transaction c.new) result }
    ensures cause { HasReason (C.transaction c.old) (C.transaction c.new) result }
    ensures quiet { C.quiet c.old c.new }
{
    let own = loosen(c, addr)?;
    let upper = join_below(c, own)?;
    let whole = join_above(c, upper)?;
    set_free(c, whole)
}

// Takes a block out of use.
fn loosen<C: Cells>(c: &mut C, addr: Addr) -> Result<Block, Stop>
    requires used { KeepsUsedLarge addr (C.bytes c.old) }
    ensures loose { IfOk result (λ block. Loosens addr block (C.bytes c.old) (C.bytes c.new)) }
    ensures refused { IfErr result OnlyFull }
    ensures size { length (C.bytes c.new) ≡ length (C.bytes c.old) }
    ensures room { TouchesAtMost 1 (C.transaction c.old) (C.transaction c.new) result }
    ensures cause { HasReason (C.transaction c.old) (C.transaction c.new) result }
    ensures quiet { C.quiet c.old c.new }
{
    let words = read_leader_words(c, addr - 2 * WORD)?;
    clear_start_bit(c, (addr - 2 * WORD) / WORD)?;
    Ok(Block { addr, words })
}

// Joins a loose block with the one below, where that is free.
fn join_below<C: Cells>(c: &mut C, block: Block) -> Result<Block, Stop>
    requires loose { HoldsLoose block (C.bytes c.old) }
    ensures joined { IfOk result (λ joined.
        JoinsBelow block joined (C.bytes c.old) (C.bytes c.new)) }
    ensures refused { IfErr result OnlyFull }
    ensures size { length (C.bytes c.new) ≡ length (C.bytes c.old) }
    ensures room { TouchesAtMost 2 (C.transaction c.old) (C.transaction c.new) result }
    ensures cause { HasReason (C.transaction c.old) (C.transaction c.new) result }
    ensures quiet { C.quiet c.old c.new }
{
    let begin = block.addr - 2 * WORD;
    let high = read_number(c, WORD * HIGH)?;
    if begin == high {
        return Ok(block);
    }
    let last = read_last_word(c, begin - WORD)?;
    if last.used {
        return Ok(block);
    }
    let below = Block {
        addr: begin - WORD * last.words - 2 * WORD,
        words: last.words,
    };
    unlink(c, below)?;
    Ok(Block {
        addr: below.addr,
        words: below.words + LARGE_FRAME + block.words,
    })
}

// Joins a loose block with the one above, where that is free.
fn join_above<C: Cells>(c: &mut C, block: Block) -> Result<Block, Stop>
    requires loose { HoldsLoose block (C.bytes c.old) }
    requires works { (C.transaction c.old).failed ≡ false }
    ensures joined { IfOk result (λ joined.
        JoinsAbove block joined (C.bytes c.old) (C.bytes c.new)) }
    ensures refused { IfErr result OnlyFull }
    ensures size { length (C.bytes c.new) ≡ length (C.bytes c.old) }
    ensures room { TouchesAtMost 2 (C.transaction c.old) (C.transaction c.new) result }
    ensures cause { HasReason (C.transaction c.old) (C.transaction c.new) result }
    ensures quiet { C.quiet c.old c.new }
{
    let end = block.addr + WORD * block.words + 2 * WORD;
    if end == c.size() {
        return Ok(block);
    }
    let words = read_leader_words(c, end)?;
    let last = read_last_word(c, end + WORD * words + 3 * WORD)?;
    if last.used {
        return Ok(block);
    }
    let above = Block {
        addr: end + 2 * WORD,
        words,
    };
    unlink(c, above)?;
    Ok(Block {
        addr: block.addr,
        words: block.words + LARGE_FRAME + above.words,
    })
}

// Makes a loose block free, or unassigned where it begins at `high`.
fn set_free<C: Cells>(c: &mut C, block: Block) -> Result<(), Stop>
    requires loose { HoldsLoose block (C.bytes c.old) }
    ensures put { OnOk result (SetsFree block (C.bytes c.old) (C.bytes c.new)) }
    ensures refused { IfErr result OnlyFull }
    ensures size { length (C.bytes c.new) ≡ length (C.bytes c.old) }
    ensures room { TouchesAtMost 6 (C.transaction c.old) (C.transaction c.new) result }
    ensures cause { HasReason (C.transaction c.old) (C.transaction c.new) result }
    ensures quiet { C.quiet c.old c.new }
{
    let high = read_number(c, WORD * HIGH)?;
    if block.addr == high + 2 * WORD {
        return write_number(c, WORD * HIGH, block.addr + WORD * block.words + 2 * WORD);
    }
    put_free(c, block)
}
