// A free block leaves its list, or becomes its front.
ghost use Rattle.std.specs.Prelude.{◌≡◌, ◌≢◌, ◌+◌, ◌*◌, ◌-◌, ◌/◌, ◌%◌, ◌≤◌, ◌<◌, ◌^◌, length, false, OnOk, IfErr};
ghost use Rattle.sdr_base.specs.Objects.{OnlyFull};
ghost use Rattle.sdr_base.specs.Stored.{with_number};
ghost use Rattle.sdr_base.specs.Transaction.{HasReason, TouchesAtMost};
ghost use Rattle.sdr_large.specs.Steps.{link_place, with_before, ReachesBack, HoldsFree, HoldsGap};
ghost use Rattle.sdr_large.specs.Steps.{Unlinks, PutsUsed, PutsFree};

use crate::block::{Block, order_of, write_frame};
use sdr_base::control::{LARGE_LISTS, MOST_ORDER};
use sdr_base::{
    Addr, Cells, Stop, WORD, read_leader_words, read_number, set_start_bit, write_number,
};

/// Takes a free block out of its list: the block before it and the next are neighbours there.
pub fn unlink<C: Cells>(c: &mut C, block: Block) -> Result<(), Stop>
    requires free { HoldsFree block.words block.addr (C.bytes c.old) }
    ensures unlinked { OnOk result
        (Unlinks block.words block.addr (C.bytes c.old) (C.bytes c.new)) }
    ensures refused { IfErr result OnlyFull }
    ensures size { length (C.bytes c.new) ≡ length (C.bytes c.old) }
    ensures room { TouchesAtMost 2 (C.transaction c.old) (C.transaction c.new) result }
    ensures cause { HasReason (C.transaction c.old) (C.transaction c.new) result }
    ensures quiet { C.quiet c.old c.new }
{
    let next = read_number(c, block.addr - WORD)?;
    let before = read_number(c, block.addr + WORD * block.words)?;
    link_before(c, next, before)?;
    link_next(c, order_of(block.words), before, next)
}

/// Puts a block in use into a gap.
pub fn put_used<C: Cells>(c: &mut C, block: Block) -> Result<(), Stop>
    requires gap { HoldsGap block.words block.addr (C.bytes c.old) }
    ensures put { OnOk result
        (PutsUsed block.words block.addr (C.bytes c.old) (C.bytes c.new)) }
    ensures refused { IfErr result OnlyFull }
    ensures size { length (C.bytes c.new) ≡ length (C.bytes c.old) }
    ensures room { TouchesAtMost 5 (C.transaction c.old) (C.transaction c.new) result }
    ensures cause { HasReason (C.transaction c.old) (C.transaction c.new) result }
    ensures quiet { C.quiet c.old c.new }
{
    write_frame(c, block, 0, true)?;
    set_start_bit(c, (block.addr - 2 * WORD) / WORD)
}

/// Puts a free block into a gap, as the front of the list of its order.
pub fn put_free<C: Cells>(c: &mut C, block: Block) -> Result<(), Stop>
    requires gap { HoldsGap block.words block.addr (C.bytes c.old) }
    ensures put { OnOk result
        (PutsFree block.words block.addr (C.bytes c.old) (C.bytes c.new)) }
    ensures refused { IfErr result OnlyFull }
    ensures size { length (C.bytes c.new) ≡ length (C.bytes c.old) }
    ensures room { TouchesAtMost 6 (C.transaction c.old) (C.transaction c.new) result }
    ensures cause { HasReason (C.transaction c.old) (C.transaction c.new) result }
    ensures quiet { C.quiet c.old c.new }
{
    let order = order_of(block.words);
    let front = read_number(c, WORD * (LARGE_LISTS + order))?;
    link_before(c, front, block.addr)?;
    link_next(c, order, 0, block.addr)?;
    write_frame(c, block, front, false)
}

// Makes a block, or 0, the next of the one before it, or the front of the list of an order.
fn link_next<C: Cells>(c: &mut C, order: u64, before: Addr, next: Addr) -> Result<(), Stop>
    requires order { order ≤ MOST_ORDER }
    requires whole { before % WORD ≡ 0 }
    requires control { 1024 ≤ length (C.bytes c.old) }
    requires inside { before ≢ 0 → WORD ≤ before }
    requires within { before ≤ length (C.bytes c.old) }
    ensures written { OnOk result
        (C.bytes c.new ≡ with_number (link_place order before) next (C.bytes c.old)) }
    ensures refused { IfErr result OnlyFull }
    ensures size { length (C.bytes c.new) ≡ length (C.bytes c.old) }
    ensures room { TouchesAtMost 1 (C.transaction c.old) (C.transaction c.new) result }
    ensures cause { HasReason (C.transaction c.old) (C.transaction c.new) result }
    ensures quiet { C.quiet c.old c.new }
{
    if before == 0 {
        write_number(c, WORD * (LARGE_LISTS + order), next)
    } else {
        write_number(c, before - WORD, next)
    }
}

// Makes a block, or 0, the one before the next, where there is a next.
fn link_before<C: Cells>(c: &mut C, next: Addr, before: Addr) -> Result<(), Stop>
    requires works { (C.transaction c.old).failed ≡ false }
    requires whole { next % WORD ≡ 0 }
    requires reaches { next ≢ 0 → ReachesBack next (C.bytes c.old) }
    requires small { next < 2 ^ 32 }
    ensures written { OnOk result
        (C.bytes c.new ≡ with_before next before (C.bytes c.old)) }
    ensures refused { IfErr result OnlyFull }
    ensures size { length (C.bytes c.new) ≡ length (C.bytes c.old) }
    ensures room { TouchesAtMost 1 (C.transaction c.old) (C.transaction c.new) result }
    ensures cause { HasReason (C.transaction c.old) (C.transaction c.new) result }
    ensures quiet { C.quiet c.old c.new }
{
    if next == 0 {
        return Ok(());
    }
    let words = read_leader_words(c, next - 2 * WORD)?;
    write_number(c, next + WORD * words, before)
}
