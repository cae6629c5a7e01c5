// The free block that a request gets.
ghost use Rattle.std.specs.Prelude.{◌≡◌, ◌≢◌, ◌+◌, ◌*◌, ◌-◌, ◌/◌, ◌≤◌, ◌<◌, length, false, IfOk};
ghost use Rattle.sdr_base.specs.Stored.{leader_words};
ghost use Rattle.sdr_base.specs.KeptLarge.{KeepsSomeLarge};
ghost use Rattle.sdr_base.specs.Transaction.{HasReason, TouchesNone};
ghost use Rattle.sdr_large.specs.Steps.{FindsIn, FindsAbove, Finds, HasLeader};

use crate::block::{Block, order_of};
use sdr_base::control::{LARGE_LISTS, MOST_ORDER};
use sdr_base::{Addr, Cells, Stop, WORD, read_leader_words, read_number};

/// A large block takes so many bytes at least: a word, and its frame.
const LEAST_BYTES: u64 = 40;

/// The free block that a request for so many words gets: the first of the list of their order that
/// has as many, or else the front of the first higher list that isn't empty.
pub fn find<C: Cells>(c: &mut C, words: u64) -> Result<Option<Block>, Stop>
    requires some { 1 ≤ words }
    requires pools { KeepsSomeLarge (C.bytes c.old) }
    ensures found { IfOk result (λ found. Finds words found (C.bytes c.old)) }
    ensures same { C.bytes c.new ≡ C.bytes c.old }
    ensures room { TouchesNone (C.transaction c.old) (C.transaction c.new) result }
    ensures cause { HasReason (C.transaction c.old) (C.transaction c.new) result }
    ensures quiet { C.quiet c.old c.new }
{
    let order = order_of(words);
    match first_with(c, order, words)? {
        Some(block) => Ok(Some(block)),
        None => first_above(c, order),
    }
}

// The first block of the list of an order that has so many words.
fn first_with<C: Cells>(c: &mut C, order: u64, words: u64) -> Result<Option<Block>, Stop>
    requires order { order ≤ MOST_ORDER }
    requires pools { KeepsSomeLarge (C.bytes c.old) }
    ensures found { IfOk result (λ found. FindsIn order words found (C.bytes c.old)) }
    ensures same { C.bytes c.new ≡ C.bytes c.old }
    ensures room { TouchesNone (C.transaction c.old) (C.transaction c.new) result }
    ensures cause { HasReason (C.transaction c.old) (C.transaction c.new) result }
    ensures quiet { C.quiet c.old c.new }
{
    let mut addr = read_number(c, WORD * (LARGE_LISTS + order))?;
    for _ in 0..c.size() / LEAST_BYTES {
        if addr == 0 {
            return Ok(None);
        }
        let block = block_at(c, addr)?;
        if words <= block.words {
            return Ok(Some(block));
        }
        addr = read_number(c, addr - WORD)?;
    }
    Ok(None)
}

// The front of the first list above an order that isn't empty.
fn first_above<C: Cells>(c: &mut C, order: u64) -> Result<Option<Block>, Stop>
    requires order { order ≤ MOST_ORDER }
    requires works { (C.transaction c.old).failed ≡ false }
    requires pools { KeepsSomeLarge (C.bytes c.old) }
    ensures found { IfOk result (λ found. FindsAbove order found (C.bytes c.old)) }
    ensures same { C.bytes c.new ≡ C.bytes c.old }
    ensures room { TouchesNone (C.transaction c.old) (C.transaction c.new) result }
    ensures cause { HasReason (C.transaction c.old) (C.transaction c.new) result }
    ensures quiet { C.quiet c.old c.new }
{
    for higher in order + 1..MOST_ORDER + 1 {
        let addr = read_number(c, WORD * (LARGE_LISTS + higher))?;
        if addr != 0 {
            return Ok(Some(block_at(c, addr)?));
        }
    }
    Ok(None)
}

// The block at an address, by its leader.
fn block_at<C: Cells>(c: &mut C, addr: Addr) -> Result<Block, Stop>
    requires least { 2 * WORD ≤ addr }
    requires inside { addr ≤ length (C.bytes c.old) }
    ensures block { IfOk result (λ block. HasLeader block addr (C.bytes c.old)) }
    ensures same { C.bytes c.new ≡ C.bytes c.old }
    ensures room { TouchesNone (C.transaction c.old) (C.transaction c.new) result }
    ensures cause { HasReason (C.transaction c.old) (C.transaction c.new) result }
    ensures quiet { C.quiet c.old c.new }
{
    let words = read_leader_words(c, addr - 2 * WORD)?;
    Ok(Block { addr, words })
}
