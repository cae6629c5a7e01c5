// A block of the large pool, and the four words of its frame.
ghost use Rattle.std.specs.Prelude.{◌≡◌, ◌+◌, ◌*◌, ◌-◌, ◌/◌, ◌%◌, ◌≤◌, ◌<◌, ◌^◌, length, OnOk, IfErr};
ghost use Rattle.sdr_base.specs.LargePool.{order_of};
ghost use Rattle.sdr_base.specs.Objects.{OnlyFull};
ghost use Rattle.sdr_base.specs.Transaction.{HasReason, TouchesAtMost};
ghost use Rattle.sdr_large.specs.Frame.{HasFrame};

use sdr_base::control::MOST_ORDER;
use sdr_base::{
    Addr, Cells, LastWord, Stop, WORD, write_bare_leader, write_last_word, write_number,
};

/// A block of the large pool.
#[derive(Clone, Copy)]
pub struct Block {
    /// The address of its first word. Two words of its frame stand before that.
    pub addr: Addr,
    /// How many words it has between those of its frame.
    pub words: u64,
}

/// The order of a block of so many words: the place of its highest bit.
pub fn order_of(words: u64) -> u64
    requires some { 1 ≤ words }
    ensures order { result ≡ order_of words }
    ensures most { result ≤ MOST_ORDER }
{
    u64::from(words.ilog2()).min(MOST_ORDER)
}

/// Writes the frame of a block: a leader with kind 0 and length 0, the next of its list, no block
/// before it, and the last word.
pub fn write_frame<C: Cells>(c: &mut C, block: Block, next: Addr, used: bool) -> Result<(), Stop>
    requires least { 2 * WORD ≤ block.addr }
    requires whole { block.addr % WORD ≡ 0 }
    requires words { block.words < 2 ^ 24 }
    requires small { block.addr < 2 ^ 32 }
    requires inside { block.addr + WORD * block.words + 2 * WORD ≤ length (C.bytes c.old) }
    ensures frame { OnOk result
        (HasFrame used block.words block.addr next (C.bytes c.old) (C.bytes c.new)) }
    ensures refused { IfErr result OnlyFull }
    ensures size { length (C.bytes c.new) ≡ length (C.bytes c.old) }
    ensures room { TouchesAtMost 4 (C.transaction c.old) (C.transaction c.new) result }
    ensures cause { HasReason (C.transaction c.old) (C.transaction c.new) result }
    ensures quiet { C.quiet c.old c.new }
{
    let words = block.words;
    write_bare_leader(c, block.addr - 2 * WORD, words)?;
    write_number(c, block.addr - WORD, next)?;
    write_number(c, block.addr + WORD * words, 0)?;
    write_last_word(
        c,
        block.addr + WORD * words + WORD,
        LastWord { used, words },
    )
}
