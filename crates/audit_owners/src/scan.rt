// The blocks in use of a heap region, one after another.
ghost use Rattle.std.specs.Prelude.{◌≡◌, ◌≤◌, ◌<◌, ◌+◌, ◌/◌, ◌==◌, ℕ, false, true, length, IfSome, None};
ghost use Rattle.sdr_base.specs.Cells.{IsRegionSize};
ghost use Rattle.sdr_base.specs.Stored.{start_bit};
ghost use Rattle.sdr_base.specs.declared.line.TheConstants.{START_BITS, WORD};
ghost use Rattle.audit_owners.specs.Scan.{HasNoBlock, HasNoStart, HasNoneOf, IsNextBlock, IsNextOf, LeadsNone};

use crate::region::{find, has_start_bit, have_number, is_one_of};
use sdr_base::{Kind, START_BITS, WORD};

// The word at which to look behind one whose start bit is clear: where the whole byte of its start bit is 0, the first of the next byte.
fn word_behind(heap: &[u8], word: u64) -> u64
    requires region { IsRegionSize (length heap.now) }
    requires inside { word < length heap.now / WORD }
    ensures onward { word < result }
    ensures most { result ≤ length heap.now / WORD }
    ensures clear { (start_bit word heap.now == 1) ≡ false → HasNoStart heap.now word result }
{
    if heap[(START_BITS + word / 8) as usize] == 0 {
        8 * (word / 8 + 1)
    } else {
        word + 1
    }
}

// The first word, from one on, whose start bit is set; the region's words where there is none.
fn next_start(heap: &[u8], from: u64) -> u64
    requires region { IsRegionSize (length heap.now) }
    ensures set { result < length heap.now / WORD → (start_bit result heap.now == 1) ≡ true }
    ensures onward { from ≤ result }
    ensures most { from ≤ length heap.now / WORD → result ≤ length heap.now / WORD }
    ensures clear { HasNoStart heap.now from result }
{
    let words = heap.len() as u64 / WORD;
    let mut word = from;
    while word < words && !has_start_bit(heap, word) {
        word = word_behind(heap, word);
    }
    word
}

/// The number of the first word, from one on, at whose place a block in use has its address; `None` where there is none. Words
/// without start bits are passed over by eight.
pub fn next_block(heap: &[u8], from: u64) -> Option<u64>
    requires region { IsRegionSize (length heap.now) }
    ensures next { IfSome result (IsNextBlock heap.now from) }
    ensures none { result ≡ None → (word : ℕ) → from ≤ word → HasNoBlock heap.now word }
{
    let words = heap.len() as u64 / WORD;
    let mut word = from;
    while word < words {
        if find(heap, WORD * word).is_some() {
            return Some(word);
        }
        let start = next_start(heap, word.saturating_sub(1));
        word = start.max(word) + 1;
    }
    None
}

// The first word, from one on, with which the leader of a block of one of these kinds begins; the region's words where there is none.
fn next_leader(heap: &[u8], from: u64, kinds: &[Kind]) -> u64
    requires region { IsRegionSize (length heap.now) }
    ensures onward { from ≤ result }
    ensures most { from ≤ length heap.now / WORD → result ≤ length heap.now / WORD }
    ensures clear { LeadsNone kinds.now heap.now from result }
{
    let words = heap.len() as u64 / WORD;
    let mut word = next_start(heap, from);
    while word < words && !have_number(kinds, heap[(WORD * word) as usize]) {
        word = next_start(heap, word + 1);
    }
    word
}

/// The number of the first word, from one on, at whose place a block in use of one of these kinds has its address; `None` where there
/// is none. Blocks of other kinds are passed over by the first byte of their leader.
pub fn next_of(heap: &[u8], from: u64, kinds: &[Kind]) -> Option<u64>
    requires region { IsRegionSize (length heap.now) }
    ensures next { IfSome result (IsNextOf kinds.now heap.now from) }
    ensures none { result ≡ None → (word : ℕ) → from ≤ word → HasNoneOf kinds.now heap.now word }
{
    let words = heap.len() as u64 / WORD;
    let mut word = from;
    while word < words {
        if is_one_of(heap, WORD * word, kinds) {
            return Some(word);
        }
        let leader = next_leader(heap, word.saturating_sub(1), kinds);
        word = leader.max(word) + 1;
    }
    None
}
