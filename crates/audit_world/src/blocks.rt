// The bytes of blocks in use.
ghost use Rattle.std.specs.Prelude.{◌≡◌, ◌≤◌, drop, length};
ghost use Rattle.sdr_base.specs.Cells.{IsRegionSize};
ghost use Rattle.sdr_base.specs.KeptHeap.{block_in};
ghost use Rattle.audit_owners.specs.Reading.{behind_words, bytes_of};

use audit_owners::length_of;
use sdr_base::{Addr, WORD};

/// The bytes of the block in use at an address, none where none begins there.
pub fn bytes_of(heap: &[u8], addr: Addr) -> &[u8]
    requires region { IsRegionSize (length heap.now) }
    ensures { result.now ≡ bytes_of (block_in heap.now addr) }
{
    let count = length_of(heap, addr);
    if count == 0 {
        return &[];
    }
    &heap[addr as usize..(addr + count) as usize]
}

/// These bytes without so many in front.
pub fn behind(bytes: &[u8], count: usize) -> &[u8]
    ensures { result.now ≡ drop count bytes.now }
{
    &bytes[count.min(bytes.len())..]
}

/// The bytes of the block in use at an address behind its first so many words.
pub fn behind_words(heap: &[u8], addr: Addr, words: u64) -> &[u8]
    requires region { IsRegionSize (length heap.now) }
    requires few { words ≤ 16 }
    ensures { result.now ≡ behind_words (block_in heap.now addr) words }
{
    behind(bytes_of(heap, addr), (WORD * words) as usize)
}
