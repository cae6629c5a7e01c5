// A heap region in memory: its control words, and its blocks in use.
ghost use Rattle.std.specs.Prelude.{◌≡◌, ◌≤◌, ◌<◌, ◌+◌, ◌-◌, ◌*◌, ◌/◌, ◌==◌, ◌||◌, length};
ghost use Rattle.sdr_base.specs.Blocks.{kind_length};
ghost use Rattle.sdr_base.specs.Cells.{IsRegionSize};
ghost use Rattle.sdr_base.specs.KeptHeap.{block_in, leader_place, root_in};
ghost use Rattle.sdr_base.specs.Stored.{start_bit};
ghost use Rattle.sdr_base.specs.declared.line.TheConstants.{START_BITS, WORD};
ghost use Rattle.audit_owners.specs.View.{have_number, is_kind, is_one_of, length_of, word_of};

use audit_blocks::{number_at, read_label};
use sdr_base::control::{CONTROL_WORDS, FIRST_NAME, HIGH, LOW, START};
use sdr_base::{Addr, Kind, START_BITS, WORD};

/// The control word of this number, of those that belong to what blocks keep, and 0 for any other.
pub fn root(heap: &[u8], word: u64) -> u64
    requires region { IsRegionSize (length heap.now) }
    ensures { result ≡ root_in heap.now word }
{
    if FIRST_NAME <= word && word < CONTROL_WORDS {
        number_at(heap, WORD * word)
    } else {
        0
    }
}

/// Whether the start bit of a word is set.
pub fn has_start_bit(heap: &[u8], word: u64) -> bool
    requires { START_BITS + word / 8 < length heap.now }
    ensures { result ≡ (start_bit word heap.now == 1) }
{
    (heap[(START_BITS + word / 8) as usize] >> (7 - word % 8)) % 2 == 1
}

// Where the leader of a block at an address would stand, `None` where no block may begin there.
fn leader_place(heap: &[u8], addr: Addr) -> Option<u64>
    requires region { IsRegionSize (length heap.now) }
    ensures { result ≡ leader_place heap.now addr }
{
    let start = number_at(heap, WORD * START);
    if addr % WORD != 0 || addr <= start || addr >= heap.len() as u64 {
        return None;
    }
    let low = number_at(heap, WORD * LOW);
    if addr - WORD < low {
        return Some(addr - WORD);
    }
    let high = number_at(heap, WORD * HIGH);
    let place = addr.saturating_sub(2 * WORD);
    if high <= place { Some(place) } else { None }
}

// Whether the start bit of one of the two words before an address is set, with one of which the leader of a block there begins.
fn is_begun_before(heap: &[u8], addr: Addr) -> bool
    requires region { IsRegionSize (length heap.now) }
    requires inside { addr < length heap.now }
    ensures { result ≡ (start_bit (addr / WORD - 1) heap.now == 1
        || start_bit (addr / WORD - 2) heap.now == 1) }
{
    let word = addr / WORD;
    has_start_bit(heap, word.saturating_sub(1)) || has_start_bit(heap, word.saturating_sub(2))
}

/// The kind of the block in use at an address, and how many bytes it has, `None` where none begins there. Mostly none does, which is
/// found out by two start bits.
pub fn find(heap: &[u8], addr: Addr) -> Option<(Kind, u64)>
    requires region { IsRegionSize (length heap.now) }
    ensures { result ≡ kind_length (block_in heap.now addr) }
{
    if addr >= heap.len() as u64 {
        return None;
    }
    if !is_begun_before(heap, addr) {
        return None;
    }
    let Some(place) = leader_place(heap, addr) else {
        return None;
    };
    if !has_start_bit(heap, place / WORD) {
        return None;
    }
    let label = read_label(heap, place);
    let count = label.length.min(heap.len() as u64 - addr);
    match Kind::of(label.kind) {
        None => None,
        Some(kind) => Some((kind, count)),
    }
}

/// Whether a block of this kind is in use at an address.
pub fn is_kind(heap: &[u8], addr: Addr, kind: Kind) -> bool
    requires region { IsRegionSize (length heap.now) }
    ensures { result ≡ is_kind kind (block_in heap.now addr) }
{
    match find(heap, addr) {
        None => false,
        Some((found, _)) => found.number() == kind.number(),
    }
}

/// Whether one of these kinds has this number.
pub fn have_number(kinds: &[Kind], number: u8) -> bool
    ensures { result ≡ have_number kinds.now number }
{
    kinds.iter().any(|kind| number == kind.number())
}

/// Whether a block of one of these kinds is in use at an address.
pub fn is_one_of(heap: &[u8], addr: Addr, kinds: &[Kind]) -> bool
    requires region { IsRegionSize (length heap.now) }
    ensures { result ≡ is_one_of kinds.now (block_in heap.now addr) }
{
    match find(heap, addr) {
        None => false,
        Some((found, _)) => have_number(kinds, found.number()),
    }
}

/// How many bytes the block in use at an address has, 0 where none begins there.
pub fn length_of(heap: &[u8], addr: Addr) -> u64
    requires region { IsRegionSize (length heap.now) }
    ensures { result ≡ length_of (block_in heap.now addr) }
{
    match find(heap, addr) {
        None => 0,
        Some((_, count)) => count,
    }
}

/// The number in a word of the block in use at an address, counted from 0, and 0 where there is no such word.
pub fn word(heap: &[u8], addr: Addr, field: u64) -> u64
    requires region { IsRegionSize (length heap.now) }
    ensures { result ≡ word_of (block_in heap.now addr) field }
{
    if field < length_of(heap, addr) / WORD {
        number_at(heap, addr + WORD * field)
    } else {
        0
    }
}
