// The blocks in use of a heap region: where they are, their labels and their bytes.
ghost use Rattle.std.specs.Prelude.{◌≡◌, ◌+◌, ◌*◌, ◌/◌, ◌%◌, ◌≤◌, length, replicate, false};
ghost use Rattle.std.specs.Prelude.{IfOk, OnOk, IfErr};
ghost use Rattle.sdr_base.specs.Objects.{OnlyFull};
ghost use Rattle.sdr_base.specs.Parts.{overwrite};
ghost use Rattle.sdr_base.specs.Blocks.{HasBytes, UsesRange, kind_length};
ghost use Rattle.sdr_base.specs.Cells.{IsRegionSize, TouchesWithin, lines_of};
ghost use Rattle.sdr_base.specs.Transaction.{HasReason, TouchesNone, TouchesAtMost};
ghost use Rattle.sdr_base.specs.declared.line.TheConstants.{START_BITS};
ghost use Rattle.sdr_heap.specs.Calls.{IsSomeBare, Labels, WritesBlock};
ghost use Rattle.sdr_base.specs.KeptHeap.{KeepsSomeHeap, block_in, leader_place, used_place};

use sdr_base::control::{HIGH, LOW, START};
use sdr_base::{
    Addr, Cells, Kind, LINE, Leader, Stop, WORD, read_leader, read_number, read_start_bit,
    write_leader,
};

// Where the leader of a block at an address would stand: before it, or before its frame in the
// large pool. `None` where no block can begin there.
fn leader_place<C: Cells>(c: &mut C, addr: Addr) -> Result<Option<u64>, Stop>
    requires kept { KeepsSomeHeap (C.bytes c.old) }
    ensures place { IfOk result (λ place. place ≡ leader_place (C.bytes c.old) addr) }
    ensures same { C.bytes c.new ≡ C.bytes c.old }
    ensures room { TouchesNone (C.transaction c.old) (C.transaction c.new) result }
    ensures cause { HasReason (C.transaction c.old) (C.transaction c.new) result }
    ensures quiet { C.quiet c.old c.new }
{
    let start = read_number(c, WORD * START)?;
    if addr % WORD != 0 || addr <= start || addr >= c.size() {
        return Ok(None);
    }
    let low = read_number(c, WORD * LOW)?;
    if addr - WORD < low {
        return Ok(Some(addr - WORD));
    }
    let high = read_number(c, WORD * HIGH)?;
    if high > addr - 2 * WORD {
        return Ok(None);
    }
    Ok(Some(addr - 2 * WORD))
}

/// The kind of the block in use at an address and the bytes that it has, `None` where none begins
/// there.
pub fn kind_of<C: Cells>(c: &mut C, addr: Addr) -> Result<Option<(Kind, u64)>, Stop>
    requires kept { KeepsSomeHeap (C.bytes c.old) }
    ensures found { IfOk result (λ found. found ≡ kind_length (block_in (C.bytes c.old) addr)) }
    ensures same { C.bytes c.new ≡ C.bytes c.old }
    ensures room { TouchesNone (C.transaction c.old) (C.transaction c.new) result }
    ensures cause { HasReason (C.transaction c.old) (C.transaction c.new) result }
    ensures quiet { C.quiet c.old c.new }
{
    let Some(place) = leader_place(c, addr)? else {
        return Ok(None);
    };
    if !read_start_bit(c, place / WORD)? {
        return Ok(None);
    }
    let leader = read_leader(c, place)?;
    Ok(leader.kind.map(|kind| (kind, leader.length)))
}

/// Fills a buffer with bytes of the block in use at an address, from a place in it on.
pub fn get<C: Cells>(c: &mut C, addr: Addr, place: u64, into: &mut [u8]) -> Result<(), Stop>
    requires kept { KeepsSomeHeap (C.bytes c.old) }
    requires inside { UsesRange (block_in (C.bytes c.old)) addr place (length into.old) }
    ensures given { OnOk result
        (HasBytes (block_in (C.bytes c.old) addr) place (length into.old) into.new) }
    ensures same { C.bytes c.new ≡ C.bytes c.old }
    ensures room { TouchesNone (C.transaction c.old) (C.transaction c.new) result }
    ensures cause { HasReason (C.transaction c.old) (C.transaction c.new) result }
    ensures quiet { C.quiet c.old c.new }
{
    c.read(addr + place, into)
}

/// Writes bytes into the block in use at an address, from a place in it on.
pub fn put<C: Cells>(c: &mut C, addr: Addr, place: u64, from: &[u8]) -> Result<(), Stop>
    requires kept { KeepsSomeHeap (C.bytes c.old) }
    requires inside { UsesRange (block_in (C.bytes c.old)) addr place (length from.now) }
    ensures written { OnOk result
        (WritesBlock addr place from.now (C.bytes c.old) (C.bytes c.new)) }
    ensures refused { IfErr result OnlyFull }
    ensures size { length (C.bytes c.new) ≡ length (C.bytes c.old) }
    ensures room { TouchesAtMost (2 + length from.now / 64)
        (C.transaction c.old) (C.transaction c.new) result }
    ensures lines { TouchesWithin (lines_of (addr + place) (length from.now))
        (C.transaction c.old) (C.transaction c.new) result }
    ensures cause { HasReason (C.transaction c.old) (C.transaction c.new) result }
    ensures quiet { C.quiet c.old c.new }
{
    c.write(addr + place, from)
}

/// Gives a block that was just chosen its kind and so many zero bytes.
pub fn label<C: Cells>(c: &mut C, addr: Addr, kind: Kind, need: u64) -> Result<(), Stop>
    requires bare { IsSomeBare need addr (C.bytes c.old) }
    ensures labelled { OnOk result (Labels addr kind need (C.bytes c.old) (C.bytes c.new)) }
    ensures refused { IfErr result OnlyFull }
    ensures size { length (C.bytes c.new) ≡ length (C.bytes c.old) }
    ensures room { TouchesAtMost (3 + need / 64)
        (C.transaction c.old) (C.transaction c.new) result }
    ensures cause { HasReason (C.transaction c.old) (C.transaction c.new) result }
    ensures quiet { C.quiet c.old c.new }
{
    let place = used_place(c, addr)?;
    let Leader { words, .. } = read_leader(c, place)?;
    write_leader(c, place, kind, words, need)?;
    clear(c, addr, need)
}

// Where the leader of the block in use at an address stands.
fn used_place<C: Cells>(c: &mut C, addr: Addr) -> Result<u64, Stop>
    requires least { 2 * WORD ≤ addr }
    requires control { START_BITS ≤ length (C.bytes c.old) }
    ensures place { IfOk result (λ place. place ≡ used_place (C.bytes c.old) addr) }
    ensures same { C.bytes c.new ≡ C.bytes c.old }
    ensures room { TouchesNone (C.transaction c.old) (C.transaction c.new) result }
    ensures cause { HasReason (C.transaction c.old) (C.transaction c.new) result }
    ensures quiet { C.quiet c.old c.new }
{
    let low = read_number(c, WORD * LOW)?;
    if addr - WORD < low {
        Ok(addr - WORD)
    } else {
        Ok(addr - 2 * WORD)
    }
}

// Writes so many zero bytes from a place on, line by line.
fn clear<C: Cells>(c: &mut C, place: u64, count: u64) -> Result<(), Stop>
    requires sound { (C.transaction c.old).failed ≡ false }
    requires region { IsRegionSize (length (C.bytes c.old)) }
    requires inside { place + count ≤ length (C.bytes c.old) }
    ensures cleared { OnOk result
        (C.bytes c.new ≡ overwrite place (replicate count 0) (C.bytes c.old)) }
    ensures refused { IfErr result OnlyFull }
    ensures size { length (C.bytes c.new) ≡ length (C.bytes c.old) }
    ensures room { TouchesAtMost (2 + count / 64)
        (C.transaction c.old) (C.transaction c.new) result }
    ensures cause { HasReason (C.transaction c.old) (C.transaction c.new) result }
    ensures quiet { C.quiet c.old c.new }
{
    let mut done = 0;
    while done < count {
        let more = (count - done).min(LINE - (place + done) % LINE);
        clear_in_line(c, place + done, more)?;
        done += more;
    }
    Ok(())
}

// Writes so many zero bytes, at least one, within a line.
fn clear_in_line<C: Cells>(c: &mut C, place: u64, count: u64) -> Result<(), Stop>
    requires some { 1 ≤ count }
    requires line { place % LINE + count ≤ LINE }
    requires inside { place + count ≤ length (C.bytes c.old) }
    ensures cleared { OnOk result
        (C.bytes c.new ≡ overwrite place (replicate count 0) (C.bytes c.old)) }
    ensures refused { IfErr result OnlyFull }
    ensures size { length (C.bytes c.new) ≡ length (C.bytes c.old) }
    ensures room { TouchesAtMost 1 (C.transaction c.old) (C.transaction c.new) result }
    ensures cause { HasReason (C.transaction c.old) (C.transaction c.new) result }
    ensures quiet { C.quiet c.old c.new }
{
    let zeros = [0; LINE as usize];
    c.write(place, &zeros[..count as usize])
}
