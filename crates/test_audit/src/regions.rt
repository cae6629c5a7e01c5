// Heap regions in memory, by the words in them.
ghost use Rattle.std.specs.Prelude.{◌≤◌};
ghost use Rattle.sdr_base.specs.declared.line.TheConstants.{LEAST_LINES, MOST_LINES};

use audit_blocks::{Damage, Spot};
use sdr_audit::check_structure;
use sdr_base::{Cells, MemoryCells, Stop, WORD, write_number};
use std::alloc::Global;

/// A word in a region: its place in bytes, and the number in it.
pub type Word = (u64, u64);

// Puts a word into a region. One that doesn't lie inside is left out.
fn put_word<C: Cells>(c: &mut C, word: &Word) -> Result<(), Stop> {
    let (place, value) = *word;
    if place > c.size() - WORD {
        return Ok(());
    }
    write_number(c, place, value)
}

// Puts words into a region, one after another.
fn put_words<C: Cells>(c: &mut C, words: &[Word]) -> Result<(), Stop> {
    for word in words {
        put_word(c, word)?;
    }
    Ok(())
}

/// A region of so many lines with these words, and then those. All else is 0, but for the control words of a region without a
/// block. `None`: there is no memory.
pub fn region(alloc: Global, lines: u64, words: &[Word], changes: &[Word]) -> Option<MemoryCells>
    requires least { LEAST_LINES ≤ lines }
    requires most { lines ≤ MOST_LINES }
{
    let mut cells = MemoryCells::fresh(alloc, lines).ok()?;
    put_words(&mut cells, words).ok()?;
    put_words(&mut cells, changes).ok()?;
    Some(cells)
}

/// What an audit of the structure of a region comes to. `None`: there is no memory for it.
pub fn structure_of(alloc: Global, cells: &mut MemoryCells) -> Option<Result<(), Damage>> {
    let size = cells.size();
    let mut heap = vec![in alloc; 0u8; size as usize].ok()?;
    let mut spots = vec![in alloc; Spot::Nothing; (size / WORD) as usize].ok()?;
    cells.read(0, &mut heap).ok()?;
    match check_structure(&heap, &mut spots) {
        Ok(_) => Some(Ok(())),
        Err(damage) => Some(Err(damage)),
    }
}

/// What an audit of such a region comes to. `None`: there is no memory for the region, or for the audit.
pub fn audited(
    alloc: Global,
    lines: u64,
    words: &[Word],
    changes: &[Word],
) -> Option<Result<(), Damage>>
    requires least { LEAST_LINES ≤ lines }
    requires most { lines ≤ MOST_LINES }
{
    let mut cells = region(alloc, lines, words, changes)?;
    structure_of(alloc, &mut cells)
}

/// The lines of the small heap.
pub const LINES: u64 = 32;

/// A small heap, in a region of 2,048 bytes: small blocks from 1,088 to 1,216, and large ones from 1,704 on.
pub const HEAP: [Word; 32] = [
    (16, 1216),
    (24, 1704),
    // The fronts of the lists of free small blocks of 3 words, and of free large ones of order 3.
    (48, 1120),
    (568, 1896),
    // The version; the maxima of both accounts, and the number of the next ticket.
    (728, 2),
    (760, 0x100_0000_0000),
    (768, 0x100_0000_0000),
    (776, 1024),
    (824, 0x100_0000_0000),
    (832, 0x100_0000_0000),
    (840, 1024),
    (864, 1),
    // The start bits: 128 and 16 at 1,041 and 1,042; 4, 2 and 16 at 1,050, 1,052 and 1,055.
    (1040, 0x0080_1000_0000_0000),
    (1048, 0x0000_0400_0200_0010),
    // A raw object of 8 bytes.
    (1088, 0x0100_0002_0000_0010),
    (1104, 7),
    // Two free blocks of 3 words, at 1,120 and 1,152.
    (1112, 0x0000_0003_0000_0000),
    (1120, 1152),
    (1144, 0x0000_0003_0000_0000),
    // An empty list.
    (1176, 0x0300_0004_0000_0020),
    // A raw object of no bytes.
    (1704, 0x0100_0001_0000_0008),
    (1736, 0x0100_0001_0000_0000),
    // A free block of 8 words, at 1,760, the last of its list.
    (1744, 0x0000_0008_0000_0000),
    (1824, 1896),
    (1832, 0x0000_0008_0000_0000),
    // A raw object of no bytes.
    (1840, 0x0100_0001_0000_0008),
    (1872, 0x0100_0001_0000_0000),
    // A free block of 12 words, at 1,896, the first of its list.
    (1880, 0x0000_000c_0000_0000),
    (1888, 1760),
    (2000, 0x0000_000c_0000_0000),
    // A raw object of no bytes.
    (2008, 0x0100_0001_0000_0008),
    (2040, 0x0100_0001_0000_0000),
];
