// Heap regions in memory, by the words in them.
ghost use Rattle.std.specs.Prelude.{◌≤◌};

use audit_blocks::Damage;
use audit_counts::wrong_thing;
use audit_owners::check_owners;
use sdr_audit::{AuditError, check, read_world};
use sdr_base::{Cells, MemoryCells, Stop, WORD, write_number};
use sdr_model::World;
use std::alloc::Global;

/// A word in a region: its place in bytes, and the number in it.
pub type Word = (u64, u64);

// Puts words into a region, one after another. Those that don't lie inside are left out.
fn put_words<C: Cells>(c: &mut C, words: &[Word]) -> Result<(), Stop> {
    for word in words {
        let (place, value) = *word;
        if place <= c.size() - WORD {
            write_number(c, place, value)?;
        }
    }
    Ok(())
}

// A region of 1,024 lines with these words, and then those. All else is 0, but for the control words of a region without a block.
// `None`: there is no memory for it.
fn filled(alloc: Global, words: &[Word], changes: &[Word]) -> Option<MemoryCells> {
    let mut cells = MemoryCells::fresh(alloc, 1024).ok()?;
    put_words(&mut cells, words).ok()?;
    put_words(&mut cells, changes).ok()?;
    Some(cells)
}

/// What an audit comes to of the owners in such a region: what is wrong first. `None`: there is no memory for the region, or for the
/// audit.
pub fn audited(alloc: Global, words: &[Word], changes: &[Word]) -> Option<Result<(), u64>> {
    let mut cells = filled(alloc, words, changes)?;
    let size = cells.size();
    let mut heap = vec![in alloc; 0u8; size as usize].ok()?;
    let mut marks = vec![in alloc; false; (size / WORD) as usize].ok()?;
    cells.read(0, &mut heap).ok()?;
    match check_owners(&heap, &mut marks) {
        Ok(()) => Some(Ok(())),
        Err(wrong) => Some(Err(wrong.place)),
    }
}

/// The same of owners, counts and queues.
pub fn checked(alloc: Global, words: &[Word], changes: &[Word]) -> Option<Result<(), Damage>> {
    let mut cells = filled(alloc, words, changes)?;
    let size = cells.size();
    let mut heap = vec![in alloc; 0u8; size as usize].ok()?;
    let mut marks = vec![in alloc; false; (size / WORD) as usize].ok()?;
    cells.read(0, &mut heap).ok()?;
    match wrong_thing(alloc, &heap, &mut marks).ok()? {
        None => Some(Ok(())),
        Some(damage) => Some(Err(damage)),
    }
}

/// The whole audit of such a region: its bytes, where its unassigned space begins and ends, the blocks in use, and the free small and
/// large ones.
pub fn surveyed(
    alloc: Global,
    words: &[Word],
    changes: &[Word],
) -> Option<Result<[u64; 6], AuditError>> {
    let mut cells = filled(alloc, words, changes)?;
    Some(match check(alloc, &mut cells) {
        Ok(c) => Ok([c.size, c.low, c.high, c.used, c.small, c.large]),
        Err(error) => Err(error),
    })
}

/// The world for which such a region stands.
pub fn told(alloc: Global, words: &[Word], changes: &[Word]) -> Option<World> {
    let mut cells = filled(alloc, words, changes)?;
    read_world(alloc, &mut cells).ok()
}
