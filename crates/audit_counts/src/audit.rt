// The audit of owners, counts and queues.
ghost use Rattle.std.specs.Prelude.{◌≡◌, ◌*◌, ℕ, false, get_or, length, IfOk, MatchOption};
ghost use Rattle.sdr_base.specs.Cells.{IsRegionSize};
ghost use Rattle.sdr_base.specs.declared.line.TheConstants.{WORD};
ghost use Rattle.audit_counts.specs.Checked.{IsRightRegion, TellsFirst};
ghost use Rattle.audit_counts.specs.Counted.{wrong_count_in};

use crate::counts::wrong_source;
use crate::occupied::wrong_occupancy;
use crate::queues::wrong_queue;
use crate::rules::wrong_rule;
use audit_blocks::{Check, Damage};
use audit_owners::{Wrong, check_owners, wrong_key};
use sdr_base::{NoMemory, WORD};
use std::alloc::Global;

/// The first place in a heap region, whose owners are right, that tells something wrong of other blocks; `None` where nothing is. In
/// this order, and each of all blocks by rising address:
///
/// 1. A list tells how many elements it has; a hash how many entries, each with a key of its length, in its bucket, and no two with the
///    same; and no entry of the catalogue, in its order, has the name of an earlier one.
/// 2. A source tells how many extents name it, of the inbound and of the outbound objects.
/// 3. A source of a raw object has its length; an extent lies inside its source, and an object's part inside its extents; an extent has
///    a byte; a source that is flagged or has taken over a raw object has an extent; and one that has taken one over isn't flagged.
/// 4. The control words of the inbound and of the outbound account tell what is occupied of file, bulk and heap space: what objects
///    charge, what each source charges that they name, once, and what is left of tickets.
///
/// The place is the address of the list, hash, name, source, extent or object, or a control word's.
///
/// It is linear in the region, as long as each block is in one chain, but for keys and names, which are put into hash sets. Memory is
/// taken for these, for 16 bytes a word of the region, and for the addresses in one chain.
pub fn wrong_count(alloc: Global, heap: &[u8]) -> Result<Option<u64>, NoMemory>
    requires region { IsRegionSize (length heap.now) }
    ensures { IfOk result (λ place. place ≡ wrong_count_in heap.now) }
{
    if let Some(place) = wrong_key(alloc, heap)? {
        return Ok(Some(place));
    }
    if let Some(place) = wrong_source(alloc, heap)? {
        return Ok(Some(place));
    }
    if let Some(place) = wrong_rule(alloc, heap)? {
        return Ok(Some(place));
    }
    wrong_occupancy(alloc, heap)
}

/// What is wrong first with owners, counts and queues of a heap region in memory, whose structure was checked before, with nothing
/// marked before; `None` where nothing is. The marks are those of the region's words. In this order: who owns each block in use; the
/// counts of sources and what is occupied in the accounts; and the queues of tickets. The place is that of a control word in bytes, or
/// a block's address.
///
/// It is linear in the region, but for keys, names and the numbers of tickets, which are put into hash sets; these take its memory.
pub fn wrong_thing(
    alloc: Global,
    heap: &[u8],
    marks: &mut [bool],
) -> Result<Option<Damage>, NoMemory>
    requires region { IsRegionSize (length heap.now) }
    requires long { length marks.old * WORD ≡ length heap.now }
    requires clear { (word : ℕ) → get_or marks.old word false ≡ false }
    ensures { IfOk result (λ damage. MatchOption damage (IsRightRegion heap.now)
        (TellsFirst heap.now)) }
{
    if let Err(Wrong { place }) = check_owners(heap, marks) {
        let why = Check::Owner;
        return Ok(Some(Damage { place, why }));
    }
    if let Some(place) = wrong_count(alloc, heap)? {
        let why = Check::Count;
        return Ok(Some(Damage { place, why }));
    }
    if let Some(place) = wrong_queue(alloc, heap)? {
        let why = Check::Queue;
        return Ok(Some(Damage { place, why }));
    }
    Ok(None)
}
