// The audit of the owners in a heap region.
ghost use Rattle.std.specs.Prelude.{◌≡◌, ◌*◌, ℕ, false, get_or, length, IfErr, OnOk};
ghost use Rattle.sdr_base.specs.Cells.{IsRegionSize};
ghost use Rattle.sdr_base.specs.declared.line.TheConstants.{WORD};
ghost use Rattle.audit_owners.specs.Owned.{AreBytes, IsOwnedRegion, IsWrongRegion};

use crate::error::Wrong;
use crate::owners::check_chains;
use crate::rules::check_rules;

/// Checks who owns each block in use of a heap region in memory, whose structure was checked before, with nothing marked before. The
/// marks are those of the region's words. In this order:
///
/// 1. The chains of the catalogue, of the inbound and of the outbound tickets are right, and then those of each list, hash and
///    zero-copy object by rising address, an object's headers before its extents before its trailers. A link to no block of the
///    right kind, or to one that was reached, is wrong where the link stands; a block that names another list, element before it or
///    account is wrong itself; a wrong word for the last block is wrong where it stands.
/// 2. Extents' sources are there; sources' raw objects are; the source that a raw object names is its; a source's raw object names
///    it; and each element, entry, name, extent, capsule and ticket was reached. Each is asked of all blocks by rising address.
///
/// What is wrong first is told by its place: a control word's in bytes, or a block's address. It takes no memory.
pub fn check_owners(heap: &[u8], marks: &mut [bool]) -> Result<(), Wrong>
    requires region { IsRegionSize (length heap.now) }
    requires long { length marks.old * WORD ≡ length heap.now }
    requires clear { (word : ℕ) → get_or marks.old word false ≡ false }
    ensures owned { OnOk result (IsOwnedRegion heap.now) }
    ensures wrong { IfErr result (λ wrong. IsWrongRegion heap.now wrong.place) }
    ensures bytes { AreBytes heap.now }
{
    check_chains(heap, marks)?;
    check_rules(heap, marks)
}
