// The audit of a heap region.
ghost use Rattle.std.specs.Prelude.{◌≡◌, ◌*◌, [], ℕ, false, get_or, length, IfErr, IfOk, OnOk};
ghost use Rattle.sdr_base.specs.Cells.{IsRegionSize};
ghost use Rattle.sdr_base.specs.Transaction.{HasReason, TouchesNone};
ghost use Rattle.sdr_base.specs.declared.line.TheConstants.{WORD};
ghost use Rattle.sdr_audit.specs.Census.{IsCensus};
ghost use Rattle.sdr_audit.specs.Checked.{IsNoFault, IsNoWorld, IsRight, OnlyReads, TellsFirst};
ghost use Rattle.audit_blocks.specs.Spots.{AreSpots};
ghost use Rattle.audit_owners.specs.Owned.{AreBytes};
ghost use Rattle.audit_world.specs.Standing.{StandsAsTold};

use crate::census::Census;
use crate::error::AuditError;
use crate::structure::check_structure;
use audit_blocks::Spot;
use audit_counts::wrong_thing;
use sdr_base::{Cells, Stop, WORD};
use std::alloc::Global;

// Reads a region. What was read are bytes, and so the region's are.
fn read_copy<C: Cells>(c: &mut C, heap: &mut [u8]) -> Result<(), Stop>
    requires room { length heap.old ≡ length (C.bytes c.old) }
    ensures copied { OnOk result (heap.new ≡ C.bytes c.old) }
    ensures bytes { OnOk result (AreBytes (C.bytes c.old)) }
    ensures same { C.bytes c.new ≡ C.bytes c.old }
    ensures room { TouchesNone (C.transaction c.old) (C.transaction c.new) result }
    ensures cause { HasReason (C.transaction c.old) (C.transaction c.new) result }
    ensures quiet { C.quiet c.old c.new }
{
    c.read(0, heap)
}

// Checks a region in memory, and takes a census of its blocks, with nothing told or marked before of its words.
fn check_words(
    alloc: Global,
    heap: &[u8],
    spots: &mut [Spot],
    marks: &mut [bool],
) -> Result<Census, AuditError>
    requires region { IsRegionSize (length heap.now) }
    requires bytes { AreBytes heap.now }
    requires spots { length spots.old * WORD ≡ length heap.now }
    requires untold { AreSpots [] [] spots.old }
    requires marks { length marks.old * WORD ≡ length heap.now }
    requires clear { (word : ℕ) → get_or marks.old word false ≡ false }
    ensures right { OnOk result (IsRight heap.now) }
    ensures census { IfOk result (IsCensus heap.now) }
    ensures damaged { IfErr result (TellsFirst heap.now) }
    ensures reason { IfErr result IsNoFault }
{
    let census = check_structure(heap, spots)?;
    if let Some(damage) = wrong_thing(alloc, heap, marks)? {
        return Err(AuditError::from(damage));
    }
    Ok(census)
}

/// Reads a region into memory, and checks it, as `check` does.
pub fn check_copied<C: Cells>(
    alloc: Global,
    c: &mut C,
    heap: &mut [u8],
) -> Result<Census, AuditError>
    requires room { length heap.old ≡ length (C.bytes c.old) }
    ensures copied { OnOk result (heap.new ≡ C.bytes c.old) }
    ensures right { OnOk result (IsRight (C.bytes c.old)) }
    ensures census { IfOk result (IsCensus (C.bytes c.old)) }
    ensures stands { OnOk result (StandsAsTold (C.bytes c.old)) }
    ensures damaged { IfErr result (TellsFirst (C.bytes c.old)) }
    ensures none { IfErr result (IsNoWorld (C.bytes c.old)) }
    ensures reads { OnlyReads C.bytes C.transaction C.quiet c.old c.new result }
{
    let words = (c.size() / WORD) as usize;
    let mut spots = vec![in alloc; Spot::Nothing; words]?;
    let mut marks = vec![in alloc; false; words]?;
    read_copy(c, heap)?;
    check_words(alloc, heap, &mut spots, &mut marks)
}

/// Checks a heap region, and takes a census of its blocks: its structure, who owns each block, what blocks and control words count, and
/// the queues of tickets, in this order. What is wrong first is told by its place, which is that of a byte of the start bits, a control
/// word's or a block's in bytes, or a block's address, and by the check that found it.
///
/// It reads alone. Memory is taken for a copy of the region and two bytes for each of its words before anything is read, and then what
/// the checks of counts and queues take. It is linear in the region, but for keys, names and the numbers of tickets, which are put into
/// hash sets.
pub fn check<C: Cells>(alloc: Global, c: &mut C) -> Result<Census, AuditError>
    ensures right { OnOk result (IsRight (C.bytes c.old)) }
    ensures census { IfOk result (IsCensus (C.bytes c.old)) }
    ensures stands { OnOk result (StandsAsTold (C.bytes c.old)) }
    ensures damaged { IfErr result (TellsFirst (C.bytes c.old)) }
    ensures none { IfErr result (IsNoWorld (C.bytes c.old)) }
    ensures reads { OnlyReads C.bytes C.transaction C.quiet c.old c.new result }
{
    let mut heap = vec![in alloc; 0u8; c.size() as usize]?;
    check_copied(alloc, c, &mut heap)
}
