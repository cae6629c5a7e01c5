// The structure of a heap region.
ghost use Rattle.std.specs.Prelude.{◌≡◌, ◌*◌, [], length, IfErr, IfOk, OnOk};
ghost use Rattle.sdr_base.specs.Cells.{IsRegionSize};
ghost use Rattle.sdr_base.specs.declared.line.TheConstants.{WORD};
ghost use Rattle.sdr_audit.specs.Census.{IsCensus};
ghost use Rattle.audit_blocks.specs.Region.{IsSoundRegion, TellsFirst};
ghost use Rattle.audit_blocks.specs.Spots.{AreSpots};

use crate::census::Census;
use audit_blocks::{
    Damage, Spot, check_bits, check_blocks, check_content, check_control, check_free,
};

/// Checks the structure of a region in memory, with nothing told before of what begins with its words, and takes a census of its
/// blocks.
pub fn check_structure(heap: &[u8], spots: &mut [Spot]) -> Result<Census, Damage>
    requires region { IsRegionSize (length heap.now) }
    requires spots { length spots.old * WORD ≡ length heap.now }
    requires untold { AreSpots [] [] spots.old }
    ensures sound { OnOk result (IsSoundRegion heap.now) }
    ensures census { IfOk result (IsCensus heap.now) }
    ensures damaged { IfErr result (TellsFirst heap.now) }
{
    let edges = check_control(heap)?;
    check_blocks(heap, &edges, spots)?;
    let census = Census::of(&edges, spots);
    check_bits(heap, &edges, spots)?;
    check_free(heap, &edges, spots)?;
    check_content(heap, &edges)?;
    Ok(census)
}
