// The blocks of both pools.
ghost use Rattle.std.specs.Prelude.{◌≡◌, ◌≤◌, ◌<◌, ◌+◌, ◌*◌, ◌/◌, ◌%◌, ◌^◌, ℕ, List, length, false, true, IfErr, IfOk, OnOk, [], None};
ghost use Rattle.sdr_base.specs.Cells.{IsRegionSize};
ghost use Rattle.sdr_base.specs.declared.control.TheConstants.{HIGH, LARGE_FRAME, LOW};
ghost use Rattle.sdr_base.specs.declared.line.TheConstants.{WORD};
ghost use Rattle.audit_blocks.specs.Auditing.{DamagedBy};
ghost use Rattle.audit_blocks.specs.Control.{control_word};
ghost use Rattle.audit_blocks.specs.Labels.{IsLabel};
ghost use Rattle.audit_blocks.specs.Found.{first_found, no_findings};
ghost use Rattle.audit_blocks.specs.Spots.{AreSpots};
ghost use Rattle.audit_blocks.specs.Walk.{IsWrongBlock, LargeBreaks, SmallBreaks, has_ends, is_large_at, is_small_at, large_at};
ghost use Rattle.audit_blocks.specs.Walked.{AreEdges, IsSurveyed, LargeWalked, SmallWalked};

use crate::control::Edges;
use crate::error::{Check, Damage};
use crate::findings::Findings;
use crate::label::{Label, read_label};
use crate::number::number_at;
use crate::spot::Spot;
use sdr_base::WORD;
use sdr_base::control::{LARGE_FRAME, MOST_SMALL};

// The greatest number of a kind.
const LAST_KIND: u8 = 13;

// Whether a small block with this leader may begin at a place, where small blocks end at `low`.
fn is_small(label: &Label, place: u64, low: u64) -> bool
    requires words { label.now.words < 2 ^ 32 }
    requires place { place ≤ low }
    requires low { low < 2 ^ 32 }
    ensures { (bytes : List ℕ) → IsLabel bytes place label.now → control_word bytes LOW ≡ low →
        result ≡ is_small_at bytes place }
{
    label.kind <= LAST_KIND
        && 1 <= label.words
        && label.words <= MOST_SMALL
        && place + WORD * (1 + label.words) <= low
}

// Looks at the small block that begins at a place, and answers where the next one does.
fn find_small(
    heap: &[u8],
    edges: &Edges,
    place: u64,
    found: &mut Findings,
    spots: &mut [Spot],
) -> Result<u64, Damage>
    requires edges { AreEdges heap.now edges.now }
    requires spots { length spots.old * WORD ≡ length heap.now }
    requires walked { SmallWalked heap.now place found.old spots.old }
    requires more { place < edges.now.low }
    ensures walked { IfOk result (λ next. SmallWalked heap.now next found.new spots.new) }
    ensures onward { IfOk result (λ next. place < next) }
    ensures damaged { IfErr result (DamagedBy Check.Block (SmallBreaks heap.now)) }
    ensures length { length spots.new ≡ length spots.old }
{
    let label = read_label(heap, place);
    if !is_small(&label, place, edges.low) {
        return Err(Damage {
            place,
            why: Check::Block,
        });
    }
    found.note_small(&label, place);
    spots[(place / WORD) as usize] = label.spot();
    Ok(place + WORD * (1 + label.words))
}

// Looks at all small blocks.
fn walk_small(
    heap: &[u8],
    edges: &Edges,
    found: &mut Findings,
    spots: &mut [Spot],
) -> Result<(), Damage>
    requires edges { AreEdges heap.now edges.now }
    requires spots { length spots.old * WORD ≡ length heap.now }
    requires clear { AreSpots [] [] spots.old }
    requires none { found.old ≡ no_findings }
    ensures walked { OnOk result (SmallWalked heap.now (control_word heap.now LOW) found.new
        spots.new) }
    ensures damaged { IfErr result (DamagedBy Check.Block (SmallBreaks heap.now)) }
    ensures length { length spots.new ≡ length spots.old }
{
    let mut place = edges.start;
    while place < edges.low {
        place = find_small(heap, edges, place, found, spots)?;
    }
    Ok(())
}

// Whether both ends of the large block with this leader at a place agree, and its links are 0 where it is in use.
fn has_ends(heap: &[u8], place: u64, label: &Label) -> bool
    requires region { IsRegionSize (length heap.now) }
    requires label { IsLabel heap.now place label.now }
    requires inside { place + WORD * (LARGE_FRAME + label.now.words) ≤ length heap.now }
    ensures { result ≡ has_ends heap.now (large_at heap.now place) }
{
    let behind = place + WORD * (2 + label.words);
    let used = if label.is_used() { 1 << 56 } else { 0 };
    let last = number_at(heap, behind + WORD);
    let next = number_at(heap, place + WORD);
    let before = number_at(heap, behind);
    let unlinked = next == 0 && before == 0;
    last == used + label.words * (1 << 32) && (!label.is_used() || unlinked)
}

// Whether a large block with this leader may begin at a place.
fn is_large(heap: &[u8], place: u64, label: &Label) -> bool
    requires region { IsRegionSize (length heap.now) }
    requires label { IsLabel heap.now place label.now }
    requires words { label.now.words < 2 ^ 32 }
    requires place { place ≤ length heap.now }
    ensures { result ≡ is_large_at heap.now place }
{
    if label.kind > LAST_KIND
        || label.words == 0
        || place + WORD * (LARGE_FRAME + label.words) > heap.len() as u64
    {
        return false;
    }
    has_ends(heap, place, label)
}

// Looks at the large block that begins at a place, and answers where the next one does.
fn find_large(
    heap: &[u8],
    edges: &Edges,
    place: u64,
    found: &mut Findings,
    spots: &mut [Spot],
) -> Result<u64, Damage>
    requires edges { AreEdges heap.now edges.now }
    requires spots { length spots.old * WORD ≡ length heap.now }
    requires walked { LargeWalked heap.now place found.old spots.old }
    requires more { place < edges.now.end }
    ensures walked { IfOk result (λ next. LargeWalked heap.now next found.new spots.new) }
    ensures onward { IfOk result (λ next. place < next) }
    ensures damaged { IfErr result (DamagedBy Check.Block (LargeBreaks heap.now)) }
    ensures length { length spots.new ≡ length spots.old }
{
    let label = read_label(heap, place);
    if !is_large(heap, place, &label) {
        return Err(Damage {
            place,
            why: Check::Block,
        });
    }
    found.note_large(&label, place, edges.high);
    spots[(place / WORD) as usize] = label.spot();
    Ok(place + WORD * (LARGE_FRAME + label.words))
}

// Looks at all large blocks.
fn walk_large(
    heap: &[u8],
    edges: &Edges,
    found: &mut Findings,
    spots: &mut [Spot],
) -> Result<(), Damage>
    requires edges { AreEdges heap.now edges.now }
    requires spots { length spots.old * WORD ≡ length heap.now }
    requires walked { SmallWalked heap.now (control_word heap.now LOW) found.old spots.old }
    ensures walked { OnOk result (LargeWalked heap.now (length heap.now) found.new spots.new) }
    ensures damaged { IfErr result (DamagedBy Check.Block (LargeBreaks heap.now)) }
    ensures length { length spots.new ≡ length spots.old }
{
    let mut place = edges.high;
    while place < edges.end {
        place = find_large(heap, edges, place, found, spots)?;
    }
    Ok(())
}

/// Checks the blocks of both pools, and tells of each word of the region what begins with it; before, nothing may be told. Small
/// blocks follow one another from the first block place to `low`, and large ones from `high` to the end, each of 1 word or more, and
/// both ends of a large one agree; each has the words that its length needs, and a small one in use no more; a free one has length
/// 0; no two free large ones touch, and the one at `high` isn't free. These are asked in this order, each of all blocks by rising
/// address, and what is wrong first is told by the place at which the block begins. It is linear in the blocks, and takes no memory.
pub fn check_blocks(heap: &[u8], edges: &Edges, spots: &mut [Spot]) -> Result<(), Damage>
    requires edges { AreEdges heap.now edges.now }
    requires spots { length spots.old * WORD ≡ length heap.now }
    requires clear { AreSpots [] [] spots.old }
    ensures surveyed { OnOk result (IsSurveyed heap.now edges.now spots.new) }
    ensures damaged { IfErr result (DamagedBy Check.Block (IsWrongBlock heap.now)) }
{
    let mut found = Findings::none();
    walk_small(heap, edges, &mut found, spots)?;
    walk_large(heap, edges, &mut found, spots)?;
    match found.first() {
        None => Ok(()),
        Some(place) => Err(Damage {
            place,
            why: Check::Block,
        }),
    }
}
