// The contents of blocks in use.
ghost use Rattle.std.specs.Prelude.{◌≡◌, ◌≤◌, ◌<◌, ◌+◌, ◌||◌, ℕ, length, not, IfErr, IfOk, OnOk};
ghost use Rattle.sdr_base.specs.declared.control.TheConstants.{LOW};
ghost use Rattle.audit_blocks.specs.Auditing.{DamagedIn};
ghost use Rattle.audit_blocks.specs.Content.{ContentIsRight, IsWrongContent, LargeFilled, SmallFilled, is_filled_at};
ghost use Rattle.audit_blocks.specs.Control.{control_word};
ghost use Rattle.audit_blocks.specs.Labels.{IsLabel, is_led};
ghost use Rattle.audit_blocks.specs.Walk.{OfBlocks};
ghost use Rattle.audit_blocks.specs.Walked.{IsBuilt};

use crate::control::Edges;
use crate::error::{Check, Damage};
use crate::label::{Label, read_label};
use crate::layout::has_layout;
use sdr_base::control::LARGE_FRAME;
use sdr_base::{Kind, WORD};

// Whether the block with this leader, at an address behind it, is free, or has what its kind's layout asks.
fn is_filled(heap: &[u8], label: &Label, addr: u64) -> bool
    requires inside { addr + label.now.length ≤ length heap.now }
    ensures { (place : ℕ) → IsLabel heap.now place label.now →
        result ≡ (not (is_led label.now) || is_filled_at heap.now place addr) }
{
    if !label.is_used() {
        return true;
    }
    let end = addr + label.length.min(96);
    match Kind::of(label.kind) {
        None => false,
        Some(kind) => has_layout(kind, label.length, &heap[addr as usize..end as usize]),
    }
}

// Checks the small block that begins at a place, and answers where the next one does.
fn check_small(heap: &[u8], edges: &Edges, place: u64) -> Result<u64, Damage>
    requires built { IsBuilt heap.now edges.now }
    requires filled { SmallFilled heap.now place }
    requires more { place < edges.now.low }
    ensures filled { IfOk result (SmallFilled heap.now) }
    ensures onward { IfOk result (λ next. place < next) }
    ensures damaged { IfErr result (DamagedIn Check.Content IsWrongContent heap.now) }
{
    let label = read_label(heap, place);
    if !is_filled(heap, &label, place + WORD) {
        return Err(Damage {
            place: place + WORD,
            why: Check::Content,
        });
    }
    Ok(place + WORD * (1 + label.words))
}

// Checks all small blocks.
fn check_all_small(heap: &[u8], edges: &Edges) -> Result<(), Damage>
    requires built { IsBuilt heap.now edges.now }
    ensures filled { OnOk result (SmallFilled heap.now (control_word heap.now LOW)) }
    ensures damaged { IfErr result (DamagedIn Check.Content IsWrongContent heap.now) }
{
    let mut place = edges.start;
    while place < edges.low {
        place = check_small(heap, edges, place)?;
    }
    Ok(())
}

// Checks the large block that begins at a place, and answers where the next one does.
fn check_large(heap: &[u8], edges: &Edges, place: u64) -> Result<u64, Damage>
    requires built { IsBuilt heap.now edges.now }
    requires filled { LargeFilled heap.now place }
    requires more { place < edges.now.end }
    ensures filled { IfOk result (LargeFilled heap.now) }
    ensures onward { IfOk result (λ next. place < next) }
    ensures damaged { IfErr result (DamagedIn Check.Content IsWrongContent heap.now) }
{
    let label = read_label(heap, place);
    if !is_filled(heap, &label, place + 2 * WORD) {
        return Err(Damage {
            place: place + 2 * WORD,
            why: Check::Content,
        });
    }
    Ok(place + WORD * (LARGE_FRAME + label.words))
}

/// Checks the contents of the blocks in use, each by itself: its length, the lengths in it, small values and zeros, by its kind's
/// layout and limits. What is wrong first is told by the block's address. It looks at the leader and the first 96 bytes of each block,
/// and takes no memory.
pub fn check_content(heap: &[u8], edges: &Edges) -> Result<(), Damage>
    requires built { IsBuilt heap.now edges.now }
    ensures right { OnOk result (OfBlocks ContentIsRight heap.now) }
    ensures damaged { IfErr result (DamagedIn Check.Content IsWrongContent heap.now) }
{
    check_all_small(heap, edges)?;
    let mut place = edges.high;
    while place < edges.end {
        place = check_large(heap, edges, place)?;
    }
    Ok(())
}
