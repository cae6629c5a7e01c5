// What sources, extents and objects have to keep of one another.
ghost use Rattle.std.specs.Prelude.{◌≡◌, ◌+◌, ◌/◌, length, nat_le, sum_by, IfOk};
ghost use Rattle.sdr_base.specs.Cells.{IsRegionSize};
ghost use Rattle.sdr_base.specs.declared.line.TheConstants.{WORD};
ghost use Rattle.audit_counts.specs.Rules.{count_kinds, count_rules, covers_part, extent_length, first_broken, has_bytes, has_raw_length, has_taken, is_flagged, is_unflagged, has_extent_if_passing, keeps_count_rule, lies_inside};
ghost use Rattle.audit_owners.specs.Places.{first_failing};
ghost use Rattle.audit_owners.specs.View.{view_in};

use audit_owners::{Owner, is_kind, length_of, members, names_raw, next_of, word};
use sdr_base::layout::{extent, object, raw, source};
use sdr_base::{Addr, Kind, NoMemory, WORD};
use std::alloc::Global;

/// What each block has to keep, if the rule speaks of its kind.
#[derive(Clone, Copy)]
pub enum CountRule {
    /// A source of a raw object has its length.
    RawLength,
    /// An extent lies inside its source.
    Inside,
    /// The part of an object lies inside its extents.
    Part,
    /// An extent has a byte.
    Bytes,
    /// A source that goes with its last extent has one.
    Used,
    /// A source that has taken over a raw object isn't flagged.
    Unflagged,
}

impl CountRule {
    // The kinds of blocks that the rule speaks of.
    fn kinds(self) -> &'static [Kind]
        ensures { result.now ≡ count_kinds self }
    {
        match self {
            CountRule::RawLength => &[Kind::Source],
            CountRule::Inside => &[Kind::Extent],
            CountRule::Part => &[Kind::Object],
            CountRule::Bytes => &[Kind::Extent],
            CountRule::Used => &[Kind::Source],
            CountRule::Unflagged => &[Kind::Source],
        }
    }
}

// Whether the block at an address, if it is a source of a raw object, has its length.
fn has_raw_length(heap: &[u8], addr: Addr) -> bool
    requires region { IsRegionSize (length heap.now) }
    ensures { result ≡ has_raw_length (view_in heap.now) addr }
{
    if !names_raw(heap, addr) {
        return true;
    }
    let subject = word(heap, addr, source::SUBJECT);
    word(heap, addr, source::LENGTH) == length_of(heap, subject).saturating_sub(raw::BYTES)
}

// Whether the block at an address, if it is an extent, lies inside its source.
fn lies_inside(heap: &[u8], addr: Addr) -> bool
    requires region { IsRegionSize (length heap.now) }
    ensures { result ≡ lies_inside (view_in heap.now) addr }
{
    if !is_kind(heap, addr, Kind::Extent) {
        return true;
    }
    let most = word(heap, word(heap, addr, extent::SOURCE), source::LENGTH);
    let offset = word(heap, addr, extent::OFFSET);
    let length = word(heap, addr, extent::LENGTH);
    offset <= most && length <= most - offset
}

// Whether these extents together have so many bytes, and so many more behind them.
fn cover(heap: &[u8], extents: &[Addr], offset: u64, count: u64) -> bool
    requires region { IsRegionSize (length heap.now) }
    ensures { result ≡ nat_le (offset + count)
        (sum_by (extent_length (view_in heap.now)) extents.now) }
{
    let mut before = offset;
    let mut left = count;
    for addr in extents {
        let bytes = word(heap, *addr, extent::LENGTH);
        left = left.saturating_sub(bytes.saturating_sub(before));
        before = before.saturating_sub(bytes);
    }
    before == 0 && left == 0
}

// Whether the block at an address, if it is an object, has a part that lies inside its extents.
fn covers_part(alloc: Global, heap: &[u8], addr: Addr) -> Result<bool, NoMemory>
    requires region { IsRegionSize (length heap.now) }
    ensures { IfOk result (λ yes. yes ≡ covers_part (view_in heap.now)
        (length heap.now / WORD) addr) }
{
    if !is_kind(heap, addr, Kind::Object) {
        return Ok(true);
    }
    let extents = members(alloc, heap, Owner::Extents(addr))?;
    let offset = word(heap, addr, object::PART_OFFSET);
    Ok(cover(
        heap,
        &extents,
        offset,
        word(heap, addr, object::PART_LENGTH),
    ))
}

// Whether the block at an address, if it is an extent, has a byte.
fn has_bytes(heap: &[u8], addr: Addr) -> bool
    requires region { IsRegionSize (length heap.now) }
    ensures { result ≡ has_bytes (view_in heap.now) addr }
{
    !is_kind(heap, addr, Kind::Extent) || 1 <= word(heap, addr, extent::LENGTH)
}

// Whether the block at an address is a source that has taken over a raw object.
fn has_taken(heap: &[u8], addr: Addr) -> bool
    requires region { IsRegionSize (length heap.now) }
    ensures { result ≡ has_taken (view_in heap.now) addr }
{
    is_kind(heap, addr, Kind::Source) && word(heap, addr, source::MEDIUM) == 3
}

// Whether the block at an address is a flagged source.
fn is_flagged(heap: &[u8], addr: Addr) -> bool
    requires region { IsRegionSize (length heap.now) }
    ensures { result ≡ is_flagged (view_in heap.now) addr }
{
    is_kind(heap, addr, Kind::Source) && word(heap, addr, source::FLAG) != 0
}

// A source that is flagged, or that has taken over its raw object, still has an extent. Every other block passes.
fn has_extent_if_passing(heap: &[u8], addr: Addr) -> bool
    requires region { IsRegionSize (length heap.now) }
    ensures { result ≡ has_extent_if_passing (view_in heap.now) addr }
{
    if !is_flagged(heap, addr) && !has_taken(heap, addr) {
        return true;
    }
    word(heap, addr, source::INBOUND) != 0 || word(heap, addr, source::OUTBOUND) != 0
}

// Whether the block at an address, if it is a source that has taken over a raw object, isn't flagged.
fn is_unflagged(heap: &[u8], addr: Addr) -> bool
    requires region { IsRegionSize (length heap.now) }
    ensures { result ≡ is_unflagged (view_in heap.now) addr }
{
    !has_taken(heap, addr) || !is_flagged(heap, addr)
}

// Whether the block at an address keeps a rule.
fn keeps(alloc: Global, heap: &[u8], rule: CountRule, addr: Addr) -> Result<bool, NoMemory>
    requires region { IsRegionSize (length heap.now) }
    ensures { IfOk result (λ yes. yes ≡ keeps_count_rule (view_in heap.now)
        (length heap.now / WORD) rule addr) }
{
    Ok(match rule {
        CountRule::RawLength => has_raw_length(heap, addr),
        CountRule::Inside => lies_inside(heap, addr),
        CountRule::Part => return covers_part(alloc, heap, addr),
        CountRule::Bytes => has_bytes(heap, addr),
        CountRule::Used => has_extent_if_passing(heap, addr),
        CountRule::Unflagged => is_unflagged(heap, addr),
    })
}

// The address of the first block that doesn't keep a rule.
fn first_broken(alloc: Global, heap: &[u8], rule: CountRule) -> Result<Option<Addr>, NoMemory>
    requires region { IsRegionSize (length heap.now) }
    ensures { IfOk result (λ addr. addr ≡ first_failing
        (keeps_count_rule (view_in heap.now) (length heap.now / WORD) rule) (length heap.now / WORD)) }
{
    let mut from = 0;
    while let Some(number) = next_of(heap, from, rule.kinds()) {
        let addr = WORD * number;
        if !keeps(alloc, heap, rule, addr)? {
            return Ok(Some(addr));
        }
        from = number + 1;
    }
    Ok(None)
}

/// The address of the first block that doesn't keep a rule; the rules are asked one after another, each of all blocks by rising
/// address: sources of raw objects have their length; extents lie inside their sources, and parts of objects inside their extents; each
/// extent has a byte; flagged sources and those that have taken over a raw object have an extent; and the latter aren't flagged.
pub fn wrong_rule(alloc: Global, heap: &[u8]) -> Result<Option<Addr>, NoMemory>
    requires region { IsRegionSize (length heap.now) }
    ensures { IfOk result (λ addr. addr ≡ first_broken (view_in heap.now)
        (length heap.now / WORD) count_rules) }
{
    let rules = [
        CountRule::RawLength,
        CountRule::Inside,
        CountRule::Part,
        CountRule::Bytes,
        CountRule::Used,
        CountRule::Unflagged,
    ];
    for rule in &rules {
        if let Some(addr) = first_broken(alloc, heap, *rule)? {
            return Ok(Some(addr));
        }
    }
    Ok(None)
}
