// What binds extents, sources and raw objects to one another, and all blocks of chains to their chains.
ghost use Rattle.std.specs.Prelude.{◌≡◌, ◌*◌, ◌/◌, List, ℕ, false, get_or, length, IfErr, OnOk};
ghost use Rattle.sdr_base.specs.Cells.{IsRegionSize};
ghost use Rattle.sdr_base.specs.KeptHeap.{block_in};
ghost use Rattle.sdr_base.specs.Sources.{medium_number};
ghost use Rattle.sdr_base.specs.declared.line.TheConstants.{WORD};
ghost use Rattle.audit_owners.specs.Marks.{AreMarked};
ghost use Rattle.audit_owners.specs.Rules.{AreKept, BreaksFirst, IsBroken, IsKept, owner_kinds, owner_rules, is_chained, is_source_of, keeps_owner_rule, is_source_of_raw, is_raw_of_source};
ghost use Rattle.audit_owners.specs.View.{view_in};

use crate::error::Wrong;
use crate::region::{is_kind, is_one_of, word};
use crate::scan::next_of;
use sdr_base::layout::{extent, raw, source};
use sdr_base::{Addr, Kind, Medium, WORD};

/// What each block has to keep, if the rule speaks of its kind.
#[derive(Clone, Copy)]
pub enum OwnerRule {
    /// The source of an extent is there.
    SourceIsThere,
    /// The raw object of a source is there.
    RawIsThere,
    /// The source that a raw object names is there, and is that of the raw object.
    SourceNamesRaw,
    /// The raw object of a source names it.
    RawNamesSource,
    /// A block of a kind that only stands in chains was reached.
    IsReached,
}

// The kinds of blocks that only stand in chains.
const CHAINED: &[Kind] = &[
    Kind::Element,
    Kind::HashEntry,
    Kind::Name,
    Kind::Extent,
    Kind::Capsule,
    Kind::Ticket,
];

impl OwnerRule {
    // The kinds of blocks that the rule speaks of.
    fn kinds(self) -> &'static [Kind]
        ensures { result.now ≡ owner_kinds self }
    {
        match self {
            OwnerRule::SourceIsThere => &[Kind::Extent],
            OwnerRule::RawIsThere => &[Kind::Source],
            OwnerRule::SourceNamesRaw => &[Kind::Raw],
            OwnerRule::RawNamesSource => &[Kind::Source],
            OwnerRule::IsReached => CHAINED,
        }
    }
}

// The number of a medium, which stands in a source's block.
fn medium_number(medium: Medium) -> u64
    ensures { result ≡ medium_number medium }
{
    match medium {
        Medium::File => 1,
        Medium::Bulk => 2,
        Medium::Heap => 3,
        Medium::Obj => 4,
    }
}

/// Whether the block at an address is a source whose bytes are a raw object's.
pub fn names_raw(heap: &[u8], addr: Addr) -> bool
    requires region { IsRegionSize (length heap.now) }
    ensures { result ≡ is_source_of_raw (block_in heap.now addr) }
{
    if !is_kind(heap, addr, Kind::Source) {
        return false;
    }
    let medium = word(heap, addr, source::MEDIUM);
    medium == medium_number(Medium::Heap) || medium == medium_number(Medium::Obj)
}

// Whether the block at an address is a raw object that names a source.
fn names_source(heap: &[u8], addr: Addr) -> bool
    requires region { IsRegionSize (length heap.now) }
    ensures { result ≡ is_raw_of_source (block_in heap.now addr) }
{
    is_kind(heap, addr, Kind::Raw) && word(heap, addr, raw::SOURCE) != 0
}

// Whether the block at an address is of a kind that only stands in chains.
fn is_chained(heap: &[u8], addr: Addr) -> bool
    requires region { IsRegionSize (length heap.now) }
    ensures { result ≡ is_chained (block_in heap.now addr) }
{
    is_one_of(heap, addr, CHAINED)
}

// Whether a source of the raw object at an address stands at another.
fn is_source_of(heap: &[u8], raw: Addr, addr: Addr) -> bool
    requires region { IsRegionSize (length heap.now) }
    ensures { result ≡ is_source_of (view_in heap.now) raw addr }
{
    names_raw(heap, addr) && word(heap, addr, source::SUBJECT) == raw
}

// Whether the word is marked with which the block at an address begins. Behind the region none is.
fn is_marked(marks: &[bool], addr: Addr) -> bool
    ensures { result ≡ get_or marks.now (addr / WORD) false }
{
    matches!(marks.get((addr / WORD) as usize), Some(true))
}

// Whether the block at an address keeps a rule.
fn keeps(heap: &[u8], marks: &[bool], rule: OwnerRule, addr: Addr) -> bool
    requires region { IsRegionSize (length heap.now) }
    ensures { (reached : List ℕ) → AreMarked reached marks.now →
        result ≡ keeps_owner_rule (view_in heap.now) reached rule addr }
{
    match rule {
        OwnerRule::SourceIsThere => {
            !is_kind(heap, addr, Kind::Extent)
                || is_kind(heap, word(heap, addr, extent::SOURCE), Kind::Source)
        }
        OwnerRule::RawIsThere => {
            !names_raw(heap, addr) || is_kind(heap, word(heap, addr, source::SUBJECT), Kind::Raw)
        }
        OwnerRule::SourceNamesRaw => {
            !names_source(heap, addr) || is_source_of(heap, addr, word(heap, addr, raw::SOURCE))
        }
        OwnerRule::RawNamesSource => {
            !names_raw(heap, addr)
                || word(heap, word(heap, addr, source::SUBJECT), raw::SOURCE) == addr
        }
        OwnerRule::IsReached => !is_chained(heap, addr) || is_marked(marks, addr),
    }
}

// Checks that each block keeps a rule. What doesn't first is told by its address.
fn check_rule(heap: &[u8], marks: &[bool], rule: OwnerRule) -> Result<(), Wrong>
    requires region { IsRegionSize (length heap.now) }
    requires long { length marks.now * WORD ≡ length heap.now }
    ensures kept { (reached : List ℕ) → AreMarked reached marks.now →
        OnOk result (IsKept (view_in heap.now) reached rule) }
    ensures broken { (reached : List ℕ) → AreMarked reached marks.now →
        IfErr result (λ wrong. BreaksFirst (view_in heap.now) reached rule wrong.place) }
{
    let mut from = 0;
    while let Some(number) = next_of(heap, from, rule.kinds()) {
        let place = WORD * number;
        if !keeps(heap, marks, rule, place) {
            return Err(Wrong { place });
        }
        from = number + 1;
    }
    Ok(())
}

/// Checks the rules one after another, each of all blocks by rising address: an extent's source is there; a source's raw object is;
/// the source that a raw object names is one of it; a source's raw object names it; and each block that only stands in chains was
/// reached, as the marks tell. What breaks a rule first is told by its address.
pub fn check_rules(heap: &[u8], marks: &[bool]) -> Result<(), Wrong>
    requires region { IsRegionSize (length heap.now) }
    requires long { length marks.now * WORD ≡ length heap.now }
    ensures kept { (reached : List ℕ) → AreMarked reached marks.now →
        OnOk result (AreKept (view_in heap.now) reached owner_rules) }
    ensures broken { (reached : List ℕ) → AreMarked reached marks.now →
        IfErr result (λ wrong. IsBroken (view_in heap.now) reached owner_rules wrong.place) }
{
    check_rule(heap, marks, OwnerRule::SourceIsThere)?;
    check_rule(heap, marks, OwnerRule::RawIsThere)?;
    check_rule(heap, marks, OwnerRule::SourceNamesRaw)?;
    check_rule(heap, marks, OwnerRule::RawNamesSource)?;
    check_rule(heap, marks, OwnerRule::IsReached)
}
