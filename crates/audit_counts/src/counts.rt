// How many extents name each source.
ghost use Rattle.std.specs.Prelude.{◌≡◌, ◌<◌, ◌+◌, ◌*◌, ◌/◌, ◌==◌, ℕ, cond, count_by, get_or, length, IfOk, OnOk};
ghost use Rattle.sdr_base.specs.Cells.{IsRegionSize};
ghost use Rattle.sdr_base.specs.declared.line.TheConstants.{WORD};
ghost use Rattle.audit_counts.specs.Counted.{wrong_source};
ghost use Rattle.audit_counts.specs.Counts.{named_count, is_object_of, keeps_counts, extent_names, uses_at};
ghost use Rattle.audit_counts.specs.Numbers.{AreTold};
ghost use Rattle.audit_owners.specs.View.{view_in};

use audit_owners::{Owner, is_kind, members, next_of, word};
use sdr_base::layout::{extent, object, source};
use sdr_base::{Acct, Addr, Kind, NoMemory, WORD};
use std::alloc::Global;

/// Whether an object of this account stands at an address.
pub fn is_object_of(heap: &[u8], account: Acct, addr: Addr) -> bool
    requires region { IsRegionSize (length heap.now) }
    ensures { result ≡ is_object_of (view_in heap.now) account addr }
{
    let number = match account {
        Acct::Inbound => 0,
        Acct::Outbound => 1,
    };
    is_kind(heap, addr, Kind::Object) && word(heap, addr, object::ACCOUNT) == number
}

// One more for the word at a place, if it is one of these.
fn count_one(counts: &mut [u64], place: u64)
    ensures { (number : ℕ → ℕ) → AreTold number counts.old →
        AreTold (λ other. number other + cond (place == other) 1 0) counts.new }
{
    let word = (place / WORD) as usize;
    if place % WORD == 0 && word < counts.len() {
        counts[word] = counts[word].saturating_add(1);
    }
}

// One more for each source that one of these extents names.
fn count_extents(heap: &[u8], counts: &mut [u64], extents: &[Addr])
    requires region { IsRegionSize (length heap.now) }
    ensures { (number : ℕ → ℕ) → AreTold number counts.old →
        AreTold (λ from. number from + count_by (extent_names (view_in heap.now) from) extents.now)
        counts.new }
{
    for addr in extents {
        count_one(counts, word(heap, *addr, extent::SOURCE));
    }
}

// One more for each source that an extent names of the object at an address, if one of this account stands there.
fn count_object(
    alloc: Global,
    heap: &[u8],
    counts: &mut [u64],
    account: Acct,
    addr: Addr,
) -> Result<(), NoMemory>
    requires region { IsRegionSize (length heap.now) }
    ensures { (number : ℕ → ℕ) → AreTold number counts.old →
        OnOk result (AreTold (λ from. number from
        + uses_at (view_in heap.now) (length heap.now / WORD) account from addr) counts.new) }
{
    if !is_object_of(heap, account, addr) {
        return Ok(());
    }
    let extents = members(alloc, heap, Owner::Extents(addr))?;
    count_extents(heap, counts, &extents);
    Ok(())
}

// For each word of a heap region how many extents of an account's objects name a source there.
fn counts_of(alloc: Global, heap: &[u8], account: Acct) -> Result<Vec<u64>, NoMemory>
    requires region { IsRegionSize (length heap.now) }
    ensures long { IfOk result (λ counts. length counts.items ≡ length heap.now / WORD) }
    ensures told { IfOk result (λ counts.
        AreTold (named_count (view_in heap.now) (length heap.now / WORD) account) counts.items) }
{
    let mut counts = vec![in alloc; 0u64; heap.len() / WORD as usize]?;
    let mut from = 0;
    while let Some(number) = next_of(heap, from, &[Kind::Object]) {
        count_object(alloc, heap, &mut counts, account, WORD * number)?;
        from = number + 1;
    }
    Ok(counts)
}

// Whether the block at an address, if it is a source, tells these counts.
fn keeps_counts(heap: &[u8], addr: Addr, inbound: u64, outbound: u64) -> bool
    requires region { IsRegionSize (length heap.now) }
    requires inbound { inbound ≡ named_count (view_in heap.now) (length heap.now / WORD) Acct.Inbound addr }
    requires outbound { outbound ≡ named_count (view_in heap.now) (length heap.now / WORD) Acct.Outbound addr }
    ensures { result ≡ keeps_counts (view_in heap.now) (length heap.now / WORD) addr }
{
    !is_kind(heap, addr, Kind::Source)
        || (word(heap, addr, source::INBOUND) == inbound
            && word(heap, addr, source::OUTBOUND) == outbound)
}

/// The address of the first source whose two counts aren't the numbers of the extents, of the inbound and of the outbound objects,
/// that name it; `None` where there is none. It is linear in the heap region, where each extent is an object's alone.
pub fn wrong_source(alloc: Global, heap: &[u8]) -> Result<Option<Addr>, NoMemory>
    requires region { IsRegionSize (length heap.now) }
    ensures { IfOk result (λ addr. addr ≡ wrong_source (view_in heap.now)
        (length heap.now / WORD)) }
{
    let inbound = counts_of(alloc, heap, Acct::Inbound)?;
    let outbound = counts_of(alloc, heap, Acct::Outbound)?;
    let mut from = 0;
    while let Some(number) = next_of(heap, from, &[Kind::Source]) {
        let addr = WORD * number;
        let word = number as usize;
        if !keeps_counts(heap, addr, inbound[word], outbound[word]) {
            return Ok(Some(addr));
        }
        from = number + 1;
    }
    Ok(None)
}
