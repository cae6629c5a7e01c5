// What is occupied in an account.
ghost use Rattle.std.specs.Prelude.{◌≡◌, ◌≤◌, ◌<◌, ◌+◌, ◌*◌, ◌/◌, ◌==◌, ℕ, length, sum_by, IfOk};
ghost use Rattle.sdr_base.specs.Cells.{IsRegionSize};
ghost use Rattle.sdr_base.specs.KeptHeap.{block_in};
ghost use Rattle.sdr_base.specs.declared.control.TheConstants.{OUTBOUND};
ghost use Rattle.sdr_base.specs.declared.kind.Space.{Space};
ghost use Rattle.sdr_base.specs.declared.line.TheConstants.{WORD};
ghost use Rattle.audit_counts.specs.Counted.{wrong_occupancy, wrong_occupancy_in};
ghost use Rattle.audit_counts.specs.Counts.{count_field};
ghost use Rattle.audit_counts.specs.Occupied.{capsule_charge_at, charge_at, charges_by, left_at, medium_space, object_charge_at, occupancy_in, source_charge_at};
ghost use Rattle.sdr_model.specs.Amounts.{in_space};
ghost use Rattle.audit_owners.specs.Owners.{account_word};
ghost use Rattle.audit_owners.specs.View.{view_in};

use crate::charges::Charges;
use crate::counts::is_object_of;
use audit_owners::{Owner, is_kind, length_of, members, next_of, root, word};
use sdr_base::control::{BULK_OCCUPANCY, FILE_OCCUPANCY, HEAP_OCCUPANCY, INBOUND, OUTBOUND};
use sdr_base::layout::{capsule, source, ticket};
use sdr_base::{Acct, Addr, Kind, NoMemory, Space, WORD};
use std::alloc::Global;

// What an object fills, and an extent.
const OBJECT: u64 = 72;

const EXTENT: u64 = 32;

// The space that the bytes of the source at an address are in.
fn space_of(heap: &[u8], addr: Addr) -> Space
    requires region { IsRegionSize (length heap.now) }
    ensures { result ≡ medium_space (block_in heap.now addr) }
{
    match word(heap, addr, source::MEDIUM) {
        1 => Space::File,
        2 => Space::Bulk,
        _ => Space::Heap,
    }
}

// The word of a source with the count of an account.
fn count_field(account: Acct) -> u64
    ensures { result ≡ count_field account }
{
    match account {
        Acct::Inbound => source::INBOUND,
        Acct::Outbound => source::OUTBOUND,
    }
}

// Adds what the source at `addr` charges an account, by the count that it tells.
fn with_source(heap: &[u8], charges: Charges, account: Acct, addr: Addr) -> Charges
    requires region { IsRegionSize (length heap.now) }
    ensures { (of : Space → ℕ) → charges ≡ charges_by of →
        result ≡ charges_by (λ space.
        of space + source_charge_at (view_in heap.now) account space addr) }
{
    if word(heap, addr, count_field(account)) == 0 {
        return charges;
    }
    charges.with(space_of(heap, addr), word(heap, addr, source::LENGTH))
}

// The bytes of the words that the header or trailer at an address fills.
fn capsule_bytes(heap: &[u8], addr: Addr) -> u64
    requires region { IsRegionSize (length heap.now) }
    ensures { (space : Space) → in_space Space.Heap result space ≡ capsule_charge_at (view_in heap.now) space addr }
{
    let text = length_of(heap, addr).saturating_sub(WORD * capsule::WORDS);
    8 * ((15 + text) / 8)
}

// These charges and those of headers or trailers.
fn with_capsules(heap: &[u8], charges: Charges, capsules: &[Addr]) -> Charges
    requires region { IsRegionSize (length heap.now) }
    ensures { (of : Space → ℕ) → charges ≡ charges_by of →
        result ≡ charges_by (λ space.
        of space + sum_by (capsule_charge_at (view_in heap.now) space) capsules.now) }
{
    let mut charges = charges;
    for addr in capsules {
        charges = charges.with(Space::Heap, capsule_bytes(heap, *addr));
    }
    charges
}

// Adds what the object at `addr` charges: for itself, its extents, its headers and its trailers.
fn with_object(
    alloc: Global,
    heap: &[u8],
    charges: Charges,
    addr: Addr,
) -> Result<Charges, NoMemory>
    requires region { IsRegionSize (length heap.now) }
    ensures { (of : Space → ℕ) → charges ≡ charges_by of →
        IfOk result (λ sum. sum ≡ charges_by (λ space.
        of space + object_charge_at (view_in heap.now) (length heap.now / WORD) space addr)) }
{
    let extents = members(alloc, heap, Owner::Extents(addr))?;
    let headers = members(alloc, heap, Owner::Headers(addr))?;
    let trailers = members(alloc, heap, Owner::Trailers(addr))?;
    let charges = charges.with(Space::Heap, OBJECT);
    let charges = charges.with(Space::Heap, EXTENT * extents.len() as u64);
    let charges = with_capsules(heap, charges, &headers);
    Ok(with_capsules(heap, charges, &trailers))
}

// Adds what the block at `addr` charges an account, if it is an object of this account, or a source.
fn with_block(
    alloc: Global,
    heap: &[u8],
    charges: Charges,
    account: Acct,
    addr: Addr,
) -> Result<Charges, NoMemory>
    requires region { IsRegionSize (length heap.now) }
    ensures { (of : Space → ℕ) → charges ≡ charges_by of →
        IfOk result (λ sum. sum ≡ charges_by (λ space.
        of space + charge_at (view_in heap.now) (length heap.now / WORD) account space addr)) }
{
    if is_object_of(heap, account, addr) {
        with_object(alloc, heap, charges, addr)
    } else if is_kind(heap, addr, Kind::Source) {
        Ok(with_source(heap, charges, account, addr))
    } else {
        Ok(charges)
    }
}

// These charges and what is left of tickets.
fn with_left(heap: &[u8], charges: Charges, tickets: &[Addr]) -> Charges
    requires region { IsRegionSize (length heap.now) }
    ensures { (of : Space → ℕ) → charges ≡ charges_by of →
        result ≡ charges_by (λ space.
        of space + sum_by (left_at (view_in heap.now) space) tickets.now) }
{
    let mut charges = charges;
    for addr in tickets {
        charges = charges
            .with(Space::File, word(heap, *addr, ticket::LEFT_FILE))
            .with(Space::Bulk, word(heap, *addr, ticket::LEFT_BULK))
            .with(Space::Heap, word(heap, *addr, ticket::LEFT_HEAP));
    }
    charges
}

// What is occupied in an account.
fn occupied(alloc: Global, heap: &[u8], account: Acct) -> Result<Charges, NoMemory>
    requires region { IsRegionSize (length heap.now) }
    ensures { IfOk result (λ sum. sum ≡ charges_by
        (occupancy_in (view_in heap.now) (length heap.now / WORD) account)) }
{
    let mut charges = Charges::none();
    let mut from = 0;
    while let Some(number) = next_of(heap, from, &[Kind::Object, Kind::Source]) {
        charges = with_block(alloc, heap, charges, account, WORD * number)?;
        from = number + 1;
    }
    let tickets = members(alloc, heap, Owner::Queue(account))?;
    Ok(with_left(heap, charges, &tickets))
}

/// The control word with which those of an account begin.
pub fn account_word(account: Acct) -> u64
    ensures is { result ≡ account_word account }
    ensures most { result ≤ OUTBOUND }
{
    match account {
        Acct::Inbound => INBOUND,
        Acct::Outbound => OUTBOUND,
    }
}

// The place of the first control word of an account that tells a wrong occupancy.
fn wrong_in(alloc: Global, heap: &[u8], account: Acct) -> Result<Option<u64>, NoMemory>
    requires region { IsRegionSize (length heap.now) }
    ensures { IfOk result (λ place. place ≡ wrong_occupancy_in (view_in heap.now)
        (length heap.now / WORD) account) }
{
    let charges = occupied(alloc, heap, account)?;
    let begin = account_word(account);
    if charges.file != Some(root(heap, begin + FILE_OCCUPANCY)) {
        return Ok(Some(WORD * (begin + FILE_OCCUPANCY)));
    }
    if charges.bulk != Some(root(heap, begin + BULK_OCCUPANCY)) {
        return Ok(Some(WORD * (begin + BULK_OCCUPANCY)));
    }
    if charges.heap != Some(root(heap, begin + HEAP_OCCUPANCY)) {
        return Ok(Some(WORD * (begin + HEAP_OCCUPANCY)));
    }
    Ok(None)
}

/// The place of the first control word that doesn't tell what is occupied of a space in an account: what its objects charge, what the
/// sources charge that they name, by the counts that these tell, and what is left of its tickets. `None` where there is none.
pub fn wrong_occupancy(alloc: Global, heap: &[u8]) -> Result<Option<u64>, NoMemory>
    requires region { IsRegionSize (length heap.now) }
    ensures { IfOk result (λ place. place ≡ wrong_occupancy (view_in heap.now)
        (length heap.now / WORD)) }
{
    match wrong_in(alloc, heap, Acct::Inbound)? {
        Some(place) => Ok(Some(place)),
        None => wrong_in(alloc, heap, Acct::Outbound),
    }
}
