// The things of a heap.
ghost use Rattle.std.specs.Prelude.{◌≡◌, ◌≤◌, ◌/◌, ◌++◌, length, map, IfOk, IfSome, OnOk};
ghost use Rattle.sdr_base.specs.Cells.{IsRegionSize};
ghost use Rattle.sdr_base.specs.KeptHeap.{block_in};
ghost use Rattle.sdr_base.specs.declared.line.TheConstants.{WORD};
ghost use Rattle.sdr_model.specs.Valid.{IsValidHash, IsValidTable, IsValidThing};
ghost use Rattle.audit_owners.specs.View.{view_in};
ghost use Rattle.audit_world.specs.Told.{element_told, entries_up_to, entry_told, hash_told, list_told, table_told, thing_told};

use crate::blocks::{behind, behind_words, bytes_of};
use crate::zco::{object_in, source_in};
use audit_owners::{Owner, is_kind, members, word};
use sdr_base::layout::{element, hash, hash_entry, list, raw, table};
use sdr_base::{Addr, Bytes, Items, Kind, NoMemory, WORD};
use sdr_model::{Element, HashEntry, SdrHash, SdrList, SdrTable, Thing};
use std::alloc::Global;

// The elements at these addresses.
fn elements_at(alloc: Global, heap: &[u8], addrs: &[Addr]) -> Result<Items<Element>, NoMemory>
    requires region { IsRegionSize (length heap.now) }
    ensures { IfOk result (λ elements. elements ≡ map (element_told (view_in heap.now)) addrs.now) }
{
    let mut elements = Items::new(alloc);
    for addr in addrs {
        elements.push(Element {
            block: *addr,
            datum: word(heap, *addr, element::DATUM),
        })?;
    }
    Ok(elements)
}

// The list at an address.
fn list_in(alloc: Global, heap: &[u8], addr: Addr) -> Result<SdrList, NoMemory>
    requires region { IsRegionSize (length heap.now) }
    ensures { IfOk result (λ row. row
        ≡ list_told (view_in heap.now) (length heap.now / WORD) addr) }
{
    let addrs = members(alloc, heap, Owner::List(addr))?;
    Ok(SdrList {
        user: word(heap, addr, list::USER),
        elements: elements_at(alloc, heap, &addrs)?,
    })
}

// The table at an address, which keeps the limits.
fn table_in(alloc: Global, heap: &[u8], addr: Addr) -> Result<SdrTable, NoMemory>
    requires region { IsRegionSize (length heap.now) }
    requires valid { IsValidTable (table_told (block_in heap.now addr)) }
    ensures { IfOk result (λ rows. rows ≡ table_told (block_in heap.now addr)) }
{
    let bytes = Bytes::copied(alloc, behind_words(heap, addr, table::WORDS))?;
    Ok(SdrTable::of(
        word(heap, addr, table::USER),
        word(heap, addr, table::ROWS),
        word(heap, addr, table::SIZE),
        bytes,
    ))
}

// The entry of a hash at an address.
fn entry_at(alloc: Global, heap: &[u8], addr: Addr) -> Result<HashEntry, NoMemory>
    requires region { IsRegionSize (length heap.now) }
    ensures { IfOk result (λ entry. entry ≡ entry_told (view_in heap.now) addr) }
{
    Ok(HashEntry {
        block: addr,
        key: Bytes::copied(alloc, behind_words(heap, addr, hash_entry::WORDS))?,
        value: word(heap, addr, hash_entry::VALUE),
    })
}

// Puts the entries at these addresses behind others.
fn put_entries(
    alloc: Global,
    heap: &[u8],
    entries: &mut Items<HashEntry>,
    addrs: &[Addr],
) -> Result<(), NoMemory>
    requires region { IsRegionSize (length heap.now) }
    ensures { OnOk result
        (entries.new ≡ entries.old ++ map (entry_told (view_in heap.now)) addrs.now) }
{
    for addr in addrs {
        entries.push(entry_at(alloc, heap, *addr)?)?;
    }
    Ok(())
}

// The entries in the first so many buckets of the hash at an address, by bucket.
fn entries_in(
    alloc: Global,
    heap: &[u8],
    addr: Addr,
    buckets: u64,
) -> Result<Items<HashEntry>, NoMemory>
    requires region { IsRegionSize (length heap.now) }
    requires few { buckets ≤ 256 }
    ensures { IfOk result (λ entries. entries ≡ entries_up_to (view_in heap.now)
        (length heap.now / WORD) addr buckets) }
{
    let mut entries = Items::new(alloc);
    for bucket in 0..buckets {
        let owner = Owner::Bucket {
            hash: addr,
            front: hash::WORDS + bucket,
        };
        put_entries(alloc, heap, &mut entries, &members(alloc, heap, owner)?)?;
    }
    Ok(entries)
}

// The hash at an address, which keeps the limits.
fn hash_in(alloc: Global, heap: &[u8], addr: Addr) -> Result<SdrHash, NoMemory>
    requires region { IsRegionSize (length heap.now) }
    requires valid { IsValidHash (hash_told (view_in heap.now) (length heap.now / WORD) addr) }
    ensures { IfOk result (λ made. made
        ≡ hash_told (view_in heap.now) (length heap.now / WORD) addr) }
{
    let buckets = word(heap, addr, hash::BUCKETS);
    let entries = entries_in(alloc, heap, addr, buckets)?;
    Ok(SdrHash::of(word(heap, addr, hash::KEY_LENGTH), buckets, entries))
}

/// The thing at an address, which keeps the limits. `None` where none stands there.
pub fn thing_in(alloc: Global, heap: &[u8], addr: Addr) -> Result<Option<Thing>, NoMemory>
    requires region { IsRegionSize (length heap.now) }
    requires valid { IfSome (thing_told (view_in heap.now) (length heap.now / WORD) addr)
        IsValidThing }
    ensures { IfOk result (λ thing. thing
        ≡ thing_told (view_in heap.now) (length heap.now / WORD) addr) }
{
    let thing = if is_kind(heap, addr, Kind::Raw) {
        Thing::Raw(Bytes::copied(alloc, behind(bytes_of(heap, addr), raw::BYTES as usize))?)
    } else if is_kind(heap, addr, Kind::Text) {
        Thing::Text(Bytes::copied(alloc, behind(bytes_of(heap, addr), 1))?)
    } else if is_kind(heap, addr, Kind::List) {
        Thing::List(list_in(alloc, heap, addr)?)
    } else if is_kind(heap, addr, Kind::Table) {
        Thing::Table(table_in(alloc, heap, addr)?)
    } else if is_kind(heap, addr, Kind::Hash) {
        Thing::Hash(hash_in(alloc, heap, addr)?)
    } else if is_kind(heap, addr, Kind::Source) {
        Thing::Source(source_in(alloc, heap, addr)?)
    } else if is_kind(heap, addr, Kind::Object) {
        Thing::Object(object_in(alloc, heap, addr)?)
    } else {
        return Ok(None);
    };
    Ok(Some(thing))
}
