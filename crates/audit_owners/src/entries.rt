// The lengths of lists, and the entries of hashes.
ghost use Rattle.std.specs.Prelude.{◌≡◌, ◌≤◌, ◌<◌, ◌/◌, ◌^◌, cond, length, IfOk, None, Some};
ghost use Rattle.std.specs.List.{list_all};
ghost use Rattle.sdr_base.specs.Cells.{IsRegionSize};
ghost use Rattle.sdr_base.specs.declared.line.TheConstants.{WORD};
ghost use Rattle.audit_owners.specs.Entries.{bucket, bucket_count, fits_bucket, keeps_bucket, keeps_entries, keeps_length};
ghost use Rattle.sdr_model.specs.HashSteps.{bucket_of};
ghost use Rattle.audit_owners.specs.View.{view_in};

use crate::key_chain::members;
use crate::texts::{EntryText, first_repeated, text_at};
use crate::{Owner, is_kind, length_of, word};
use sdr_base::layout::{hash, list};
use sdr_base::{Addr, Kind, NoMemory, WORD};
use std::alloc::Global;

/// Whether the block at an address, if it is a list, tells how many elements it has.
pub fn keeps_length(alloc: Global, heap: &[u8], addr: Addr) -> Result<bool, NoMemory>
    requires region { IsRegionSize (length heap.now) }
    ensures { IfOk result (λ yes. yes ≡ keeps_length (view_in heap.now)
        (length heap.now / WORD) addr) }
{
    if !is_kind(heap, addr, Kind::List) {
        return Ok(true);
    }
    let elements = members(alloc, heap, Owner::List(addr))?;
    Ok(word(heap, addr, list::LENGTH) == elements.len() as u64)
}

// The bucket of a key: the sum of its bytes modulo the buckets.
fn bucket_of(buckets: u64, key: &[u8]) -> u64
    requires some { 1 ≤ buckets }
    requires few { buckets < 2 ^ 60 }
    ensures { result ≡ bucket_of buckets key.now }
{
    let mut bucket = 0;
    for byte in key {
        bucket = (bucket + u64::from(*byte)) % buckets;
    }
    bucket
}

// How many buckets a hash has.
fn bucket_count(heap: &[u8], addr: Addr) -> u64
    requires region { IsRegionSize (length heap.now) }
    ensures is { result ≡ bucket_count (view_in heap.now) addr }
    ensures few { result < 2 ^ 30 }
{
    (length_of(heap, addr) / WORD).saturating_sub(hash::WORDS)
}

// Whether the entries at these addresses belong in a bucket of a hash.
fn fit_bucket(heap: &[u8], addr: Addr, number: u64, entries: &[Addr]) -> bool
    requires region { IsRegionSize (length heap.now) }
    requires some { number < bucket_count (view_in heap.now) addr }
    ensures { result ≡ list_all (fits_bucket (view_in heap.now) addr number) entries.now }
{
    let buckets = bucket_count(heap, addr);
    let count = word(heap, addr, hash::KEY_LENGTH);
    for entry in entries {
        let key = text_at(heap, EntryText::Key, *entry);
        if key.len() as u64 != count || bucket_of(buckets, key) != number {
            return false;
        }
    }
    true
}

// How many entries a bucket of a hash has; `None` where one doesn't belong there, or two have the same key.
fn bucket_length(
    alloc: Global,
    heap: &[u8],
    addr: Addr,
    number: u64,
) -> Result<Option<u64>, NoMemory>
    requires region { IsRegionSize (length heap.now) }
    requires some { number < bucket_count (view_in heap.now) addr }
    ensures { IfOk result (λ count. count ≡ cond
        (keeps_bucket (view_in heap.now) (length heap.now / WORD) addr number)
        (Some (length (bucket (view_in heap.now) (length heap.now / WORD) addr number))) None) }
{
    let owner = Owner::Bucket {
        hash: addr,
        front: hash::WORDS + number,
    };
    let entries = members(alloc, heap, owner)?;
    if !fit_bucket(heap, addr, number, &entries) {
        return Ok(None);
    }
    match first_repeated(alloc, heap, EntryText::Key, &entries)? {
        Some(_) => Ok(None),
        None => Ok(Some(entries.len() as u64)),
    }
}

/// Whether the block at an address, if it is a hash, has right buckets, and tells how many entries it has.
pub fn keeps_entries(alloc: Global, heap: &[u8], addr: Addr) -> Result<bool, NoMemory>
    requires region { IsRegionSize (length heap.now) }
    ensures { IfOk result (λ yes. yes ≡ keeps_entries (view_in heap.now)
        (length heap.now / WORD) addr) }
{
    if !is_kind(heap, addr, Kind::Hash) {
        return Ok(true);
    }
    let mut entries = 0u64;
    for number in 0..bucket_count(heap, addr) {
        match bucket_length(alloc, heap, addr, number)? {
            None => return Ok(false),
            Some(count) => entries = entries.saturating_add(count),
        }
    }
    Ok(word(heap, addr, hash::ENTRIES) == entries)
}
