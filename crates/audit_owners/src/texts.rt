// The texts of entries, in their blocks.
ghost use Rattle.std.specs.Prelude.{◌≡◌, length, IfOk};
ghost use Rattle.sdr_base.specs.Cells.{IsRegionSize};
ghost use Rattle.sdr_base.specs.KeptHeap.{block_in};
ghost use Rattle.audit_owners.specs.Texts.{first_repeated, text_at, text_in};
ghost use Rattle.audit_owners.specs.Reading.{bytes_of};
ghost use Rattle.audit_owners.specs.View.{view_in};

use crate::length_of;
use indexmap::IndexSet;
use sdr_base::layout::{hash_entry, name};
use sdr_base::{Addr, NoMemory, WORD};
use std::alloc::Global;

/// What an entry holds as a text.
#[derive(Clone, Copy)]
pub enum EntryText {
    /// An entry of a hash, its key.
    Key,
    /// An entry of the catalogue, its name.
    Name,
}

// The bytes of the block in use at an address, none where none begins there.
fn bytes_of(heap: &[u8], addr: Addr) -> &[u8]
    requires region { IsRegionSize (length heap.now) }
    ensures { result.now ≡ bytes_of (block_in heap.now addr) }
{
    let count = length_of(heap, addr);
    if count == 0 {
        return &[];
    }
    &heap[addr as usize..(addr + count) as usize]
}

// The name in the bytes of an entry of the catalogue.
fn name_in(bytes: &[u8]) -> &[u8]
    ensures { result.now ≡ text_in EntryText.Name bytes.now }
{
    let place = (WORD * name::WORDS) as usize;
    if bytes.len() <= place {
        return &[];
    }
    let count = usize::from(bytes[place]).min(bytes.len() - place - 1);
    &bytes[place + 1..place + 1 + count]
}

// The key in the bytes of an entry of a hash.
fn key_in(bytes: &[u8]) -> &[u8]
    ensures { result.now ≡ text_in EntryText.Key bytes.now }
{
    let place = (WORD * hash_entry::WORDS) as usize;
    if bytes.len() <= place {
        return &[];
    }
    &bytes[place..]
}

/// The text of the entry at an address.
pub fn text_at(heap: &[u8], text: EntryText, addr: Addr) -> &[u8]
    requires region { IsRegionSize (length heap.now) }
    ensures { result.now ≡ text_at (view_in heap.now) text addr }
{
    let bytes = bytes_of(heap, addr);
    match text {
        EntryText::Key => key_in(bytes),
        EntryText::Name => name_in(bytes),
    }
}

/// The first of the entries at these addresses that has the text of one before it.
pub fn first_repeated(
    alloc: Global,
    heap: &[u8],
    text: EntryText,
    addrs: &[Addr],
) -> Result<Option<Addr>, NoMemory>
    requires region { IsRegionSize (length heap.now) }
    ensures { IfOk result (λ addr. addr ≡ first_repeated (view_in heap.now) text addrs.now) }
{
    let mut seen = IndexSet::new(alloc);
    for addr in addrs {
        let copy = text_at(heap, text, *addr).to_vec(alloc)?;
        if !seen.insert(copy)? {
            return Ok(Some(*addr));
        }
    }
    Ok(None)
}
