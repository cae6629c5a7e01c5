// The catalogue of a heap.
ghost use Rattle.std.specs.Prelude.{◌≡◌, ◌/◌, All, length, map, IfOk};
ghost use Rattle.sdr_base.specs.Cells.{IsRegionSize};
ghost use Rattle.sdr_base.specs.declared.line.TheConstants.{WORD};
ghost use Rattle.audit_owners.specs.Keyed.{catalogue};
ghost use Rattle.audit_owners.specs.Reading.{name_in};
ghost use Rattle.audit_owners.specs.View.{view_in};
ghost use Rattle.audit_world.specs.Made.{AreTyped, IsTyped};
ghost use Rattle.audit_world.specs.Told.{name_told};

use crate::blocks::behind_words;
use audit_owners::{Owner, members, word};
use sdr_base::layout::name;
use sdr_base::{Addr, Bytes, Items, NoMemory};
use sdr_model::Name;
use std::alloc::Global;

// The name in these bytes: as many as the first of them tells, behind it.
fn name_in(bytes: &[u8]) -> &[u8]
    ensures { result.now ≡ name_in bytes.now }
{
    match bytes.split_first() {
        None => &[],
        Some((count, rest)) => &rest[..rest.len().min(usize::from(*count))],
    }
}

// The entry of the catalogue at an address, whose type fits its number.
fn name_at(alloc: Global, heap: &[u8], addr: Addr) -> Result<Name, NoMemory>
    requires region { IsRegionSize (length heap.now) }
    requires typed { IsTyped (view_in heap.now) addr }
    ensures { IfOk result (λ entry. entry ≡ name_told (view_in heap.now) addr) }
{
    Ok(Name {
        block: addr,
        name: Bytes::copied(alloc, name_in(behind_words(heap, addr, name::WORDS)))?,
        kind: word(heap, addr, name::TYPE) as u32,
        object: word(heap, addr, name::OBJECT),
    })
}

// The entries of the catalogue at these addresses.
fn names_at(alloc: Global, heap: &[u8], addrs: &[Addr]) -> Result<Items<Name>, NoMemory>
    requires region { IsRegionSize (length heap.now) }
    requires typed { All (IsTyped (view_in heap.now)) addrs.now }
    ensures { IfOk result (λ names. names ≡ map (name_told (view_in heap.now)) addrs.now) }
{
    let mut names = Items::new(alloc);
    for addr in addrs {
        names.push(name_at(alloc, heap, *addr)?)?;
    }
    Ok(names)
}

/// The entries of the catalogue, whose types fit their numbers, oldest first.
pub fn names_in(alloc: Global, heap: &[u8]) -> Result<Items<Name>, NoMemory>
    requires region { IsRegionSize (length heap.now) }
    requires typed { AreTyped (view_in heap.now) (length heap.now / WORD) }
    ensures { IfOk result (λ names. names ≡ map (name_told (view_in heap.now))
        (catalogue (view_in heap.now) (length heap.now / WORD))) }
{
    let addrs = members(alloc, heap, Owner::Catalogue)?;
    names_at(alloc, heap, &addrs)
}
