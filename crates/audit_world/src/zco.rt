// The sources and zero-copy objects of a heap.
ghost use Rattle.std.specs.Prelude.{◌≡◌, ◌/◌, length, map, IfOk};
ghost use Rattle.sdr_base.specs.Cells.{IsRegionSize};
ghost use Rattle.sdr_base.specs.KeptHeap.{block_in};
ghost use Rattle.sdr_base.specs.declared.line.TheConstants.{WORD};
ghost use Rattle.audit_owners.specs.View.{view_in};
ghost use Rattle.audit_world.specs.Told.{capsule_told, extent_told, object_told, source_told, subject_told};

use crate::blocks::behind_words;
use audit_owners::{Owner, members, word};
use sdr_base::layout::{capsule, extent, object, source};
use sdr_base::{Acct, Addr, Bytes, Items, NoMemory, WORD};
use sdr_model::{Capsule, Extent, Part, Subject, ZcoObject, ZcoSource};
use std::alloc::Global;

// What the bytes of the source at an address are.
fn subject_in(alloc: Global, heap: &[u8], addr: Addr) -> Result<Subject, NoMemory>
    requires region { IsRegionSize (length heap.now) }
    ensures { IfOk result (λ subject. subject ≡ subject_told (block_in heap.now addr)) }
{
    let named = word(heap, addr, source::SUBJECT);
    Ok(match word(heap, addr, source::MEDIUM) {
        1 => Subject::File(Bytes::copied(alloc, behind_words(heap, addr, source::WORDS))?),
        2 => Subject::Bulk(named),
        3 => Subject::Heap(named),
        _ => Subject::Obj(named),
    })
}

/// The source at an address.
pub fn source_in(alloc: Global, heap: &[u8], addr: Addr) -> Result<ZcoSource, NoMemory>
    requires region { IsRegionSize (length heap.now) }
    ensures { IfOk result (λ made. made ≡ source_told (block_in heap.now addr)) }
{
    Ok(ZcoSource {
        subject: subject_in(alloc, heap, addr)?,
        length: word(heap, addr, source::LENGTH),
        flagged: word(heap, addr, source::FLAG) == 1,
    })
}

// The extents at these addresses.
fn extents_at(alloc: Global, heap: &[u8], addrs: &[Addr]) -> Result<Items<Extent>, NoMemory>
    requires region { IsRegionSize (length heap.now) }
    ensures { IfOk result (λ extents. extents ≡ map (extent_told (view_in heap.now)) addrs.now) }
{
    let mut extents = Items::new(alloc);
    for addr in addrs {
        extents.push(Extent {
            block: *addr,
            source: word(heap, *addr, extent::SOURCE),
            offset: word(heap, *addr, extent::OFFSET),
            length: word(heap, *addr, extent::LENGTH),
        })?;
    }
    Ok(extents)
}

// The header or trailer at an address.
fn capsule_at(alloc: Global, heap: &[u8], addr: Addr) -> Result<Capsule, NoMemory>
    requires region { IsRegionSize (length heap.now) }
    ensures { IfOk result (λ made. made ≡ capsule_told (view_in heap.now) addr) }
{
    Ok(Capsule {
        block: addr,
        text: Bytes::copied(alloc, behind_words(heap, addr, capsule::WORDS))?,
    })
}

// The headers or trailers at these addresses.
fn capsules_at(alloc: Global, heap: &[u8], addrs: &[Addr]) -> Result<Items<Capsule>, NoMemory>
    requires region { IsRegionSize (length heap.now) }
    ensures { IfOk result (λ capsules. capsules ≡ map (capsule_told (view_in heap.now)) addrs.now) }
{
    let mut capsules = Items::new(alloc);
    for addr in addrs {
        capsules.push(capsule_at(alloc, heap, *addr)?)?;
    }
    Ok(capsules)
}

// The account of the object at an address.
fn account_of(heap: &[u8], addr: Addr) -> Acct
    requires region { IsRegionSize (length heap.now) }
    ensures { result ≡ (object_told (view_in heap.now) (length heap.now / WORD) addr).account }
{
    match word(heap, addr, object::ACCOUNT) {
        0 => Acct::Inbound,
        _ => Acct::Outbound,
    }
}

/// The object at an address.
pub fn object_in(alloc: Global, heap: &[u8], addr: Addr) -> Result<ZcoObject, NoMemory>
    requires region { IsRegionSize (length heap.now) }
    ensures { IfOk result (λ made. made
        ≡ object_told (view_in heap.now) (length heap.now / WORD) addr) }
{
    let headers = members(alloc, heap, Owner::Headers(addr))?;
    let extents = members(alloc, heap, Owner::Extents(addr))?;
    let trailers = members(alloc, heap, Owner::Trailers(addr))?;
    Ok(ZcoObject {
        account: account_of(heap, addr),
        headers: capsules_at(alloc, heap, &headers)?,
        extents: extents_at(alloc, heap, &extents)?,
        trailers: capsules_at(alloc, heap, &trailers)?,
        part: Part {
            offset: word(heap, addr, object::PART_OFFSET),
            length: word(heap, addr, object::PART_LENGTH),
        },
    })
}
