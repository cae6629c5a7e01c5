// The world of a heap.
ghost use Rattle.std.specs.Prelude.{◌≡◌, ◌/◌, length, IfOk, IfSome, OnOk};
ghost use Rattle.std.specs.FinMap as finite;
ghost use Rattle.sdr_base.specs.Cells.{IsRegionSize};
ghost use Rattle.sdr_base.specs.declared.line.TheConstants.{WORD};
ghost use Rattle.sdr_model.specs.Valid.{IsValidThing};
ghost use Rattle.audit_owners.specs.View.{view_in};
ghost use Rattle.audit_world.specs.Made.{with_told};
ghost use Rattle.audit_world.specs.Standing.{IsCounted};
ghost use Rattle.audit_world.specs.Told.{thing_told, world_of};

use crate::accounts::accounts_in;
use crate::names::names_in;
use crate::things::thing_in;
use audit_owners::next_block;
use sdr_base::{Addr, Bytes, Items, Kind, NoMemory, WORD};
use sdr_model::{Parts, Thing, World};
use std::alloc::Global;
use std::collections::BTreeMap;

// Puts the thing at an address, if one stands there, among others.
fn put_thing(
    alloc: Global,
    heap: &[u8],
    things: &mut BTreeMap<u64, Thing>,
    addr: Addr,
) -> Result<(), NoMemory>
    requires region { IsRegionSize (length heap.now) }
    requires valid { IfSome (thing_told (view_in heap.now) (length heap.now / WORD) addr)
        IsValidThing }
    ensures { OnOk result (finite.from_entries things.new.entries
        ≡ with_told (thing_told (view_in heap.now) (length heap.now / WORD) addr) addr
        (finite.from_entries things.old.entries)) }
{
    if let Some(thing) = thing_in(alloc, heap, addr)? {
        things.insert(addr, thing)?;
    }
    Ok(())
}

// The things by their addresses.
fn things_in(alloc: Global, heap: &[u8]) -> Result<BTreeMap<u64, Thing>, NoMemory>
    requires counted { IsCounted heap.now }
    ensures { IfOk result (λ things. finite.from_entries things.entries
        ≡ (world_of heap.now).things) }
{
    let mut things = BTreeMap::new(alloc);
    let mut from = 0;
    while let Some(number) = next_block(heap, from) {
        put_thing(alloc, heap, &mut things, WORD * number)?;
        from = number + 1;
    }
    Ok(things)
}

/// The world that a heap region in memory tells, which passes the audit up to its queues. It is linear in the region, but
/// for things, which are put into a tree.
pub fn world_in(alloc: Global, heap: &[u8]) -> Result<World, NoMemory>
    requires counted { IsCounted heap.now }
    ensures { IfOk result (λ w. w ≡ world_of heap.now) }
{
    Ok(World::of(Parts {
        things: things_in(alloc, heap)?,
        names: names_in(alloc, heap)?,
        accounts: accounts_in(alloc, heap)?,
        marks: Items::new(alloc),
        shown: Bytes::new(alloc),
        taken: 0,
    }))
}
