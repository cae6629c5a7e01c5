// What goes with extents.
ghost use Rattle.std.specs.BTreeMap.{get};
ghost use Rattle.std.specs.Ordering.{nat_cmp};
ghost use Rattle.std.specs.Prelude.{◌≡◌, ◌≤◌, ◌<◌, ◌+◌, ◌^◌, ◌++◌, ◌==◌, ℕ, unwrap_or, [], All, Some, IfOk, OnOk, if◌then◌else◌};
ghost use Rattle.mem_world.specs.Calling.{IsBound};
ghost use Rattle.sdr_model.specs.Gone.{gone_things, source_blocks};
ghost use Rattle.sdr_model.specs.Zco.{naming, source_at, uses_of};

use mem_world::DraftWorld;
use sdr_base::{Addr, Items, NoMemory};
use sdr_model::{Extent, Subject, Thing};
use std::alloc::Global;
use std::collections::BTreeMap;

// Counts one more at an address, and tells how many were counted there.
fn count_one(counts: &mut BTreeMap<Addr, u64>, addr: Addr) -> Result<u64, NoMemory>
    requires few { unwrap_or (get nat_cmp counts.old addr) 0 < 2 ^ 63 }
    ensures count { IfOk result (λ count. count ≡ unwrap_or (get nat_cmp counts.old addr) 0 + 1) }
    ensures counted { OnOk result ((at : ℕ) → unwrap_or (get nat_cmp counts.new at) 0
        ≡ unwrap_or (get nat_cmp counts.old at) 0 + (if addr == at then 1 else 0)) }
{
    let count = counts.get(&addr).copied().unwrap_or(0) + 1;
    counts.insert(addr, count)?;
    Ok(count)
}

// Adds the source at an address, where it goes with its last extent, behind the raw object that it has taken
// over.
fn add_passing(world: &DraftWorld, addr: Addr, gone: &mut Items<Addr>) -> Result<(), NoMemory>
    ensures { OnOk result (gone.new ≡ gone.old
        ++ source_blocks addr (source_at world.now.now addr)) }
{
    let Some(Thing::Source(source)) = world.thing(addr) else {
        return Ok(());
    };
    if let Subject::Heap(raw) = &source.subject {
        gone.push(*raw)?;
        return gone.push(addr);
    }
    if source.flagged {
        gone.push(addr)?;
    }
    Ok(())
}

// Adds the blocks of the source at `addr` to those that go, if all its `uses` are among the `going` extents.
fn add_if_last(
    world: &DraftWorld,
    addr: Addr,
    going: u64,
    uses: u64,
    gone: &mut Items<Addr>,
) -> Result<(), NoMemory>
    ensures { OnOk result (gone.new ≡ gone.old ++
        (if going == uses then source_blocks addr (source_at world.now.now addr) else [])) }
{
    if going == uses {
        add_passing(world, addr, gone)?;
    }
    Ok(())
}

// Counts how many extents name a source.
fn add_source(
    world: &DraftWorld,
    uses: &mut BTreeMap<Addr, u64>,
    source: Addr,
) -> Result<(), NoMemory>
    requires bound { IsBound world.now.now }
    ensures here { OnOk result (get nat_cmp uses.new source ≡ Some (uses_of world.now.now source)) }
    ensures others { OnOk result ((at : ℕ) → get nat_cmp uses.old at ≡ Some (uses_of world.now.now at)
        → get nat_cmp uses.new at ≡ Some (uses_of world.now.now at)) }
{
    uses.insert(source, world.uses(source))?;
    Ok(())
}

// How many extents name each source of these extents. It takes the logarithm of the named sources for each.
fn count_uses(
    alloc: Global,
    world: &DraftWorld,
    extents: &[Extent],
) -> Result<BTreeMap<Addr, u64>, NoMemory>
    requires bound { IsBound world.now.now }
    ensures { IfOk result (λ uses. All (λ e. get nat_cmp uses e.source ≡ Some (uses_of world.now.now
        e.source)) extents.now) }
{
    let mut uses = BTreeMap::new(alloc);
    for extent in extents {
        add_source(world, &mut uses, extent.source)?;
    }
    Ok(uses)
}

// How many are counted at an address.
fn count_at(counts: &BTreeMap<Addr, u64>, addr: Addr) -> u64
    ensures { result ≡ unwrap_or (get nat_cmp counts.now addr) 0 }
{
    counts.get(&addr).copied().unwrap_or(0)
}

/// The addresses of the things that go where these extents of an object go: each source that loses its last
/// extent and goes with it, behind the raw object that it has taken over. It takes a logarithm for each extent.
pub fn gone_things(
    alloc: Global,
    world: &DraftWorld,
    extents: &[Extent],
) -> Result<Items<Addr>, NoMemory>
    requires bound { IsBound world.now.now }
    requires used { (source : ℕ) → naming source extents.now ≤ uses_of world.now.now source }
    ensures { IfOk result (λ gone. gone ≡ gone_things world.now.now extents.now extents.now) }
{
    let mut gone = Items::new(alloc);
    if extents.is_empty() {
        return Ok(gone);
    }
    let uses = count_uses(alloc, world, extents)?;
    let mut seen = BTreeMap::new(alloc);
    for extent in extents {
        let count = count_one(&mut seen, extent.source)?;
        let all = count_at(&uses, extent.source);
        add_if_last(world, extent.source, count, all, &mut gone)?;
    }
    Ok(gone)
}
