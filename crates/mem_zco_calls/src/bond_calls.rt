// Objects whose headers and trailers become extents.
ghost use Rattle.std.specs.Prelude.{◌≡◌, ◌≤◌, ◌<◌, ◌+◌, ◌*◌, ◌^◌, ◌++◌, [], ℕ, IfOk, OnOk, length, sum_by};
ghost use Rattle.mem_calls.specs.Answers.{CallsMemory};
ghost use Rattle.mem_world.specs.Calling.{MayCall};
ghost use Rattle.sdr_model.specs.Amounts.{amounts_by};
ghost use Rattle.sdr_model.specs.BondSteps.{bond_charge, bonded, bonded_extents, capsules_of};
ghost use Rattle.sdr_model.specs.Charges.{capsule_charge};
ghost use Rattle.sdr_model.specs.Few.{pieces};
ghost use Rattle.sdr_model.specs.ObjectSteps.{wire_length};

use crate::object_calls::object;
use mem_calls::raw_calls::misnamed;
use mem_parts::charges::{heap_charge, rise};
use mem_parts::object::object_of;
use mem_world::DraftWorld;
use mem_world::bonding::put_texts;
use mem_world::taking::charge_blocks;
use sdr_base::{Addr, Amounts, Items, NoMemory, Space};
use sdr_model::{Call, Capsule, Extent, Reply, Thing, ZcoObject};
use std::alloc::Global;

// Adds copies of headers or trailers.
fn add_copies(
    alloc: Global,
    copies: &mut Vec<Capsule>,
    capsules: &[Capsule],
) -> Result<(), NoMemory>
    ensures { OnOk result (copies.new.items ≡ copies.old.items ++ capsules.now) }
{
    for capsule in capsules {
        copies.push(capsule.copied(alloc)?)?;
    }
    Ok(())
}

// Copies of the headers and trailers of an object, in order.
fn capsules_of(alloc: Global, object: &ZcoObject) -> Result<Vec<Capsule>, NoMemory>
    ensures { IfOk result (λ copies. copies.items ≡ capsules_of object.now) }
{
    let mut copies = Vec::new(alloc);
    add_copies(alloc, &mut copies, object.headers.as_slice())?;
    add_copies(alloc, &mut copies, object.trailers.as_slice())?;
    Ok(copies)
}

// Adds the extents that these headers or trailers become, where the first of their blocks is at an address.
fn add_bonded(
    extents: &mut Items<Extent>,
    first: Addr,
    capsules: &[Capsule],
) -> Result<(), NoMemory>
    requires first { first + 24 * length capsules.now < 2 ^ 63 + 2 ^ 62 }
    ensures { OnOk result (extents.new ≡ extents.old
        ++ bonded_extents (λ k. first + 8 * k) 0 capsules.now) }
{
    let mut next = first;
    for capsule in capsules {
        extents.push(Extent {
            block: next + 16,
            source: next + 8,
            offset: 0,
            length: capsule.text.len() as u64,
        })?;
        next += 24;
    }
    Ok(())
}

// Adds these extents.
fn add_extents(extents: &mut Items<Extent>, more: &[Extent]) -> Result<(), NoMemory>
    ensures { OnOk result (extents.new ≡ extents.old ++ more.now) }
{
    for extent in more {
        extents.push(*extent)?;
    }
    Ok(())
}

// The object with its headers and trailers as extents, where the first of their blocks is at an address.
fn bonded(alloc: Global, object: &ZcoObject, first: Addr) -> Result<ZcoObject, NoMemory>
    requires first { first + 24 * pieces object.now < 2 ^ 63 + 2 ^ 62 }
    requires small { wire_length object.now ≤ 2 ^ 62 }
    ensures { IfOk result (λ after. after ≡ bonded (λ k. first + 8 * k) object.now) }
{
    let mut extents = Items::new(alloc);
    add_bonded(&mut extents, first, object.headers.as_slice())?;
    add_extents(&mut extents, object.extents.as_slice())?;
    let behind = first + 24 * object.headers.len() as u64;
    add_bonded(&mut extents, behind, object.trailers.as_slice())?;
    Ok(object_of(alloc, object.account, extents))
}

// What these headers and trailers charge more as extents.
fn bond_charge(capsules: &[Capsule]) -> Amounts
    requires small { sum_by (capsule_charge Space.Heap) capsules.now ≤ 2 ^ 41 }
    ensures { result ≡ amounts_by (bond_charge capsules.now) }
{
    heap_charge(rise(capsules))
}

/// Makes an extent of each header and trailer of an object: its text becomes a raw object with a source of
/// its own. The part is then the whole. It is linear in the object, and takes the logarithm of the world for
/// each header and trailer.
pub fn bond(
    alloc: Global,
    world: &mut DraftWorld,
    addr: Addr,
    number: u64,
) -> Result<Reply, NoMemory>
    requires may { MayCall world.old.now }
    ensures { CallsMemory (Call.Bond addr number) world.old world.new result }
{
    let Some(object) = object(world, addr) else {
        return Ok(misnamed(world, addr));
    };
    let acct = object.account;
    let first = world.next();
    let capsules = capsules_of(alloc, object)?;
    let blocks = 3 * capsules.len() as u64;
    let changed = bonded(alloc, object, first)?;
    let charge = bond_charge(capsules.as_slice());
    world.touch(addr)?;
    world.touch_next(blocks)?;
    let _granted = match charge_blocks(world, acct, number, &charge, addr, blocks)? {
        Ok(granted) => granted,
        Err(refusal) => return Ok(Reply::Refused(refusal)),
    };
    put_texts(world, first, capsules);
    world.put(addr, Thing::Object(changed));
    Ok(Reply::Done)
}
