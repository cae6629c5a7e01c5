// What the call that clones a part of an object does to a world.
ghost use Rattle.std.specs.Prelude.{◌≡◌, ◌≤◌, ◌<◌, ◌+◌, ◌*◌, ◌^◌, ℕ, length, IfOk};
ghost use Rattle.mem_calls.specs.Answers.{CallsMemory};
ghost use Rattle.mem_world.specs.Calling.{MayCall};
ghost use Rattle.sdr_model.specs.Cuts.{placed};
ghost use Rattle.sdr_model.specs.PartSteps.{asked_extents, object_of};
ghost use Rattle.mem_parts.specs.Bounds.{IsBounded};

use crate::append_calls::is_outside;
use crate::object_calls::object;
use mem_calls::raw_calls::misnamed;
use mem_parts::charges::object_charge;
use mem_parts::object::{asked_extents, object_of};
use mem_world::DraftWorld;
use mem_world::taking::charge_blocks;
use sdr_base::{Addr, Items, NoMemory, Refusal};
use sdr_model::{Call, Extent, Reply, Thing, ZcoObject};
use std::alloc::Global;

// These extents, each in a block of its own, one after the other behind the block at an address. It is
// linear in them.
fn placed_behind(alloc: Global, addr: Addr, extents: &[Extent]) -> Result<Items<Extent>, NoMemory>
    requires room { addr + 8 * length extents.now < 2 ^ 63 + 2 ^ 40 }
    ensures { IfOk result (λ extents'. extents' ≡ placed (λ i. addr + 8 * i) 1 extents.now) }
{
    let mut block = addr;
    let mut placed = Items::new(alloc);
    for extent in extents {
        block += 8;
        placed.push(Extent {
            block,
            source: extent.source,
            offset: extent.offset,
            length: extent.length,
        })?;
    }
    Ok(placed)
}

// A part of an object's part, as an object at an address, with the blocks of its extents behind it. It is
// linear in the object.
fn cloned(
    alloc: Global,
    object: &ZcoObject,
    addr: Addr,
    offset: u64,
    bytes: u64,
) -> Result<ZcoObject, NoMemory>
    requires bounded { IsBounded object.now }
    requires inside { offset + bytes ≤ object.now.part.length }
    requires room { addr + 8 * length object.now.extents < 2 ^ 63 + 2 ^ 40 }
    ensures { IfOk result (λ z. z ≡ object_of object.now.account
        (placed (λ i. addr + 8 * i) 1 (asked_extents object.now offset bytes))) }
{
    let extents = asked_extents(object, alloc, offset, bytes)?;
    let placed = placed_behind(alloc, addr, extents.as_slice())?;
    Ok(object_of(alloc, object.account, placed))
}

/// Makes an object of a part of another's part, in the same account. It has extents of the same sources, and
/// no header or trailer. No byte is copied. It is linear in the object, and takes the logarithm of the world for
/// each extent.
pub fn clone_part(
    alloc: Global,
    world: &mut DraftWorld,
    addr: Addr,
    number: u64,
    offset: u64,
    bytes: u64,
) -> Result<Reply, NoMemory>
    requires may { MayCall world.old.now }
    ensures { CallsMemory (Call.ClonePart addr number offset bytes) world.old world.new result }
{
    let Some(object) = object(world, addr) else {
        return Ok(misnamed(world, addr));
    };
    let have = object.part.length;
    if is_outside(offset, bytes, have) {
        let length = bytes;
        return Ok(Reply::Refused(Refusal::BadRange {
            offset,
            length,
            have,
        }));
    }
    let acct = object.account;
    let made = world.next();
    let clone = cloned(alloc, object, made, offset, bytes)?;
    let charge = object_charge(&clone);
    let blocks = 1 + clone.extents.len() as u64;
    world.touch(made)?;
    let _granted = match charge_blocks(world, acct, number, &charge, made, blocks)? {
        Ok(granted) => granted,
        Err(refusal) => return Ok(Reply::Refused(refusal)),
    };
    world.put(made, Thing::Object(clone));
    Ok(Reply::At { addr: made })
}
