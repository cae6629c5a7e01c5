// What calls on objects do to a world.
ghost use Rattle.std.specs.Option.{option_copied};
ghost use Rattle.std.specs.Prelude.{◌≡◌, IfSome};
ghost use Rattle.mem_calls.specs.Answers.{CallsMemory};
ghost use Rattle.mem_world.specs.Calling.{MayCall};
ghost use Rattle.sdr_model.specs.Zco.{object_at};
ghost use Rattle.sdr_model.specs.declared.things.Thing.{Thing};
ghost use Rattle.mem_parts.specs.Bounds.{IsBounded};
ghost use Rattle.mem_store.specs.Owners.{MayPut};

use mem_calls::raw_calls::{exceeds, misnamed};
use mem_parts::charges::heap_charge;
use mem_parts::cuts::extents_length;
use mem_parts::object::{empty_object, wire_length};
use mem_world::DraftWorld;
use mem_world::taking::charge_blocks;
use sdr_base::{Acct, Addr, NoMemory, Refusal};
use sdr_model::{Call, Part, Reply, Thing, ZcoObject};
use std::alloc::Global;

/// The object at an address.
#[tactic(auto, using(mem_world::proofs::CallingLemmas::bounded_object))]
pub fn object(world: &DraftWorld, addr: Addr) -> Option<&ZcoObject>
    requires may { MayCall world.now.now }
    ensures is { option_copied result ≡ object_at world.now.now addr }
    ensures bounded { IfSome result (λ z. IsBounded z.now) }
    ensures owned { IfSome result (λ z. MayPut world.now addr (Thing.Object z.now)) }
{
    world.object(addr)
}

pub fn zco_length(world: &mut DraftWorld, addr: Addr) -> Result<Reply, NoMemory>
    requires may { MayCall world.old.now }
    ensures { CallsMemory (Call.ZcoLength addr) world.old world.new result }
{
    let Some(object) = object(world, addr) else {
        return Ok(misnamed(world, addr));
    };
    let value = wire_length(object);
    world.hide();
    Ok(Reply::Value { value })
}

pub fn source_length(world: &mut DraftWorld, addr: Addr) -> Result<Reply, NoMemory>
    requires may { MayCall world.old.now }
    ensures { CallsMemory (Call.SourceLength addr) world.old world.new result }
{
    let Some(object) = object(world, addr) else {
        return Ok(misnamed(world, addr));
    };
    let value = object.part.length;
    world.hide();
    Ok(Reply::Value { value })
}

/// Makes an object with nothing in it.
pub fn create(
    alloc: Global,
    world: &mut DraftWorld,
    acct: Acct,
    number: u64,
) -> Result<Reply, NoMemory>
    requires may { MayCall world.old.now }
    ensures { CallsMemory (Call.Create acct number) world.old world.new result }
{
    let addr = world.next();
    world.touch(addr)?;
    match charge_blocks(world, acct, number, &heap_charge(72), addr, 1)? {
        Ok(_) => {
            world.put(addr, Thing::Object(empty_object(alloc, acct)));
            Ok(Reply::At { addr })
        }
        Err(refusal) => Ok(Reply::Refused(refusal)),
    }
}

/// Sets the part of an object. It looks at the lengths of the extents; all else takes about the logarithm of
/// the world.
pub fn delimit(
    world: &mut DraftWorld,
    addr: Addr,
    offset: u64,
    bytes: u64,
) -> Result<Reply, NoMemory>
    requires may { MayCall world.old.now }
    ensures { CallsMemory (Call.Delimit addr offset bytes) world.old world.new result }
{
    let Some(object) = object(world, addr) else {
        return Ok(misnamed(world, addr));
    };
    let have = extents_length(object.extents.as_slice());
    let length = bytes;
    if exceeds(offset, length, have) {
        return Ok(Reply::Refused(Refusal::BadRange {
            offset,
            length,
            have,
        }));
    }
    let Thing::Object(mut object) = world.take(addr)? else {
        unreachable!()
    };
    object.part = Part { offset, length };
    world.put(addr, Thing::Object(object));
    world.hide();
    Ok(Reply::Done)
}
