// What calls that add headers and trailers do to a world.
ghost use Rattle.std.specs.Prelude.{◌≡◌};
ghost use Rattle.mem_calls.specs.Answers.{CallsMemory};
ghost use Rattle.mem_world.specs.Calling.{MayCall};
ghost use Rattle.mem_parts.specs.Sides.{capsule_call};

use crate::object_calls::object;
use mem_calls::raw_calls::{bad_length, misnamed};
use mem_parts::Side;
use mem_parts::capsules::capsule_bytes;
use mem_parts::charges::heap_charge;
use mem_world::DraftWorld;
use mem_world::growing::add_component;
use sdr_base::limits::LONGEST_CAPSULE;
use sdr_base::{Addr, Bytes, NoMemory};
use sdr_model::{Call, Capsule, Reply};
use std::alloc::Global;

// Adds a header or trailer of this text to an object.
fn add_capsule(
    alloc: Global,
    world: &mut DraftWorld,
    side: Side,
    addr: Addr,
    number: u64,
    text: &Bytes,
) -> Result<Reply, NoMemory>
    requires may { MayCall world.old.now }
    ensures { CallsMemory (capsule_call side addr number text.now) world.old world.new result }
{
    if object(world, addr).is_none() {
        return Ok(misnamed(world, addr));
    }
    let length = text.len() as u64;
    if length < 1 || length > LONGEST_CAPSULE {
        return Ok(bad_length(length, LONGEST_CAPSULE));
    }
    let text = Bytes::copied(alloc, text.as_slice())?;
    let block = world.next();
    let capsule = side.component(Capsule { block, text });
    let charge = heap_charge(capsule_bytes(length));
    match add_component(world, addr, number, &charge, capsule, 0)? {
        Ok(_) => Ok(Reply::Done),
        Err(refusal) => Ok(Reply::Refused(refusal)),
    }
}

pub fn prepend_header(
    alloc: Global,
    world: &mut DraftWorld,
    addr: Addr,
    number: u64,
    text: &Bytes,
) -> Result<Reply, NoMemory>
    requires may { MayCall world.old.now }
    ensures { CallsMemory (Call.PrependHeader addr number text.now) world.old world.new result }
{
    add_capsule(alloc, world, Side::Front, addr, number, text)
}

pub fn append_trailer(
    alloc: Global,
    world: &mut DraftWorld,
    addr: Addr,
    number: u64,
    text: &Bytes,
) -> Result<Reply, NoMemory>
    requires may { MayCall world.old.now }
    ensures { CallsMemory (Call.AppendTrailer addr number text.now) world.old world.new result }
{
    add_capsule(alloc, world, Side::Back, addr, number, text)
}
