// What calls on strings do to a world.
ghost use Rattle.std.specs.Option.{option_copied};
ghost use Rattle.std.specs.Prelude.{◌≡◌, ◌<◌, ◌^◌};
ghost use Rattle.mem_calls.specs.Answers.{CallsMemory};
ghost use Rattle.sdr_model.specs.World.{as_text, thing_at};

use crate::raw_calls::{bad_length, misnamed};
use mem_world::DraftWorld;
use sdr_base::limits::LONGEST_STRING;
use sdr_base::{Addr, Bytes, NoMemory};
use sdr_model::{Call, Reply, Thing};
use std::alloc::Global;

// The text of the string at an address.
fn text(world: &DraftWorld, addr: Addr) -> Option<&Bytes>
    ensures { option_copied result ≡ as_text (thing_at world.now.now addr) }
{
    match world.thing(addr) {
        Some(Thing::Text(text)) => Some(text),
        _ => None,
    }
}

pub fn string(alloc: Global, world: &mut DraftWorld, text: &Bytes) -> Result<Reply, NoMemory>
    requires taken { world.old.now.taken < 2 ^ 60 }
    ensures { CallsMemory (Call.String text.now) world.old world.new result }
{
    let length = text.len() as u64;
    if length > LONGEST_STRING {
        return Ok(bad_length(length, LONGEST_STRING));
    }
    let copy = Bytes::copied(alloc, text.as_slice())?;
    let addr = world.make(Thing::Text(copy))?;
    Ok(Reply::At { addr })
}

pub fn string_length(world: &mut DraftWorld, addr: Addr) -> Result<Reply, NoMemory>
    ensures { CallsMemory (Call.StringLength addr) world.old world.new result }
{
    let Some(text) = text(world, addr) else {
        return Ok(misnamed(world, addr));
    };
    let value = text.len() as u64;
    world.hide();
    Ok(Reply::Value { value })
}

pub fn string_read(alloc: Global, world: &mut DraftWorld, addr: Addr) -> Result<Reply, NoMemory>
    ensures { CallsMemory (Call.StringRead addr) world.old world.new result }
{
    let Some(text) = text(world, addr) else {
        return Ok(misnamed(world, addr));
    };
    let count = text.len() as u64;
    let shown = Bytes::copied(alloc, text.as_slice())?;
    world.show(shown);
    Ok(Reply::Bytes { count })
}

pub fn string_dup(alloc: Global, world: &mut DraftWorld, addr: Addr) -> Result<Reply, NoMemory>
    requires taken { world.old.now.taken < 2 ^ 60 }
    ensures { CallsMemory (Call.StringDup addr) world.old world.new result }
{
    let Some(text) = text(world, addr) else {
        return Ok(misnamed(world, addr));
    };
    let copy = Bytes::copied(alloc, text.as_slice())?;
    let addr = world.make(Thing::Text(copy))?;
    Ok(Reply::At { addr })
}
