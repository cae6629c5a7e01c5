// What calls on the catalogue do to a world.
ghost use Rattle.std.specs.Prelude.{◌≡◌, ◌<◌, ◌^◌, length};
ghost use Rattle.mem_calls.specs.Answers.{CallsMemory};
ghost use Rattle.sdr_model.specs.Limits.{is_no_name};

use crate::raw_calls::bad_length;
use mem_world::DraftWorld;
use sdr_base::limits::LONGEST_NAME;
use sdr_base::{Bytes, NoMemory, Refusal};
use sdr_model::{Call, Reply};
use std::alloc::Global;

// Whether a name has no byte or too many.
fn is_no_name(name: &Bytes) -> bool
    ensures { result ≡ is_no_name (length name.now) }
{
    let length = name.len() as u64;
    length < 1 || length > LONGEST_NAME
}

pub fn catlg(
    world: &mut DraftWorld,
    name: &Bytes,
    kind: u32,
    object: u64,
) -> Result<Reply, NoMemory>
    requires taken { world.old.now.taken < 2 ^ 60 }
    ensures { CallsMemory (Call.Catlg name.now kind object) world.old world.new result }
{
    if is_no_name(name) {
        return Ok(bad_length(name.len() as u64, LONGEST_NAME));
    }
    if let Some(taken) = world.names().get(name.as_slice()) {
        let addr = taken.object;
        return Ok(Reply::Refused(Refusal::NameTaken { addr }));
    }
    world.name(name.as_slice(), kind, object)?;
    Ok(Reply::Done)
}

pub fn find(world: &mut DraftWorld, name: &Bytes) -> Result<Reply, NoMemory>
    ensures { CallsMemory (Call.Find name.now) world.old world.new result }
{
    if is_no_name(name) {
        return Ok(bad_length(name.len() as u64, LONGEST_NAME));
    }
    let Some(found) = world.names().get(name.as_slice()) else {
        return Ok(Reply::Refused(Refusal::NotFound));
    };
    world.hide();
    Ok(Reply::Pair {
        first: u64::from(found.kind),
        second: found.object,
    })
}

pub fn uncatlg(world: &mut DraftWorld, name: &Bytes) -> Result<Reply, NoMemory>
    ensures { CallsMemory (Call.Uncatlg name.now) world.old world.new result }
{
    if is_no_name(name) {
        return Ok(bad_length(name.len() as u64, LONGEST_NAME));
    }
    if world.names().get(name.as_slice()).is_none() {
        return Ok(Reply::Refused(Refusal::NotFound));
    }
    world.unname(name.as_slice())?;
    Ok(Reply::Done)
}

pub fn entry(alloc: Global, world: &mut DraftWorld, place: u64) -> Result<Reply, NoMemory>
    ensures { CallsMemory (Call.Entry place) world.old world.new result }
{
    let Some((name, entry)) = world.names().at(place as usize) else {
        return Ok(Reply::Refused(Refusal::NotFound));
    };
    let count = name.len() as u64;
    let shown = Bytes::copied(alloc, name)?;
    world.show(shown);
    Ok(Reply::Named {
        count,
        kind: entry.kind,
        addr: entry.object,
    })
}
