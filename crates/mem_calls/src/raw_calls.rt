// What calls on raw objects do to a world.
ghost use Rattle.std.specs.Prelude.{◌≡◌, ◌<◌, ◌+◌, ◌^◌, OnErr, OnOk, length, nat_lt};
ghost use Rattle.mem_calls.specs.Answers.{CallsMemory, HasRoom, Overwrites};
ghost use Rattle.mem_world.specs.Calling.{IsBound, MayCall};
ghost use Rattle.sdr_model.specs.World.{as_raw, misnamed, thing_at};
ghost use Rattle.sdr_model.specs.Zco.{uses_of};

use mem_world::DraftWorld;
use sdr_base::limits::{LONGEST_RAW, LONGEST_READ};
use sdr_base::{Addr, Bytes, Kind, NoMemory, Refusal};
use sdr_model::{Call, Reply, Thing};
use std::alloc::Global;

/// The refusal of a length outside a call's range.
pub fn bad_length(length: u64, most: u64) -> Reply
    ensures { result ≡ Reply.Refused (Refusal.BadLength length most) }
{
    Reply::Refused(Refusal::BadLength { length, most })
}

/// The refusal of an address that isn't of what the call takes.
pub fn misnamed(world: &DraftWorld, addr: Addr) -> Reply
    ensures { result ≡ Reply.Refused (misnamed world.now.now addr) }
{
    Reply::Refused(match world.block(addr) {
        None => Refusal::BadAddress { addr },
        Some(block) => Refusal::WrongKind {
            addr,
            kind: block.kind as u8,
        },
    })
}

pub fn malloc(alloc: Global, world: &mut DraftWorld, bytes: u64) -> Result<Reply, NoMemory>
    requires taken { world.old.now.taken < 2 ^ 60 }
    ensures { CallsMemory (Call.Malloc bytes) world.old world.new result }
{
    if bytes > LONGEST_RAW {
        return Ok(bad_length(bytes, LONGEST_RAW));
    }
    let zeros = Bytes::zeros(alloc, bytes as usize)?;
    let addr = world.make(Thing::Raw(zeros))?;
    Ok(Reply::At { addr })
}

/// The refusal of a raw object that a source names.
pub fn in_use(world: &DraftWorld, raw: Addr, source: Addr) -> Reply
    requires bound { IsBound world.now.now }
    ensures { result ≡ Reply.Refused (Refusal.InUse raw (uses_of world.now.now source)) }
{
    Reply::Refused(Refusal::InUse {
        addr: raw,
        count: world.uses(source),
    })
}

pub fn free(world: &mut DraftWorld, addr: Addr) -> Result<Reply, NoMemory>
    requires may { MayCall world.old.now }
    ensures { CallsMemory (Call.Free addr) world.old world.new result }
{
    match world.thing(addr) {
        Some(Thing::Raw(_)) => {
            if let Some(source) = world.source_on(addr) {
                return Ok(in_use(world, addr, source));
            }
        }
        Some(Thing::Text(_)) => {}
        _ => return Ok(misnamed(world, addr)),
    }
    world.lose(addr)?;
    Ok(Reply::Done)
}

pub fn length(world: &mut DraftWorld, addr: Addr) -> Result<Reply, NoMemory>
    ensures { CallsMemory (Call.Length addr) world.old world.new result }
{
    let Some(block) = world.block(addr) else {
        return Ok(misnamed(world, addr));
    };
    let value = match block.kind {
        Kind::Raw => block.bytes.saturating_sub(8),
        _ => block.bytes,
    };
    world.hide();
    Ok(Reply::Value { value })
}

/// Whether so many bytes from a place on exceed a length.
pub fn exceeds(place: u64, count: u64, length: u64) -> bool
    ensures { result ≡ nat_lt length (place + count) }
{
    match place.checked_add(count) {
        Some(end) => length < end,
        None => true,
    }
}

pub fn read(
    alloc: Global,
    world: &mut DraftWorld,
    addr: Addr,
    place: u64,
    count: u64,
) -> Result<Reply, NoMemory>
    ensures { CallsMemory (Call.Read addr place count) world.old world.new result }
{
    let Some(bytes) = world.raw(addr) else {
        return Ok(misnamed(world, addr));
    };
    if count > LONGEST_READ {
        return Ok(bad_length(count, LONGEST_READ));
    }
    if exceeds(place, count, bytes.len() as u64) {
        let length = count;
        return Ok(Reply::Refused(Refusal::OutOfBounds {
            addr,
            place,
            length,
        }));
    }
    let place = place as usize;
    let shown = Bytes::copied(alloc, &bytes.as_slice()[place..place + count as usize])?;
    world.show(shown);
    Ok(Reply::Bytes { count })
}

// Overwrites bytes of the raw object at an address.
fn overwrite(world: &mut DraftWorld, addr: Addr, place: usize, from: &[u8]) -> Result<(), NoMemory>
    requires inside { HasRoom (as_raw (thing_at world.old.now addr)) (place + length from.now) }
    ensures written { OnOk result
        (Overwrites (as_raw (thing_at world.old.now addr)) addr place from.now world.old.now world.new.now) }
    ensures begun { world.new.begun ≡ world.old.begun }
    ensures same { OnErr result (world.new.now ≡ world.old.now) }
{
    match world.take(addr)? {
        Thing::Raw(mut bytes) => {
            bytes.overwrite(place, from);
            world.put(addr, Thing::Raw(bytes));
            world.hide();
            Ok(())
        }
        _ => unreachable!(),
    }
}

pub fn write(
    world: &mut DraftWorld,
    addr: Addr,
    place: u64,
    from: &Bytes,
) -> Result<Reply, NoMemory>
    ensures { CallsMemory (Call.Write addr place from.now) world.old world.new result }
{
    let Some(bytes) = world.raw(addr) else {
        return Ok(misnamed(world, addr));
    };
    let length = from.len() as u64;
    if exceeds(place, length, bytes.len() as u64) {
        return Ok(Reply::Refused(Refusal::OutOfBounds {
            addr,
            place,
            length,
        }));
    }
    if !world.is_marked(addr) {
        return Ok(Reply::Refused(Refusal::NotStaged { addr }));
    }
    overwrite(world, addr, place as usize, from.as_slice())?;
    Ok(Reply::Done)
}

pub fn stage(
    alloc: Global,
    world: &mut DraftWorld,
    addr: Addr,
    count: u64,
) -> Result<Reply, NoMemory>
    ensures { CallsMemory (Call.Stage addr count) world.old world.new result }
{
    let Some(bytes) = world.raw(addr) else {
        return Ok(misnamed(world, addr));
    };
    if count > LONGEST_READ {
        return Ok(bad_length(count, LONGEST_READ));
    }
    if count > bytes.len() as u64 {
        let (place, length) = (0, count);
        return Ok(Reply::Refused(Refusal::OutOfBounds {
            addr,
            place,
            length,
        }));
    }
    let shown = Bytes::copied(alloc, &bytes.as_slice()[..count as usize])?;
    world.stage(addr, shown)?;
    Ok(Reply::Bytes { count })
}
