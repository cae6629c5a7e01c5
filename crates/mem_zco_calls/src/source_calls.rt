// What calls on sources do to a world.
ghost use Rattle.std.specs.Prelude.{◌≡◌, ◌<◌, ◌^◌, [], IfOk, IfSome, IsSome, OnErr, OnOk};
ghost use Rattle.mem_calls.specs.Answers.{CallsMemory};
ghost use Rattle.mem_world.specs.Calling.{MayCall};
ghost use Rattle.mem_world.specs.Keeps.{SameBegin};
ghost use Rattle.sdr_model.specs.Dry.{with_taken, next_addr};
ghost use Rattle.sdr_model.specs.SourceSteps.{flagged, new_source};
ghost use Rattle.sdr_model.specs.Steps.{with_thing};
ghost use Rattle.sdr_model.specs.Zco.{source_at};
ghost use Rattle.sdr_model.specs.declared.things.Thing.TheVariants as things;

use mem_calls::raw_calls::{bad_length, in_use, misnamed};
use mem_world::DraftWorld;
use sdr_base::limits::{LONGEST_PATH, LONGEST_SOURCE};
use sdr_base::{Addr, Bytes, Kind, NoMemory, Refusal};
use sdr_model::{Call, Reply, Subject, Thing, ZcoSource};
use std::alloc::Global;

// Makes a source that isn't flagged, and answers its address.
fn made(world: &mut DraftWorld, subject: Subject, length: u64) -> Result<Reply, NoMemory>
    requires taken { world.old.now.taken < 2 ^ 60 }
    ensures reply { IfOk result (λ reply. reply ≡ Reply.At (next_addr world.old.now.taken)) }
    ensures made { OnOk result (let addr = next_addr world.old.now.taken in world.new.now
        ≡ with_taken (with_thing world.old.now addr (things.Source (new_source subject length))) addr) }
    ensures keeps { SameBegin world.old world.new }
    ensures same { OnErr result (world.new.now ≡ world.old.now) }
{
    let addr = world.make(Thing::Source(ZcoSource {
        subject,
        length,
        flagged: false,
    }))?;
    Ok(Reply::At { addr })
}

pub fn file_ref(
    alloc: Global,
    world: &mut DraftWorld,
    path: &Bytes,
    length: u64,
) -> Result<Reply, NoMemory>
    requires may { MayCall world.old.now }
    ensures { CallsMemory (Call.FileRef path.now length) world.old world.new result }
{
    let bytes = path.len() as u64;
    if bytes < 1 || bytes > LONGEST_PATH {
        return Ok(bad_length(bytes, LONGEST_PATH));
    }
    if length > LONGEST_SOURCE {
        return Ok(bad_length(length, LONGEST_SOURCE));
    }
    let path = Bytes::copied(alloc, path.as_slice())?;
    made(world, Subject::File(path), length)
}

pub fn bulk_ref(world: &mut DraftWorld, item: u64, length: u64) -> Result<Reply, NoMemory>
    requires may { MayCall world.old.now }
    ensures { CallsMemory (Call.BulkRef item length) world.old world.new result }
{
    if length > LONGEST_SOURCE {
        return Ok(bad_length(length, LONGEST_SOURCE));
    }
    made(world, Subject::Bulk(item), length)
}

/// Makes a source of a raw object.
pub fn obj_ref(world: &mut DraftWorld, addr: Addr) -> Result<Reply, NoMemory>
    requires may { MayCall world.old.now }
    ensures { CallsMemory (Call.ObjRef addr) world.old world.new result }
{
    let Some(bytes) = world.raw(addr) else {
        return Ok(misnamed(world, addr));
    };
    let length = bytes.len() as u64;
    if let Some(source) = world.source_on(addr) {
        return Ok(in_use(world, addr, source));
    }
    made(world, Subject::Obj(addr), length)
}

// Flags the source at an address.
fn flag(world: &mut DraftWorld, addr: Addr) -> Result<(), NoMemory>
    requires there { IsSome (source_at world.old.now addr) }
    ensures flagged { OnOk result (IfSome (source_at world.old.now addr) (λ s. world.new.now
        ≡ record (with_thing world.old.now addr (things.Source (flagged s))) { shown = [] })) }
    ensures keeps { SameBegin world.old world.new }
    ensures same { OnErr result (world.new.now ≡ world.old.now) }
{
    let Thing::Source(mut source) = world.take(addr)? else {
        unreachable!()
    };
    source.flagged = true;
    world.put(addr, Thing::Source(source));
    world.hide();
    Ok(())
}

/// Lets a source go that no extent names, and flags it where one does.
pub fn destroy_ref(world: &mut DraftWorld, addr: Addr) -> Result<Reply, NoMemory>
    requires may { MayCall world.old.now }
    ensures { CallsMemory (Call.DestroyRef addr) world.old world.new result }
{
    let Some(source) = world.source(addr) else {
        return Ok(misnamed(world, addr));
    };
    if let Subject::Heap(_) = source.subject {
        let kind = Kind::Source as u8;
        return Ok(Reply::Refused(Refusal::WrongKind { addr, kind }));
    }
    if source.flagged {
        return Ok(Reply::Refused(Refusal::NotFound));
    }
    if world.uses(addr) == 0 {
        world.lose(addr)?;
    } else {
        flag(world, addr)?;
    }
    Ok(Reply::Done)
}

/// The extents that name a source.
pub fn count(world: &mut DraftWorld, addr: Addr) -> Result<Reply, NoMemory>
    requires may { MayCall world.old.now }
    ensures { CallsMemory (Call.Count addr) world.old world.new result }
{
    if world.source(addr).is_none() {
        return Ok(misnamed(world, addr));
    }
    let value = world.uses(addr);
    world.hide();
    Ok(Reply::Value { value })
}
