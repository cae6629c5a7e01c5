// What the call that adds an extent does to a world.
ghost use Rattle.std.specs.Prelude.{◌≡◌, ◌||◌, ◌+◌, ◌==◌, IsSome, None, nat_lt};
ghost use Rattle.mem_calls.specs.Answers.{CallsMemory};
ghost use Rattle.mem_world.specs.Calling.{MayCall};
ghost use Rattle.sdr_model.specs.Zco.{object_at, source_at};
ghost use Rattle.mem_parts.specs.declared.component.Component.TheVariants as components;

use crate::object_calls::object;
use mem_calls::raw_calls::{exceeds, in_use, misnamed};
use mem_parts::charges::bytes_charge;
use mem_parts::component::Component;
use mem_world::DraftWorld;
use mem_world::growing::add_component;
use sdr_base::{Addr, NoMemory, Refusal, Space};
use sdr_model::{Call, Extent, Reply, Subject, Thing, ZcoSource};

/// An append that is asked.
#[derive(Clone, Copy)]
pub struct Append {
    pub object: Addr,
    /// 0 for none.
    pub ticket: u64,
    /// The source, or the raw object.
    pub named: Addr,
    /// In its bytes.
    pub offset: u64,
    pub bytes: u64,
}

impl Append {
    // The extent that is asked, of this source.
    fn extent(&self, block: Addr, source: Addr) -> Component
        ensures { result ≡ components.Extent (record {
          block = block;
          source = source;
          offset = self.now.offset;
          length = self.now.bytes;
        }) }
    {
        Component::Extent(Extent {
            block,
            source,
            offset: self.offset,
            length: self.bytes,
        })
    }

    // The refusal of a range that isn't within the bytes that are there.
    fn bad_range(&self, have: u64) -> Reply
        ensures { result ≡ Reply.Refused (Refusal.BadRange self.now.offset self.now.bytes have) }
    {
        Reply::Refused(Refusal::BadRange {
            offset: self.offset,
            length: self.bytes,
            have,
        })
    }
}

// Whether a range has no byte, or isn't within the bytes that are there.
pub fn is_outside(offset: u64, bytes: u64, have: u64) -> bool
    ensures { result ≡ (bytes == 0 || nat_lt have (offset + bytes)) }
{
    bytes == 0 || exceeds(offset, bytes, have)
}

// Appends a part of a source that is there to an object that is there.
fn append_source(world: &mut DraftWorld, asked: &Append) -> Result<Reply, NoMemory>
    requires may { MayCall world.old.now }
    requires object { IsSome (object_at world.old.now asked.now.object) }
    requires source { IsSome (source_at world.old.now asked.now.named) }
    ensures { CallsMemory (Call.AppendExtent asked.now.object asked.now.ticket asked.now.named
        asked.now.offset asked.now.bytes)
        world.old world.new result }
{
    let Some(source) = world.source(asked.named) else {
        unreachable!()
    };
    if source.flagged {
        return Ok(Reply::Refused(Refusal::NotFound));
    }
    if is_outside(asked.offset, asked.bytes, source.length) {
        return Ok(asked.bad_range(source.length));
    }
    let Some(object) = world.object(asked.object) else {
        unreachable!()
    };
    let charge = world.use_charge(object.account, asked.named, source);
    let extent = asked.extent(world.next(), asked.named);
    match add_component(world, asked.object, asked.ticket, &charge, extent, 0)? {
        Ok(_) => Ok(Reply::Done),
        Err(refusal) => Ok(Reply::Refused(refusal)),
    }
}

// Appends a part of a raw object, which a new source takes over, to an object that is there.
fn append_raw(world: &mut DraftWorld, asked: &Append) -> Result<Reply, NoMemory>
    requires may { MayCall world.old.now }
    requires object { IsSome (object_at world.old.now asked.now.object) }
    requires no_source { source_at world.old.now asked.now.named ≡ None }
    ensures { CallsMemory (Call.AppendExtent asked.now.object asked.now.ticket asked.now.named
        asked.now.offset asked.now.bytes)
        world.old world.new result }
{
    let Some(bytes) = world.raw(asked.named) else {
        return Ok(misnamed(world, asked.named));
    };
    let length = bytes.len() as u64;
    if let Some(source) = world.source_on(asked.named) {
        return Ok(in_use(world, asked.named, source));
    }
    if is_outside(asked.offset, asked.bytes, length) {
        return Ok(asked.bad_range(length));
    }
    let source = world.next();
    world.touch(source)?;
    let extent = asked.extent(source + 8, source);
    let taking = ZcoSource {
        subject: Subject::Heap(asked.named),
        length,
        flagged: false,
    };
    let charge = bytes_charge(Space::Heap, length);
    match add_component(world, asked.object, asked.ticket, &charge, extent, 1)? {
        Ok(_) => {
            world.put(source, Thing::Source(taking));
            Ok(Reply::Done)
        }
        Err(refusal) => Ok(Reply::Refused(refusal)),
    }
}

/// Appends a part of a source, or of a raw object, to an object. It is linear in what is in the object.
pub fn append_extent(world: &mut DraftWorld, asked: &Append) -> Result<Reply, NoMemory>
    requires may { MayCall world.old.now }
    ensures { CallsMemory (Call.AppendExtent asked.now.object asked.now.ticket asked.now.named
        asked.now.offset asked.now.bytes)
        world.old world.new result }
{
    if object(world, asked.object).is_none() {
        return Ok(misnamed(world, asked.object));
    }
    if world.source(asked.named).is_some() {
        return append_source(world, asked);
    }
    append_raw(world, asked)
}
