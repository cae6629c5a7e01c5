// Objects, made of extents or seen by their lengths.
ghost use Rattle.std.specs.Prelude.{◌≡◌, ◌≤◌, ◌+◌, ◌^◌, IfOk, OnErr, OnOk};
ghost use Rattle.mem_parts.specs.Bounds.{AreFewBytes, IsBounded};
ghost use Rattle.sdr_model.specs.ObjectSteps.{grown_part, wire_length, with_extent};
ghost use Rattle.sdr_model.specs.PartSteps.{asked_extents, object_of, outside_part, part_end};
ghost use Rattle.sdr_model.specs.Zco.{empty_object};

use crate::capsules::capsules_length;
use crate::cuts::{cut_all, extents_length, left_out, whole_of};
use sdr_base::{Acct, Items, NoMemory};
use sdr_model::{Extent, Part, ZcoObject};
use std::alloc::Global;

/// An object with nothing in it. It takes no memory.
pub fn empty_object(alloc: Global, account: Acct) -> ZcoObject
    ensures { result ≡ empty_object account }
{
    ZcoObject {
        account,
        headers: Items::new(alloc),
        extents: Items::new(alloc),
        trailers: Items::new(alloc),
        part: Part {
            offset: 0,
            length: 0,
        },
    }
}

/// An object of these extents alone, whose part is its whole.
pub fn object_of(alloc: Global, account: Acct, extents: Items<Extent>) -> ZcoObject
    requires few { AreFewBytes extents }
    ensures { result ≡ object_of account extents }
{
    let part = whole_of(extents.as_slice());
    ZcoObject {
        account,
        headers: Items::new(alloc),
        extents,
        trailers: Items::new(alloc),
        part,
    }
}

/// The bytes of an object on the wire. It is linear in what is in it.
pub fn wire_length(object: &ZcoObject) -> u64
    requires bounded { IsBounded object.now }
    ensures { result ≡ wire_length object.now }
{
    capsules_length(object.headers.as_slice())
        + extents_length(object.extents.as_slice())
        + capsules_length(object.trailers.as_slice())
}

/// Where an object's part ends, in bytes of the extents.
pub fn part_end(object: &ZcoObject) -> u64
    requires bounded { IsBounded object.now }
    ensures { result ≡ part_end object.now }
{
    object.part.offset + object.part.length
}

/// An object's part after an extent of so many bytes was added: it grows where it reached the end.
pub fn grown_part(object: &ZcoObject, bytes: u64) -> Part
    requires bounded { IsBounded object.now }
    requires small { bytes ≤ 2 ^ 40 }
    ensures { result ≡ grown_part object.now bytes }
{
    if part_end(object) == extents_length(object.extents.as_slice()) {
        Part {
            offset: object.part.offset,
            length: object.part.length + bytes,
        }
    } else {
        object.part
    }
}

/// The extents of so many bytes of an object's part, from a place in it on. It is linear in the extents.
pub fn asked_extents(
    object: &ZcoObject,
    alloc: Global,
    offset: u64,
    bytes: u64,
) -> Result<Items<Extent>, NoMemory>
    requires bounded { IsBounded object.now }
    requires inside { offset + bytes ≤ object.now.part.length }
    ensures { IfOk result (λ extents. extents ≡ asked_extents object.now offset bytes) }
{
    let from = object.part.offset + offset;
    cut_all(alloc, from, from + bytes, object.extents.as_slice())
}

/// The extents of an object of which no byte lies in its part. It is linear in the extents.
pub fn outside_part(object: &ZcoObject, alloc: Global) -> Result<Items<Extent>, NoMemory>
    requires bounded { IsBounded object.now }
    ensures { IfOk result (λ out. out ≡ outside_part object.now) }
{
    left_out(
        alloc,
        object.part.offset,
        part_end(object),
        object.extents.as_slice(),
    )
}

/// Adds an extent to an object, which is last. Want of memory leaves the object as before. It is linear in the
/// extents.
pub fn push_extent(object: &mut ZcoObject, extent: Extent) -> Result<(), NoMemory>
    requires bounded { IsBounded object.old }
    requires small { extent.length ≤ 2 ^ 40 }
    ensures ok { OnOk result (object.new ≡ with_extent object.old extent) }
    ensures same { OnErr result (object.new ≡ object.old) }
{
    let part = grown_part(object, extent.length);
    object.extents.push(extent)?;
    object.part = part;
    Ok(())
}
