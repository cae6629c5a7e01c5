// How long an object is.
ghost use Rattle.std.specs.Prelude.{◌≡◌, ◌≤◌, ◌*◌, IfErr, IfOk};
ghost use Rattle.sdr_base.specs.Moves.{KeepsSome};
ghost use Rattle.sdr_base.specs.Objects.{Misses, OnlyFault};
ghost use Rattle.sdr_base.specs.Works.{Looks};
ghost use Rattle.sdr_base.specs.declared.kind.Kind.TheVariants as kinds;
ghost use Rattle.sdr_model.specs.Limits.{longest_capsule, longest_source};
ghost use Rattle.zco_obj.specs.Kept.{IsObject};
ghost use Rattle.zco_obj.specs.Reading.{TellsObject, wire_length};
ghost use Rattle.zco_obj.specs.Walks.{SomeCapsules, SomeExtents, TellsCapsules, TellsExtents};

use crate::seeing::{TOO_MANY_PARTS, see_capsule, see_extent};
use sdr_base::layout::object as words;
use sdr_base::{Addr, Kind, Objects, Stop, check_failed, expect_kind, word};

/// How many bytes an object has on the wire: headers, extents and trailers. It is linear in their
/// number.
pub fn length<O: Objects>(o: &mut O, object: Addr) -> Result<u64, Stop>
    requires kept { KeepsSome (O.keeps o.old) }
    requires object { IsObject (O.heap o.old).blocks object }
    ensures told { IfOk result (TellsObject (O.heap o.old).blocks object wire_length) }
    ensures refused { IfErr result (Misses ((O.heap o.old).blocks object) object kinds.Object) }
    ensures looks { Looks O.HasHeap o.old o.new result }
{
    expect_kind(o, object, Kind::Object)?;
    let first_header = word(o, object, words::FIRST_HEADER)?;
    let first_extent = word(o, object, words::FIRST_EXTENT)?;
    let first_trailer = word(o, object, words::FIRST_TRAILER)?;
    let headers = capsules_length(o, first_header)?;
    let extents = extents_length(o, first_extent)?;
    let trailers = capsules_length(o, first_trailer)?;
    Ok(headers + extents + trailers)
}

/// How many bytes of an object's extents its part has.
pub fn source_length<O: Objects>(o: &mut O, object: Addr) -> Result<u64, Stop>
    requires kept { KeepsSome (O.keeps o.old) }
    requires object { IsObject (O.heap o.old).blocks object }
    ensures told { IfOk result (TellsObject (O.heap o.old).blocks object (λ row. row.part_length)) }
    ensures refused { IfErr result (Misses ((O.heap o.old).blocks object) object kinds.Object) }
    ensures looks { Looks O.HasHeap o.old o.new result }
{
    expect_kind(o, object, Kind::Object)?;
    word(o, object, words::PART_LENGTH)
}

// The bytes of a chain of headers or trailers together.
fn capsules_length<O: Objects>(o: &mut O, first: Addr) -> Result<u64, Stop>
    requires kept { KeepsSome (O.keeps o.old) }
    requires chain { SomeCapsules (O.heap o.old).blocks first }
    ensures told { IfOk result (TellsCapsules (O.heap o.old).blocks first) }
    ensures most { IfOk result (λ total. total ≤ longest_capsule * TOO_MANY_PARTS) }
    ensures refused { IfErr result OnlyFault }
    ensures looks { Looks O.HasHeap o.old o.new result }
{
    check_failed(o)?;
    let mut total = 0;
    let mut addr = first;
    for i in 0..TOO_MANY_PARTS {
        if addr == 0 {
            break;
        }
        let seen = see_capsule(o, addr)?;
        total += seen.bytes;
        addr = seen.next;
    }
    Ok(total)
}

/// The bytes of a chain of extents together.
pub fn extents_length<O: Objects>(o: &mut O, first: Addr) -> Result<u64, Stop>
    requires kept { KeepsSome (O.keeps o.old) }
    requires chain { SomeExtents (O.heap o.old).blocks first }
    ensures told { IfOk result (TellsExtents (O.heap o.old).blocks first) }
    ensures most { IfOk result (λ total. total ≤ longest_source * TOO_MANY_PARTS) }
    ensures refused { IfErr result OnlyFault }
    ensures looks { Looks O.HasHeap o.old o.new result }
{
    check_failed(o)?;
    let mut total = 0;
    let mut addr = first;
    for i in 0..TOO_MANY_PARTS {
        if addr == 0 {
            break;
        }
        let seen = see_extent(o, addr)?;
        total += seen.length;
        addr = seen.next;
    }
    Ok(total)
}
