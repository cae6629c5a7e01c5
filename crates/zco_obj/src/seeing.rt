// Headers, extents, trailers and sources as they are read, and the end of a chain.
ghost use Rattle.std.specs.Prelude.{◌≡◌, ◌≢◌, ◌≤◌, IfErr, IfOk};
ghost use Rattle.sdr_base.specs.Moves.{KeepsSome};
ghost use Rattle.sdr_base.specs.Objects.{OnlyFault};
ghost use Rattle.sdr_base.specs.Works.{Looks};
ghost use Rattle.sdr_model.specs.Limits.{longest_source};
ghost use Rattle.zco_obj.specs.Sources.{IsSpaceOf, SeesSource};
ghost use Rattle.zco_obj.specs.Walks.{FindsLast, SeesCapsule, SeesExtent, SomeCapsule, SomeCapsules, SomeExtent};
ghost use Rattle.zco_ref.specs.Counting.{CountsIn};
ghost use Rattle.zco_ref.specs.Kept.{SomeSource};

use crate::capsule::TEXT_FROM;
use sdr_base::layout::{capsule as capsule_words, extent as extent_words, source as source_words};
use sdr_base::limits::LONGEST_CAPSULE;
use sdr_base::{Acct, Addr, Objects, Space, Stop, check_failed, word};
use zco_ref::count_in;

/// More parts than an object may have.
pub const TOO_MANY_PARTS: u64 = 4_194_304;

/// The bytes of a header or trailer, and the address of the next one, 0 for none.
#[derive(Clone, Copy)]
pub struct SeenCapsule {
    pub bytes: u64,
    pub next: Addr,
}

/// What an extent is of, how many bytes it has, and the address of the next one, 0 for none.
#[derive(Clone, Copy)]
pub struct SeenExtent {
    pub source: Addr,
    pub length: u64,
    pub next: Addr,
}

/// What an extent asks of the source that it is to name.
#[derive(Clone, Copy)]
pub struct SeenSource {
    /// The space that its bytes are in.
    pub space: Space,
    /// Whether it goes with its last extent, and no extent may be added.
    pub flagged: bool,
    pub bytes: u64,
}

// The last header or trailer of a chain, and the one before it, 0 for none.
#[derive(Clone, Copy)]
pub struct Last {
    pub previous: Addr,
    pub addr: Addr,
}

/// What the block of a header or trailer says.
pub fn see_capsule<O: Objects>(o: &mut O, capsule: Addr) -> Result<SeenCapsule, Stop>
    requires kept { KeepsSome (O.keeps o.old) }
    requires capsule { SomeCapsule ((O.heap o.old).blocks capsule) }
    ensures seen { IfOk result (SeesCapsule ((O.heap o.old).blocks capsule)) }
    ensures short { IfOk result (λ seen. seen.bytes ≤ LONGEST_CAPSULE) }
    ensures refused { IfErr result OnlyFault }
    ensures looks { Looks O.HasHeap o.old o.new result }
{
    let next = word(o, capsule, capsule_words::NEXT)?;
    let bytes = match o.kind(capsule)? {
        Some((_, all)) => all - TEXT_FROM as u64,
        None => 0,
    };
    Ok(SeenCapsule { bytes, next })
}

/// What the block of an extent says.
pub fn see_extent<O: Objects>(o: &mut O, extent: Addr) -> Result<SeenExtent, Stop>
    requires kept { KeepsSome (O.keeps o.old) }
    requires extent { SomeExtent ((O.heap o.old).blocks extent) }
    ensures seen { IfOk result (SeesExtent ((O.heap o.old).blocks extent)) }
    ensures short { IfOk result (λ seen. seen.length ≤ longest_source) }
    ensures refused { IfErr result OnlyFault }
    ensures looks { Looks O.HasHeap o.old o.new result }
{
    let source = word(o, extent, extent_words::SOURCE)?;
    let length = word(o, extent, extent_words::LENGTH)?;
    let next = word(o, extent, extent_words::NEXT)?;
    Ok(SeenExtent {
        source,
        length,
        next,
    })
}

/// What the block of a source says.
pub fn see_source<O: Objects>(o: &mut O, source: Addr) -> Result<SeenSource, Stop>
    requires kept { KeepsSome (O.keeps o.old) }
    requires source { SomeSource ((O.heap o.old).blocks source) }
    ensures seen { IfOk result (SeesSource ((O.heap o.old).blocks source)) }
    ensures refused { IfErr result OnlyFault }
    ensures looks { Looks O.HasHeap o.old o.new result }
{
    let medium = word(o, source, source_words::MEDIUM)?;
    let flag = word(o, source, source_words::FLAG)?;
    let bytes = word(o, source, source_words::LENGTH)?;
    Ok(SeenSource {
        space: space_of(medium),
        flagged: flag == 1,
        bytes,
    })
}

// How many extents of an account name a source that is there.
pub fn see_count<O: Objects>(o: &mut O, source: Addr, acct: Acct) -> Result<u64, Stop>
    requires kept { KeepsSome (O.keeps o.old) }
    requires source { SomeSource ((O.heap o.old).blocks source) }
    ensures seen { IfOk result (CountsIn acct ((O.heap o.old).blocks source)) }
    ensures refused { IfErr result OnlyFault }
    ensures looks { Looks O.HasHeap o.old o.new result }
{
    count_in(o, source, acct)
}

// The space that the bytes of a medium of this number are in.
fn space_of(number: u64) -> Space
    ensures { IsSpaceOf number result }
{
    match number {
        1 => Space::File,
        2 => Space::Bulk,
        _ => Space::Heap,
    }
}

// The last header or trailer of a chain that isn't empty. It is linear in the chain, whose links go
// one way.
pub fn find_last<O: Objects>(o: &mut O, first: Addr) -> Result<Last, Stop>
    requires kept { KeepsSome (O.keeps o.old) }
    requires some { first ≢ 0 }
    requires chain { SomeCapsules (O.heap o.old).blocks first }
    ensures found { IfOk result (FindsLast (O.heap o.old).blocks first) }
    ensures refused { IfErr result OnlyFault }
    ensures looks { Looks O.HasHeap o.old o.new result }
{
    check_failed(o)?;
    let mut previous = 0;
    let mut addr = first;
    for i in 0..TOO_MANY_PARTS {
        let next = word(o, addr, capsule_words::NEXT)?;
        if next == 0 {
            break;
        }
        previous = addr;
        addr = next;
    }
    Ok(Last { previous, addr })
}
