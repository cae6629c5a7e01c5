// Headers and trailers in their blocks, and at their places.
ghost use Rattle.std.specs.Prelude.{◌≡◌, ◌≤◌, ◌+◌, ◌/◌, [], ◌∷◌, length, IfErr, IfOk, OnOk};
ghost use Rattle.sdr_base.specs.Moves.{KeepsSome};
ghost use Rattle.sdr_base.specs.Objects.{OnlyFault, OnlyShort, OnlyUnmoved};
ghost use Rattle.sdr_base.specs.Words.{layout};
ghost use Rattle.sdr_base.specs.Works.{Looks, Spends};
ghost use Rattle.zco_obj.specs.Chains.{InsertsCapsule, RemovesCapsule, SomeGap, SomeSpot, TakesCapsule};

use crate::linking::{Side, link_last, link_next};
use byteorder::{BigEndian, ByteOrder};
use sdr_base::limits::LONGEST_CAPSULE;
use sdr_base::{Addr, Kind, Objects, Stop, put_at, take_bytes};

/// Where the text begins in the block of a header or trailer, in bytes.
pub const TEXT_FROM: usize = 8;

// Takes a block for a header or trailer, before another.
fn take_capsule<O: Objects>(o: &mut O, next: Addr, text: &[u8]) -> Result<Addr, Stop>
    requires kept { KeepsSome (O.keeps o.old) }
    requires spare { 1 ≤ (O.heap o.old).spare }
    requires short { length text.now ≤ LONGEST_CAPSULE }
    ensures taken { IfOk result (TakesCapsule next text.now (O.heap o.old) (O.heap o.new)) }
    ensures refused { IfErr result
        (OnlyShort (TEXT_FROM + length text.now) (O.heap o.old) (O.heap o.new)) }
    ensures works { Spends O.HasHeap
        (26 + (TEXT_FROM + length text.now) / 32) o.old o.new result }
{
    let mut buffer = [0; TEXT_FROM + LONGEST_CAPSULE as usize];
    let block = &mut buffer[..TEXT_FROM + text.len()];
    fill(next, text, block);
    take_bytes(o, Kind::Capsule, block)
}

// Fills a buffer with the block of a header or trailer before another.
fn fill(next: Addr, text: &[u8], into: &mut [u8])
    requires long { length into.old ≡ TEXT_FROM + length text.now }
    ensures { into.new ≡ layout (next ∷ []) text.now }
{
    let mut head = [0; TEXT_FROM];
    BigEndian::write_u64_into(&[next], &mut head);
    put_at(into, 0, &head);
    put_at(into, TEXT_FROM, text);
}

// Makes a header or trailer between two, or at its chain's ends where they are 0.
pub fn insert_capsule<O: Objects>(
    o: &mut O,
    object: Addr,
    side: Side,
    prev: Addr,
    next: Addr,
    text: &[u8],
) -> Result<Addr, Stop>
    requires kept { KeepsSome (O.keeps o.old) }
    requires spare { 1 ≤ (O.heap o.old).spare }
    requires short { length text.now ≤ LONGEST_CAPSULE }
    requires gap { SomeGap side (O.heap o.old).blocks object prev next }
    ensures inserted { IfOk result
        (InsertsCapsule side object prev next text.now (O.heap o.old) (O.heap o.new)) }
    ensures refused { IfErr result
        (OnlyShort (TEXT_FROM + length text.now) (O.heap o.old) (O.heap o.new)) }
    ensures works { Spends O.HasHeap
        (30 + (TEXT_FROM + length text.now) / 32) o.old o.new result }
{
    let added = take_capsule(o, next, text)?;
    link_next(o, object, side, prev, added)?;
    link_last(o, object, side, next, added)?;
    Ok(added)
}

// Gives a header or trailer back that stands between two, or at its chain's ends where they are 0.
pub fn remove_capsule<O: Objects>(
    o: &mut O,
    object: Addr,
    side: Side,
    prev: Addr,
    gone: Addr,
    next: Addr,
) -> Result<(), Stop>
    requires kept { KeepsSome (O.keeps o.old) }
    requires spare { 1 ≤ (O.heap o.old).spare }
    requires spot { SomeSpot side (O.heap o.old).blocks object prev gone next }
    ensures removed { OnOk result
        (RemovesCapsule side object prev gone next (O.heap o.old) (O.heap o.new)) }
    ensures refused { IfErr result (OnlyUnmoved (O.heap o.old) (O.heap o.new)) }
    ensures works { Spends O.HasHeap 28 o.old o.new result }
{
    link_next(o, object, side, prev, next)?;
    link_last(o, object, side, next, prev)?;
    o.give(gone)
}
