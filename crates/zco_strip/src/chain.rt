// A chain of extents that is cut to a part, and those outside it, linked into a chain of their own.
ghost use Rattle.std.specs.Prelude.{◌≡◌, ◌==◌, ◌<◌, ◌≤◌, IfErr, IfOk, if◌then◌else◌};
ghost use Rattle.sdr_base.specs.Moves.{KeepsSome};
ghost use Rattle.sdr_base.specs.Objects.{OnlyUnmoved};
ghost use Rattle.sdr_base.specs.Works.{Spends};
ghost use Rattle.zco_strip.specs.Chain.{PartsChain, SomeChain};

use crate::finding::find_place;
use crate::linking::link_after;
use crate::parting::{cut_end, cut_to};
use sdr_base::{Addr, Objects, Stop, check_failed};

// The first and the last extent in a part, and the first one of the chain outside it, 0 for none.
#[derive(Clone, Copy)]
pub struct Parted {
    pub first: Addr,
    pub last: Addr,
    pub out: Addr,
}

// Cuts a chain of extents to its bytes from one place on and before another, and links those
// outside into a chain of their own. It is linear in the extents before the end of the part.
pub fn part_chain<O: Objects>(o: &mut O, first: Addr, from: u64, to: u64) -> Result<Parted, Stop>
    requires kept { KeepsSome (O.keeps o.old) }
    requires ordered { from ≤ to }
    requires chain { SomeChain (O.heap o.old).blocks first to }
    ensures parted { IfOk result (PartsChain first from to (O.heap o.old) (O.heap o.new)) }
    ensures refused { IfErr result (OnlyUnmoved (O.heap o.old) (O.heap o.new)) }
    ensures works { Spends O.HasHeap 12 o.old o.new result }
{
    if from == to {
        check_failed(o)?;
        return Ok(Parted {
            first: 0,
            last: 0,
            out: first,
        });
    }
    part_bytes(o, first, from, to)
}

// The same of a part that has a byte.
fn part_bytes<O: Objects>(o: &mut O, first: Addr, from: u64, to: u64) -> Result<Parted, Stop>
    requires kept { KeepsSome (O.keeps o.old) }
    requires some { from < to }
    requires chain { SomeChain (O.heap o.old).blocks first to }
    ensures parted { IfOk result (PartsChain first from to (O.heap o.old) (O.heap o.new)) }
    ensures refused { IfErr result (OnlyUnmoved (O.heap o.old) (O.heap o.new)) }
    ensures works { Spends O.HasHeap 12 o.old o.new result }
{
    let begin = find_place(o, first, from)?;
    let until = begin.inside + (to - from);
    let place = find_place(o, begin.extent, until)?;
    cut_to(o, begin.extent, begin.inside, until)?;
    let end = cut_end(o, place)?;
    link_after(o, end.last, 0)?;
    link_after(o, begin.last, end.next)?;
    Ok(Parted {
        first: begin.extent,
        last: end.last,
        out: first_outside(first, begin.last, end.next),
    })
}

// The first extent outside a part: that of the chain, or the one behind the part where none is
// before it.
fn first_outside(first: Addr, last: Addr, next: Addr) -> Addr
    ensures { result ≡ (if last == 0 then next else first) }
{
    if last == 0 { next } else { first }
}
