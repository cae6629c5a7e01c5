// The links of an object's headers and trailers.
ghost use Rattle.std.specs.Prelude.{◌≡◌, ◌≢◌, ◌≤◌, IfErr, OnOk};
ghost use Rattle.sdr_base.specs.Blocks.{UsesRange};
ghost use Rattle.sdr_base.specs.Moves.{KeepsSome};
ghost use Rattle.sdr_base.specs.Objects.{OnlyUnmoved};
ghost use Rattle.sdr_base.specs.Works.{Spends};
ghost use Rattle.zco_obj.specs.Chains.{LinksLast, LinksNext, first_field, last_field};

use sdr_base::layout::{capsule as capsule_words, object as words};
use sdr_base::{Addr, Objects, Stop, check_failed, set_word};

// The chain in front of an object's extents, or the one behind them.
#[derive(Clone, Copy)]
pub enum Side {
    Headers,
    Trailers,
}

// The word field with the address of the first one of a side.
pub fn first_field(side: Side) -> u64
    ensures field { result ≡ first_field side }
    ensures most { result ≤ 8 }
{
    match side {
        Side::Headers => words::FIRST_HEADER,
        Side::Trailers => words::FIRST_TRAILER,
    }
}

// The word field with the address of the last one of a side.
pub fn last_field(side: Side) -> u64
    ensures field { result ≡ last_field side }
    ensures most { result ≤ 8 }
{
    match side {
        Side::Headers => words::LAST_HEADER,
        Side::Trailers => words::LAST_TRAILER,
    }
}

// Links `next` behind the header or trailer `prev`, or as the first where that is 0.
pub fn link_next<O: Objects>(
    o: &mut O,
    object: Addr,
    side: Side,
    prev: Addr,
    next: Addr,
) -> Result<(), Stop>
    requires kept { KeepsSome (O.keeps o.old) }
    requires object { UsesRange (O.heap o.old).blocks object 0 72 }
    requires prev { prev ≢ 0 → UsesRange (O.heap o.old).blocks prev 0 8 }
    ensures linked { OnOk result
        (LinksNext side object prev next (O.heap o.old) (O.heap o.new)) }
    ensures refused { IfErr result (OnlyUnmoved (O.heap o.old) (O.heap o.new)) }
    ensures works { Spends O.HasHeap 2 o.old o.new result }
{
    if prev == 0 {
        set_word(o, object, first_field(side), next)
    } else {
        set_word(o, prev, capsule_words::NEXT, next)
    }
}

// Where nothing follows the header or trailer `prev`, it is the last.
pub fn link_last<O: Objects>(
    o: &mut O,
    object: Addr,
    side: Side,
    next: Addr,
    prev: Addr,
) -> Result<(), Stop>
    requires kept { KeepsSome (O.keeps o.old) }
    requires object { UsesRange (O.heap o.old).blocks object 0 72 }
    ensures linked { OnOk result
        (LinksLast side object next prev (O.heap o.old) (O.heap o.new)) }
    ensures refused { IfErr result (OnlyUnmoved (O.heap o.old) (O.heap o.new)) }
    ensures works { Spends O.HasHeap 2 o.old o.new result }
{
    if next == 0 {
        set_word(o, object, last_field(side), prev)
    } else {
        check_failed(o)
    }
}
