// The two links at a place of a list.
ghost use Rattle.std.specs.Prelude.{◌≡◌, ◌≢◌, OnOk, IfErr};
ghost use Rattle.sdr_base.specs.Blocks.{UsesRange};
ghost use Rattle.sdr_base.specs.Making.{besides};
ghost use Rattle.sdr_base.specs.Moves.{KeepsSome};
ghost use Rattle.sdr_base.specs.Objects.{OnlyUnmoved};
ghost use Rattle.sdr_base.specs.Works.{Spends};
ghost use Rattle.sdr_list.specs.Gaps.{LinksNext, LinksPrevious};

use sdr_base::layout::{element, list as words};
use sdr_base::{Addr, Objects, Stop, set_word};

// Links `next` behind the element `prev`, or as the first where that is 0.
pub fn link_next<O: Objects>(o: &mut O, list: Addr, prev: Addr, next: Addr) -> Result<(), Stop>
    requires kept { KeepsSome (O.keeps o.old) }
    requires list { UsesRange (O.heap o.old).blocks list 0 32 }
    requires prev { prev ≢ 0 → UsesRange (O.heap o.old).blocks prev 0 32 }
    ensures linked { OnOk result
        (LinksNext (O.heap o.old).blocks (O.heap o.new).blocks list prev next) }
    ensures same { OnOk result (besides (O.heap o.new) ≡ besides (O.heap o.old)) }
    ensures refused { IfErr result (OnlyUnmoved (O.heap o.old) (O.heap o.new)) }
    ensures works { Spends O.HasHeap 2 o.old o.new result }
{
    if prev == 0 {
        set_word(o, list, words::FIRST, next)
    } else {
        set_word(o, prev, element::NEXT, next)
    }
}

// Links `prev` before the element `next`, or as the last where that is 0.
pub fn link_prev<O: Objects>(o: &mut O, list: Addr, next: Addr, prev: Addr) -> Result<(), Stop>
    requires kept { KeepsSome (O.keeps o.old) }
    requires list { UsesRange (O.heap o.old).blocks list 0 32 }
    requires next { next ≢ 0 → UsesRange (O.heap o.old).blocks next 0 32 }
    ensures linked { OnOk result
        (LinksPrevious (O.heap o.old).blocks (O.heap o.new).blocks list next prev) }
    ensures same { OnOk result (besides (O.heap o.new) ≡ besides (O.heap o.old)) }
    ensures refused { IfErr result (OnlyUnmoved (O.heap o.old) (O.heap o.new)) }
    ensures works { Spends O.HasHeap 2 o.old o.new result }
{
    if next == 0 {
        set_word(o, list, words::LAST, prev)
    } else {
        set_word(o, next, element::PREVIOUS, prev)
    }
}
