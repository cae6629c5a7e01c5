// The words that cut an extent, link a chain of extents, and tell an object where its chain begins
// and ends.
ghost use Rattle.std.specs.Prelude.{◌≡◌, ◌≢◌, IfErr, OnOk};
ghost use Rattle.sdr_base.specs.Blocks.{UsesRange};
ghost use Rattle.sdr_base.specs.Moves.{KeepsSome};
ghost use Rattle.sdr_base.specs.Objects.{OnlyUnmoved};
ghost use Rattle.sdr_base.specs.Works.{Spends};
ghost use Rattle.zco_strip.specs.Linking.{CutsExtent, LinksAfter, SetsEnds};

use sdr_base::layout::{extent as extent_words, object as words};
use sdr_base::{Addr, Objects, Stop, check_failed, set_word};

// Cuts an extent to so many bytes of its source, from a place in that on.
pub fn cut_extent<O: Objects>(o: &mut O, extent: Addr, offset: u64, length: u64) -> Result<(), Stop>
    requires kept { KeepsSome (O.keeps o.old) }
    requires extent { UsesRange (O.heap o.old).blocks extent 0 32 }
    ensures cut { OnOk result (CutsExtent extent offset length (O.heap o.old) (O.heap o.new)) }
    ensures refused { IfErr result (OnlyUnmoved (O.heap o.old) (O.heap o.new)) }
    ensures works { Spends O.HasHeap 4 o.old o.new result }
{
    set_word(o, extent, extent_words::OFFSET, offset)?;
    set_word(o, extent, extent_words::LENGTH, length)
}

/// Links an extent, or none where `next` is 0, behind the last one of a chain, 0 where that is
// empty.
pub fn link_after<O: Objects>(o: &mut O, last: Addr, next: Addr) -> Result<(), Stop>
    requires kept { KeepsSome (O.keeps o.old) }
    requires last { last ≢ 0 → UsesRange (O.heap o.old).blocks last 0 32 }
    ensures linked { OnOk result (LinksAfter last next (O.heap o.old) (O.heap o.new)) }
    ensures refused { IfErr result (OnlyUnmoved (O.heap o.old) (O.heap o.new)) }
    ensures works { Spends O.HasHeap 2 o.old o.new result }
{
    if last == 0 {
        check_failed(o)
    } else {
        set_word(o, last, extent_words::NEXT, next)
    }
}

// Sets the first and the last extent of an object, 0 for none, and begins its part with the first.
pub fn set_ends<O: Objects>(o: &mut O, object: Addr, first: Addr, last: Addr) -> Result<(), Stop>
    requires kept { KeepsSome (O.keeps o.old) }
    requires object { UsesRange (O.heap o.old).blocks object 0 72 }
    ensures set { OnOk result (SetsEnds object first last (O.heap o.old) (O.heap o.new)) }
    ensures refused { IfErr result (OnlyUnmoved (O.heap o.old) (O.heap o.new)) }
    ensures works { Spends O.HasHeap 6 o.old o.new result }
{
    set_word(o, object, words::FIRST_EXTENT, first)?;
    set_word(o, object, words::LAST_EXTENT, last)?;
    set_word(o, object, words::PART_OFFSET, 0)
}
