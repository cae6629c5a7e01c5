// Extents that are cut to a part of their bytes.
ghost use Rattle.std.specs.Prelude.{◌≡◌, ◌≢◌, ◌≤◌, IfErr, IfOk, OnOk};
ghost use Rattle.sdr_base.specs.Moves.{KeepsSome};
ghost use Rattle.sdr_base.specs.Objects.{OnlyUnmoved};
ghost use Rattle.sdr_base.specs.Works.{Spends};
ghost use Rattle.zco_strip.specs.Parting.{CutsEnd, CutsTo};
ghost use Rattle.zco_obj.specs.Walks.{SomeExtent};

use crate::finding::Place;
use crate::linking::cut_extent;
use sdr_base::layout::extent as extent_words;
use sdr_base::{Addr, Objects, Stop, check_failed, word};
use zco_obj::see_extent;

// The last extent in a part, and the one behind it, 0 for none.
#[derive(Clone, Copy)]
pub struct End {
    pub last: Addr,
    pub next: Addr,
}

// Cuts an extent to its bytes from one place on and before another.
pub fn cut_to<O: Objects>(o: &mut O, extent: Addr, from: u64, to: u64) -> Result<(), Stop>
    requires kept { KeepsSome (O.keeps o.old) }
    requires extent { SomeExtent ((O.heap o.old).blocks extent) }
    requires ordered { from ≤ to }
    ensures cut { OnOk result (CutsTo extent from to (O.heap o.old) (O.heap o.new)) }
    ensures refused { IfErr result (OnlyUnmoved (O.heap o.old) (O.heap o.new)) }
    ensures works { Spends O.HasHeap 4 o.old o.new result }
{
    let seen = see_extent(o, extent)?;
    let offset = word(o, extent, extent_words::OFFSET)?;
    let first = from.min(seen.length);
    let bytes = to.min(seen.length) - first;
    cut_extent(o, extent, offset + first, bytes)
}

// Cuts the extent in which a place lies to its bytes before that, where it has some.
pub fn cut_end<O: Objects>(o: &mut O, place: Place) -> Result<End, Stop>
    requires kept { KeepsSome (O.keeps o.old) }
    requires extent { place.inside ≢ 0 → SomeExtent ((O.heap o.old).blocks place.extent) }
    ensures cut { IfOk result (CutsEnd place (O.heap o.old) (O.heap o.new)) }
    ensures refused { IfErr result (OnlyUnmoved (O.heap o.old) (O.heap o.new)) }
    ensures works { Spends O.HasHeap 4 o.old o.new result }
{
    if place.inside == 0 {
        check_failed(o)?;
        return Ok(End {
            last: place.last,
            next: place.extent,
        });
    }
    let seen = see_extent(o, place.extent)?;
    cut_to(o, place.extent, 0, place.inside)?;
    Ok(End {
        last: place.extent,
        next: seen.next,
    })
}
