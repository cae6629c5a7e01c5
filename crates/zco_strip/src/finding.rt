// Where a byte of a chain of extents lies.
ghost use Rattle.std.specs.Prelude.{◌≡◌, ◌≤◌, IfErr, IfOk};
ghost use Rattle.sdr_base.specs.Moves.{KeepsSome};
ghost use Rattle.sdr_base.specs.Objects.{OnlyFault};
ghost use Rattle.sdr_base.specs.Works.{Looks};
ghost use Rattle.zco_strip.specs.Finding.{FindsPlace};
ghost use Rattle.zco_obj.specs.Walks.{SomeExtents};

use sdr_base::{Addr, Objects, Stop, check_failed};
use zco_obj::{TOO_MANY_PARTS, see_extent};

// The extent in which a place lies, 0 where none has so many bytes before it; how many of its bytes
// lie before the place; and the one before it, 0 for none.
#[derive(Clone, Copy)]
pub struct Place {
    pub last: Addr,
    pub extent: Addr,
    pub inside: u64,
}

// Finds the place behind so many bytes of a chain of extents. It is linear in those before it.
pub fn find_place<O: Objects>(o: &mut O, first: Addr, place: u64) -> Result<Place, Stop>
    requires kept { KeepsSome (O.keeps o.old) }
    requires chain { SomeExtents (O.heap o.old).blocks first }
    ensures found { IfOk result (FindsPlace (O.heap o.old).blocks first place) }
    ensures refused { IfErr result OnlyFault }
    ensures looks { Looks O.HasHeap o.old o.new result }
{
    check_failed(o)?;
    let mut last = 0;
    let mut extent = first;
    let mut inside = place;
    for i in 0..TOO_MANY_PARTS {
        if extent == 0 {
            break;
        }
        let seen = see_extent(o, extent)?;
        if inside < seen.length {
            break;
        }
        inside -= seen.length;
        last = extent;
        extent = seen.next;
    }
    Ok(Place {
        last,
        extent,
        inside,
    })
}
