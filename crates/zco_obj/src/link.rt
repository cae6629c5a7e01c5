// An extent as it is walked past.
ghost use Rattle.std.specs.Prelude.{◌≤◌, ◌+◌, IfErr, IfOk};
ghost use Rattle.sdr_base.specs.Moves.{KeepsSome};
ghost use Rattle.sdr_base.specs.Objects.{OnlyFault};
ghost use Rattle.sdr_base.specs.Works.{Looks};
ghost use Rattle.sdr_model.specs.Limits.{longest_source};
ghost use Rattle.zco_obj.specs.Links.{SeesLink};
ghost use Rattle.zco_obj.specs.Walks.{SomeExtent};

use crate::{ExtentPiece, see_extent};
use sdr_base::layout::extent as words;
use sdr_base::{Addr, Objects, Stop, word};

/// The part of a source that an extent names, and the address of the next extent, 0 for none.
#[derive(Clone, Copy)]
pub struct Link {
    pub piece: ExtentPiece,
    pub next: Addr,
}

/// What the block of an extent says to one who walks its chain.
pub fn see_link<O: Objects>(o: &mut O, extent: Addr) -> Result<Link, Stop>
    requires kept { KeepsSome (O.keeps o.old) }
    requires extent { SomeExtent ((O.heap o.old).blocks extent) }
    ensures seen { IfOk result (SeesLink ((O.heap o.old).blocks extent)) }
    ensures ends { IfOk result (λ link. link.piece.offset + link.piece.bytes ≤ longest_source) }
    ensures refused { IfErr result OnlyFault }
    ensures looks { Looks O.HasHeap o.old o.new result }
{
    let seen = see_extent(o, extent)?;
    let offset = word(o, extent, words::OFFSET)?;
    Ok(Link {
        piece: ExtentPiece {
            of: seen.source,
            offset,
            bytes: seen.length,
        },
        next: seen.next,
    })
}
