// How many extents a new object is to have.
ghost use Rattle.std.specs.Prelude.{◌≡◌, ◌≤◌, length, IfErr, IfOk};
ghost use Rattle.sdr_base.specs.Moves.{KeepsSome};
ghost use Rattle.sdr_base.specs.Objects.{OnlyFault};
ghost use Rattle.sdr_base.specs.Works.{Looks};
ghost use Rattle.zco_obj.specs.Walks.{SomeExtents};
ghost use Rattle.zco_part.specs.Charging.{CountsPieces};
ghost use Rattle.zco_part.specs.Pieces.{filled};

use crate::span::{Span, cut, later};
use sdr_base::{Addr, Objects, Stop, check_failed};
use zco_obj::{ExtentPiece, TOO_MANY_PARTS, see_link};

// How many extents of a chain have a byte in a span. It is linear in the chain.
pub fn count_pieces<O: Objects>(o: &mut O, first: Addr, span: Span) -> Result<u64, Stop>
    requires kept { KeepsSome (O.keeps o.old) }
    requires chain { SomeExtents (O.heap o.old).blocks first }
    ensures told { IfOk result (CountsPieces (O.heap o.old).blocks first span.from span.to) }
    ensures most { IfOk result (λ count. count ≤ TOO_MANY_PARTS) }
    ensures refused { IfErr result OnlyFault }
    ensures looks { Looks O.HasHeap o.old o.new result }
{
    check_failed(o)?;
    let mut count = 0;
    let mut extent = first;
    let mut left = span;
    for i in 0..TOO_MANY_PARTS {
        if extent == 0 {
            break;
        }
        let link = see_link(o, extent)?;
        count += extents_of(cut(left, link.piece));
        left = later(left, link.piece.bytes);
        extent = link.next;
    }
    Ok(count)
}

// How many extents are to name a piece: none where it has no byte.
fn extents_of(piece: ExtentPiece) -> u64
    ensures counted { result ≡ length (filled piece) }
    ensures most { result ≤ 1 }
{
    if piece.bytes == 0 { 0 } else { 1 }
}
