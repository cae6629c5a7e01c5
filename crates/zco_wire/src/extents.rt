// The bytes of what extents name.
ghost use Rattle.std.specs.Prelude.{◌≡◌, ◌≤◌, IfErr, IfOk, length};
ghost use Rattle.sdr_base.specs.Moves.{KeepsSome};
ghost use Rattle.sdr_base.specs.Works.{Looks};
ghost use Rattle.zco_wire.specs.Asking.{AsksAtNamed, AsksAtRange};
ghost use Rattle.zco_wire.specs.Going.{GoesOverNamed, GoesOverRange};
ghost use Rattle.zco_wire.specs.Naming.{SomeNamed, SomeNames};
ghost use Rattle.zco_wire.specs.Stopping.{KeepsTold, StopsAtNamed, StopsAtRange, past_media};

use crate::cursor::{Cursor, behind, window};
use crate::source::read_range;
use sdr_base::{Addr, Media, Objects, Stop, check_failed};
use zco_obj::{ExtentPiece, TOO_MANY_PARTS, see_link};

// Gives of the bytes of a range of a source what the cursor asks, and answers the cursor behind it.
// Media are asked once, for all of that.
fn read_asked<O: Objects, M: Media>(
    o: &mut O,
    media: &mut M,
    range: ExtentPiece,
    at: Cursor,
    into: &mut [u8],
) -> Result<Cursor, Stop>
    requires kept { KeepsSome (O.keeps o.old) }
    requires named { SomeNamed (O.heap o.old).blocks range }
    requires room { at.given ≤ length into.old }
    requires page { length into.old ≤ 4096 }
    ensures read { IfOk result (λ to. GoesOverRange (M.told media.old) (O.heap o.old).blocks range
        at to into.old into.new) }
    ensures stops { IfErr result (StopsAtRange M.Media (O.heap o.old).blocks range at
        (length into.old) media.old media.new) }
    ensures room { IfOk result (λ to. to.given ≤ length into.old) }
    ensures same { length into.new ≡ length into.old }
    ensures media { KeepsTold M.Media media.old media.new }
    ensures asks { AsksAtRange M.Media (O.heap o.old).blocks range at (length into.old)
        media.old media.new }
    ensures looks { Looks O.HasHeap o.old o.new (past_media result) }
{
    let part = window(at, range.bytes, into.len() as u64);
    if part.length == 0 {
        check_failed(o)?;
        return Ok(behind(at, part));
    }
    let asked = ExtentPiece {
        of: range.of,
        offset: range.offset + part.offset,
        bytes: part.length,
    };
    let from = at.given as usize;
    let to = from + part.length as usize;
    read_range(o, media, asked, &mut into[from..to])?;
    Ok(behind(at, part))
}

// Gives of the bytes that a chain of extents names what the cursor asks, and answers the cursor
// behind them. It is linear in the chain.
pub fn read_extents<O: Objects, M: Media>(
    o: &mut O,
    media: &mut M,
    first: Addr,
    at: Cursor,
    into: &mut [u8],
) -> Result<Cursor, Stop>
    requires kept { KeepsSome (O.keeps o.old) }
    requires chain { SomeNames (O.heap o.old).blocks first }
    requires room { at.given ≤ length into.old }
    requires page { length into.old ≤ 4096 }
    ensures read { IfOk result (λ to. GoesOverNamed (M.told media.old) (O.heap o.old).blocks first
        at to into.old into.new) }
    ensures stops { IfErr result (StopsAtNamed M.Media (O.heap o.old).blocks first at
        (length into.old) media.old media.new) }
    ensures room { IfOk result (λ to. to.given ≤ length into.old) }
    ensures same { length into.new ≡ length into.old }
    ensures media { KeepsTold M.Media media.old media.new }
    ensures asks { AsksAtNamed M.Media (O.heap o.old).blocks first at (length into.old)
        media.old media.new }
    ensures looks { Looks O.HasHeap o.old o.new (past_media result) }
{
    check_failed(o)?;
    let mut cursor = at;
    let mut extent = first;
    for i in 0..TOO_MANY_PARTS {
        if extent == 0 {
            break;
        }
        let full = cursor.given == into.len() as u64;
        if full {
            break;
        }
        let link = see_link(o, extent)?;
        cursor = read_asked(o, media, link.piece, cursor, into)?;
        extent = link.next;
    }
    Ok(cursor)
}
