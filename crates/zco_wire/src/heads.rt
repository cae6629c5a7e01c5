// The bytes of headers and trailers.
ghost use Rattle.std.specs.Prelude.{◌≡◌, ◌≤◌, IfErr, IfOk, length};
ghost use Rattle.sdr_base.specs.Moves.{KeepsSome};
ghost use Rattle.sdr_base.specs.Objects.{OnlyFault};
ghost use Rattle.sdr_base.specs.Works.{Looks};
ghost use Rattle.zco_obj.specs.Walks.{SeesCapsule, SomeCapsule, SomeCapsules};
ghost use Rattle.zco_wire.specs.Going.{GoesOverHead, GoesOverHeads};

use crate::cursor::{Cursor, behind, window};
use sdr_base::{Addr, Objects, Stop, check_failed};
use zco_obj::{SeenCapsule, TEXT_FROM, TOO_MANY_PARTS, see_capsule};

// Gives of the bytes of a header or trailer what the cursor asks, and answers the cursor behind it.
fn read_head<O: Objects>(
    o: &mut O,
    head: Addr,
    seen: SeenCapsule,
    at: Cursor,
    into: &mut [u8],
) -> Result<Cursor, Stop>
    requires kept { KeepsSome (O.keeps o.old) }
    requires head { SomeCapsule ((O.heap o.old).blocks head) }
    requires seen { SeesCapsule ((O.heap o.old).blocks head) seen }
    requires room { at.given ≤ length into.old }
    requires page { length into.old ≤ 4096 }
    ensures read { IfOk result (λ to.
        GoesOverHead ((O.heap o.old).blocks head) at to into.old into.new) }
    ensures refused { IfErr result OnlyFault }
    ensures room { IfOk result (λ to. to.given ≤ length into.old) }
    ensures same { length into.new ≡ length into.old }
    ensures looks { Looks O.HasHeap o.old o.new result }
{
    let part = window(at, seen.bytes, into.len() as u64);
    let from = at.given as usize;
    let to = from + part.length as usize;
    o.get(head, TEXT_FROM as u64 + part.offset, &mut into[from..to])?;
    Ok(behind(at, part))
}

// Gives of the bytes of a chain of headers or trailers what the cursor asks, and answers the cursor
// behind them. It is linear in the chain.
pub fn read_heads<O: Objects>(
    o: &mut O,
    first: Addr,
    at: Cursor,
    into: &mut [u8],
) -> Result<Cursor, Stop>
    requires kept { KeepsSome (O.keeps o.old) }
    requires chain { SomeCapsules (O.heap o.old).blocks first }
    requires room { at.given ≤ length into.old }
    requires page { length into.old ≤ 4096 }
    ensures read { IfOk result (λ to.
        GoesOverHeads (O.heap o.old).blocks first at to into.old into.new) }
    ensures refused { IfErr result OnlyFault }
    ensures room { IfOk result (λ to. to.given ≤ length into.old) }
    ensures same { length into.new ≡ length into.old }
    ensures looks { Looks O.HasHeap o.old o.new result }
{
    check_failed(o)?;
    let mut cursor = at;
    let mut head = first;
    for i in 0..TOO_MANY_PARTS {
        if head == 0 {
            break;
        }
        let full = cursor.given == into.len() as u64;
        if full {
            break;
        }
        let seen = see_capsule(o, head)?;
        cursor = read_head(o, head, seen, cursor, into)?;
        head = seen.next;
    }
    Ok(cursor)
}
