// The call that clones a part of an object, as a step of the machine.
ghost use Rattle.std.specs.Prelude.{[], ◌+◌, ◌/◌, ◌≡◌, ◌≤◌};
ghost use Rattle.step_things.specs.Answering.{ComesInEach, IsReady};
ghost use Rattle.sdr_stands.specs.Standing.{HeapStandsFor};
ghost use Rattle.sdr_base.specs.Moves.{KeepsSome};
ghost use Rattle.sdr_base.specs.Works.{Spends};
ghost use Rattle.sdr_model.specs.World.{World};
ghost use Rattle.sdr_model.specs.declared.call.Call.TheVariants as calls;
ghost use Rattle.step_zco_parts.specs.PartAnswering.{IsCountable, clone_lines};

use sdr_base::{Addr, Objects, Stop};
use sdr_model::Reply;
use step_things::Page;

/// Makes an object of so many bytes of an object's part, from a place in it on. It is refused for the
/// address, for the range that the part hasn't, for what the account says to the charge, and for want of a
/// block or of log room, in this order.
pub fn clone_part<O: Objects>(
    o: &mut O,
    object: Addr,
    ticket: u64,
    offset: u64,
    bytes: u64,
    page: &mut Page,
) -> Result<Reply, Stop>
    requires kept { KeepsSome (O.keeps o.old) }
    requires room { (O.heap o.old).size / 4 + 4 ≤ (O.heap o.old).spare }
    requires object { IsCountable (O.heap o.old) object }
    requires unmoved { (O.heap o.old).moves ≡ [] }
    ensures comes { ComesInEach (calls.ClonePart object ticket offset bytes)
        (O.heap o.old) (O.heap o.new) page.old page.new result }
    ensures works { (w : World) → HeapStandsFor (O.heap o.old) w → IsReady w →
        Spends O.HasHeap (clone_lines w object offset bytes) o.old o.new result }
{
    let addr = zco_part::clone_part(o, object, ticket, offset, bytes)?;
    page.clear();
    Ok(Reply::At { addr })
}
