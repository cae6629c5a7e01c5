// The call that bonds an object, as a step of the machine.
ghost use Rattle.std.specs.Prelude.{[], ◌+◌, ◌/◌, ◌≡◌, ◌≤◌};
ghost use Rattle.step_things.specs.Answering.{ComesInEach, IsReady};
ghost use Rattle.sdr_stands.specs.Standing.{HeapStandsFor};
ghost use Rattle.sdr_base.specs.Moves.{KeepsSome};
ghost use Rattle.sdr_base.specs.Works.{Spends};
ghost use Rattle.sdr_model.specs.World.{World};
ghost use Rattle.sdr_model.specs.declared.call.Call.TheVariants as calls;
ghost use Rattle.step_zco_parts.specs.BondAnswering.{bond_lines};
ghost use Rattle.zco_obj.specs.Kept.{IsWithQueue};

use sdr_base::{Addr, Objects, Stop};
use sdr_model::Reply;
use step_things::Page;

/// Answers the call that bonds an object: its headers and trailers become extents, each of a source
/// of its own, and its part becomes the whole. It is refused for the address, for what the account
/// says to the charge, and for want of a block or of log room, in this order. It is linear in the
/// object's parts.
pub fn bond<O: Objects>(
    o: &mut O,
    object: Addr,
    ticket: u64,
    page: &mut Page,
) -> Result<Reply, Stop>
    requires kept { KeepsSome (O.keeps o.old) }
    requires room { (O.heap o.old).size / 4 + 4 ≤ (O.heap o.old).spare }
    requires object { IsWithQueue (O.heap o.old) object }
    requires unmoved { (O.heap o.old).moves ≡ [] }
    ensures comes { ComesInEach (calls.Bond object ticket)
        (O.heap o.old) (O.heap o.new) page.old page.new result }
    ensures works { (w : World) → HeapStandsFor (O.heap o.old) w → IsReady w →
        Spends O.HasHeap (bond_lines w object) o.old o.new result }
{
    zco_bond::bond(o, object, ticket)?;
    page.clear();
    Ok(Reply::Done)
}
