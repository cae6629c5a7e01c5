// The call that gives an object a part of a source or of a raw object, as a step of the machine.
ghost use Rattle.std.specs.Prelude.{[], ◌≡◌, ◌≤◌};
ghost use Rattle.step_things.specs.Answering.{ComesInEach, IsReady};
ghost use Rattle.sdr_stands.specs.Standing.{HeapStandsFor};
ghost use Rattle.sdr_base.specs.Moves.{KeepsSome};
ghost use Rattle.sdr_base.specs.Works.{Spends};
ghost use Rattle.sdr_model.specs.Fields.{IsWord};
ghost use Rattle.sdr_model.specs.World.{World};
ghost use Rattle.sdr_model.specs.declared.call.Call.TheVariants as calls;
ghost use Rattle.step_zco.specs.ObjectAnswering.{append_lines};
ghost use Rattle.zco_obj.specs.Beside.{IsWithRaw, IsWithSource};

use sdr_base::{Addr, Objects, Stop};
use sdr_model::Reply;
use step_things::Page;

/// Puts a part of a source, or of a raw object that a new source takes over, behind an object's
/// extents.
pub fn append_extent<O: Objects>(
    o: &mut O,
    object: Addr,
    ticket: u64,
    named: Addr,
    offset: u64,
    bytes: u64,
    page: &mut Page,
) -> Result<Reply, Stop>
    requires kept { KeepsSome (O.keeps o.old) }
    requires spare { 2 ≤ (O.heap o.old).spare }
    requires source { IsWithSource (O.heap o.old) object named }
    requires raw { IsWithRaw (O.heap o.old) object named }
    requires unmoved { (O.heap o.old).moves ≡ [] }
    ensures comes { ComesInEach (calls.AppendExtent object ticket named offset bytes)
        (O.heap o.old) (O.heap o.new) page.old page.new result }
    ensures works { (w : World) → HeapStandsFor (O.heap o.old) w → IsReady w →
        Spends O.HasHeap (append_lines w named) o.old o.new result }
    ensures word { IsWord named }
{
    zco_obj::append_extent(o, object, ticket, named, offset, bytes)?;
    page.clear();
    Ok(Reply::Done)
}
