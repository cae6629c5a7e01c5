// The call that cuts an object to its part, as a step of the machine.
ghost use Rattle.std.specs.Prelude.{[], ◌+◌, ◌/◌, ◌≡◌, ◌≤◌};
ghost use Rattle.step_things.specs.Answering.{ComesInEach, IsReady};
ghost use Rattle.sdr_stands.specs.Standing.{HeapStandsFor};
ghost use Rattle.sdr_base.specs.Moves.{KeepsSome};
ghost use Rattle.sdr_base.specs.Works.{Spends};
ghost use Rattle.sdr_model.specs.World.{World};
ghost use Rattle.sdr_model.specs.declared.call.Call.TheVariants as calls;
ghost use Rattle.step_zco_parts.specs.Stripping.{IsToCut, strip_lines};

use sdr_base::{Addr, Kind, Objects, Stop, expect_kind};
use sdr_model::Reply;
use step_things::Page;
use step_zco::serve;
use zco_acct::{Notice, Notify};

/// Cuts an object to its part, gives back what goes with the extents outside, and serves the queue
/// of its account. It is refused `BadAddress` or `WrongKind` where the object isn't there, and `LogFull` for
/// want of log room. It is linear in the object's extents.
pub fn strip<O: Objects, F: Notify>(
    o: &mut O,
    object: Addr,
    notice: &Notice<F>,
    page: &mut Page,
) -> Result<Reply, Stop>
    requires kept { KeepsSome (O.keeps o.old) }
    requires room { (O.heap o.old).size / 4 + 4 ≤ (O.heap o.old).spare }
    requires object { IsToCut (O.heap o.old) object }
    requires unmoved { (O.heap o.old).moves ≡ [] }
    ensures comes { ComesInEach (calls.Strip object)
        (O.heap o.old) (O.heap o.new) page.old page.new result }
    ensures works { (w : World) → HeapStandsFor (O.heap o.old) w → IsReady w →
        Spends O.HasHeap (strip_lines w object) o.old o.new result }
{
    expect_kind(o, object, Kind::Object)?;
    let acct = zco_obj::account(o, object)?;
    zco_strip::strip(o, object)?;
    serve(o, acct, notice)?;
    page.clear();
    Ok(Reply::Done)
}
