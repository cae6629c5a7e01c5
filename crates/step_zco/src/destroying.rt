// The call that destroys an object, as a step of the machine.
ghost use Rattle.std.specs.Prelude.{[], ◌+◌, ◌/◌, ◌≡◌, ◌≤◌};
ghost use Rattle.step_things.specs.Answering.{ComesInEach, IsReady};
ghost use Rattle.sdr_stands.specs.Standing.{HeapStandsFor};
ghost use Rattle.sdr_base.specs.Moves.{KeepsSome};
ghost use Rattle.sdr_base.specs.Works.{Spends};
ghost use Rattle.sdr_model.specs.World.{World};
ghost use Rattle.sdr_model.specs.declared.call.Call.TheVariants as calls;
ghost use Rattle.step_zco.specs.ObjectAnswering.{destroy_lines};
ghost use Rattle.step_zco.specs.Destroying.{IsWithAll};

use crate::serve;
use sdr_base::{Addr, Kind, Objects, Stop, expect_kind};
use sdr_model::Reply;
use step_things::Page;
use zco_acct::{Notice, Notify};

/// Gives an object back with all that goes with it, and serves the queue of its account, which is
/// read before the object goes.
pub fn destroy<O: Objects, F: Notify>(
    o: &mut O,
    object: Addr,
    notice: &Notice<F>,
    page: &mut Page,
) -> Result<Reply, Stop>
    requires kept { KeepsSome (O.keeps o.old) }
    requires room { (O.heap o.old).size / 4 + 4 ≤ (O.heap o.old).spare }
    requires object { IsWithAll (O.heap o.old) object }
    requires unmoved { (O.heap o.old).moves ≡ [] }
    ensures comes { ComesInEach (calls.Destroy object)
        (O.heap o.old) (O.heap o.new) page.old page.new result }
    ensures works { (w : World) → HeapStandsFor (O.heap o.old) w → IsReady w →
        Spends O.HasHeap (destroy_lines w object) o.old o.new result }
{
    expect_kind(o, object, Kind::Object)?;
    let acct = zco_obj::account(o, object)?;
    zco_obj::destroy(o, object)?;
    serve(o, acct, notice)?;
    page.clear();
    Ok(Reply::Done)
}
