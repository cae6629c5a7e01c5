// The calls on accounts, as steps of the machine.
ghost use Rattle.std.specs.Prelude.{[], ◌≡◌, ◌+◌, ◌*◌, IfErr, OnOk};
ghost use Rattle.step_things.specs.Answering.{ComesInEach, IsReady};
ghost use Rattle.sdr_stands.specs.Standing.{HeapStandsFor};
ghost use Rattle.sdr_base.specs.Moves.{KeepsSome};
ghost use Rattle.sdr_base.specs.Objects.{OnlyUnmoved};
ghost use Rattle.sdr_base.specs.Works.{Spends};
ghost use Rattle.sdr_machine.specs.Demand.{grants_between};
ghost use Rattle.sdr_model.specs.Queue.{with_served};
ghost use Rattle.sdr_model.specs.World.{World};
ghost use Rattle.sdr_model.specs.declared.call.Call.TheVariants as calls;
ghost use Rattle.zco_acct.specs.Kept.{SomeQueue};
ghost use Rattle.step_zco.specs.AccountAnswering.{KeepsTickets, Grants, grants_of};

use sdr_base::{Acct, Objects, Space, Stop};
use sdr_model::Reply;
use step_things::Page;
use zco_acct::{Notice, Notify};

/// Serves the queue of an account: grants the first ticket that waits while each amount that it asks
/// is at most the room.
pub fn serve<O: Objects, F: Notify>(o: &mut O, acct: Acct, notice: &Notice<F>) -> Result<(), Stop>
    requires kept { KeepsSome (O.keeps o.old) }
    requires queue { SomeQueue (O.heap o.old) acct }
    ensures served { OnOk result (Grants acct (O.heap o.old) (O.heap o.new)) }
    ensures refused { IfErr result (OnlyUnmoved (O.heap o.old) (O.heap o.new)) }
    ensures works { (w : World) → HeapStandsFor (O.heap o.old) w → KeepsTickets w →
        Spends O.HasHeap (32 * grants_between w (with_served w acct)) o.old o.new result }
{
    zco_space::serve(o, acct, notice)?;
    Ok(())
}

/// How many bytes of a space are occupied.
pub fn occupancy<O: Objects>(
    o: &mut O,
    acct: Acct,
    space: Space,
    page: &mut Page,
) -> Result<Reply, Stop>
    requires kept { KeepsSome (O.keeps o.old) }
    requires unmoved { (O.heap o.old).moves ≡ [] }
    ensures comes { ComesInEach (calls.Occupancy acct space)
        (O.heap o.old) (O.heap o.new) page.old page.new result }
    ensures works { Spends O.HasHeap 0 o.old o.new result }
    ensures touched { (O.transaction o.new).touched ≡ (O.transaction o.old).touched }
{
    let value = zco_acct::occupancy(o, acct, space)?;
    page.clear();
    Ok(Reply::Value { value })
}

/// How many bytes of a space may be occupied at most.
pub fn maximum<O: Objects>(
    o: &mut O,
    acct: Acct,
    space: Space,
    page: &mut Page,
) -> Result<Reply, Stop>
    requires kept { KeepsSome (O.keeps o.old) }
    requires unmoved { (O.heap o.old).moves ≡ [] }
    ensures comes { ComesInEach (calls.Maximum acct space)
        (O.heap o.old) (O.heap o.new) page.old page.new result }
    ensures works { Spends O.HasHeap 0 o.old o.new result }
    ensures touched { (O.transaction o.new).touched ≡ (O.transaction o.old).touched }
{
    let value = zco_acct::maximum(o, acct, space)?;
    page.clear();
    Ok(Reply::Value { value })
}

/// Sets the maximum of a space, and serves the account's queue.
pub fn set_maximum<O: Objects, F: Notify>(
    o: &mut O,
    acct: Acct,
    space: Space,
    value: u64,
    notice: &Notice<F>,
    page: &mut Page,
) -> Result<Reply, Stop>
    requires kept { KeepsSome (O.keeps o.old) }
    requires queue { SomeQueue (O.heap o.old) acct }
    requires unmoved { (O.heap o.old).moves ≡ [] }
    ensures comes { ComesInEach (calls.SetMaximum acct space value)
        (O.heap o.old) (O.heap o.new) page.old page.new result }
    ensures works { (w : World) → HeapStandsFor (O.heap o.old) w → IsReady w →
        Spends O.HasHeap (1 + 32 * grants_of w (calls.SetMaximum acct space value)) o.old o.new result }
{
    zco_acct::set_maximum(o, acct, space, value)?;
    serve(o, acct, notice)?;
    page.clear();
    Ok(Reply::Done)
}
