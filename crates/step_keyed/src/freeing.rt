// Giving a raw object or a string back, as a step of the machine.
ghost use Rattle.std.specs.Prelude.{[], ◌≡◌, ◌≤◌};
ghost use Rattle.step_things.specs.Answering.{ComesInEach};
ghost use Rattle.sdr_base.specs.Moves.{KeepsSome};
ghost use Rattle.sdr_base.specs.Works.{Spends};
ghost use Rattle.sdr_model.specs.declared.call.Call.TheVariants as calls;
ghost use Rattle.zco_ref.specs.Kept.{IsRaw};

use sdr_base::{Addr, Objects, Stop};
use sdr_model::Reply;
use step_things::Page;

/// Gives a raw object that no source names, or a string, back.
pub fn free<O: Objects>(o: &mut O, addr: Addr, page: &mut Page) -> Result<Reply, Stop>
    requires kept { KeepsSome (O.keeps o.old) }
    requires spare { 1 ≤ (O.heap o.old).spare }
    requires raw { IsRaw (O.heap o.old).blocks addr }
    requires unmoved { (O.heap o.old).moves ≡ [] }
    ensures comes { ComesInEach (calls.Free addr) (O.heap o.old) (O.heap o.new) page.old page.new result }
    ensures works { Spends O.HasHeap 24 o.old o.new result }
{
    sdr_heap::free(o, addr)?;
    page.clear();
    Ok(Reply::Done)
}
