// The call that sets the part of an object, as a step of the machine.
ghost use Rattle.std.specs.Prelude.{[], ◌≡◌};
ghost use Rattle.step_things.specs.Answering.{ComesInEach};
ghost use Rattle.sdr_base.specs.Moves.{KeepsSome};
ghost use Rattle.sdr_base.specs.Works.{Spends};
ghost use Rattle.sdr_model.specs.declared.call.Call.TheVariants as calls;
ghost use Rattle.zco_obj.specs.Kept.{IsObject};

use sdr_base::{Addr, Objects, Stop};
use sdr_model::Reply;
use step_things::Page;

/// Sets the part of an object to so many bytes of its extents, from a place on. It is refused for the
/// address, and for a range that these haven't.
pub fn delimit<O: Objects>(
    o: &mut O,
    object: Addr,
    offset: u64,
    bytes: u64,
    page: &mut Page,
) -> Result<Reply, Stop>
    requires kept { KeepsSome (O.keeps o.old) }
    requires object { IsObject (O.heap o.old).blocks object }
    requires unmoved { (O.heap o.old).moves ≡ [] }
    ensures comes { ComesInEach (calls.Delimit object offset bytes)
        (O.heap o.old) (O.heap o.new) page.old page.new result }
    ensures works { Spends O.HasHeap 4 o.old o.new result }
{
    zco_part::delimit(o, object, offset, bytes)?;
    page.clear();
    Ok(Reply::Done)
}
