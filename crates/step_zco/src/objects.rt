// The calls that make an object, and that tell how long one is, as steps of the machine.
ghost use Rattle.std.specs.Prelude.{[], ◌≡◌, ◌≤◌};
ghost use Rattle.step_things.specs.Answering.{ComesInEach};
ghost use Rattle.sdr_base.specs.Moves.{KeepsSome};
ghost use Rattle.sdr_base.specs.Works.{Spends};
ghost use Rattle.sdr_model.specs.declared.call.Call.TheVariants as calls;
ghost use Rattle.zco_acct.specs.Kept.{SomeQueue};
ghost use Rattle.zco_obj.specs.Kept.{IsObject};

use sdr_base::{Acct, Addr, Objects, Stop};
use sdr_model::Reply;
use step_things::Page;

/// Makes an object with nothing in it.
pub fn create<O: Objects>(
    o: &mut O,
    acct: Acct,
    ticket: u64,
    page: &mut Page,
) -> Result<Reply, Stop>
    requires kept { KeepsSome (O.keeps o.old) }
    requires spare { 1 ≤ (O.heap o.old).spare }
    requires queue { SomeQueue (O.heap o.old) acct }
    requires unmoved { (O.heap o.old).moves ≡ [] }
    ensures comes { ComesInEach (calls.Create acct ticket)
        (O.heap o.old) (O.heap o.new) page.old page.new result }
    ensures works { Spends O.HasHeap 34 o.old o.new result }
{
    let addr = zco_obj::create(o, acct, ticket)?;
    page.clear();
    Ok(Reply::At { addr })
}

/// How many bytes an object has on the wire.
pub fn length<O: Objects>(o: &mut O, object: Addr, page: &mut Page) -> Result<Reply, Stop>
    requires kept { KeepsSome (O.keeps o.old) }
    requires object { IsObject (O.heap o.old).blocks object }
    requires unmoved { (O.heap o.old).moves ≡ [] }
    ensures comes { ComesInEach (calls.ZcoLength object)
        (O.heap o.old) (O.heap o.new) page.old page.new result }
    ensures works { Spends O.HasHeap 0 o.old o.new result }
    ensures touched { (O.transaction o.new).touched ≡ (O.transaction o.old).touched }
{
    let value = zco_obj::length(o, object)?;
    page.clear();
    Ok(Reply::Value { value })
}

/// How many bytes the part of an object has.
pub fn source_length<O: Objects>(o: &mut O, object: Addr, page: &mut Page) -> Result<Reply, Stop>
    requires kept { KeepsSome (O.keeps o.old) }
    requires object { IsObject (O.heap o.old).blocks object }
    requires unmoved { (O.heap o.old).moves ≡ [] }
    ensures comes { ComesInEach (calls.SourceLength object)
        (O.heap o.old) (O.heap o.new) page.old page.new result }
    ensures works { Spends O.HasHeap 0 o.old o.new result }
    ensures touched { (O.transaction o.new).touched ≡ (O.transaction o.old).touched }
{
    let value = zco_obj::source_length(o, object)?;
    page.clear();
    Ok(Reply::Value { value })
}
