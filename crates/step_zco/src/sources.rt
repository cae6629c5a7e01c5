// The calls on sources, as steps of the machine.
ghost use Rattle.std.specs.Prelude.{[], length, ◌+◌, ◌/◌, ◌≡◌, ◌≤◌};
ghost use Rattle.step_things.specs.Answering.{ComesInEach};
ghost use Rattle.sdr_base.specs.Moves.{KeepsSome};
ghost use Rattle.sdr_base.specs.Works.{Spends};
ghost use Rattle.sdr_model.specs.Fields.{AreBytes, IsWord};
ghost use Rattle.sdr_model.specs.declared.call.Call.TheVariants as calls;
ghost use Rattle.zco_ref.specs.Kept.{IsFew, IsRaw, IsTied};

use sdr_base::{Addr, Objects, Stop};
use sdr_model::Reply;
use step_things::Page;

/// Makes a source of a file.
pub fn file_ref<O: Objects>(
    o: &mut O,
    path: &[u8],
    bytes: u64,
    page: &mut Page,
) -> Result<Reply, Stop>
    requires kept { KeepsSome (O.keeps o.old) }
    requires spare { 1 ≤ (O.heap o.old).spare }
    requires unmoved { (O.heap o.old).moves ≡ [] }
    ensures comes { ComesInEach (calls.FileRef path.now bytes)
        (O.heap o.old) (O.heap o.new) page.old page.new result }
    ensures works { Spends O.HasHeap (26 + (48 + length path.now) / 32) o.old o.new result }
    ensures bytes { AreBytes path.now }
{
    let addr = zco_ref::file_ref(o, path, bytes)?;
    page.clear();
    Ok(Reply::At { addr })
}

/// Makes a source of an item.
pub fn bulk_ref<O: Objects>(
    o: &mut O,
    item: u64,
    bytes: u64,
    page: &mut Page,
) -> Result<Reply, Stop>
    requires kept { KeepsSome (O.keeps o.old) }
    requires spare { 1 ≤ (O.heap o.old).spare }
    requires unmoved { (O.heap o.old).moves ≡ [] }
    ensures comes { ComesInEach (calls.BulkRef item bytes)
        (O.heap o.old) (O.heap o.new) page.old page.new result }
    ensures works { Spends O.HasHeap 29 o.old o.new result }
    ensures word { IsWord item }
{
    let addr = zco_ref::bulk_ref(o, item, bytes)?;
    page.clear();
    Ok(Reply::At { addr })
}

/// Makes a source of a raw object.
pub fn obj_ref<O: Objects>(o: &mut O, raw: Addr, page: &mut Page) -> Result<Reply, Stop>
    requires kept { KeepsSome (O.keeps o.old) }
    requires spare { 1 ≤ (O.heap o.old).spare }
    requires raw { IsRaw (O.heap o.old).blocks raw }
    requires unmoved { (O.heap o.old).moves ≡ [] }
    ensures comes { ComesInEach (calls.ObjRef raw)
        (O.heap o.old) (O.heap o.new) page.old page.new result }
    ensures works { Spends O.HasHeap 31 o.old o.new result }
{
    let addr = zco_ref::obj_ref(o, raw)?;
    page.clear();
    Ok(Reply::At { addr })
}

/// Gives a source back, or flags it.
pub fn destroy_ref<O: Objects>(o: &mut O, source: Addr, page: &mut Page) -> Result<Reply, Stop>
    requires kept { KeepsSome (O.keeps o.old) }
    requires spare { 1 ≤ (O.heap o.old).spare }
    requires source { IsTied (O.heap o.old).blocks source }
    requires unmoved { (O.heap o.old).moves ≡ [] }
    ensures comes { ComesInEach (calls.DestroyRef source)
        (O.heap o.old) (O.heap o.new) page.old page.new result }
    ensures works { Spends O.HasHeap 28 o.old o.new result }
{
    zco_ref::destroy_ref(o, source)?;
    page.clear();
    Ok(Reply::Done)
}

/// How many extents name a source.
pub fn count<O: Objects>(o: &mut O, source: Addr, page: &mut Page) -> Result<Reply, Stop>
    requires kept { KeepsSome (O.keeps o.old) }
    requires source { IsFew ((O.heap o.old).blocks source) }
    requires unmoved { (O.heap o.old).moves ≡ [] }
    ensures comes { ComesInEach (calls.Count source)
        (O.heap o.old) (O.heap o.new) page.old page.new result }
    ensures works { Spends O.HasHeap 0 o.old o.new result }
    ensures touched { (O.transaction o.new).touched ≡ (O.transaction o.old).touched }
{
    let value = zco_ref::count(o, source)?;
    page.clear();
    Ok(Reply::Value { value })
}
