// The calls on the catalogue, as steps of the machine.
ghost use Rattle.std.specs.Prelude.{[], ◌<◌, ◌^◌, ◌≡◌, ◌≤◌};
ghost use Rattle.step_things.specs.Answering.{ComesInEach};
ghost use Rattle.sdr_base.specs.Moves.{KeepsSome};
ghost use Rattle.sdr_base.specs.Works.{Spends};
ghost use Rattle.sdr_cat.specs.Kept.{SomeNames};
ghost use Rattle.sdr_model.specs.Fields.{AreBytes, IsWord};
ghost use Rattle.sdr_model.specs.declared.call.Call.TheVariants as calls;

use sdr_base::{Objects, Stop};
use sdr_model::Reply;
use step_things::Page;

/// Puts a new name at the end of the catalogue.
pub fn catlg<O: Objects>(
    o: &mut O,
    name: &[u8],
    kind: u32,
    object: u64,
    page: &mut Page,
) -> Result<Reply, Stop>
    requires kept { KeepsSome (O.keeps o.old) }
    requires spare { 1 ≤ (O.heap o.old).spare }
    requires names { SomeNames (O.heap o.old) }
    requires unmoved { (O.heap o.old).moves ≡ [] }
    ensures comes { ComesInEach (calls.Catlg name.now kind object) (O.heap o.old) (O.heap o.new) page.old
        page.new result }
    ensures works { Spends O.HasHeap 30 o.old o.new result }
    ensures bytes { AreBytes name.now }
    ensures kind { kind < 2 ^ 32 }
    ensures word { IsWord object }
{
    sdr_cat::catlg(o, name, kind, object)?;
    page.clear();
    Ok(Reply::Done)
}

/// The type and the object of a name.
pub fn find<O: Objects>(o: &mut O, name: &[u8], page: &mut Page) -> Result<Reply, Stop>
    requires kept { KeepsSome (O.keeps o.old) }
    requires names { SomeNames (O.heap o.old) }
    requires unmoved { (O.heap o.old).moves ≡ [] }
    ensures comes { ComesInEach (calls.Find name.now) (O.heap o.old) (O.heap o.new) page.old page.new
        result }
    ensures works { Spends O.HasHeap 0 o.old o.new result }
    ensures touched { (O.transaction o.new).touched ≡ (O.transaction o.old).touched }
{
    let (kind, second) = sdr_cat::find(o, name)?;
    page.clear();
    Ok(Reply::Pair {
        first: kind as u64,
        second,
    })
}

/// Takes a name out of the catalogue.
pub fn uncatlg<O: Objects>(o: &mut O, name: &[u8], page: &mut Page) -> Result<Reply, Stop>
    requires kept { KeepsSome (O.keeps o.old) }
    requires spare { 1 ≤ (O.heap o.old).spare }
    requires names { SomeNames (O.heap o.old) }
    requires unmoved { (O.heap o.old).moves ≡ [] }
    ensures comes { ComesInEach (calls.Uncatlg name.now) (O.heap o.old) (O.heap o.new) page.old page.new
        result }
    ensures works { Spends O.HasHeap 27 o.old o.new result }
{
    sdr_cat::uncatlg(o, name)?;
    page.clear();
    Ok(Reply::Done)
}

/// The entry at a place, counted from 0.
pub fn entry<O: Objects>(o: &mut O, place: u64, page: &mut Page) -> Result<Reply, Stop>
    requires kept { KeepsSome (O.keeps o.old) }
    requires names { SomeNames (O.heap o.old) }
    requires unmoved { (O.heap o.old).moves ≡ [] }
    ensures comes { ComesInEach (calls.Entry place) (O.heap o.old) (O.heap o.new) page.old page.new
        result }
    ensures works { Spends O.HasHeap 0 o.old o.new result }
    ensures touched { (O.transaction o.new).touched ≡ (O.transaction o.old).touched }
{
    let mut name = [0; 255];
    let (count, kind, addr) = sdr_cat::entry(o, place, &mut name)?;
    page.show(&name[..count as usize]);
    Ok(Reply::Named { count, kind, addr })
}
