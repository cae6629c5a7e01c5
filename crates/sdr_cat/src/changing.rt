// Names come and go.
ghost use Rattle.std.specs.Prelude.{◌≡◌, ◌≢◌, ◌≤◌, length, IfOk, IfErr, OnOk};
ghost use Rattle.sdr_base.specs.Moves.{KeepsSome};
ghost use Rattle.sdr_base.specs.Objects.{OnlyShort, OnlyUnmoved};
ghost use Rattle.sdr_base.specs.Transaction.{LeavesTouched};
ghost use Rattle.sdr_base.specs.Works.{Spends};
ghost use Rattle.sdr_cat.specs.Changes.{AddsLast, CataloguesName, CatlgStops, LinksLast, SomeFirst};
ghost use Rattle.sdr_cat.specs.Changes.{TakesOut, UncataloguesName, UncatlgStops};
ghost use Rattle.sdr_cat.specs.Kept.{SomeNames};

use crate::linking::{link_next, take_entry};
use crate::name::check_name;
use crate::searching::{Place, search};
use sdr_base::control::LAST_NAME;
use sdr_base::layout::name as words;
use sdr_base::limits::LONGEST_NAME;
use sdr_base::{Addr, Objects, Refusal, Stop, check_failed, word};

/// Puts a new name at the end of the catalogue, for an object of this type.
#[tactic(auto, using(sdr_base::proofs::LeavingLemmas::leaving))]
pub fn catlg<O: Objects>(o: &mut O, name: &[u8], kind: u32, object: u64) -> Result<(), Stop>
    requires kept { KeepsSome (O.keeps o.old) }
    requires spare { 1 ≤ (O.heap o.old).spare }
    requires names { SomeNames (O.heap o.old) }
    ensures catalogued { OnOk result
        (CataloguesName name.now kind object (O.heap o.old) (O.heap o.new)) }
    ensures refused { IfErr result (CatlgStops name.now (O.heap o.old) (O.heap o.new)) }
    ensures untouched { IfErr result (LeavesTouched (O.transaction o.old) (O.transaction o.new)) }
    ensures works { Spends O.HasHeap 30 o.old o.new result }
{
    check_failed(o)?;
    check_name(name)?;
    match search(o, name)? {
        None => add_last(o, name, kind, object),
        Some(place) => {
            let addr = word(o, place.addr, words::OBJECT)?;
            Err(Stop::Refused(Refusal::NameTaken { addr }))
        }
    }
}

// Puts a new entry at the end.
fn add_last<O: Objects>(o: &mut O, name: &[u8], kind: u32, object: u64) -> Result<(), Stop>
    requires kept { KeepsSome (O.keeps o.old) }
    requires spare { 1 ≤ (O.heap o.old).spare }
    requires names { SomeNames (O.heap o.old) }
    requires short { length name.now ≤ LONGEST_NAME }
    ensures added { OnOk result (AddsLast name.now kind object (O.heap o.old) (O.heap o.new)) }
    ensures refused { IfErr result (OnlyShort 56 (O.heap o.old) (O.heap o.new)) }
    ensures works { Spends O.HasHeap 30 o.old o.new result }
{
    let last = o.root(LAST_NAME)?;
    let added = take_entry(o, kind, object, name)?;
    link_next(o, last, added)?;
    o.set_root(LAST_NAME, added)
}

/// Takes a name out of the catalogue. Its object stays.
#[tactic(auto, using(sdr_base::proofs::LeavingLemmas::leaving))]
pub fn uncatlg<O: Objects>(o: &mut O, name: &[u8]) -> Result<(), Stop>
    requires kept { KeepsSome (O.keeps o.old) }
    requires spare { 1 ≤ (O.heap o.old).spare }
    requires names { SomeNames (O.heap o.old) }
    ensures uncatalogued { OnOk result (UncataloguesName name.now (O.heap o.old) (O.heap o.new)) }
    ensures refused { IfErr result (UncatlgStops name.now (O.heap o.old) (O.heap o.new)) }
    ensures untouched { IfErr result (LeavesTouched (O.transaction o.old) (O.transaction o.new)) }
    ensures works { Spends O.HasHeap 27 o.old o.new result }
{
    check_failed(o)?;
    check_name(name)?;
    match search(o, name)? {
        None => Err(Stop::Refused(Refusal::NotFound)),
        Some(place) => take_out(o, place),
    }
}

// Takes an entry out, and gives it back.
fn take_out<O: Objects>(o: &mut O, place: Place) -> Result<(), Stop>
    requires kept { KeepsSome (O.keeps o.old) }
    requires spare { 1 ≤ (O.heap o.old).spare }
    requires first { SomeFirst place (O.heap o.old) }
    ensures taken { OnOk result (TakesOut place (O.heap o.old) (O.heap o.new)) }
    ensures refused { IfErr result (OnlyUnmoved (O.heap o.old) (O.heap o.new)) }
    ensures works { Spends O.HasHeap 27 o.old o.new result }
{
    let next = word(o, place.addr, words::NEXT)?;
    link_next(o, place.previous, next)?;
    link_last(o, next, place.previous)?;
    o.give(place.addr)
}

// Where nothing follows the entry `prev`, it is the last.
fn link_last<O: Objects>(o: &mut O, next: Addr, prev: Addr) -> Result<(), Stop>
    requires kept { KeepsSome (O.keeps o.old) }
    ensures linked { OnOk result (LinksLast next prev (O.heap o.old) (O.heap o.new)) }
    ensures refused { IfErr result (OnlyUnmoved (O.heap o.old) (O.heap o.new)) }
    ensures works { Spends O.HasHeap 1 o.old o.new result }
{
    if next == 0 {
        o.set_root(LAST_NAME, prev)
    } else {
        check_failed(o)
    }
}
