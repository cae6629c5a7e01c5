// Keys come, go and get other values.
ghost use Rattle.std.specs.Prelude.{◌≡◌, ◌≤◌, ◌+◌, ◌/◌, length, IfErr, OnOk};
ghost use Rattle.sdr_base.specs.Moves.{KeepsSome};
ghost use Rattle.sdr_base.specs.Objects.{OnlyShort, OnlyUnmoved};
ghost use Rattle.sdr_base.specs.Transaction.{LeavesTouched};
ghost use Rattle.sdr_base.specs.Works.{Spends};
ghost use Rattle.sdr_hash.specs.Calls.{ChangeStops, InsertsKey, InsertStops, RemovesKey, RevisesKey};
ghost use Rattle.sdr_hash.specs.Changes.{AddsFirst, SomePlace, TakesOut};
ghost use Rattle.sdr_hash.specs.Kept.{IsHash};
ghost use Rattle.sdr_hash.specs.Opened.{SomeBucket};

use crate::bucket::{Link, front_of};
use crate::entry::{KEY_FROM, take_entry};
use crate::searching::{Place, locate, search};
use sdr_base::layout::{hash as hash_words, hash_entry as words};
use sdr_base::{Addr, Objects, Refusal, Stop, set_word, word};

/// Puts a new key with its value into a hash, in front of its bucket.
#[tactic(auto, using(sdr_base::proofs::LeavingLemmas::leaving))]
pub fn insert<O: Objects>(o: &mut O, hash: Addr, key: &[u8], value: u64) -> Result<(), Stop>
    requires kept { KeepsSome (O.keeps o.old) }
    requires spare { 1 ≤ (O.heap o.old).spare }
    requires hash { IsHash (O.heap o.old).blocks hash }
    ensures inserted { OnOk result
        (InsertsKey hash key.now value (O.heap o.old) (O.heap o.new)) }
    ensures refused { IfErr result (InsertStops hash key.now (O.heap o.old) (O.heap o.new)) }
    ensures untouched { IfErr result (LeavesTouched (O.transaction o.old) (O.transaction o.new)) }
    ensures works { Spends O.HasHeap
        (30 + (KEY_FROM + length key.now) / 32) o.old o.new result }
{
    let front = front_of(o, hash, key)?;
    match search(o, front, key)? {
        None => add_first(o, front, key, value),
        Some(place) => {
            let value = word(o, place.addr, words::VALUE)?;
            Err(Stop::Refused(Refusal::KeyTaken { value }))
        }
    }
}

// Puts a new entry in front of a bucket, and counts it.
fn add_first<O: Objects>(o: &mut O, front: Link, key: &[u8], value: u64) -> Result<(), Stop>
    requires kept { KeepsSome (O.keeps o.old) }
    requires spare { 1 ≤ (O.heap o.old).spare }
    requires bucket { SomeBucket (O.heap o.old).blocks front (length key.now) }
    ensures added { OnOk result (AddsFirst front key.now value (O.heap o.old) (O.heap o.new)) }
    ensures refused { IfErr result
        (OnlyShort (KEY_FROM + length key.now) (O.heap o.old) (O.heap o.new)) }
    ensures works { Spends O.HasHeap
        (30 + (KEY_FROM + length key.now) / 32) o.old o.new result }
{
    let next = word(o, front.addr, front.field)?;
    let count = word(o, front.addr, hash_words::ENTRIES)?;
    let added = take_entry(o, next, value, key)?;
    set_word(o, front.addr, front.field, added)?;
    set_word(o, front.addr, hash_words::ENTRIES, count + 1)
}

/// Sets the value of a key that a hash has.
#[tactic(auto, using(sdr_base::proofs::LeavingLemmas::leaving))]
pub fn revise<O: Objects>(o: &mut O, hash: Addr, key: &[u8], value: u64) -> Result<(), Stop>
    requires kept { KeepsSome (O.keeps o.old) }
    requires hash { IsHash (O.heap o.old).blocks hash }
    ensures revised { OnOk result
        (RevisesKey hash key.now value (O.heap o.old) (O.heap o.new)) }
    ensures refused { IfErr result (ChangeStops hash key.now (O.heap o.old) (O.heap o.new)) }
    ensures untouched { IfErr result (LeavesTouched (O.transaction o.old) (O.transaction o.new)) }
    ensures works { Spends O.HasHeap 2 o.old o.new result }
{
    let (_, place) = locate(o, hash, key)?;
    set_word(o, place.addr, words::VALUE, value)
}

/// Takes a key out of a hash. What its value names stays.
#[tactic(auto, using(sdr_base::proofs::LeavingLemmas::leaving))]
pub fn remove<O: Objects>(o: &mut O, hash: Addr, key: &[u8]) -> Result<(), Stop>
    requires kept { KeepsSome (O.keeps o.old) }
    requires spare { 1 ≤ (O.heap o.old).spare }
    requires hash { IsHash (O.heap o.old).blocks hash }
    ensures removed { OnOk result (RemovesKey hash key.now (O.heap o.old) (O.heap o.new)) }
    ensures refused { IfErr result (ChangeStops hash key.now (O.heap o.old) (O.heap o.new)) }
    ensures untouched { IfErr result (LeavesTouched (O.transaction o.old) (O.transaction o.new)) }
    ensures works { Spends O.HasHeap 28 o.old o.new result }
{
    let (front, place) = locate(o, hash, key)?;
    take_out(o, front, place)
}

// Takes an entry out of the bucket that begins at a link, and gives it back.
fn take_out<O: Objects>(o: &mut O, front: Link, place: Place) -> Result<(), Stop>
    requires kept { KeepsSome (O.keeps o.old) }
    requires spare { 1 ≤ (O.heap o.old).spare }
    requires place { SomePlace (O.heap o.old).blocks front place }
    ensures taken { OnOk result (TakesOut front place (O.heap o.old) (O.heap o.new)) }
    ensures refused { IfErr result (OnlyUnmoved (O.heap o.old) (O.heap o.new)) }
    ensures works { Spends O.HasHeap 28 o.old o.new result }
{
    let next = word(o, place.addr, words::NEXT)?;
    let count = word(o, front.addr, hash_words::ENTRIES)?;
    set_word(o, place.link.addr, place.link.field, next)?;
    set_word(o, front.addr, hash_words::ENTRIES, count - 1)?;
    o.give(place.addr)
}
