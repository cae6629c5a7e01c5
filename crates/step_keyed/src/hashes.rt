// The calls on hashes, as steps of the machine.
ghost use Rattle.std.specs.Prelude.{[], length, ◌*◌, ◌+◌, ◌/◌, ◌≡◌, ◌≤◌};
ghost use Rattle.step_things.specs.Answering.{ComesInEach};
ghost use Rattle.sdr_base.specs.Moves.{KeepsSome};
ghost use Rattle.sdr_base.specs.Works.{Spends};
ghost use Rattle.sdr_hash.specs.Destroying.{entries_in};
ghost use Rattle.sdr_hash.specs.Kept.{IsHash};
ghost use Rattle.sdr_model.specs.Fields.{AreBytes, IsWord};
ghost use Rattle.sdr_model.specs.declared.call.Call.TheVariants as calls;

use sdr_base::{Addr, Objects, Stop};
use sdr_model::Reply;
use step_things::Page;

/// Makes a hash.
pub fn hash<O: Objects>(
    o: &mut O,
    key_length: u64,
    buckets: u64,
    page: &mut Page,
) -> Result<Reply, Stop>
    requires kept { KeepsSome (O.keeps o.old) }
    requires spare { 1 ≤ (O.heap o.old).spare }
    requires unmoved { (O.heap o.old).moves ≡ [] }
    ensures comes { ComesInEach (calls.Hash key_length buckets)
        (O.heap o.old) (O.heap o.new) page.old page.new result }
    ensures works { Spends O.HasHeap (26 + (24 + 8 * buckets) / 64) o.old o.new result }
{
    let addr = sdr_hash::create(o, key_length, buckets)?;
    page.clear();
    Ok(Reply::At { addr })
}

/// Puts a new key with its value into a hash.
pub fn insert<O: Objects>(
    o: &mut O,
    hash: Addr,
    key: &[u8],
    value: u64,
    page: &mut Page,
) -> Result<Reply, Stop>
    requires kept { KeepsSome (O.keeps o.old) }
    requires spare { 1 ≤ (O.heap o.old).spare }
    requires hash { IsHash (O.heap o.old).blocks hash }
    requires unmoved { (O.heap o.old).moves ≡ [] }
    ensures comes { ComesInEach (calls.HashInsert hash key.now value)
        (O.heap o.old) (O.heap o.new) page.old page.new result }
    ensures works { Spends O.HasHeap (30 + (16 + length key.now) / 32) o.old o.new result }
    ensures bytes { AreBytes key.now }
    ensures word { IsWord value }
{
    sdr_hash::insert(o, hash, key, value)?;
    page.clear();
    Ok(Reply::Done)
}

/// The value of a key.
pub fn retrieve<O: Objects>(
    o: &mut O,
    hash: Addr,
    key: &[u8],
    page: &mut Page,
) -> Result<Reply, Stop>
    requires kept { KeepsSome (O.keeps o.old) }
    requires hash { IsHash (O.heap o.old).blocks hash }
    requires unmoved { (O.heap o.old).moves ≡ [] }
    ensures comes { ComesInEach (calls.HashRetrieve hash key.now)
        (O.heap o.old) (O.heap o.new) page.old page.new result }
    ensures works { Spends O.HasHeap 0 o.old o.new result }
    ensures touched { (O.transaction o.new).touched ≡ (O.transaction o.old).touched }
{
    let value = sdr_hash::retrieve(o, hash, key)?;
    page.clear();
    Ok(Reply::Value { value })
}

/// Sets the value of a key.
pub fn revise<O: Objects>(
    o: &mut O,
    hash: Addr,
    key: &[u8],
    value: u64,
    page: &mut Page,
) -> Result<Reply, Stop>
    requires kept { KeepsSome (O.keeps o.old) }
    requires hash { IsHash (O.heap o.old).blocks hash }
    requires unmoved { (O.heap o.old).moves ≡ [] }
    ensures comes { ComesInEach (calls.HashRevise hash key.now value)
        (O.heap o.old) (O.heap o.new) page.old page.new result }
    ensures works { Spends O.HasHeap 2 o.old o.new result }
    ensures bytes { AreBytes key.now }
    ensures word { IsWord value }
{
    sdr_hash::revise(o, hash, key, value)?;
    page.clear();
    Ok(Reply::Done)
}

/// Takes a key out of a hash.
pub fn remove<O: Objects>(o: &mut O, hash: Addr, key: &[u8], page: &mut Page) -> Result<Reply, Stop>
    requires kept { KeepsSome (O.keeps o.old) }
    requires spare { 1 ≤ (O.heap o.old).spare }
    requires hash { IsHash (O.heap o.old).blocks hash }
    requires unmoved { (O.heap o.old).moves ≡ [] }
    ensures comes { ComesInEach (calls.HashRemove hash key.now)
        (O.heap o.old) (O.heap o.new) page.old page.new result }
    ensures works { Spends O.HasHeap 28 o.old o.new result }
{
    sdr_hash::remove(o, hash, key)?;
    page.clear();
    Ok(Reply::Done)
}

/// How many entries a hash has.
pub fn count<O: Objects>(o: &mut O, hash: Addr, page: &mut Page) -> Result<Reply, Stop>
    requires kept { KeepsSome (O.keeps o.old) }
    requires hash { IsHash (O.heap o.old).blocks hash }
    requires unmoved { (O.heap o.old).moves ≡ [] }
    ensures comes { ComesInEach (calls.HashCount hash)
        (O.heap o.old) (O.heap o.new) page.old page.new result }
    ensures works { Spends O.HasHeap 0 o.old o.new result }
    ensures touched { (O.transaction o.new).touched ≡ (O.transaction o.old).touched }
{
    let value = sdr_hash::count(o, hash)?;
    page.clear();
    Ok(Reply::Value { value })
}

/// Gives a hash back with its entries.
pub fn hash_destroy<O: Objects>(o: &mut O, hash: Addr, page: &mut Page) -> Result<Reply, Stop>
    requires kept { KeepsSome (O.keeps o.old) }
    requires spare { (O.heap o.old).size / 4 + 4 ≤ (O.heap o.old).spare }
    requires hash { IsHash (O.heap o.old).blocks hash }
    requires unmoved { (O.heap o.old).moves ≡ [] }
    ensures comes { ComesInEach (calls.HashDestroy hash)
        (O.heap o.old) (O.heap o.new) page.old page.new result }
    ensures works { Spends O.HasHeap
        (24 * (entries_in ((O.heap o.old).blocks hash) + 1)) o.old o.new result }
{
    sdr_hash::destroy(o, hash)?;
    page.clear();
    Ok(Reply::Done)
}
