// What calls on hashes do to a world.
ghost use Rattle.std.specs.FinMap as map;
ghost use Rattle.std.specs.Option.{option_copied};
ghost use Rattle.std.specs.Prelude.{◌≡◌, ◌<◌, ◌^◌, IfOk, OnErr, OnOk, Some, length, nat_lt, remove, set, ◌||◌};
ghost use Rattle.mem_calls.specs.Answers.{CallsMemory};
ghost use Rattle.sdr_model.specs.Dry.{next_addr};
ghost use Rattle.sdr_model.specs.HashChanges.{HasEntry, HasKey, InsertsEntry, IsThere, PutsEntry, SetsHash, place_in};
ghost use Rattle.sdr_model.specs.HashSteps.{as_hash, entry_addr, value_at};
ghost use Rattle.sdr_model.specs.World.{thing_at};

use crate::raw_calls::misnamed;
use mem_world::DraftWorld;
use sdr_base::limits::{LONGEST_KEY, MOST_BUCKETS};
use sdr_base::{Addr, Bytes, Items, NoMemory, Refusal};
use sdr_model::{Call, HashEntry, Reply, SdrHash, Thing};
use std::alloc::Global;

// The hash at an address.
fn hash(world: &DraftWorld, addr: Addr) -> Option<&SdrHash>
    ensures { option_copied result ≡ as_hash (thing_at world.now.now addr) }
{
    match world.thing(addr) {
        Some(Thing::Hash(hash)) => Some(hash),
        _ => None,
    }
}

// The value of the entry at a place, 0 where there is none.
fn value_at(entries: &Items<HashEntry>, place: usize) -> u64
    ensures { result ≡ value_at entries.now place }
{
    match entries.as_slice().get(place) {
        Some(entry) => entry.value,
        None => 0,
    }
}

// The address of the entry at a place, 0 where there is none.
fn entry_addr(entries: &Items<HashEntry>, place: usize) -> Addr
    ensures { result ≡ entry_addr entries.now place }
{
    match entries.as_slice().get(place) {
        Some(entry) => entry.block,
        None => 0,
    }
}

// The place of a key's entry in a hash, or why there is none.
fn place_in(hash: &SdrHash, key: &Bytes) -> Result<usize, Refusal>
    ensures place { result ≡ place_in hash.now key.now }
    ensures within { IfOk result (λ place. place < length hash.now.entries) }
{
    let (length, want) = (key.len() as u64, hash.key_length());
    if length != want {
        return Err(Refusal::BadKeyLength { length, want });
    }
    hash.place_of(key.as_slice()).ok_or(Refusal::NotFound)
}

pub fn make_hash(
    alloc: Global,
    world: &mut DraftWorld,
    key_length: u64,
    buckets: u64,
) -> Result<Reply, NoMemory>
    requires taken { world.old.now.taken < 2 ^ 60 }
    ensures { CallsMemory (Call.Hash key_length buckets) world.old world.new result }
{
    if key_length < 1 || key_length > LONGEST_KEY {
        let (length, want) = (key_length, LONGEST_KEY);
        return Ok(Reply::Refused(Refusal::BadKeyLength { length, want }));
    }
    if buckets < 1 || buckets > MOST_BUCKETS {
        let (row, rows) = (buckets, MOST_BUCKETS);
        return Ok(Reply::Refused(Refusal::BadRow { row, rows }));
    }
    let hash = SdrHash::new(alloc, key_length, buckets);
    let addr = world.make(Thing::Hash(hash))?;
    Ok(Reply::At { addr })
}

// Puts an entry, whose block is the next, into the hash at an address, and counts the block.
fn put_entry(world: &mut DraftWorld, addr: Addr, entry: HashEntry) -> Result<(), NoMemory>
    requires taken { world.old.now.taken < 2 ^ 60 }
    requires there { IsThere (as_hash (thing_at world.old.now addr)) }
    requires next { entry.block ≡ next_addr world.old.now.taken }
    requires noted { map.get world.old.owners entry.block ≡ Some addr }
    ensures put { OnOk result
        (PutsEntry (as_hash (thing_at world.old.now addr)) addr entry world.old.now world.new.now) }
    ensures begun { world.new.begun ≡ world.old.begun }
    ensures same { OnErr result (world.new.now ≡ world.old.now) }
{
    match world.take(addr)? {
        Thing::Hash(mut hash) => match hash.insert(entry) {
            Ok(()) => {
                world.count_blocks(1);
                world.put(addr, Thing::Hash(hash));
                Ok(())
            }
            Err(error) => {
                world.put(addr, Thing::Hash(hash));
                Err(error)
            }
        },
        _ => unreachable!(),
    }
}

// Makes an entry of this key and value in the hash at an address.
fn insert_entry(world: &mut DraftWorld, addr: Addr, key: Bytes, value: u64) -> Result<(), NoMemory>
    requires taken { world.old.now.taken < 2 ^ 60 }
    requires there { IsThere (as_hash (thing_at world.old.now addr)) }
    ensures inserted { OnOk result
        (InsertsEntry (as_hash (thing_at world.old.now addr)) addr key value world.old.now world.new.now) }
    ensures begun { world.new.begun ≡ world.old.begun }
    ensures same { OnErr result (world.new.now ≡ world.old.now) }
{
    let marks = world.marks();
    let block = world.mark_inside(addr)?;
    match put_entry(world, addr, HashEntry { block, key, value }) {
        Ok(()) => Ok(()),
        Err(error) => {
            world.unmark(marks);
            Err(error)
        }
    }
}

pub fn hash_insert(
    alloc: Global,
    world: &mut DraftWorld,
    addr: Addr,
    key: &Bytes,
    value: u64,
) -> Result<Reply, NoMemory>
    requires taken { world.old.now.taken < 2 ^ 60 }
    ensures { CallsMemory (Call.HashInsert addr key.now value) world.old world.new result }
{
    let Some(hash) = hash(world, addr) else {
        return Ok(misnamed(world, addr));
    };
    match place_in(hash, key) {
        Ok(place) => {
            let value = value_at(hash.entries(), place);
            Ok(Reply::Refused(Refusal::KeyTaken { value }))
        }
        Err(Refusal::NotFound) => {
            let key = Bytes::copied(alloc, key.as_slice())?;
            insert_entry(world, addr, key, value)?;
            Ok(Reply::Done)
        }
        Err(refusal) => Ok(Reply::Refused(refusal)),
    }
}

pub fn hash_retrieve(world: &mut DraftWorld, addr: Addr, key: &Bytes) -> Result<Reply, NoMemory>
    ensures { CallsMemory (Call.HashRetrieve addr key.now) world.old world.new result }
{
    let Some(hash) = hash(world, addr) else {
        return Ok(misnamed(world, addr));
    };
    let place = match place_in(hash, key) {
        Ok(place) => place,
        Err(refusal) => return Ok(Reply::Refused(refusal)),
    };
    let value = value_at(hash.entries(), place);
    world.hide();
    Ok(Reply::Value { value })
}

// Puts this value in the place of another of the same key, in the hash at an address.
fn set_entry(
    world: &mut DraftWorld,
    addr: Addr,
    place: usize,
    key: Bytes,
    value: u64,
) -> Result<(), NoMemory>
    requires key { HasKey (as_hash (thing_at world.old.now addr)) key place }
    ensures set { OnOk result (SetsHash (as_hash (thing_at world.old.now addr)) addr
        (λ hash. record hash {
          entries = set hash.entries place
              (record { block = entry_addr hash.entries place; key = key; value = value });
        })
        world.old.now world.new.now) }
    ensures begun { world.new.begun ≡ world.old.begun }
    ensures same { OnErr result (world.new.now ≡ world.old.now) }
{
    match world.take(addr)? {
        Thing::Hash(mut hash) => {
            let block = entry_addr(hash.entries(), place);
            hash.set(place, HashEntry { block, key, value });
            world.put(addr, Thing::Hash(hash));
            world.hide();
            Ok(())
        }
        _ => unreachable!(),
    }
}

pub fn hash_revise(
    alloc: Global,
    world: &mut DraftWorld,
    addr: Addr,
    key: &Bytes,
    value: u64,
) -> Result<Reply, NoMemory>
    ensures { CallsMemory (Call.HashRevise addr key.now value) world.old world.new result }
{
    let Some(hash) = hash(world, addr) else {
        return Ok(misnamed(world, addr));
    };
    let place = match place_in(hash, key) {
        Ok(place) => place,
        Err(refusal) => return Ok(Reply::Refused(refusal)),
    };
    let key = Bytes::copied(alloc, key.as_slice())?;
    set_entry(world, addr, place, key, value)?;
    Ok(Reply::Done)
}

// Takes an entry out of the hash at an address.
fn remove_entry(world: &mut DraftWorld, addr: Addr, place: usize) -> Result<(), NoMemory>
    requires inside { HasEntry (as_hash (thing_at world.old.now addr)) place }
    ensures removed { OnOk result (SetsHash (as_hash (thing_at world.old.now addr)) addr
        (λ hash. record hash { entries = remove hash.entries place }) world.old.now world.new.now) }
    ensures begun { world.new.begun ≡ world.old.begun }
    ensures same { OnErr result (world.new.now ≡ world.old.now) }
{
    match world.take(addr)? {
        Thing::Hash(mut hash) => {
            hash.remove(place);
            world.put(addr, Thing::Hash(hash));
            world.hide();
            Ok(())
        }
        _ => unreachable!(),
    }
}

pub fn hash_remove(world: &mut DraftWorld, addr: Addr, key: &Bytes) -> Result<Reply, NoMemory>
    ensures { CallsMemory (Call.HashRemove addr key.now) world.old world.new result }
{
    let Some(hash) = hash(world, addr) else {
        return Ok(misnamed(world, addr));
    };
    let place = match place_in(hash, key) {
        Ok(place) => place,
        Err(refusal) => return Ok(Reply::Refused(refusal)),
    };
    remove_entry(world, addr, place)?;
    Ok(Reply::Done)
}

pub fn hash_count(world: &mut DraftWorld, addr: Addr) -> Result<Reply, NoMemory>
    ensures { CallsMemory (Call.HashCount addr) world.old world.new result }
{
    let Some(hash) = hash(world, addr) else {
        return Ok(misnamed(world, addr));
    };
    let value = hash.entries().len() as u64;
    world.hide();
    Ok(Reply::Value { value })
}

#[tactic(auto, using(sdr_model::proofs::DryLemmas::gives))]
pub fn hash_destroy(world: &mut DraftWorld, addr: Addr) -> Result<Reply, NoMemory>
    ensures { CallsMemory (Call.HashDestroy addr) world.old world.new result }
{
    if hash(world, addr).is_none() {
        return Ok(misnamed(world, addr));
    }
    world.lose(addr)?;
    Ok(Reply::Done)
}
