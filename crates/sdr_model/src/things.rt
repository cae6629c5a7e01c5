// The things of a world.
ghost use Rattle.std.specs.Prelude.{◌≡◌, ◌<◌, ◌^◌, ◌==◌, IfOk, IfSome, Some, length, map, position};
ghost use Rattle.sdr_model.specs.Things.{IsWithin, SpotIs, own_block, inner_blocks, block_among, block_for_element, entry_block, spot_in_thing};

use crate::{SdrHash, SdrTable, ZcoObject, ZcoSource};
use sdr_base::{Addr, Bytes, Items, Kind, NoMemory};
use std::alloc::Global;

/// A block that is in use.
#[derive(Clone, Copy)]
pub struct UsedBlock {
    pub addr: Addr,
    pub kind: Kind,
    pub bytes: u64,
}

/// An element of a list.
#[derive(Clone, Copy)]
pub struct Element {
    /// The element's own address.
    pub block: Addr,
    /// The data, a plain number.
    pub datum: u64,
}

/// A list of elements, with a number of the user's.
#[derive(Drop)]
pub struct SdrList {
    pub user: u64,
    pub elements: Items<Element>,
}

/// Where an element stands.
#[derive(Clone, Copy)]
pub struct Spot<'a> {
    /// The list's address.
    pub list: Addr,
    pub row: &'a SdrList,
    /// The element's place in the list, from 0.
    pub place: usize,
}

/// An entry of a hash.
#[derive(Drop)]
pub struct HashEntry {
    /// The entry's own address.
    pub block: Addr,
    pub key: Bytes,
    pub value: u64,
}

/// A thing, which has an address of its own.
#[derive(Drop)]
pub enum Thing {
    /// A raw object's bytes.
    Raw(Bytes),
    /// A string's text.
    Text(Bytes),
    List(SdrList),
    Table(SdrTable),
    Hash(SdrHash),
    Source(ZcoSource),
    Object(ZcoObject),
}

// How many bytes these are, which no memory could hold 2^63 of.
fn count(bytes: &[u8]) -> u64
    ensures value { result ≡ length bytes.now }
    ensures bound { result < 2 ^ 63 }
{
    bytes.len() as u64
}

impl SdrList {
    fn copied(&self, alloc: Global) -> Result<SdrList, NoMemory>
        ensures { IfOk result (λ copy. copy ≡ self.now) }
    {
        Ok(SdrList {
            user: self.user,
            elements: Items::copied(alloc, self.elements.as_slice())?,
        })
    }

    /// The place of the element at an address, from 0.
    pub fn place_of(&self, element: Addr) -> Option<usize>
        ensures value { result ≡ position (λ e. e.block == element) self.now.elements }
        ensures within { IfSome result (λ place. place < length self.now.elements) }
        ensures small { IfSome result (λ place. place < 2 ^ 63) }
    {
        self.elements
            .as_slice()
            .iter()
            .position(|e| e.block == element)
    }

    // The block of the element at an address.
    fn block(&self, addr: Addr) -> Option<UsedBlock>
        ensures { result ≡ block_among addr (map block_for_element self.now.elements) }
    {
        for element in self.elements.as_slice() {
            if element.block == addr {
                return Some(UsedBlock {
                    addr,
                    kind: Kind::Element,
                    bytes: 32,
                });
            }
        }
        None
    }
}

impl HashEntry {
    pub fn copied(&self, alloc: Global) -> Result<HashEntry, NoMemory>
        ensures { IfOk result (λ copy. copy ≡ self.now) }
    {
        Ok(HashEntry {
            block: self.block,
            key: Bytes::copied(alloc, self.key.as_slice())?,
            value: self.value,
        })
    }

    /// The entry's own block.
    pub fn block(&self) -> UsedBlock
        ensures { result ≡ entry_block self.now }
    {
        UsedBlock {
            addr: self.block,
            kind: Kind::HashEntry,
            bytes: 16 + count(self.key.as_slice()),
        }
    }
}

impl Thing {
    /// A copy of the thing.
    pub fn copied(&self, alloc: Global) -> Result<Thing, NoMemory>
        ensures { IfOk result (λ copy. copy ≡ self.now) }
    {
        Ok(match self {
            Thing::Raw(bytes) => Thing::Raw(Bytes::copied(alloc, bytes.as_slice())?),
            Thing::Text(text) => Thing::Text(Bytes::copied(alloc, text.as_slice())?),
            Thing::List(list) => Thing::List(list.copied(alloc)?),
            Thing::Table(table) => Thing::Table(table.copied(alloc)?),
            Thing::Hash(hash) => Thing::Hash(hash.copied(alloc)?),
            Thing::Source(source) => Thing::Source(source.copied(alloc)?),
            Thing::Object(object) => Thing::Object(object.copied(alloc)?),
        })
    }

    /// The thing's own block, where it stands at this address.
    pub fn own_block(&self, addr: Addr) -> UsedBlock
        ensures { result ≡ own_block addr self.now }
    {
        let (kind, bytes) = match self {
            Thing::Raw(bytes) => (Kind::Raw, 8 + count(bytes.as_slice())),
            Thing::Text(text) => (Kind::Text, 1 + count(text.as_slice())),
            Thing::List(_) => (Kind::List, 32),
            Thing::Table(table) => (Kind::Table, 24 + count(table.bytes().as_slice())),
            Thing::Hash(hash) => (Kind::Hash, 24 + 8 * hash.buckets()),
            Thing::Source(source) => return source.block(addr),
            Thing::Object(_) => (Kind::Object, 72),
        };
        UsedBlock { addr, kind, bytes }
    }

    /// The block at an address inside the thing.
    pub fn inner_block(&self, addr: Addr) -> Option<UsedBlock>
        ensures { result ≡ block_among addr (inner_blocks self.now) }
    {
        match self {
            Thing::List(list) => list.block(addr),
            Thing::Hash(hash) => hash.block(addr),
            Thing::Object(object) => object.block(addr),
            _ => None,
        }
    }

    /// Where the element at an address stands, if the thing, at another address, is a list that has it.
    pub fn spot(&self, list: Addr, element: Addr) -> Option<Spot<'_>>
        ensures is { SpotIs result (spot_in_thing element list (Some self.now)) }
        ensures within { IsWithin result }
        ensures there { IfSome result (λ s. (s.list ≡ list) × (self.now ≡ Thing.List s.row.now)) }
    {
        match self {
            Thing::List(row) => {
                let place = row.place_of(element)?;
                Some(Spot { list, row, place })
            }
            _ => None,
        }
    }
}
