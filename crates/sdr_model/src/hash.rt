// Hashes.
ghost use Rattle.std.specs.Prelude.{◌≡◌, ◌≤◌, ◌<◌, IfOk, IfSome, OnErr, OnOk, Some, length, map, position, remove, set, []};
ghost use Rattle.sdr_model.specs.HashChanges.{bucket_start, with_entry};
ghost use Rattle.sdr_model.specs.HashSteps.{bucket_of, has_key};
ghost use Rattle.sdr_model.specs.Hashes.{AreByBucket};
ghost use Rattle.sdr_model.specs.Things.{block_among, entry_block};

use crate::{HashEntry, UsedBlock};
use sdr_base::{Addr, Items, Kind, NoMemory};
use std::alloc::Global;
use std::marker::Model;

/// A hash of keys of one length.
#[derive(Drop)]
pub struct SdrHash {
    /// The bytes of a key.
    key_length: u64,
    buckets: u64,
    /// By bucket, and the newest first in its bucket.
    entries: Items<HashEntry>,
}

impl Model for SdrHash {
    ghost use Rattle.std.specs.Prelude.{◌≤◌};
    ghost use Rattle.sdr_model.specs.Hashes as hashes;

    ghost Value = { hashes.Hash };

    ghost coded = { hashes.coded_hash };

    ghost view = { λ s. record { key_length = s.key_length; buckets = s.buckets; entries = s.entries } };

    ghost invariant = { λ s. record {
      some : 1 ≤ s.buckets;
      few : s.buckets ≤ 256;
      by_bucket : hashes.AreByBucket s.buckets s.entries;
    } };
}

// The bucket of a key, among so many.
fn bucket_of(buckets: u64, key: &[u8]) -> u64
    requires some { 1 ≤ buckets }
    requires few { buckets ≤ 256 }
    ensures value { result ≡ bucket_of buckets key.now }
    ensures below { result < buckets }
{
    let mut bucket = 0;
    for byte in key {
        bucket = (bucket + u64::from(*byte)) % buckets;
    }
    bucket
}

impl SdrHash {
    /// A hash without entries. It takes no memory.
    pub fn new(alloc: Global, key_length: u64, buckets: u64) -> SdrHash
        requires some { 1 ≤ buckets }
        requires few { buckets ≤ 256 }
        ensures { result ≡ record { key_length = key_length; buckets = buckets; entries = [] } }
    {
        SdrHash {
            key_length,
            buckets,
            entries: Items::new(alloc),
        }
    }

    /// A hash of these entries, by bucket and the newest first in its bucket.
    pub fn of(key_length: u64, buckets: u64, entries: Items<HashEntry>) -> SdrHash
        requires some { 1 ≤ buckets }
        requires few { buckets ≤ 256 }
        requires by_bucket { AreByBucket buckets entries }
        ensures { result ≡ record { key_length = key_length; buckets = buckets; entries = entries } }
    {
        SdrHash {
            key_length,
            buckets,
            entries,
        }
    }

    pub fn copied(&self, alloc: Global) -> Result<SdrHash, NoMemory>
        ensures { IfOk result (λ copy. copy ≡ self.now) }
    {
        let mut entries = Items::new(alloc);
        for entry in self.entries.as_slice() {
            entries.push(entry.copied(alloc)?)?;
        }
        Ok(SdrHash {
            key_length: self.key_length,
            buckets: self.buckets,
            entries,
        })
    }

    /// The bytes of a key.
    pub fn key_length(&self) -> u64
        ensures { result ≡ self.now.key_length }
    {
        self.key_length
    }

    pub fn buckets(&self) -> u64
        ensures value { result ≡ self.now.buckets }
        ensures few { result ≤ 256 }
    {
        self.buckets
    }

    /// The entries by bucket, the newest first in its bucket.
    pub fn entries(&self) -> &Items<HashEntry>
        ensures { result.now ≡ self.now.entries }
    {
        &self.entries
    }

    /// The block of the entry at an address.
    pub fn block(&self, addr: Addr) -> Option<UsedBlock>
        ensures { result ≡ block_among addr (map entry_block self.now.entries) }
    {
        for entry in self.entries.as_slice() {
            if entry.block == addr {
                return Some(entry.block());
            }
        }
        None
    }

    // The place of the first entry that is in no lower bucket than this.
    fn first_of(&self, bucket: u64) -> usize
        ensures place { result ≡ bucket_start self.now bucket }
        ensures within { result ≤ length self.now.entries }
    {
        let buckets = self.buckets;
        let entries = self.entries.as_slice();
        entries.partition_point(|e| bucket_of(buckets, e.key.as_slice()) < bucket)
    }

    /// The place of the entry with a key, from 0. It looks at the entries of the key's bucket.
    pub fn place_of(&self, key: &[u8]) -> Option<usize>
        ensures value { result ≡ position (has_key key.now) self.now.entries }
        ensures within { IfSome result (λ place. place < length self.now.entries) }
    {
        let bucket = bucket_of(self.buckets, key);
        let entries = self.entries.as_slice();
        for place in self.first_of(bucket)..self.first_of(bucket + 1) {
            if key == entries[place].key.as_slice() {
                return Some(place);
            }
        }
        None
    }

    /// Puts a new entry in front of its bucket. Want of memory leaves the hash as before.
    pub fn insert(&mut self, entry: HashEntry) -> Result<(), NoMemory>
        ensures inserted { OnOk result (self.new ≡ with_entry self.old entry) }
        ensures same { OnErr result (self.new ≡ self.old) }
    {
        let bucket = bucket_of(self.buckets, entry.key.as_slice());
        let place = self.first_of(bucket);
        self.entries.insert(place, entry)
    }

    /// Puts an entry in the place of another of the same key.
    pub fn set(&mut self, place: usize, entry: HashEntry)
        requires key { position (has_key entry.key) self.old.entries ≡ Some place }
        ensures { self.new ≡ record self.old { entries = set self.old.entries place entry } }
    {
        self.entries.set(place, entry);
    }

    /// Takes out the entry at a place.
    pub fn remove(&mut self, place: usize)
        requires inside { place < length self.old.entries }
        ensures { self.new ≡ record self.old { entries = remove self.old.entries place } }
    {
        self.entries.remove(place);
    }
}
