// The catalogue.
ghost use Rattle.std.specs.Prelude.{◌≡◌, ◌==◌, List, IfOk, OnOk, OnErr, None, ◌++◌, ◌∷◌, [], take, length, map, slice_get};
ghost use Rattle.std.specs.List.{list_any};
ghost use Rattle.std.specs.Option.{option_map};
ghost use Rattle.indexmap.specs.IndexMap.{values};
ghost use Rattle.sdr_model.specs.Names.{name_of, without_name};
ghost use Rattle.mem_store.specs.Entries.{named_of};
ghost use Rattle.sdr_model.specs.Things.{block_among, block_for_name};

use indexmap::IndexMap;
use sdr_base::{Addr, Kind, NoMemory};
use sdr_model::UsedBlock;
use std::alloc::Global;
use std::marker::Model;

/// An entry of the catalogue without its name.
#[derive(Clone, Copy)]
pub struct Named {
    /// The address of the entry's own block.
    pub block: Addr,
    pub kind: u32,
    pub object: u64,
}

/// The catalogue. Contracts see the list of its entries, oldest first.
#[derive(Drop)]
pub struct Names {
    entries: IndexMap<Vec<u8>, Named>,
}

impl Model for Names {
    ghost use Rattle.std.specs.Prelude.{List};
    ghost use Rattle.std.specs.Coded.{coded_list};
    ghost use Rattle.sdr_model.specs.Names.{coded_name};
    ghost use Rattle.mem_store.specs.Entries.{names_in};
    ghost use Rattle.sdr_model.specs.declared.name.Name.{Name};

    ghost Value = { List Name };

    ghost coded = { coded_list coded_name };

    ghost view = { λ s. names_in s.entries.entries };
}

// Whether one of the entries has its block there.
fn has_block(entries: &IndexMap<Vec<u8>, Named>, addr: Addr) -> bool
    ensures { result ≡ list_any (λ e. e.block == addr) (values entries.now) }
{
    entries.values().any(|entry| entry.block == addr)
}

impl Names {
    /// An empty catalogue. It takes no memory.
    pub fn new(alloc: Global) -> Names
        ensures { result ≡ [] }
    {
        Names {
            entries: IndexMap::new(alloc),
        }
    }

    pub fn len(&self) -> usize
        ensures { result ≡ length self.now }
    {
        self.entries.len()
    }

    /// The entry of a name.
    pub fn get(&self, name: &[u8]) -> Option<Named>
        ensures { result ≡ option_map named_of (name_of self.now name.now) }
    {
        self.entries.get(name).copied()
    }

    /// The block of an entry, where one begins at an address.
    pub fn block(&self, addr: Addr) -> Option<UsedBlock>
        ensures { result ≡ block_among addr (map block_for_name self.now) }
    {
        if has_block(&self.entries, addr) {
            let kind = Kind::Name;
            return Some(UsedBlock {
                addr,
                kind,
                bytes: 56,
            });
        }
        None
    }

    /// Adds an entry at the end. Want of memory leaves the catalogue as before.
    pub fn push(&mut self, alloc: Global, name: &[u8], entry: Named) -> Result<(), NoMemory>
        requires { name_of self.old name.now ≡ None }
        ensures ok { OnOk result (self.new ≡ self.old
            ++ record { block = entry.block; name = name.now; kind = entry.kind; object = entry.object } ∷ []) }
        ensures err { OnErr result (self.new ≡ self.old) }
    {
        let key = Vec::from_slice(alloc, name)?;
        self.entries.insert(key, entry)?;
        Ok(())
    }

    /// Keeps the first `len` entries.
    pub fn truncate(&mut self, len: usize)
        ensures { self.new ≡ take len self.old }
    {
        self.entries.truncate(len);
    }

    /// The entry at a place, from 0, with its name.
    pub fn at(&self, place: usize) -> Option<(&[u8], Named)>
        ensures name { option_map (λ found. found.0.now) result
            ≡ option_map (λ n. n.name) (slice_get self.now place) }
        ensures entry { option_map (λ found. found.1) result
            ≡ option_map named_of (slice_get self.now place) }
    {
        let (key, entry) = self.entries.get_index(place)?;
        Some((key.as_slice(), *entry))
    }

    /// Takes the entry of a name out.
    pub fn remove(&mut self, name: &[u8])
        ensures { self.new ≡ without_name self.old name.now }
    {
        let _ = self.entries.shift_remove(name);
    }

    /// A copy of the catalogue.
    pub fn copied(&self) -> Result<Names, NoMemory>
        ensures { IfOk result (λ names. names ≡ self.now) }
    {
        Ok(Names {
            entries: self.entries.clone()?,
        })
    }
}
