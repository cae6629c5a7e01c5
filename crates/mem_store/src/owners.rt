// The owners of blocks inside things, by these blocks' addresses.
ghost use Rattle.std.specs.Prelude.{◌≡◌, OnErr, OnOk};
ghost use Rattle.std.specs.FinMap as map;

use sdr_base::{Addr, NoMemory};
use std::alloc::Global;
use std::collections::BTreeMap;
use std::marker::Model;

/// The address of the thing that has, or had, the block at each address inside a thing. Contracts see a
/// finite map.
#[derive(Drop)]
pub struct Owners {
    inner: BTreeMap<u64, u64>,
}

impl Model for Owners {
    ghost use Rattle.std.specs.Ordering.{nat_cmp};
    ghost use Rattle.std.specs.Prelude.{ℕ};
    ghost use Rattle.std.specs.FinMap as map;
    ghost use Rattle.std.specs.Coded.{coded_ℕ};

    ghost Value = { map.FinMap nat_cmp ℕ };

    ghost coded = { map.code coded_ℕ coded_ℕ };

    ghost view = { λ s. map.from_entries s.inner.entries };
}

impl Owners {
    /// No owner of any block. It takes no memory.
    pub fn new(alloc: Global) -> Owners
        ensures { result ≡ map.empty }
    {
        Owners {
            inner: BTreeMap::new(alloc),
        }
    }

    /// The owner of the block at an address.
    pub fn get(&self, block: Addr) -> Option<Addr>
        ensures { result ≡ map.get self.now block }
    {
        self.inner.get(&block).copied()
    }

    /// Notes the owner of the block at an address. Want of memory leaves all as before.
    pub fn insert(&mut self, block: Addr, owner: Addr) -> Result<(), NoMemory>
        ensures ok { OnOk result (self.new ≡ map.insert self.old block owner) }
        ensures same { OnErr result (self.new ≡ self.old) }
    {
        self.inner.insert(block, owner)?;
        Ok(())
    }
}
