// A world as plain data.
ghost use Rattle.std.specs.Prelude.{◌≡◌};
ghost use Rattle.std.specs.FinMap as map;
ghost use Rattle.std.specs.Option.{option_copied};
ghost use Rattle.sdr_model.specs.World.{thing_at};

use crate::{Accounts, Name, Thing};
use sdr_base::{Addr, Bytes, Items};
use std::collections::BTreeMap;
use std::collections::btree_map::Iter;
use std::marker::Model;

/// What a world is made of.
#[derive(Drop)]
pub struct Parts {
    /// By address.
    pub things: BTreeMap<u64, Thing>,
    /// The catalogue, oldest entry first.
    pub names: Items<Name>,
    pub accounts: Accounts,
    /// The addresses marked in the open transaction, none between transactions.
    pub marks: Items<Addr>,
    /// The bytes that the last answered call gave, none between transactions.
    pub shown: Bytes,
    /// How many blocks were taken without a heap, 0 where there is one.
    pub taken: u64,
}

/// A world to read: it is made from its parts, and gone over in address order. It keeps nothing else, and asks
/// nothing of its parts.
#[derive(Drop)]
pub struct World {
    parts: Parts,
}

impl Model for World {
    ghost use Rattle.std.specs.FinMap as map;
    ghost use Rattle.sdr_model.specs.World as worlds;

    ghost Value = { worlds.World };

    ghost coded = { worlds.coded_world };

    ghost view = { λ s. record {
      things = map.from_entries s.parts.things.entries;
      names = s.parts.names;
      accounts = s.parts.accounts;
      marks = s.parts.marks;
      shown = s.parts.shown;
      taken = s.parts.taken;
    } };
}

impl World {
    /// The world of these parts. It takes no memory.
    pub fn of(parts: Parts) -> World
        ensures { result ≡ record {
          things = map.from_entries parts.things.entries;
          names = parts.names;
          accounts = parts.accounts;
          marks = parts.marks;
          shown = parts.shown;
          taken = parts.taken;
        } }
    {
        World { parts }
    }

    /// The thing at an address. It takes the logarithm of the world.
    pub fn thing(&self, addr: Addr) -> Option<&Thing>
        ensures { option_copied result ≡ thing_at self.now addr }
    {
        self.parts.things.get(&addr)
    }

    /// The things with their addresses, by rising address.
    pub fn things(&self) -> Iter<'_, u64, Thing>
        ensures { result ≡ map.entries self.now.things }
    {
        self.parts.things.iter()
    }

    /// The catalogue, oldest entry first.
    pub fn names(&self) -> &Items<Name>
        ensures { result.now ≡ self.now.names }
    {
        &self.parts.names
    }

    /// Both accounts.
    pub fn accounts(&self) -> &Accounts
        ensures { result.now ≡ self.now.accounts }
    {
        &self.parts.accounts
    }

    /// The addresses marked in the open transaction.
    pub fn marks(&self) -> &Items<Addr>
        ensures { result.now ≡ self.now.marks }
    {
        &self.parts.marks
    }

    /// The bytes that the last answered call gave.
    pub fn shown(&self) -> &Bytes
        ensures { result.now ≡ self.now.shown }
    {
        &self.parts.shown
    }

    /// How many blocks were taken without a heap.
    pub fn taken(&self) -> u64
        ensures { result ≡ self.now.taken }
    {
        self.parts.taken
    }
}
