// The things of a world in the making, which can be put back to what they were at the begin.
ghost use Rattle.std.specs.Prelude.{◌≡◌, ℕ, IfOk, OnOk, OnErr, IsSome, Some, None, Contains, [], IfSome, false};
ghost use Rattle.std.specs.FinMap as map;
ghost use Rattle.std.specs.Option.{option_copied};
ghost use Rattle.mem_parts.specs.Bounds.{IsBounded};
ghost use Rattle.mem_parts.specs.Capped.{capped_by};
ghost use Rattle.mem_parts.specs.Components.{KeepsLimits, with_component};
ghost use Rattle.sdr_model.specs.Zco.{as_object, count_of, source_naming};
ghost use Rattle.sdr_model.specs.declared.things.Thing.TheVariants as things;
ghost use Rattle.sdr_model.specs.Things.{with_at};
ghost use Rattle.mem_store.specs.Charged.{charged, is_used, world_of};
ghost use Rattle.mem_store.specs.Store.{things_in, things_of};

use crate::charged::{charged, is_used};
use crate::place::{Place, Stays, is_saved, save, thing_at};
use crate::tallied::Tallied;
use mem_parts::component::Component;
use sdr_base::{Acct, Addr, Amounts, NoMemory};
use sdr_model::Thing;
use std::alloc::Global;
use std::collections::BTreeMap;
use std::collections::btree_map::Iter;
use std::marker::Model;

/// The things of a world by their addresses, now and at the begin of the open transaction. A thing is
/// copied once in a transaction, when its address is first touched.
#[derive(Drop)]
pub struct Store {
    alloc: Global,
    places: BTreeMap<u64, Place>,
    /// The addresses that were touched since the begin.
    touched: Vec<Addr>,
    /// What is kept beside the things, so that a charge need not look at them all. Contracts don't see it.
    tallies: Tallied,
}

impl Model for Store {
    ghost use Rattle.mem_store.specs.Store as store;

    ghost Value = { store.Store };

    ghost coded = { store.coded_store };

    ghost view = { λ s. record {
      begun = store.things_at store.begun_at s.places.entries;
      now = store.things_at store.now_at s.places.entries;
      touched = s.touched.items;
    } };

    ghost invariant = { λ s. store.IsKept s.places.entries s.touched.items s.tallies };
}

impl Store {
    /// No things. It takes no memory.
    pub fn new(alloc: Global) -> Store
        ensures { result ≡ record { begun = map.empty; now = map.empty; touched = [] } }
    {
        Store {
            alloc,
            places: BTreeMap::new(alloc),
            touched: Vec::new(alloc),
            tallies: Tallied::new(alloc),
        }
    }

    /// The thing at an address.
    pub fn get(&self, addr: Addr) -> Option<&Thing>
        ensures { option_copied result ≡ map.get self.now.now addr }
    {
        thing_at(&self.places, addr)
    }

    /// The places of the things, by rising address.
    pub fn places(&self) -> Iter<'_, u64, Place>
        ensures { things_in result ≡ map.entries self.now.now }
    {
        self.places.iter()
    }

    /// Whether an extent of an account's objects names the source at an address.
    pub fn is_used(&self, source: Addr, acct: Acct) -> bool
        ensures { result ≡ is_used (world_of self.now.now) source acct }
    {
        match self.tallies.of(acct) {
            Some(tally) => tally.uses(source) != 0,
            None => is_used(&self.places, source, acct),
        }
    }

    /// How many extents of an account's objects name the source at an address, where that is kept.
    pub fn uses(&self, source: Addr, acct: Acct) -> Option<u64>
        ensures { IfSome result (λ n. n ≡ count_of (world_of self.now.now) source acct) }
    {
        Some(self.tallies.of(acct)?.uses(source))
    }

    /// Whether a source may name a raw object: where it says no, none does.
    pub fn may_name(&self, raw: Addr) -> bool
        ensures { result ≡ false → source_naming (world_of self.now.now) raw ≡ None }
    {
        self.tallies.may_name(raw)
    }

    /// What the objects of an account, and the sources that they name, charge it, as far as words hold it.
    pub fn charged(&mut self, acct: Acct) -> Amounts
        ensures value { result ≡ capped_by (charged (world_of self.old.now) acct) }
        ensures same { self.new ≡ self.old }
    {
        match self.tallies.of(acct) {
            Some(tally) => tally.charged(),
            None => charged(&self.places, acct),
        }
    }

    /// Takes note that an address is touched, and copies what is there. Where it was touched before, this takes
    /// no memory.
    pub fn touch(&mut self, addr: Addr) -> Result<(), NoMemory>
        ensures begun { self.new.begun ≡ self.old.begun }
        ensures now { self.new.now ≡ self.old.now }
        ensures touched { OnOk result (Contains self.new.touched addr) }
        ensures others { (other : ℕ) → Contains self.old.touched other →
            Contains self.new.touched other }
    {
        if is_saved(&self.places, addr) {
            return Ok(());
        }
        self.touched.reserve(1)?;
        save(&mut self.places, self.alloc, addr)?;
        self.touched.push_reserved(addr);
        Ok(())
    }

    // Puts a thing, or nothing, at an address that was touched, and hands out what was there.
    #[tactic(auto, using(crate::proofs::StoreLemmas::thing_at))]
    fn swap(&mut self, addr: Addr, thing: Option<Thing>) -> Option<Thing>
        requires touched { Contains self.old.touched addr }
        ensures was { result ≡ map.get self.old.now addr }
        ensures now { self.new.now ≡ with_at self.old.now addr thing }
        ensures begun { self.new.begun ≡ self.old.begun }
        ensures touched { self.new.touched ≡ self.old.touched }
    {
        self.tallies.swap(&mut self.places, addr, thing)
    }

    /// Puts a thing, or nothing, at an address that was touched.
    pub fn put(&mut self, addr: Addr, thing: Option<Thing>)
        requires touched { Contains self.old.touched addr }
        ensures now { self.new.now ≡ with_at self.old.now addr thing }
        ensures begun { self.new.begun ≡ self.old.begun }
        ensures touched { self.new.touched ≡ self.old.touched }
    {
        self.swap(addr, thing);
    }

    /// Takes out the thing at an address, to be changed and put back. Want of memory leaves all as before.
    pub fn take(&mut self, addr: Addr) -> Result<Thing, NoMemory>
        requires some { IsSome (map.get self.old.now addr) }
        ensures taken { IfOk result (λ thing. map.get self.old.now addr ≡ Some thing) }
        ensures without { OnOk result (self.new.now ≡ map.remove self.old.now addr) }
        ensures touched { OnOk result (Contains self.new.touched addr) }
        ensures others { (other : ℕ) → Contains self.old.touched other →
            Contains self.new.touched other }
        ensures begun { self.new.begun ≡ self.old.begun }
        ensures same { OnErr result (self.new.now ≡ self.old.now) }
    {
        self.touch(addr)?;
        match self.swap(addr, None) {
            Some(thing) => Ok(thing),
            None => unreachable!(),
        }
    }

    /// Adds a component to the object at an address. Want of memory leaves all as before.
    pub fn grow(&mut self, addr: Addr, component: Component) -> Result<(), NoMemory>
        requires there { IsSome (as_object (map.get self.old.now addr)) }
        requires bounded { IfSome (as_object (map.get self.old.now addr)) IsBounded }
        requires limits { KeepsLimits component }
        ensures grown { OnOk result (IfSome (as_object (map.get self.old.now addr)) (λ z.
            self.new.now ≡ map.insert self.old.now addr (things.Object (with_component z component)))) }
        ensures others { (other : ℕ) → Contains self.old.touched other →
            Contains self.new.touched other }
        ensures begun { self.new.begun ≡ self.old.begun }
        ensures same { OnErr result (self.new.now ≡ self.old.now) }
    {
        self.touch(addr)?;
        self.add(addr, component)
    }

    // Adds a component to the object at an address that was touched. Want of memory leaves all as before.
    #[tactic(auto, using(crate::proofs::StoreLemmas::thing_at))]
    fn add(&mut self, addr: Addr, component: Component) -> Result<(), NoMemory>
        requires touched { Contains self.old.touched addr }
        requires there { IsSome (as_object (map.get self.old.now addr)) }
        requires bounded { IfSome (as_object (map.get self.old.now addr)) IsBounded }
        requires limits { KeepsLimits component }
        ensures grown { OnOk result (IfSome (as_object (map.get self.old.now addr)) (λ z.
            self.new.now ≡ map.insert self.old.now addr (things.Object (with_component z component)))) }
        ensures touched { self.new.touched ≡ self.old.touched }
        ensures begun { self.new.begun ≡ self.old.begun }
        ensures same { OnErr result (self.new.now ≡ self.old.now) }
    {
        self.tallies.grow(&mut self.places, addr, component)?;
        Ok(())
    }

    // Lets the things of one of both times stay.
    fn settle(&mut self, stays: Stays)
        ensures { let things = things_of stays self.old in self.new ≡ record { begun = things; now = things; touched = [] } }
    {
        while let Some(addr) = self.touched.pop() {
            self.tallies.settle(&mut self.places, addr, stays);
        }
    }

    /// Takes the things now as those to begin from.
    pub fn keep(&mut self)
        ensures { self.new ≡ record { begun = self.old.now; now = self.old.now; touched = [] } }
    {
        self.settle(Stays::Now);
    }

    /// Rolls the things back to what they were at the begin.
    pub fn roll_back(&mut self)
        ensures { self.new ≡ record { begun = self.old.begun; now = self.old.begun; touched = [] } }
    {
        self.settle(Stays::Begun);
    }
}
