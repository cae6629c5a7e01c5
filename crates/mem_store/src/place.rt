// What is at an address, now and at the begin of a transaction.
ghost use Rattle.std.specs.Prelude.{◌≡◌, IfOk, IfSome, None, OnErr, OnOk, Some, is_none};
ghost use Rattle.sdr_model.specs.Zco.{as_object};
ghost use Rattle.mem_parts.specs.Bounds.{IsBounded};
ghost use Rattle.mem_parts.specs.Components.{KeepsLimits};
ghost use Rattle.std.specs.FinMap as map;
ghost use Rattle.std.specs.Option.{option_and_then, option_copied, option_map};
ghost use Rattle.mem_store.specs.Store.{ChangesAt, begun_at, growing, now_at, place_at, saved_at, cleared, saving, settled, things_at, with_thing};
ghost use Rattle.mem_store.specs.Pasts.{IsPast};
ghost use Rattle.mem_store.specs.Tallies.{is_plain};
ghost use Rattle.mem_store.specs.declared.place.Stays.TheVariants as stays;

use mem_parts::component::{Component, add};
use sdr_base::{Addr, NoMemory};
use sdr_model::Thing;
use std::alloc::Global;
use std::collections::BTreeMap;
use std::mem;

/// What is at an address, and what was there at the begin of the open transaction.
#[derive(Drop)]
pub struct Place {
    /// What was there at the begin, where the address was touched since.
    begun: Option<Option<Thing>>,
    /// What is there now.
    thing: Option<Thing>,
}

/// Which of both stays when a transaction is over.
#[derive(Clone, Copy)]
pub(crate) enum Stays {
    Now,
    Begun,
}

impl Place {
    /// What is there now.
    pub fn current(&self) -> Option<&Thing>
        ensures { option_copied result ≡ self.now.thing }
    {
        self.thing.as_ref()
    }

    // What is there, and what is put there when its transaction is rolled back.
    fn own_past(&self) -> Past
        ensures { IsPast result (Some self.now) }
    {
        if !is_plain(self.current()) {
            return Past::Other;
        }
        match &self.begun {
            Some(None) => Past::New,
            Some(begun) if !is_plain(begun.as_ref()) => Past::Other,
            _ => Past::Plain,
        }
    }
}

/// The thing at an address.
#[tactic(auto, using(crate::proofs::StoreLemmas::thing_at))]
pub(crate) fn thing_at(places: &BTreeMap<u64, Place>, addr: Addr) -> Option<&Thing>
    ensures { option_copied result ≡ map.get (things_at now_at places.now.entries) addr }
{
    places.get(&addr)?.current()
}

/// Whether what was at an address at the begin is kept.
pub(crate) fn is_saved(places: &BTreeMap<u64, Place>, addr: Addr) -> bool
    ensures { result ≡ saved_at places.now.entries addr }
{
    places.get(&addr).is_some_and(|place| place.begun.is_some())
}

// A copy of what is at an address.
fn copied(alloc: Global, thing: Option<&Thing>) -> Result<Option<Thing>, NoMemory>
    ensures { IfOk result (λ copy. copy ≡ option_copied thing.entry) }
{
    match thing {
        Some(thing) => Ok(Some(thing.copied(alloc)?)),
        None => Ok(None),
    }
}

/// Keeps what is at an address as what was there at the begin. Want of memory leaves all as before.
pub(crate) fn save(
    places: &mut BTreeMap<u64, Place>,
    alloc: Global,
    addr: Addr,
) -> Result<(), NoMemory>
    ensures saved { OnOk result (ChangesAt places.old.entries places.new.entries addr saving) }
    ensures same { OnErr result (ChangesAt places.old.entries places.new.entries addr (λ place. place)) }
{
    match places.get_mut(&addr) {
        Some(place) => place.begun = Some(copied(alloc, place.current())?),
        None => {
            places.insert(
                addr,
                Place {
                    begun: Some(None),
                    thing: None,
                },
            )?;
        }
    }
    Ok(())
}

/// Puts a thing, or nothing, at an address that has a place, and hands out what was there.
pub(crate) fn swap(
    places: &mut BTreeMap<u64, Place>,
    addr: Addr,
    thing: Option<Thing>,
) -> Option<Thing>
    ensures was { result ≡ option_and_then now_at (place_at places.old.entries addr) }
    ensures now { ChangesAt places.old.entries places.new.entries addr (option_map (with_thing thing)) }
{
    let place = places.get_mut(&addr)?;
    mem::replace(&mut place.thing, thing)
}

/// Adds a component to the object at an address. Want of memory leaves all as before.
pub(crate) fn grow(
    places: &mut BTreeMap<u64, Place>,
    addr: Addr,
    component: Component,
) -> Result<(), NoMemory>
    requires bounded { IfSome (as_object (option_and_then now_at (place_at places.old.entries addr))) IsBounded }
    requires limits { KeepsLimits component }
    ensures grown { OnOk result (ChangesAt places.old.entries places.new.entries addr (option_map (growing component))) }
    ensures same { OnErr result (ChangesAt places.old.entries places.new.entries addr (λ place. place)) }
{
    let Some(place) = places.get_mut(&addr) else {
        return Ok(());
    };
    match &mut place.thing {
        Some(Thing::Object(object)) => add(object, component),
        _ => Ok(()),
    }
}

/// What is at an address, and what is put there when its transaction is rolled back.
pub(crate) enum Past {
    /// Nothing was there at the begin, and what is there now is neither a source nor an object.
    New,
    /// Neither is a source or an object.
    Plain,
    /// One of them may be.
    Other,
}

/// Whether it is neither a source nor an object.
pub(crate) fn is_plain(thing: Option<&Thing>) -> bool
    ensures { result ≡ is_plain (option_copied thing.entry) }
{
    !matches!(thing, Some(Thing::Source(_) | Thing::Object(_)))
}

/// What is at an address, and what is put there when its transaction is rolled back.
pub(crate) fn past_at(places: &BTreeMap<u64, Place>, addr: Addr) -> Past
    ensures { IsPast result (place_at places.now.entries addr) }
{
    match places.get(&addr) {
        None => Past::New,
        Some(place) => place.own_past(),
    }
}

/// Rolls an address back at which nothing was at the begin.
pub(crate) fn take_away(places: &mut BTreeMap<u64, Place>, addr: Addr)
    requires new { option_and_then begun_at (place_at places.old.entries addr) ≡ None }
    ensures { ChangesAt places.old.entries places.new.entries addr (option_and_then (settled stays.Begun)) }
{
    places.remove(&addr);
}

// Lets one of both stay at an address, and tells whether nothing is there then.
fn clear(places: &mut BTreeMap<u64, Place>, addr: Addr, stays: Stays) -> bool
    ensures cleared { ChangesAt places.old.entries places.new.entries addr (option_map (cleared stays)) }
    ensures empty { result ≡ is_none (option_and_then now_at (place_at places.new.entries addr)) }
{
    let Some(place) = places.get_mut(&addr) else {
        return true;
    };
    match stays {
        Stays::Now => place.begun = None,
        Stays::Begun => if let Some(begun) = place.begun.take() {
            place.thing = begun;
        },
    }
    place.thing.is_none()
}

/// Lets one of both stay at an address. Where that is nothing, the place goes.
pub(crate) fn settle(places: &mut BTreeMap<u64, Place>, addr: Addr, stays: Stays)
    ensures { ChangesAt places.old.entries places.new.entries addr (option_and_then (settled stays)) }
{
    if clear(places, addr, stays) {
        places.remove(&addr);
    }
}
