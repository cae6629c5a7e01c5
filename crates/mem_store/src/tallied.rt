// The tallies of both accounts, which each change of a thing updates.
ghost use Rattle.std.specs.BTreeMap.{get, is_at};
ghost use Rattle.std.specs.FinMap as map;
ghost use Rattle.std.specs.Option.{option_and_then, option_copied, option_map};
ghost use Rattle.std.specs.Ordering.{nat_cmp};
ghost use Rattle.std.specs.Prelude.{◌≡◌, ℕ, cond, IfSome, IsSome, OnErr, OnOk, Some, false};
ghost use Rattle.sdr_model.specs.Things.{Things};
ghost use Rattle.sdr_model.specs.Zco.{as_object};
ghost use Rattle.sdr_model.specs.declared.things.Thing.TheVariants as things;
ghost use Rattle.sdr_model.specs.declared.zco.ZcoObject.{ZcoObject as GhostObject};
ghost use Rattle.mem_parts.specs.Bounds.{IsBounded};
ghost use Rattle.mem_parts.specs.Components.{KeepsLimits, with_component};
ghost use Rattle.mem_parts.specs.declared.component.Component.{Component as GhostComponent};
ghost use Rattle.mem_store.specs.Store.{ChangesAt, growing, now_at, place_at, settled, things_at, with_thing};
ghost use Rattle.mem_store.specs.declared.place.Stays.TheVariants as stays;
ghost use Rattle.mem_store.specs.Tallies.{AreNoted, AreTallied, IsGrowth, Tallies, is_object_of, raw_named, sources_on, tally_of};

use crate::place;
use crate::place::{Past, Place, Stays, is_plain, thing_at};
use crate::tally::{Growth, Tally, enter, grow, growth_by, leave};
use mem_parts::component::Component;
use sdr_base::{Acct, Addr, NoMemory};
use sdr_model::Thing;
use std::alloc::Global;
use std::collections::BTreeMap;

/// A tally of each account. One that no memory or no word holds is lost, and what it would tell is looked for in the things.
#[derive(Drop)]
pub(crate) struct Tallied {
    inbound: Option<Tally>,
    outbound: Option<Tally>,
    /// The source put last of those that name each raw object that a source names.
    raws: Option<BTreeMap<Addr, Addr>>,
}

// The tally with what is at an address, where it was of the other things.
fn entered(
    tally: Option<Tally>,
    places: &BTreeMap<u64, Place>,
    acct: Acct,
    addr: Addr,
) -> Option<Tally>
    ensures { IfSome tally (Tallies acct (map.remove (things_at now_at places.now.entries) addr))
        → IfSome result (Tallies acct (things_at now_at places.now.entries)) }
{
    enter(tally?, places, acct, addr)
}

// The tally of the other things, where it was with what is at an address.
fn left(
    tally: Option<Tally>,
    places: &BTreeMap<u64, Place>,
    acct: Acct,
    addr: Addr,
) -> Option<Tally>
    ensures { IfSome tally (Tallies acct (things_at now_at places.now.entries))
        → IfSome result (Tallies acct (map.remove (things_at now_at places.now.entries) addr)) }
{
    leave(tally?, places, acct, addr)
}

// The raw object that a source names.
fn raw_named(thing: Option<&Thing>) -> Option<Addr>
    ensures { result ≡ raw_named (option_copied thing.entry) }
{
    match thing {
        Some(Thing::Source(source)) => source.subject.raw(),
        _ => None,
    }
}

// Notes a raw object that the source at an address names.
fn note(mut raws: BTreeMap<Addr, Addr>, raw: Addr, addr: Addr) -> Option<BTreeMap<Addr, Addr>>
    ensures { IfSome result (λ new. (q : ℕ) → get nat_cmp new q
        ≡ cond (is_at (nat_cmp raw) q) (Some addr) (get nat_cmp raws q)) }
{
    match raws.insert(raw, addr) {
        Ok(_) => Some(raws),
        Err(_) => None,
    }
}

// Notes the raw object that what is at an address names.
fn noted(
    raws: Option<BTreeMap<Addr, Addr>>,
    places: &BTreeMap<u64, Place>,
    addr: Addr,
) -> Option<BTreeMap<Addr, Addr>>
    ensures { IfSome raws (AreNoted (map.remove (things_at now_at places.now.entries) addr))
        → IfSome result (AreNoted (things_at now_at places.now.entries)) }
{
    let raws = raws?;
    match raw_named(thing_at(places, addr)) {
        Some(raw) => note(raws, raw, addr),
        None => Some(raws),
    }
}

// Whether it is an object of an account.
fn is_object_of(acct: Acct, thing: Option<&Thing>) -> bool
    ensures { result ≡ is_object_of acct (option_copied thing.entry) }
{
    match thing {
        Some(Thing::Object(object)) => acct == object.account,
        _ => false,
    }
}

// The tally of an account after the object at an address got a component. Where the object is the account's, the component is
// charged, with the source that it names.
fn grown(
    tally: Option<Tally>,
    places: &BTreeMap<u64, Place>,
    addr: Addr,
    acct: Acct,
    growth: &Growth,
) -> Option<Tally>
    ensures { (all : Things) (z : GhostObject) (component : GhostComponent)
        → map.remove all addr ≡ map.remove (things_at now_at places.now.entries) addr
        → map.get all addr ≡ Some (things.Object z)
        → map.get (things_at now_at places.now.entries) addr ≡ Some (things.Object (with_component z component))
        → IsGrowth component growth.now
        → IfSome tally (Tallies acct all) → IfSome result (Tallies acct (things_at now_at places.now.entries)) }
{
    let tally = tally?;
    if is_object_of(acct, thing_at(places, addr)) {
        return grow(tally, places, growth);
    }
    Some(tally)
}

impl Tallied {
    /// The tallies of no things. It takes no memory.
    pub(crate) fn new(alloc: Global) -> Tallied
        ensures { AreTallied map.empty result }
    {
        Tallied {
            inbound: Some(Tally::new(alloc)),
            outbound: Some(Tally::new(alloc)),
            raws: Some(BTreeMap::new(alloc)),
        }
    }

    /// The tally of an account, where it isn't lost.
    pub(crate) fn of(&self, acct: Acct) -> Option<&Tally>
        ensures { option_copied result ≡ tally_of self.now acct }
    {
        match acct {
            Acct::Inbound => self.inbound.as_ref(),
            Acct::Outbound => self.outbound.as_ref(),
        }
    }

    /// Whether a source may name a raw object: where it says no, none does.
    pub(crate) fn may_name(&self, raw: Addr) -> bool
        ensures { (all : Things) → AreTallied all self.now → result ≡ false → sources_on raw all ≡ 0 }
    {
        match &self.raws {
            Some(raws) => raws.contains_key(&raw),
            None => true,
        }
    }

    // Adds what is at an address to the tallies of the other things.
    fn enter(&mut self, places: &BTreeMap<u64, Place>, addr: Addr)
        ensures { AreTallied (map.remove (things_at now_at places.now.entries) addr) self.old
            → AreTallied (things_at now_at places.now.entries) self.new }
    {
        if is_plain(thing_at(places, addr)) {
            return;
        }
        self.inbound = entered(self.inbound.take(), places, Acct::Inbound, addr);
        self.outbound = entered(self.outbound.take(), places, Acct::Outbound, addr);
        self.raws = noted(self.raws.take(), places, addr);
    }

    // Takes what is at an address out of the tallies.
    fn leave(&mut self, places: &BTreeMap<u64, Place>, addr: Addr)
        ensures { AreTallied (things_at now_at places.now.entries) self.old
            → AreTallied (map.remove (things_at now_at places.now.entries) addr) self.new }
    {
        if is_plain(thing_at(places, addr)) {
            return;
        }
        self.inbound = left(self.inbound.take(), places, Acct::Inbound, addr);
        self.outbound = left(self.outbound.take(), places, Acct::Outbound, addr);
    }

    /// Puts a thing, or nothing, at an address that has a place, and hands out what was there.
    pub(crate) fn swap(
        &mut self,
        places: &mut BTreeMap<u64, Place>,
        addr: Addr,
        thing: Option<Thing>,
    ) -> Option<Thing>
        ensures was { result ≡ option_and_then now_at (place_at places.old.entries addr) }
        ensures now { ChangesAt places.old.entries places.new.entries addr (option_map (with_thing thing)) }
        ensures tallied { AreTallied (things_at now_at places.old.entries) self.old
            → AreTallied (things_at now_at places.new.entries) self.new }
    {
        if is_plain(thing.as_ref()) && is_plain(thing_at(places, addr)) {
            return place::swap(places, addr, thing);
        }
        self.leave(places, addr);
        let was = place::swap(places, addr, thing);
        self.enter(places, addr);
        was
    }

    /// Rolls what is at an address back to what was there at the begin.
    pub(crate) fn roll_back(&mut self, places: &mut BTreeMap<u64, Place>, addr: Addr)
        ensures back { ChangesAt places.old.entries places.new.entries addr (option_and_then (settled stays.Begun)) }
        ensures tallied { AreTallied (things_at now_at places.old.entries) self.old
            → AreTallied (things_at now_at places.new.entries) self.new }
    {
        match place::past_at(places, addr) {
            Past::New => place::take_away(places, addr),
            Past::Plain => place::settle(places, addr, Stays::Begun),
            Past::Other => {
                self.leave(places, addr);
                place::settle(places, addr, Stays::Begun);
                self.enter(places, addr);
            }
        }
    }

    /// Lets one of both times stay at an address.
    pub(crate) fn settle(&mut self, places: &mut BTreeMap<u64, Place>, addr: Addr, stays: Stays)
        ensures settled { ChangesAt places.old.entries places.new.entries addr (option_and_then (settled stays)) }
        ensures tallied { AreTallied (things_at now_at places.old.entries) self.old
            → AreTallied (things_at now_at places.new.entries) self.new }
    {
        match stays {
            Stays::Now => place::settle(places, addr, stays),
            Stays::Begun => self.roll_back(places, addr),
        }
    }

    /// Adds a component to the object at an address. Want of memory leaves all as before.
    pub(crate) fn grow(
        &mut self,
        places: &mut BTreeMap<u64, Place>,
        addr: Addr,
        component: Component,
    ) -> Result<(), NoMemory>
        requires there { IsSome (as_object (option_and_then now_at (place_at places.old.entries addr))) }
        requires bounded { IfSome (as_object (option_and_then now_at (place_at places.old.entries addr))) IsBounded }
        requires limits { KeepsLimits component }
        ensures grown { OnOk result (ChangesAt places.old.entries places.new.entries addr (option_map (growing component))) }
        ensures tallied { AreTallied (things_at now_at places.old.entries) self.old
            → AreTallied (things_at now_at places.new.entries) self.new }
        ensures same { OnErr result (ChangesAt places.old.entries places.new.entries addr (λ place. place)) }
    {
        let growth = growth_by(&component);
        place::grow(places, addr, component)?;
        self.inbound = grown(self.inbound.take(), places, addr, Acct::Inbound, &growth);
        self.outbound = grown(self.outbound.take(), places, addr, Acct::Outbound, &growth);
        Ok(())
    }
}
