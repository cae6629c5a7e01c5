// What ties the things of a world to each other.
ghost use Rattle.std.specs.BTreeMap.{get};
ghost use Rattle.std.specs.FinMap as map;
ghost use Rattle.std.specs.Ordering.{nat_cmp};
ghost use Rattle.std.specs.Prelude.{◌≡◌, ◌<◌, ◌+◌, ◌^◌, ◌++◌, ◌∷◌, ◌==◌, [], ℕ, List, unwrap_or, IfOk, OnOk, if◌then◌else◌};
ghost use Rattle.sdr_base.specs.declared.account.Acct.{Acct};
ghost use Rattle.sdr_model.specs.World.{World};
ghost use Rattle.sdr_model.specs.Zco.{count_of, naming, source_naming, uses_in};
ghost use Rattle.sdr_model.specs.declared.things.Thing.{Thing};
ghost use Rattle.sdr_text_world.specs.Tied.{TellsOf, TellsTies, counted_at, counted_by};

use sdr_base::{Acct, Addr, NoMemory};
use sdr_model::{Extent, Thing, World, ZcoObject, ZcoSource};
use std::alloc::Global;
use std::collections::BTreeMap;

/// What ties the things of a world to each other: of each raw object the source that names it, and
/// of each source how many extents of each account name it.
#[derive(Drop)]
pub struct Tied {
    /// By raw object, the source that names it.
    raws: BTreeMap<Addr, Addr>,
    /// By source, how many extents of inbound objects name it.
    inbound: BTreeMap<Addr, u64>,
    /// By source, how many extents of outbound objects name it.
    outbound: BTreeMap<Addr, u64>,
}

// Counts one more at an address.
fn count_one(counts: &mut BTreeMap<Addr, u64>, addr: Addr) -> Result<(), NoMemory>
    requires few { counted_at counts.old addr < 2 ^ 63 }
    ensures counted { OnOk result ((at : ℕ) →
        counted_at counts.new at ≡ counted_at counts.old at + (if addr == at then 1 else 0)) }
{
    let count = counts.get(&addr).copied().unwrap_or(0) + 1;
    counts.insert(addr, count)?;
    Ok(())
}

// Counts the sources that these extents name.
fn count_extents(counts: &mut BTreeMap<Addr, u64>, extents: &[Extent]) -> Result<(), NoMemory>
    requires few { (at : ℕ) → counted_at counts.old at + naming at extents.now < 2 ^ 63 }
    ensures counted { OnOk result ((at : ℕ) →
        counted_at counts.new at ≡ counted_at counts.old at + naming at extents.now) }
{
    let mut rest = extents;
    while let Some((extent, after)) = rest.split_first() {
        count_one(counts, extent.source)?;
        rest = after;
    }
    Ok(())
}

impl Tied {
    // Takes note of the raw object of a source at an address.
    fn add_source(&mut self, addr: Addr, source: &ZcoSource) -> Result<(), NoMemory>
        ensures told { OnOk result ((things : List (ℕ × Thing)) → TellsOf things self.old →
            TellsOf (things ++ (addr, Thing.Source source.now) ∷ []) self.new) }
    {
        if let Some(raw) = source.subject.raw() {
            if !self.raws.contains_key(&raw) {
                self.raws.insert(raw, addr)?;
            }
        }
        Ok(())
    }

    // Takes note of the sources that the extents of an object name.
    fn add_object(&mut self, addr: Addr, z: &ZcoObject) -> Result<(), NoMemory>
        requires few { (acct : Acct) (at : ℕ) →
            counted_by self.old acct at + uses_in at acct (Thing.Object z.now) < 2 ^ 63 }
        ensures told { OnOk result ((things : List (ℕ × Thing)) → TellsOf things self.old →
            TellsOf (things ++ (addr, Thing.Object z.now) ∷ []) self.new) }
    {
        match z.account {
            Acct::Inbound => count_extents(&mut self.inbound, z.extents.as_slice()),
            Acct::Outbound => count_extents(&mut self.outbound, z.extents.as_slice()),
        }
    }

    // Takes note of a thing.
    fn add(&mut self, addr: Addr, thing: &Thing) -> Result<(), NoMemory>
        requires few { (acct : Acct) (at : ℕ) →
            counted_by self.old acct at + uses_in at acct thing.now < 2 ^ 63 }
        ensures told { OnOk result ((things : List (ℕ × Thing)) → TellsOf things self.old →
            TellsOf (things ++ (addr, thing.now) ∷ []) self.new) }
    {
        match thing {
            Thing::Source(source) => self.add_source(addr, source),
            Thing::Object(z) => self.add_object(addr, z),
            _ => Ok(()),
        }
    }

    /// Goes over a world's things, each of which fewer than 2^63 extents of an account name. It is
    /// linear in things and extents, times a logarithm, and takes memory for each source that an
    /// extent names, and for each raw object that a source names.
    pub fn of(alloc: Global, world: &World) -> Result<Tied, NoMemory>
        requires few { (source : ℕ) (acct : Acct) → count_of world.now source acct < 2 ^ 63 }
        ensures { IfOk result (TellsTies world.now) }
    {
        let mut tied = Tied {
            raws: BTreeMap::new(alloc),
            inbound: BTreeMap::new(alloc),
            outbound: BTreeMap::new(alloc),
        };
        let mut rest = world.things();
        while let Some((addr, thing)) = rest.next() {
            tied.add(*addr, thing)?;
        }
        Ok(tied)
    }

    /// The source that names a raw object, 0 for none.
    pub fn source_on(&self, raw: Addr) -> Addr
        ensures { (w : World) → TellsTies w self.now → result ≡ unwrap_or (source_naming w raw) 0 }
    {
        self.raws.get(&raw).copied().unwrap_or(0)
    }

    /// How many extents of an account's objects name a source.
    pub fn uses(&self, source: Addr, acct: Acct) -> u64
        ensures { (w : World) → TellsTies w self.now → result ≡ count_of w source acct }
    {
        let counts = match acct {
            Acct::Inbound => &self.inbound,
            Acct::Outbound => &self.outbound,
        };
        counts.get(&source).copied().unwrap_or(0)
    }
}
