// What is kept of an account beside the things, so that a charge need not look at them all.
ghost use Rattle.std.specs.BTreeMap.{get};
ghost use Rattle.std.specs.FinMap as map;
ghost use Rattle.std.specs.Option.{option_copied};
ghost use Rattle.std.specs.Ordering.{nat_cmp};
ghost use Rattle.std.specs.Prelude.{◌≡◌, ◌≤◌, ◌<◌, ◌+◌, ◌==◌, ℕ, IfSome, OnSome, if◌then◌else◌, length, take, unwrap_or};
ghost use Rattle.sdr_base.specs.declared.account.Acct.{Acct as GhostAcct};
ghost use Rattle.sdr_base.specs.declared.kind.Space.{Space as GhostSpace};
ghost use Rattle.sdr_model.specs.Amounts.{amount, no_amounts};
ghost use Rattle.sdr_model.specs.Zco.{naming};
ghost use Rattle.mem_parts.specs.Capped.{capped, capped_by};
ghost use Rattle.mem_store.specs.Store.{now_at, things_at};
ghost use Rattle.mem_store.specs.Tallies.{IsGrowth, Sums, Tallies, charge_named, charges_named, counted, named_once, source_bytes};

use crate::charged::own_extents;
use crate::place::{Place, thing_at};
use mem_parts::amounts::capped_plus;
use mem_parts::charges::{heap_charge, object_charge, space_charge, text_charge};
use mem_parts::component::Component;
use sdr_base::{Acct, Addr, Amounts};
use sdr_model::amounts::NOTHING;
use sdr_model::{Extent, Thing};
use std::alloc::Global;
use std::collections::BTreeMap;

/// How many extents of an account's objects name each source, and what the objects and these sources charge the account.
#[derive(Drop)]
pub(crate) struct Tally {
    /// How many extents name the source at each address. Where it has none, none does.
    uses: BTreeMap<Addr, u64>,
    charged: Amounts,
}

/// What a component charges, as far as words hold it, and the source that it names.
#[derive(Clone, Copy)]
pub(crate) struct Growth {
    charge: Amounts,
    source: Option<Addr>,
}

impl Tally {
    /// No uses and no charge. It takes no memory.
    pub(crate) fn new(alloc: Global) -> Tally
        ensures { (acct : GhostAcct) → Tallies acct map.empty result }
    {
        Tally {
            uses: BTreeMap::new(alloc),
            charged: NOTHING,
        }
    }

    /// How many extents name the source at an address.
    pub(crate) fn uses(&self, source: Addr) -> u64
        ensures { result ≡ counted self.now source }
    {
        count(&self.uses, source)
    }

    /// What the account is charged.
    pub(crate) fn charged(&self) -> Amounts
        ensures { result ≡ capped_by (λ space. amount self.now.charged space + amount no_amounts space) }
    {
        capped_plus(&self.charged, &NOTHING)
    }
}

// A number and what a word holds of another, where it holds both together.
fn plus_word(a: u64, b: u64) -> Option<u64>
    ensures { IfSome result (λ c. (n : ℕ) → b ≡ capped n → c ≡ a + n) }
{
    if b == u64::MAX {
        return None;
    }
    a.checked_add(b)
}

// A number less what a word holds of another, where it holds that and the number has as much.
fn minus_word(a: u64, b: u64) -> Option<u64>
    ensures { IfSome result (λ c. (n : ℕ) → b ≡ capped n → c + n ≡ a) }
{
    if b == u64::MAX {
        return None;
    }
    a.checked_sub(b)
}

// Space by space, amounts and what words hold of others, where they hold both together.
fn plus(a: &Amounts, b: &Amounts) -> Option<Amounts>
    ensures { IfSome result (λ c. (of : GhostSpace → ℕ) → b.now ≡ capped_by of
        → (space : GhostSpace) → amount c space ≡ amount a.now space + of space) }
{
    Some(Amounts {
        file: plus_word(a.file, b.file)?,
        bulk: plus_word(a.bulk, b.bulk)?,
        heap: plus_word(a.heap, b.heap)?,
    })
}

// Space by space, amounts less what words hold of others, where they hold those and there is as much.
fn minus(a: &Amounts, b: &Amounts) -> Option<Amounts>
    ensures { IfSome result (λ c. (of : GhostSpace → ℕ) → b.now ≡ capped_by of
        → (space : GhostSpace) → amount c space + of space ≡ amount a.now space) }
{
    Some(Amounts {
        file: minus_word(a.file, b.file)?,
        bulk: minus_word(a.bulk, b.bulk)?,
        heap: minus_word(a.heap, b.heap)?,
    })
}

// What is counted at an address.
fn count(uses: &BTreeMap<Addr, u64>, addr: Addr) -> u64
    ensures { result ≡ unwrap_or (get nat_cmp uses.now addr) 0 }
{
    uses.get(&addr).copied().unwrap_or(0)
}

// Sets what is counted at an address.
fn set_count(uses: &mut BTreeMap<Addr, u64>, addr: Addr, count: u64) -> Option<()>
    ensures { OnSome result ((at : ℕ) → unwrap_or (get nat_cmp uses.new at) 0
        ≡ (if addr == at then count else unwrap_or (get nat_cmp uses.old at) 0)) }
{
    match uses.insert(addr, count) {
        Ok(_) => Some(()),
        Err(_) => None,
    }
}

// What the bytes of a source charge, where it is one, as far as words hold it.
fn source_charge(thing: Option<&Thing>) -> Amounts
    ensures { result ≡ capped_by (λ space. source_bytes space (option_copied thing.entry)) }
{
    match thing {
        Some(Thing::Source(source)) => space_charge(source.subject.space(), source.length),
        _ => NOTHING,
    }
}

// What a thing charges an account whose objects have so many extents that name it, as far as words hold it.
fn own_charge(uses: u64, acct: Acct, thing: Option<&Thing>) -> Amounts
    ensures { result ≡ capped_by (λ space. charge_named uses acct space (option_copied thing.entry)) }
{
    match thing {
        Some(Thing::Object(object)) if acct == object.account => object_charge(object),
        Some(Thing::Source(source)) if uses != 0 => {
            space_charge(source.subject.space(), source.length)
        }
        _ => NOTHING,
    }
}

// How many of these extents, from the first on, name a source one after another.
fn leading(source: Addr, extents: &[Extent]) -> usize
    ensures within { result ≤ length extents.now }
    ensures naming { (at : ℕ) → naming at (take result extents.now) ≡ (if source == at then result else 0) }
{
    let mut run = 0;
    for extent in extents {
        if extent.source != source {
            return run;
        }
        run += 1;
    }
    run
}

// So many extents more name a source. The first that does charges its bytes.
fn name_more(
    tally: &mut Tally,
    places: &BTreeMap<u64, Place>,
    source: Addr,
    more: u64,
) -> Option<()>
    requires some { 0 < more }
    ensures counts { OnSome result ((at : ℕ) → counted tally.new at
        ≡ counted tally.old at + (if source == at then more else 0)) }
    ensures sums { OnSome result ((acct : GhostAcct)
        → Sums acct (things_at now_at places.now.entries) tally.old
        → Sums acct (things_at now_at places.now.entries) tally.new) }
{
    let before = count(&tally.uses, source);
    set_count(&mut tally.uses, source, before.checked_add(more)?)?;
    if before == 0 {
        tally.charged = plus(&tally.charged, &source_charge(thing_at(places, source)))?;
    }
    Some(())
}

// So many extents fewer name a source. With the last that does its bytes are charged no more.
fn name_less(
    tally: &mut Tally,
    places: &BTreeMap<u64, Place>,
    source: Addr,
    less: u64,
) -> Option<()>
    requires some { 0 < less }
    ensures counts { OnSome result ((at : ℕ) → counted tally.new at + (if source == at then less else 0)
        ≡ counted tally.old at) }
    ensures sums { OnSome result ((acct : GhostAcct)
        → Sums acct (things_at now_at places.now.entries) tally.old
        → Sums acct (things_at now_at places.now.entries) tally.new) }
{
    let after = count(&tally.uses, source).checked_sub(less)?;
    set_count(&mut tally.uses, source, after)?;
    if after == 0 {
        tally.charged = minus(&tally.charged, &source_charge(thing_at(places, source)))?;
    }
    Some(())
}

// These extents name their sources.
fn name_all(tally: &mut Tally, places: &BTreeMap<u64, Place>, extents: &[Extent]) -> Option<()>
    ensures counts { OnSome result ((at : ℕ) → counted tally.new at
        ≡ counted tally.old at + naming at extents.now) }
    ensures sums { OnSome result ((acct : GhostAcct)
        → Sums acct (things_at now_at places.now.entries) tally.old
        → Sums acct (things_at now_at places.now.entries) tally.new) }
{
    let mut rest = extents;
    while let Some((extent, after)) = rest.split_first() {
        let run = leading(extent.source, after);
        name_more(tally, places, extent.source, 1 + run as u64)?;
        rest = &after[run..];
    }
    Some(())
}

// These extents name their sources no more.
fn unname_all(tally: &mut Tally, places: &BTreeMap<u64, Place>, extents: &[Extent]) -> Option<()>
    ensures counts { OnSome result ((at : ℕ) → counted tally.new at + naming at extents.now
        ≡ counted tally.old at) }
    ensures sums { OnSome result ((acct : GhostAcct)
        → Sums acct (things_at now_at places.now.entries) tally.old
        → Sums acct (things_at now_at places.now.entries) tally.new) }
{
    let mut rest = extents;
    while let Some((extent, after)) = rest.split_first() {
        let run = leading(extent.source, after);
        name_less(tally, places, extent.source, 1 + run as u64)?;
        rest = &after[run..];
    }
    Some(())
}

/// The tally with what is at an address, where it was of the other things.
pub(crate) fn enter(
    mut tally: Tally,
    places: &BTreeMap<u64, Place>,
    acct: Acct,
    addr: Addr,
) -> Option<Tally>
    ensures { IfSome result (λ new. Tallies acct (map.remove (things_at now_at places.now.entries) addr) tally
        → Tallies acct (things_at now_at places.now.entries) new) }
{
    let thing = thing_at(places, addr);
    let uses = count(&tally.uses, addr);
    tally.charged = plus(&tally.charged, &own_charge(uses, acct, thing))?;
    name_all(&mut tally, places, own_extents(acct, thing))?;
    Some(tally)
}

/// The tally of the other things, where it was with what is at an address.
pub(crate) fn leave(
    mut tally: Tally,
    places: &BTreeMap<u64, Place>,
    acct: Acct,
    addr: Addr,
) -> Option<Tally>
    ensures { IfSome result (λ new. Tallies acct (things_at now_at places.now.entries) tally
        → Tallies acct (map.remove (things_at now_at places.now.entries) addr) new) }
{
    let thing = thing_at(places, addr);
    unname_all(&mut tally, places, own_extents(acct, thing))?;
    let uses = count(&tally.uses, addr);
    tally.charged = minus(&tally.charged, &own_charge(uses, acct, thing))?;
    Some(tally)
}

/// What a component charges, and the source that it names.
pub(crate) fn growth_by(component: &Component) -> Growth
    ensures { IsGrowth component.now result }
{
    match component {
        Component::Extent(extent) => Growth {
            charge: heap_charge(32),
            source: Some(extent.source),
        },
        Component::Header(capsule) | Component::Trailer(capsule) => Growth {
            charge: heap_charge(text_charge(capsule.text.as_slice().len() as u64)),
            source: None,
        },
    }
}

// One extent names a source, if any is named.
fn name_once(tally: &mut Tally, places: &BTreeMap<u64, Place>, source: Option<Addr>) -> Option<()>
    ensures counts { OnSome result ((at : ℕ) → counted tally.new at
        ≡ counted tally.old at + named_once source at) }
    ensures sums { OnSome result ((acct : GhostAcct)
        → Sums acct (things_at now_at places.now.entries) tally.old
        → Sums acct (things_at now_at places.now.entries) tally.new) }
{
    match source {
        Some(source) => name_more(tally, places, source, 1),
        None => Some(()),
    }
}

/// The tally with what a component charges, where an object of the account got one, and with the source that it names.
pub(crate) fn grow(
    mut tally: Tally,
    places: &BTreeMap<u64, Place>,
    growth: &Growth,
) -> Option<Tally>
    ensures counts { IfSome result (λ new. (at : ℕ) → counted new at
        ≡ counted tally at + named_once growth.now.source at) }
    ensures sums { IfSome result (λ new. (acct : GhostAcct) (of : GhostSpace → ℕ) → growth.now.charge ≡ capped_by of
        → ((space : GhostSpace) → amount tally.charged space + of space
        ≡ charges_named (counted tally) acct space (things_at now_at places.now.entries))
        → Sums acct (things_at now_at places.now.entries) new) }
{
    tally.charged = plus(&tally.charged, &growth.charge)?;
    name_once(&mut tally, places, growth.source)?;
    Some(tally)
}
