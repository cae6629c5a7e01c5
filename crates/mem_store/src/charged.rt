// What the things at places charge an account: each of its objects, and once each source that one of their extents names.
ghost use Rattle.std.specs.Option.{option_copied};
ghost use Rattle.std.specs.Prelude.{◌≡◌};
ghost use Rattle.mem_parts.specs.Capped.{capped_by};
ghost use Rattle.mem_store.specs.Charged.{charge_at, charged, is_used, own_extents, world_of};
ghost use Rattle.mem_store.specs.Store.{now_at, things_at};

use crate::place::Place;
use mem_parts::amounts::capped_plus;
use mem_parts::charges::{object_charge, space_charge};
use mem_parts::naming::is_named;
use sdr_base::{Acct, Addr, Amounts};
use sdr_model::amounts::NOTHING;
use sdr_model::{Extent, Thing};
use std::collections::BTreeMap;

/// The extents of an object of an account, none of anything else.
pub(crate) fn own_extents(acct: Acct, thing: Option<&Thing>) -> &[Extent]
    ensures { result.now ≡ own_extents acct (option_copied thing.entry) }
{
    match thing {
        Some(Thing::Object(object)) if acct == object.account => object.extents.as_slice(),
        _ => &[],
    }
}

/// Whether an extent of an account's objects names the source at an address.
pub(crate) fn is_used(places: &BTreeMap<u64, Place>, source: Addr, acct: Acct) -> bool
    ensures { result ≡ is_used (world_of (things_at now_at places.now.entries)) source acct }
{
    for (_, place) in places.iter() {
        if is_named(source, own_extents(acct, place.current())) {
            return true;
        }
    }
    false
}

// What the thing at an address charges an account, where there is one, as far as words hold it.
fn thing_charge(
    places: &BTreeMap<u64, Place>,
    acct: Acct,
    addr: Addr,
    thing: Option<&Thing>,
) -> Amounts
    ensures { result ≡ capped_by (λ space.
        charge_at (world_of (things_at now_at places.now.entries)) acct space addr (option_copied thing.entry)) }
{
    match thing {
        Some(Thing::Object(object)) if acct == object.account => object_charge(object),
        Some(Thing::Source(source)) if is_used(places, addr, acct) => {
            space_charge(source.subject.space(), source.length)
        }
        _ => NOTHING,
    }
}

/// What the things charge an account, as far as words hold it. For each source it goes over all things.
pub(crate) fn charged(places: &BTreeMap<u64, Place>, acct: Acct) -> Amounts
    ensures { result ≡ capped_by (charged (world_of (things_at now_at places.now.entries)) acct) }
{
    let mut charge = NOTHING;
    for (addr, place) in places.iter() {
        charge = capped_plus(&charge, &thing_charge(places, acct, *addr, place.current()));
    }
    charge
}
