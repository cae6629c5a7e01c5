// What names sources and raw objects.
ghost use Rattle.std.specs.Option.{option_copied};
ghost use Rattle.std.specs.Prelude.{◌≡◌};
ghost use Rattle.mem_world.specs.Calling.{IsBound};
ghost use Rattle.mem_world.specs.Uses.{extents_in, names_at};
ghost use Rattle.sdr_model.specs.Zco.{source_naming, uses_of};

use crate::DraftWorld;
use mem_parts::naming::naming;
use sdr_base::{Acct, Addr};
use sdr_model::{Extent, Thing};

// The extents of an object, none of anything else.
fn extents_of(thing: Option<&Thing>) -> &[Extent]
    ensures { result.now ≡ extents_in (option_copied thing.entry) }
{
    match thing {
        Some(Thing::Object(object)) => object.extents.as_slice(),
        _ => &[],
    }
}

// Whether it is a source of a raw object.
fn names_raw(raw: Addr, thing: Option<&Thing>) -> bool
    ensures { result ≡ names_at raw (option_copied thing.entry) }
{
    match thing {
        Some(Thing::Source(source)) => source.subject.raw() == Some(raw),
        _ => false,
    }
}

impl DraftWorld {
    /// The source that names the raw object at an address. Where a source named it before, it goes over all things.
    pub fn source_on(&self, raw: Addr) -> Option<Addr>
        ensures { result ≡ source_naming self.now.now raw }
    {
        if !self.things.may_name(raw) {
            return None;
        }
        for (addr, place) in self.things.places() {
            if names_raw(raw, place.current()) {
                return Some(*addr);
            }
        }
        None
    }

    /// How many extents name the source at an address.
    pub fn uses(&self, source: Addr) -> u64
        requires bound { IsBound self.now.now }
        ensures { result ≡ uses_of self.now.now source }
    {
        let inbound = self.things.uses(source, Acct::Inbound);
        let outbound = self.things.uses(source, Acct::Outbound);
        match (inbound, outbound) {
            (Some(inbound), Some(outbound)) => inbound + outbound,
            _ => self.found_uses(source),
        }
    }

    // How many extents name the source at an address. It goes over all things and extents.
    fn found_uses(&self, source: Addr) -> u64
        requires bound { IsBound self.now.now }
        ensures { result ≡ uses_of self.now.now source }
    {
        let mut uses = 0;
        for (_, place) in self.things.places() {
            uses += naming(source, extents_of(place.current()));
        }
        uses
    }
}
