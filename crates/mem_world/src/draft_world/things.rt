// The things of a world in the making, by their kinds.
ghost use Rattle.std.specs.Option.{option_copied};
ghost use Rattle.std.specs.Prelude.{◌≡◌, ◌≤◌, ◌<◌, ◌+◌, ◌^◌, ℕ, IfSome, None};
ghost use Rattle.sdr_model.specs.Dry.{next_addr};
ghost use Rattle.sdr_model.specs.World.{as_raw, thing_at};
ghost use Rattle.sdr_model.specs.Zco.{object_at, source_at};
ghost use Rattle.sdr_model.specs.declared.things.Thing.{Thing};
ghost use Rattle.mem_store.specs.Owners.{MayPut};

use crate::DraftWorld;
use sdr_base::{Addr, Bytes};
use sdr_model::{Thing, ZcoObject, ZcoSource};

impl DraftWorld {
    /// The bytes of the raw object at an address.
    pub fn raw(&self, addr: Addr) -> Option<&Bytes>
        ensures { option_copied result ≡ as_raw (thing_at self.now.now addr) }
    {
        match self.things.get(addr) {
            Some(Thing::Raw(bytes)) => Some(bytes),
            _ => None,
        }
    }

    /// The source at an address.
    pub fn source(&self, addr: Addr) -> Option<&ZcoSource>
        ensures { option_copied result ≡ source_at self.now.now addr }
    {
        match self.things.get(addr) {
            Some(Thing::Source(source)) => Some(source),
            _ => None,
        }
    }

    /// The object at an address. It owns all blocks inside it.
    pub fn object(&self, addr: Addr) -> Option<&ZcoObject>
        ensures value { option_copied result ≡ object_at self.now.now addr }
        ensures owned { IfSome result (λ z. MayPut self.now addr (Thing.Object z.now)) }
    {
        match self.things.get(addr) {
            Some(Thing::Object(object)) => Some(object),
            _ => None,
        }
    }

    /// The address of the next block. Nothing is there, or behind it.
    pub fn next(&self) -> Addr
        requires taken { self.now.now.taken < 2 ^ 60 + 2 ^ 30 }
        ensures value { result ≡ next_addr self.now.now.taken }
        ensures fresh { (addr : ℕ) → result ≤ addr → thing_at self.now.now addr ≡ None }
    {
        8 * (self.taken + 1)
    }
}
