// Components that objects of a world in the making get.
ghost use Rattle.std.specs.Prelude.{◌≡◌, ◌<◌, ◌+◌, ◌^◌, [], IfSome, IsSome, OnErr, OnOk};
ghost use Rattle.sdr_model.specs.Dry.{next_addr};
ghost use Rattle.sdr_model.specs.Zco.{object_at};
ghost use Rattle.mem_parts.specs.Bounds.{IsBounded};
ghost use Rattle.mem_parts.specs.Components.{Grows, KeepsLimits, block_of};
ghost use Rattle.mem_store.specs.Owners.{IsOwned};
ghost use Rattle.mem_world.specs.Keeps.{SameBegin, StayTouched};

use crate::DraftWorld;
use mem_parts::component::Component;
use sdr_base::{Addr, Bytes, NoMemory};

impl DraftWorld {
    /// Adds a component to the object at an address, and counts so many blocks that were taken, of which it has one, with no
    /// bytes shown. Want of memory leaves the world as before.
    pub fn grow(&mut self, addr: Addr, component: Component, count: u64) -> Result<(), NoMemory>
        requires taken { self.old.now.taken + count < 2 ^ 60 + 2 ^ 30 }
        requires there { IsSome (object_at self.old.now addr) }
        requires bounded { IfSome (object_at self.old.now addr) IsBounded }
        requires limits { KeepsLimits component }
        requires owned { IsOwned self.old.owners (next_addr (self.old.now.taken + count)) addr (block_of component) }
        ensures added { OnOk result (Grows (object_at self.old.now addr) addr component
            (record self.old.now { shown = []; taken = self.old.now.taken + count }) self.new.now) }
        ensures touched { StayTouched self.old self.new }
        ensures keeps { SameBegin self.old self.new }
        ensures same { OnErr result (self.new.now ≡ self.old.now) }
    {
        self.things.grow(addr, component)?;
        self.shown = Bytes::new(self.alloc);
        self.taken += count;
        Ok(())
    }
}
