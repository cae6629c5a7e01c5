// The blocks that a call takes in a world in the making.
ghost use Rattle.std.specs.FinMap as map;
ghost use Rattle.std.specs.Prelude.{◌≡◌, ◌≤◌, ◌<◌, ◌+◌, ◌^◌, ◌++◌, ◌∷◌, [], ℕ, length, take, Contains, Some, OnErr, OnOk};
ghost use Rattle.sdr_model.specs.Dry.{addr_after, next_addr, next_addrs};
ghost use Rattle.mem_world.specs.Keeps.{SameBegin, StayTouched};

use crate::DraftWorld;
use sdr_base::{Addr, Bytes, NoMemory};

impl DraftWorld {
    /// Takes note that things may be put at the next so many addresses. After it that needs no memory. Want
    /// of memory leaves the world as before.
    pub fn touch_next(&mut self, count: u64) -> Result<(), NoMemory>
        requires taken { self.old.now.taken + count < 2 ^ 60 + 2 ^ 30 }
        ensures now { self.new.now ≡ self.old.now }
        ensures touched { OnOk result ((k : ℕ) → k < count →
            Contains self.new.touched (addr_after self.old.now.taken k)) }
        ensures owners { self.new.owners ≡ self.old.owners }
        ensures others { StayTouched self.old self.new }
        ensures keeps { SameBegin self.old self.new }
    {
        let first = 8 * (self.taken + 1);
        for k in 0..count {
            self.touch(first + 8 * k)?;
        }
        Ok(())
    }

    // Marks an address where no block was taken yet, for a block inside the thing at another.
    fn mark_at(&mut self, owner: Addr, addr: Addr) -> Result<(), NoMemory>
        requires new { next_addr self.old.now.taken ≤ addr }
        ensures marked { OnOk result (self.new.now
            ≡ record self.old.now { marks = self.old.now.marks ++ addr ∷ [] }) }
        ensures owner { OnOk result (map.get self.new.owners addr ≡ Some owner) }
        ensures others { (other of : ℕ) → other < addr → map.get self.old.owners other ≡ Some of
            → map.get self.new.owners other ≡ Some of }
        ensures touched { StayTouched self.old self.new }
        ensures keeps { SameBegin self.old self.new }
        ensures same { OnErr result (self.new.now ≡ self.old.now) }
    {
        self.owners.insert(addr, owner)?;
        self.marks.push(addr)?;
        Ok(())
    }

    // Marks the next so many addresses, for blocks inside the thing at one. Want of memory leaves some of the
    // marks.
    fn mark_blocks(&mut self, owner: Addr, count: u64) -> Result<(), NoMemory>
        requires taken { self.old.now.taken + count < 2 ^ 60 + 2 ^ 30 }
        ensures marked { OnOk result (self.new.now ≡ record self.old.now {
          marks = self.old.now.marks ++ next_addrs self.old.now.taken count;
        }) }
        ensures owned { OnOk result ((k : ℕ) → k < count
            → map.get self.new.owners (addr_after self.old.now.taken k) ≡ Some owner) }
        ensures others { (other of : ℕ) → other < next_addr self.old.now.taken
            → map.get self.old.owners other ≡ Some of → map.get self.new.owners other ≡ Some of }
        ensures touched { StayTouched self.old self.new }
        ensures keeps { SameBegin self.old self.new }
        ensures some { OnErr result (self.new.now ≡ record self.old.now { marks = self.new.now.marks }) }
        ensures front { take (length self.old.now.marks) self.new.now.marks ≡ self.old.now.marks }
    {
        let first = 8 * (self.taken + 1);
        for k in 0..count {
            self.mark_at(owner, first + 8 * k)?;
        }
        Ok(())
    }

    /// Marks the next so many addresses, for blocks inside the thing at one. Want of memory leaves the world
    /// as before.
    pub fn reserve_blocks(&mut self, owner: Addr, count: u64) -> Result<(), NoMemory>
        requires taken { self.old.now.taken + count < 2 ^ 60 + 2 ^ 30 }
        ensures marked { OnOk result (self.new.now ≡ record self.old.now {
          marks = self.old.now.marks ++ next_addrs self.old.now.taken count;
        }) }
        ensures owned { OnOk result ((k : ℕ) → k < count
            → map.get self.new.owners (addr_after self.old.now.taken k) ≡ Some owner) }
        ensures others { (other of : ℕ) → other < next_addr self.old.now.taken
            → map.get self.old.owners other ≡ Some of → map.get self.new.owners other ≡ Some of }
        ensures touched { StayTouched self.old self.new }
        ensures keeps { SameBegin self.old self.new }
        ensures same { OnErr result (self.new.now ≡ self.old.now) }
    {
        let marks = self.marks.len();
        match self.mark_blocks(owner, count) {
            Ok(()) => Ok(()),
            Err(error) => {
                self.marks.truncate(marks);
                Err(error)
            }
        }
    }

    /// Counts so many blocks that were taken, with no bytes shown.
    pub fn count_blocks(&mut self, count: u64)
        requires taken { self.old.now.taken + count < 2 ^ 60 + 2 ^ 30 }
        ensures counted { self.new.now
            ≡ record self.old.now { shown = []; taken = self.old.now.taken + count } }
        ensures others { StayTouched self.old self.new }
        ensures keeps { SameBegin self.old self.new }
        ensures owners { self.new.owners ≡ self.old.owners }
    {
        self.shown = Bytes::new(self.alloc);
        self.taken += count;
    }
}
