// A world in the making.
ghost use Rattle.std.specs.FinMap as map;
ghost use Rattle.std.specs.List.{list_any};
ghost use Rattle.std.specs.Option.{option_copied};
ghost use Rattle.std.specs.Prelude.{◌≡◌, ◌<◌, ◌+◌, ◌^◌, ◌++◌, ℕ, length, take, ◌∷◌, [], IfOk, IfSome, OnOk, OnErr, IsSome, None, Some, Contains, false};
ghost use Rattle.sdr_model.specs.Dry.{with_taken, next_addr};
ghost use Rattle.sdr_model.specs.Names.{name_of, without_name};
ghost use Rattle.sdr_model.specs.Steps.{with_thing, without_thing};
ghost use Rattle.sdr_model.specs.Things.{IsWithin, SpotIs, inner_among, inner_blocks};
ghost use Rattle.sdr_model.specs.World.{at_rest, block_at, empty_world, is_marked, spot_of, thing_at};
ghost use Rattle.sdr_model.specs.declared.things.Thing.{Thing};
ghost use Rattle.mem_world.specs.Keeps.{SameBegin, StayTouched};
ghost use Rattle.mem_store.specs.Owners.{MayHave, MayPut};

mod blocks;
mod charges;
mod charging;
mod growing;
mod things;
mod uses;

use mem_store::{Catalogue, Ledger, Named, Names, Owners, Store};
use sdr_base::{Addr, Bytes, Items, NoMemory};
use sdr_model::{Accounts, Spot, Thing, UsedBlock};
use std::alloc::Global;
use std::marker::Model;

/// A world, which can be put back to what it was at the begin of the open transaction. Contracts see the
/// world at the begin, the world now, the addresses that were touched since, and whose the
/// blocks inside things are.
#[derive(Drop)]
pub struct DraftWorld {
    alloc: Global,
    things: Store,
    /// A block that is given back keeps its owner, which no longer has it.
    owners: Owners,
    catalogue: Catalogue,
    accounts: Ledger,
    /// The addresses marked in the open transaction.
    marks: Items<Addr>,
    /// The bytes that the last answered call gave.
    shown: Bytes,
    /// How many blocks were taken so far. Putting back leaves it.
    taken: u64,
    /// How many were taken before the begin.
    taken_before: u64,
}

impl Model for DraftWorld {
    ghost use Rattle.std.specs.Prelude.{[]};
    ghost use Rattle.mem_store.specs.Draft as draft;
    ghost use Rattle.sdr_model.specs.Dry.{next_addr};
    ghost use Rattle.mem_store.specs.Owners.{AllOwnInside};

    ghost Value = { draft.Draft };

    ghost coded = { draft.coded_draft };

    ghost view = { λ s. record {
      begun = record { things = s.things.begun; names = s.catalogue.begun; accounts = s.accounts.begun; marks = []; shown = []; taken = s.taken_before };
      now = record { things = s.things.now; names = s.catalogue.now; accounts = s.accounts.now; marks = s.marks; shown = s.shown; taken = s.taken };
      touched = s.things.touched;
      owners = s.owners;
      saved = s.accounts.saved;
    } };

    ghost invariant = { λ s. AllOwnInside s.owners (next_addr s.taken) s.things.begun s.things.now };
}

impl DraftWorld {
    /// A world without things, where no transaction is open. It takes no memory.
    pub fn new(alloc: Global) -> DraftWorld
        ensures { result ≡ record { begun = empty_world; now = empty_world; touched = []; owners = map.empty; saved = false } }
    {
        DraftWorld {
            alloc,
            things: Store::new(alloc),
            owners: Owners::new(alloc),
            catalogue: Catalogue::new(alloc),
            accounts: Ledger::new(alloc, 32_768),
            marks: Items::new(alloc),
            shown: Bytes::new(alloc),
            taken: 0,
            taken_before: 0,
        }
    }

    /// The thing at an address.
    pub fn thing(&self, addr: Addr) -> Option<&Thing>
        ensures { option_copied result ≡ thing_at self.now.now addr }
    {
        self.things.get(addr)
    }

    /// The accounts at the begin of the open transaction.
    pub fn accounts_begun(&self) -> &Accounts
        ensures { result.now ≡ self.now.begun.accounts }
    {
        self.accounts.begun()
    }

    /// The catalogue.
    pub fn names(&self) -> &Names
        ensures { result.now ≡ self.now.now.names }
    {
        self.catalogue.names()
    }

    /// The bytes that the last answered call gave, none between transactions.
    pub fn shown(&self) -> &[u8]
        ensures { result.now ≡ self.now.now.shown }
    {
        self.shown.as_slice()
    }

    /// Whether the address was taken or staged in this transaction.
    pub fn is_marked(&self, addr: Addr) -> bool
        ensures { result ≡ is_marked self.now.now addr }
    {
        self.marks.as_slice().contains(&addr)
    }

    // The block at an address inside one of the things, which its owner alone can have.
    fn inner_block(&self, addr: Addr) -> Option<UsedBlock>
        ensures { result ≡ inner_among addr (map.entries self.now.now.things) }
    {
        let owner = self.owners.get(addr)?;
        let thing = self.things.get(owner)?;
        thing.inner_block(addr)
    }

    /// The block that begins at an address. It looks into one thing at most.
    pub fn block(&self, addr: Addr) -> Option<UsedBlock>
        ensures { result ≡ block_at self.now.now addr }
    {
        if let Some(thing) = self.things.get(addr) {
            return Some(thing.own_block(addr));
        }
        if let Some(block) = self.inner_block(addr) {
            return Some(block);
        }
        match self.catalogue.names().block(addr) {
            Some(block) => Some(block),
            None => self.accounts.now().block(addr),
        }
    }

    /// Where the element at an address stands. It looks into one list at most.
    pub fn spot(&self, element: Addr) -> Option<Spot<'_>>
        ensures is { SpotIs result (spot_of self.now.now element) }
        ensures within { IsWithin result }
        ensures there { IfSome result (λ s. thing_at self.now.now s.list
            ≡ Some (Thing.List s.row.now)) }
        ensures may_have { IfSome result (λ s. MayHave self.now s.list element) }
    {
        let owner = self.owners.get(element)?;
        let thing = self.things.get(owner)?;
        thing.spot(owner, element)
    }

    /// How many marks there are.
    pub fn marks(&self) -> usize
        ensures { result ≡ length self.now.now.marks }
    {
        self.marks.len()
    }

    /// Takes the marks behind the first so many off.
    pub fn unmark(&mut self, marks: usize)
        ensures unmarked { self.new.now ≡ record self.old.now { marks = take marks self.old.now.marks } }
        ensures others { StayTouched self.old self.new }
        ensures keeps { SameBegin self.old self.new }
    {
        self.marks.truncate(marks);
    }

    /// Takes the next address, and marks it.
    pub fn mark_next(&mut self) -> Result<Addr, NoMemory>
        requires taken { self.old.now.taken < 2 ^ 60 }
        ensures addr { IfOk result (λ addr. addr ≡ next_addr self.old.now.taken) }
        ensures marked { IfOk result (λ addr.
            self.new.now ≡ record self.old.now { marks = self.old.now.marks ++ addr ∷ [] }) }
        ensures keeps { SameBegin self.old self.new }
        ensures owners { self.new.owners ≡ self.old.owners }
        ensures same { OnErr result (self.new.now ≡ self.old.now) }
    {
        let addr = 8 * (self.taken + 1);
        self.marks.push(addr)?;
        Ok(addr)
    }

    /// Takes the next address for a block inside the thing at another, and marks it. Want of memory leaves
    /// the world as before.
    pub fn mark_inside(&mut self, owner: Addr) -> Result<Addr, NoMemory>
        requires taken { self.old.now.taken < 2 ^ 60 }
        ensures addr { IfOk result (λ addr. addr ≡ next_addr self.old.now.taken) }
        ensures marked { IfOk result (λ addr.
            self.new.now ≡ record self.old.now { marks = self.old.now.marks ++ addr ∷ [] }) }
        ensures noted { IfOk result (λ addr. map.get self.new.owners addr ≡ Some owner) }
        ensures keeps { SameBegin self.old self.new }
        ensures same { OnErr result (self.new.now ≡ self.old.now) }
    {
        let addr = 8 * (self.taken + 1);
        self.owners.insert(addr, owner)?;
        self.marks.push(addr)?;
        Ok(addr)
    }

    /// Makes a thing with nothing inside at the next address. Want of memory leaves the world as before.
    pub fn make(&mut self, thing: Thing) -> Result<Addr, NoMemory>
        requires taken { self.old.now.taken < 2 ^ 60 }
        requires bare { inner_blocks thing ≡ [] }
        ensures addr { IfOk result (λ addr. addr ≡ next_addr self.old.now.taken) }
        ensures made { IfOk result (λ addr.
            self.new.now ≡ with_taken (with_thing self.old.now addr thing) addr) }
        ensures keeps { SameBegin self.old self.new }
        ensures same { OnErr result (self.new.now ≡ self.old.now) }
    {
        let addr = 8 * (self.taken + 1);
        self.things.touch(addr)?;
        self.marks.push(addr)?;
        self.things.put(addr, Some(thing));
        self.shown = Bytes::new(self.alloc);
        self.taken += 1;
        Ok(addr)
    }

    /// Takes note that the thing at an address may be changed. After it that needs no memory. Want of memory
    /// leaves the world as before.
    pub fn touch(&mut self, addr: Addr) -> Result<(), NoMemory>
        ensures now { self.new.now ≡ self.old.now }
        ensures owners { self.new.owners ≡ self.old.owners }
        ensures touched { OnOk result (Contains self.new.touched addr) }
        ensures others { StayTouched self.old self.new }
        ensures keeps { SameBegin self.old self.new }
    {
        self.things.touch(addr)
    }

    /// Lets the thing at an address that was touched go.
    pub fn drop(&mut self, addr: Addr)
        requires touched { Contains self.old.touched addr }
        ensures dropped { self.new.now ≡ without_thing self.old.now addr }
        ensures others { StayTouched self.old self.new }
        ensures keeps { SameBegin self.old self.new }
    {
        self.things.put(addr, None);
    }

    /// Lets the thing at an address go, with no bytes shown. Want of memory leaves the world as before.
    pub fn lose(&mut self, addr: Addr) -> Result<(), NoMemory>
        ensures lost { OnOk result (self.new.now ≡ record (without_thing self.old.now addr) { shown = [] }) }
        ensures keeps { SameBegin self.old self.new }
        ensures same { OnErr result (self.new.now ≡ self.old.now) }
    {
        self.touch(addr)?;
        self.drop(addr);
        self.hide();
        Ok(())
    }

    /// Takes out the thing at an address, to be changed and put again. Want of memory leaves the world as
    /// before.
    pub fn take(&mut self, addr: Addr) -> Result<Thing, NoMemory>
        requires some { IsSome (thing_at self.old.now addr) }
        ensures taken { IfOk result (λ thing. thing_at self.old.now addr ≡ Some thing) }
        ensures again { OnOk result ((thing : Thing) →
            with_thing self.new.now addr thing ≡ with_thing self.old.now addr thing) }
        ensures back { IfOk result (λ thing. with_thing self.new.now addr thing ≡ self.old.now) }
        ensures may_put { IfOk result (λ thing. MayPut self.new addr thing) }
        ensures touched { OnOk result (Contains self.new.touched addr) }
        ensures owners { self.new.owners ≡ self.old.owners }
        ensures others { StayTouched self.old self.new }
        ensures keeps { SameBegin self.old self.new }
        ensures same { OnErr result (self.new.now ≡ self.old.now) }
    {
        self.things.take(addr)
    }

    /// Puts a thing at an address that was touched. It is the owner of all blocks inside it.
    pub fn put(&mut self, addr: Addr, thing: Thing)
        requires touched { Contains self.old.touched addr }
        requires may_put { MayPut self.old addr thing }
        ensures put { self.new.now ≡ with_thing self.old.now addr thing }
        ensures owners { self.new.owners ≡ self.old.owners }
        ensures others { StayTouched self.old self.new }
        ensures keeps { SameBegin self.old self.new }
    {
        self.things.put(addr, Some(thing));
    }

    /// Shows no bytes.
    pub fn hide(&mut self)
        ensures hidden { self.new.now ≡ record self.old.now { shown = [] } }
        ensures owners { self.new.owners ≡ self.old.owners }
        ensures keeps { SameBegin self.old self.new }
    {
        self.shown = Bytes::new(self.alloc);
    }

    /// Shows these bytes.
    pub fn show(&mut self, shown: Bytes)
        ensures shown { self.new.now ≡ record self.old.now { shown = shown } }
        ensures keeps { SameBegin self.old self.new }
    {
        self.shown = shown;
    }

    /// Marks the thing at an address, and shows these bytes. Want of memory leaves the world as before.
    pub fn stage(&mut self, addr: Addr, shown: Bytes) -> Result<(), NoMemory>
        ensures staged { OnOk result
            (self.new.now ≡ record self.old.now { marks = self.old.now.marks ++ addr ∷ []; shown = shown }) }
        ensures keeps { SameBegin self.old self.new }
        ensures same { OnErr result (self.new.now ≡ self.old.now) }
    {
        self.marks.push(addr)?;
        self.shown = shown;
        Ok(())
    }

    /// Catalogues an object under a new name. Want of memory leaves the world as before.
    pub fn name(&mut self, name: &[u8], kind: u32, object: u64) -> Result<(), NoMemory>
        requires taken { self.old.now.taken < 2 ^ 60 }
        requires new { name_of self.old.now.names name.now ≡ None }
        ensures named { OnOk result (let addr = next_addr self.old.now.taken in
            self.new.now ≡ with_taken (record self.old.now {
              names = self.old.now.names
                  ++ record { block = addr; name = name.now; kind = kind; object = object } ∷ [];
            }) addr) }
        ensures keeps { SameBegin self.old self.new }
        ensures same { OnErr result (self.new.now ≡ self.old.now) }
    {
        let marks = self.marks.len();
        let block = self.mark_next()?;
        let entry = Named {
            block,
            kind,
            object,
        };
        match self.catalogue.push(name, entry) {
            Ok(()) => {
                self.shown = Bytes::new(self.alloc);
                self.taken += 1;
                Ok(())
            }
            Err(error) => {
                self.marks.truncate(marks);
                Err(error)
            }
        }
    }

    /// Takes a name out of the catalogue. Want of memory leaves the world as before.
    pub fn unname(&mut self, name: &[u8]) -> Result<(), NoMemory>
        ensures unnamed { OnOk result (self.new.now
            ≡ record self.old.now { names = without_name self.old.now.names name.now; shown = [] }) }
        ensures keeps { SameBegin self.old self.new }
        ensures same { OnErr result (self.new.now ≡ self.old.now) }
    {
        self.catalogue.remove(name)?;
        self.shown = Bytes::new(self.alloc);
        Ok(())
    }

    /// Takes the world now as the one to begin from.
    pub fn keep(&mut self)
        ensures { let kept = at_rest self.old.now in self.new ≡ record self.old { begun = kept; now = kept; touched = []; saved = false } }
    {
        self.things.keep();
        self.catalogue.keep();
        self.accounts.keep();
        self.marks = Items::new(self.alloc);
        self.shown = Bytes::new(self.alloc);
        self.taken_before = self.taken;
    }

    /// Rolls the world back to the begin. Blocks once taken stay counted.
    pub fn roll_back(&mut self)
        ensures { let left = record self.old.begun { taken = self.old.now.taken } in
            self.new ≡ record self.old { begun = left; now = left; touched = []; saved = false } }
    {
        self.things.roll_back();
        self.catalogue.roll_back();
        self.accounts.roll_back();
        self.marks = Items::new(self.alloc);
        self.shown = Bytes::new(self.alloc);
        self.taken_before = self.taken;
    }
}
