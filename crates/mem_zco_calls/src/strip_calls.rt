// What a call that strips an object does to a world.
ghost use Rattle.std.specs.Prelude.{◌≡◌, IfSome, IsSome, OnErr, OnOk};
ghost use Rattle.mem_calls.specs.Answers.{CallsMemory};
ghost use Rattle.mem_world.specs.Calling.{MayCall};
ghost use Rattle.mem_world.specs.Keeps.{SameBegin, StayTouched};
ghost use Rattle.sdr_model.specs.ObjectSteps.{with_object};
ghost use Rattle.sdr_model.specs.PartSteps.{stripped};
ghost use Rattle.sdr_model.specs.Zco.{object_at};
ghost use Rattle.mem_parts.specs.Bounds.{IsBounded};

use crate::gone::gone_things;
use crate::object_calls::object;
use mem_calls::raw_calls::misnamed;
use mem_parts::cuts::{cut_all, whole_of};
use mem_parts::object::{outside_part, part_end};
use mem_world::DraftWorld;
use mem_world::dropping::{drop_all, touch_all};
use sdr_base::{Addr, Items, NoMemory};
use sdr_model::{Call, Extent, Reply, Thing};
use std::alloc::Global;

// Puts the extents of the object at an address, cut to its part, in their place. The part is then the whole.
fn put_cuts(world: &mut DraftWorld, addr: Addr, cuts: Items<Extent>) -> Result<(), NoMemory>
    requires there { IsSome (object_at world.old.now addr) }
    requires bounded { IfSome (object_at world.old.now addr) IsBounded }
    requires cuts { IfSome (object_at world.old.now addr) (λ z. cuts ≡ (stripped z).extents) }
    ensures put { OnOk result (IfSome (object_at world.old.now addr) (λ z.
        world.new.now ≡ with_object world.old.now addr (stripped z))) }
    ensures others { StayTouched world.old world.new }
    ensures keeps { SameBegin world.old world.new }
    ensures same { OnErr result (world.new.now ≡ world.old.now) }
{
    let Thing::Object(mut object) = world.take(addr)? else {
        unreachable!()
    };
    object.part = whole_of(cuts.as_slice());
    object.extents = cuts;
    world.put(addr, Thing::Object(object));
    Ok(())
}

/// Cuts an object to its part, and lets each source go that goes with its last extent. It goes over
/// all things and extents, once more where the object loses any.
pub fn strip(alloc: Global, world: &mut DraftWorld, addr: Addr) -> Result<Reply, NoMemory>
    requires may { MayCall world.old.now }
    ensures { CallsMemory (Call.Strip addr) world.old world.new result }
{
    let Some(object) = object(world, addr) else {
        return Ok(misnamed(world, addr));
    };
    let account = object.account;
    let (from, to) = (object.part.offset, part_end(object));
    let cuts = cut_all(alloc, from, to, object.extents.as_slice())?;
    let lost = outside_part(object, alloc)?;
    let gone = gone_things(alloc, world, lost.as_slice())?;
    touch_all(world, gone.as_slice())?;
    world.save_accounts()?;
    put_cuts(world, addr, cuts)?;
    drop_all(world, gone.as_slice());
    world.serve(account);
    world.hide();
    Ok(Reply::Done)
}
