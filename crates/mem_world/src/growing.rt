// Components that are added to objects, charged and with their blocks.
ghost use Rattle.std.specs.Prelude.{◌≡◌, ◌<◌, ◌+◌, ◌^◌, IfErr, IfOk, IfSome, IsSome, OnErr, OnOk, []};
ghost use Rattle.sdr_model.specs.Charging.{with_covered};
ghost use Rattle.sdr_model.specs.Dry.{addr_after, with_blocks};
ghost use Rattle.sdr_model.specs.Zco.{object_at};
ghost use Rattle.mem_parts.specs.Bounds.{IsBounded};
ghost use Rattle.mem_parts.specs.Components.{Grows, KeepsLimits, block_of};
ghost use Rattle.mem_world.specs.Allowed.{MayCharge, RefusesCharge};
ghost use Rattle.mem_world.specs.Calling.{IsBound};
ghost use Rattle.mem_world.specs.Keeps.{SameBegin, StayTouched};

use crate::DraftWorld;
use crate::charging::charge_account;
use mem_parts::component::Component;
use sdr_base::{Addr, Amounts, NoMemory, Refusal};
use sdr_model::Pending;

// Takes the next blocks for the object at an address, so many and one more, and adds a component in the
// last of them. Want of memory leaves the world as before.
fn take_component(
    world: &mut DraftWorld,
    addr: Addr,
    component: Component,
    before: u64,
) -> Result<(), NoMemory>
    requires taken { world.old.now.taken + before + 1 < 2 ^ 60 + 2 ^ 30 }
    requires there { IsSome (object_at world.old.now addr) }
    requires bounded { IfSome (object_at world.old.now addr) IsBounded }
    requires limits { KeepsLimits component }
    requires block { block_of component ≡ addr_after world.old.now.taken before }
    ensures added { OnOk result (Grows (object_at world.old.now addr) addr component
        (with_blocks world.old.now (before + 1)) world.new.now) }
    ensures touched { StayTouched world.old world.new }
    ensures keeps { SameBegin world.old world.new }
    ensures same { OnErr result (world.new.now ≡ world.old.now) }
{
    let marks = world.marks();
    world.reserve_blocks(addr, before + 1)?;
    match world.grow(addr, component, before + 1) {
        Ok(()) => Ok(()),
        Err(error) => {
            world.unmark(marks);
            Err(error)
        }
    }
}

/// Charges the account of the object at an address this by a ticket, 0 for none, takes the next blocks,
/// so many and one more, and adds a component in the last of them. Where this is refused or finds no
/// memory, the world is as before.
pub fn add_component(
    world: &mut DraftWorld,
    addr: Addr,
    number: u64,
    charge: &Amounts,
    component: Component,
    before: u64,
) -> Result<Result<Option<Pending>, Refusal>, NoMemory>
    requires taken { world.old.now.taken + before + 1 < 2 ^ 60 + 2 ^ 30 }
    requires bound { IsBound world.old.now }
    requires there { IsSome (object_at world.old.now addr) }
    requires bounded { IfSome (object_at world.old.now addr) IsBounded }
    requires limits { KeepsLimits component }
    requires block { block_of component ≡ addr_after world.old.now.taken before }
    ensures allowed { IfOk result (λ r. IfOk r (λ p. IfSome (object_at world.old.now addr) (λ z.
        MayCharge world.old.now z.account number charge.now p))) }
    ensures added { IfOk result (λ r. IfOk r (λ p.
        Grows (object_at world.old.now addr) addr component
        (with_blocks (with_covered world.old.now p charge.now) (before + 1)) world.new.now)) }
    ensures touched { StayTouched world.old world.new }
    ensures keeps { SameBegin world.old world.new }
    ensures refused { IfOk result (λ r. IfErr r (λ refusal.
        IfSome (object_at world.old.now addr) (λ z.
        RefusesCharge world.old.now z.account number charge.now refusal))) }
    ensures same { IfOk result (λ r. OnErr r (world.new.now ≡ world.old.now)) }
    ensures err { OnErr result (world.new.now ≡ world.old.now) }
{
    let Some(object) = world.object(addr) else {
        unreachable!()
    };
    let acct = object.account;
    let granted = match charge_account(world, acct, number, charge)? {
        Ok(granted) => granted,
        Err(refusal) => return Ok(Err(refusal)),
    };
    match take_component(world, addr, component, before) {
        Ok(()) => Ok(Ok(granted)),
        Err(error) => {
            world.take_back(granted);
            Err(error)
        }
    }
}
