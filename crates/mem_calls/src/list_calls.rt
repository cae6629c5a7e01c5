// What calls on lists do to a world.
ghost use Rattle.std.specs.FinMap as map;
ghost use Rattle.std.specs.Option.{option_copied};
ghost use Rattle.std.specs.Prelude.{◌≡◌, ◌<◌, ◌≤◌, ◌-◌, ◌^◌, IfOk, OnErr, OnOk, Some, length, remove, set};
ghost use Rattle.mem_calls.specs.Answers.{CallsMemory, HasElement, HasPlace, InsertsAt, PutsElement, SetsList};
ghost use Rattle.sdr_model.specs.Dry.{next_addr};
ghost use Rattle.sdr_model.specs.ListSteps.{as_list, datum_at, element_addr};
ghost use Rattle.sdr_model.specs.World.{thing_at};

use crate::raw_calls::misnamed;
use mem_world::DraftWorld;
use sdr_base::{Addr, Items, NoMemory};
use sdr_model::{Call, Element, Reply, SdrList, Thing};
use std::alloc::Global;

/// The list at an address.
pub fn list(world: &DraftWorld, addr: Addr) -> Option<&SdrList>
    ensures { option_copied result ≡ as_list (thing_at world.now.now addr) }
{
    match world.thing(addr) {
        Some(Thing::List(list)) => Some(list),
        _ => None,
    }
}

/// The address of the element at a place, 0 where there is none.
pub fn element_addr(elements: &Items<Element>, place: usize) -> Addr
    ensures { result ≡ element_addr elements.now place }
{
    match elements.as_slice().get(place) {
        Some(element) => element.block,
        None => 0,
    }
}

pub fn make_list(alloc: Global, world: &mut DraftWorld, user: u64) -> Result<Reply, NoMemory>
    requires taken { world.old.now.taken < 2 ^ 60 }
    ensures { CallsMemory (Call.List user) world.old world.new result }
{
    let elements = Items::new(alloc);
    let addr = world.make(Thing::List(SdrList { user, elements }))?;
    Ok(Reply::At { addr })
}

#[tactic(auto, using(sdr_model::proofs::DryLemmas::gives))]
pub fn list_destroy(world: &mut DraftWorld, addr: Addr) -> Result<Reply, NoMemory>
    ensures { CallsMemory (Call.ListDestroy addr) world.old world.new result }
{
    if list(world, addr).is_none() {
        return Ok(misnamed(world, addr));
    }
    world.lose(addr)?;
    Ok(Reply::Done)
}

pub fn list_length(world: &mut DraftWorld, addr: Addr) -> Result<Reply, NoMemory>
    ensures { CallsMemory (Call.ListLength addr) world.old world.new result }
{
    let Some(list) = list(world, addr) else {
        return Ok(misnamed(world, addr));
    };
    let value = list.elements.len() as u64;
    world.hide();
    Ok(Reply::Value { value })
}

pub fn list_user(world: &mut DraftWorld, addr: Addr) -> Result<Reply, NoMemory>
    ensures { CallsMemory (Call.ListUser addr) world.old world.new result }
{
    let Some(list) = list(world, addr) else {
        return Ok(misnamed(world, addr));
    };
    let value = list.user;
    world.hide();
    Ok(Reply::Value { value })
}

pub fn first(world: &mut DraftWorld, addr: Addr) -> Result<Reply, NoMemory>
    ensures { CallsMemory (Call.First addr) world.old world.new result }
{
    let Some(list) = list(world, addr) else {
        return Ok(misnamed(world, addr));
    };
    let addr = element_addr(&list.elements, 0);
    world.hide();
    Ok(Reply::At { addr })
}

pub fn last(world: &mut DraftWorld, addr: Addr) -> Result<Reply, NoMemory>
    ensures { CallsMemory (Call.Last addr) world.old world.new result }
{
    let Some(list) = list(world, addr) else {
        return Ok(misnamed(world, addr));
    };
    let addr = element_addr(&list.elements, list.elements.len().saturating_sub(1));
    world.hide();
    Ok(Reply::At { addr })
}

// Puts a new user's number into the list at an address.
fn put_user(world: &mut DraftWorld, addr: Addr, user: u64) -> Result<(), NoMemory>
    requires there { HasPlace (as_list (thing_at world.old.now addr)) 0 }
    ensures set { OnOk result (SetsList (as_list (thing_at world.old.now addr)) addr
        (λ row. record row { user = user }) world.old.now world.new.now) }
    ensures begun { world.new.begun ≡ world.old.begun }
    ensures same { OnErr result (world.new.now ≡ world.old.now) }
{
    match world.take(addr)? {
        Thing::List(mut list) => {
            list.user = user;
            world.put(addr, Thing::List(list));
            world.hide();
            Ok(())
        }
        _ => unreachable!(),
    }
}

pub fn set_list_user(world: &mut DraftWorld, addr: Addr, user: u64) -> Result<Reply, NoMemory>
    ensures { CallsMemory (Call.SetListUser addr user) world.old world.new result }
{
    if list(world, addr).is_none() {
        return Ok(misnamed(world, addr));
    }
    put_user(world, addr, user)?;
    Ok(Reply::Done)
}

/// Puts an element, whose block is the next, at a place of the list at an address, and counts the block.
pub fn put_element(
    world: &mut DraftWorld,
    list: Addr,
    place: usize,
    element: Element,
) -> Result<(), NoMemory>
    requires taken { world.old.now.taken < 2 ^ 60 }
    requires inside { HasPlace (as_list (thing_at world.old.now list)) place }
    requires next { element.block ≡ next_addr world.old.now.taken }
    requires noted { map.get world.old.owners element.block ≡ Some list }
    ensures put { OnOk result
        (PutsElement (as_list (thing_at world.old.now list)) list place element world.old.now world.new.now) }
    ensures begun { world.new.begun ≡ world.old.begun }
    ensures same { OnErr result (world.new.now ≡ world.old.now) }
{
    match world.take(list)? {
        Thing::List(mut row) => match row.elements.insert(place, element) {
            Ok(()) => {
                world.count_blocks(1);
                world.put(list, Thing::List(row));
                Ok(())
            }
            Err(error) => {
                world.put(list, Thing::List(row));
                Err(error)
            }
        },
        _ => unreachable!(),
    }
}
