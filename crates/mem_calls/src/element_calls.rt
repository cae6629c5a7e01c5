// What calls on the elements of lists do to a world.
ghost use Rattle.std.specs.Prelude.{◌≡◌, OnErr, OnOk, remove, set};
ghost use Rattle.mem_calls.specs.Answers.{CallsMemory, HasElement, SetsList};
ghost use Rattle.sdr_model.specs.ListSteps.{as_list, datum_at};
ghost use Rattle.sdr_model.specs.World.{thing_at};
ghost use Rattle.mem_store.specs.Owners.{MayHave};

use crate::list_calls::element_addr;
use crate::raw_calls::misnamed;
use mem_world::DraftWorld;
use sdr_base::{Addr, Items, NoMemory};
use sdr_model::{Call, Element, Reply, Thing};

// The data at a place, 0 where there is none.
fn datum_at(elements: &Items<Element>, place: usize) -> u64
    ensures { result ≡ datum_at elements.now place }
{
    match elements.as_slice().get(place) {
        Some(element) => element.datum,
        None => 0,
    }
}

pub fn next(world: &mut DraftWorld, element: Addr) -> Result<Reply, NoMemory>
    ensures { CallsMemory (Call.Next element) world.old world.new result }
{
    let Some(spot) = world.spot(element) else {
        return Ok(misnamed(world, element));
    };
    let addr = element_addr(&spot.row.elements, spot.place + 1);
    world.hide();
    Ok(Reply::At { addr })
}

pub fn prev(world: &mut DraftWorld, element: Addr) -> Result<Reply, NoMemory>
    ensures { CallsMemory (Call.Prev element) world.old world.new result }
{
    let Some(spot) = world.spot(element) else {
        return Ok(misnamed(world, element));
    };
    let addr = match spot.place {
        0 => 0,
        place => element_addr(&spot.row.elements, place - 1),
    };
    world.hide();
    Ok(Reply::At { addr })
}

pub fn datum(world: &mut DraftWorld, element: Addr) -> Result<Reply, NoMemory>
    ensures { CallsMemory (Call.Datum element) world.old world.new result }
{
    let Some(spot) = world.spot(element) else {
        return Ok(misnamed(world, element));
    };
    let value = datum_at(&spot.row.elements, spot.place);
    world.hide();
    Ok(Reply::Value { value })
}

// Puts an element in the place of another, in the list at an address.
fn set_element(
    world: &mut DraftWorld,
    list: Addr,
    place: usize,
    element: Element,
) -> Result<(), NoMemory>
    requires inside { HasElement (as_list (thing_at world.old.now list)) place }
    requires may_have { MayHave world.old list element.block }
    ensures set { OnOk result (SetsList (as_list (thing_at world.old.now list)) list
        (λ row. record row { elements = set row.elements place element }) world.old.now world.new.now) }
    ensures begun { world.new.begun ≡ world.old.begun }
    ensures same { OnErr result (world.new.now ≡ world.old.now) }
{
    match world.take(list)? {
        Thing::List(mut row) => {
            row.elements.set(place, element);
            world.put(list, Thing::List(row));
            world.hide();
            Ok(())
        }
        _ => unreachable!(),
    }
}

pub fn set_datum(world: &mut DraftWorld, element: Addr, datum: u64) -> Result<Reply, NoMemory>
    ensures { CallsMemory (Call.SetDatum element datum) world.old world.new result }
{
    let Some(spot) = world.spot(element) else {
        return Ok(misnamed(world, element));
    };
    let (list, place) = (spot.list, spot.place);
    let block = element;
    set_element(world, list, place, Element { block, datum })?;
    Ok(Reply::Done)
}

// Takes an element out of the list at an address.
fn remove_element(world: &mut DraftWorld, list: Addr, place: usize) -> Result<(), NoMemory>
    requires inside { HasElement (as_list (thing_at world.old.now list)) place }
    ensures removed { OnOk result (SetsList (as_list (thing_at world.old.now list)) list
        (λ row. record row { elements = remove row.elements place }) world.old.now world.new.now) }
    ensures begun { world.new.begun ≡ world.old.begun }
    ensures same { OnErr result (world.new.now ≡ world.old.now) }
{
    match world.take(list)? {
        Thing::List(mut row) => {
            row.elements.remove(place);
            world.put(list, Thing::List(row));
            world.hide();
            Ok(())
        }
        _ => unreachable!(),
    }
}

pub fn delete(world: &mut DraftWorld, element: Addr) -> Result<Reply, NoMemory>
    ensures { CallsMemory (Call.Delete element) world.old world.new result }
{
    let Some(spot) = world.spot(element) else {
        return Ok(misnamed(world, element));
    };
    let (list, place) = (spot.list, spot.place);
    remove_element(world, list, place)?;
    Ok(Reply::Done)
}
