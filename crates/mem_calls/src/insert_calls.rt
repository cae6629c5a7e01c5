// What insertions into lists do to a world.
ghost use Rattle.std.specs.Prelude.{◌≡◌, ◌<◌, ◌^◌, IfOk, OnErr};
ghost use Rattle.mem_calls.specs.Answers.{CallsMemory, HasPlace, InsertsAt};
ghost use Rattle.sdr_model.specs.ListSteps.{as_list};
ghost use Rattle.sdr_model.specs.World.{thing_at};

use crate::list_calls::{list, put_element};
use crate::raw_calls::misnamed;
use mem_world::DraftWorld;
use sdr_base::{Addr, NoMemory};
use sdr_model::{Call, Element, Reply};

/// Makes an element of this data at a place of the list at an address.
pub fn insert_at(
    world: &mut DraftWorld,
    list: Addr,
    place: usize,
    datum: u64,
) -> Result<Reply, NoMemory>
    requires taken { world.old.now.taken < 2 ^ 60 }
    requires inside { HasPlace (as_list (thing_at world.old.now list)) place }
    ensures inserted { IfOk result (λ reply.
        InsertsAt (as_list (thing_at world.old.now list)) list place datum world.old.now world.new.now reply) }
    ensures begun { world.new.begun ≡ world.old.begun }
    ensures same { OnErr result (world.new.now ≡ world.old.now) }
{
    let marks = world.marks();
    let block = world.mark_inside(list)?;
    match put_element(world, list, place, Element { block, datum }) {
        Ok(()) => Ok(Reply::At { addr: block }),
        Err(error) => {
            world.unmark(marks);
            Err(error)
        }
    }
}

pub fn insert_first(world: &mut DraftWorld, addr: Addr, datum: u64) -> Result<Reply, NoMemory>
    requires taken { world.old.now.taken < 2 ^ 60 }
    ensures { CallsMemory (Call.InsertFirst addr datum) world.old world.new result }
{
    if list(world, addr).is_none() {
        return Ok(misnamed(world, addr));
    }
    insert_at(world, addr, 0, datum)
}

pub fn insert_last(world: &mut DraftWorld, addr: Addr, datum: u64) -> Result<Reply, NoMemory>
    requires taken { world.old.now.taken < 2 ^ 60 }
    ensures { CallsMemory (Call.InsertLast addr datum) world.old world.new result }
{
    let Some(list) = list(world, addr) else {
        return Ok(misnamed(world, addr));
    };
    let place = list.elements.len();
    insert_at(world, addr, place, datum)
}

pub fn insert_before(world: &mut DraftWorld, element: Addr, datum: u64) -> Result<Reply, NoMemory>
    requires taken { world.old.now.taken < 2 ^ 60 }
    ensures { CallsMemory (Call.InsertBefore element datum) world.old world.new result }
{
    let Some(spot) = world.spot(element) else {
        return Ok(misnamed(world, element));
    };
    let (list, place) = (spot.list, spot.place);
    insert_at(world, list, place, datum)
}

pub fn insert_after(world: &mut DraftWorld, element: Addr, datum: u64) -> Result<Reply, NoMemory>
    requires taken { world.old.now.taken < 2 ^ 60 }
    ensures { CallsMemory (Call.InsertAfter element datum) world.old world.new result }
{
    let Some(spot) = world.spot(element) else {
        return Ok(misnamed(world, element));
    };
    let (list, place) = (spot.list, spot.place + 1);
    insert_at(world, list, place, datum)
}
