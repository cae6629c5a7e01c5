// What calls on tables do to a world.
ghost use Rattle.std.specs.Option.{option_copied};
ghost use Rattle.std.specs.Prelude.{◌≡◌, ◌<◌, ◌^◌, OnErr, OnOk, length};
ghost use Rattle.mem_calls.specs.Answers.{CallsMemory, HasRow, SetsRow};
ghost use Rattle.sdr_model.specs.TableSteps.{as_table};
ghost use Rattle.sdr_model.specs.World.{thing_at};

use crate::raw_calls::{bad_length, misnamed};
use mem_world::DraftWorld;
use sdr_base::limits::{LONGEST_RAW, LONGEST_READ};
use sdr_base::{Addr, Bytes, NoMemory, Refusal};
use sdr_model::{Call, Reply, SdrTable, Thing};
use std::alloc::Global;

// The table at an address.
fn table(world: &DraftWorld, addr: Addr) -> Option<&SdrTable>
    ensures { option_copied result ≡ as_table (thing_at world.now.now addr) }
{
    match world.thing(addr) {
        Some(Thing::Table(table)) => Some(table),
        _ => None,
    }
}

pub fn make_table(
    alloc: Global,
    world: &mut DraftWorld,
    rows: u64,
    size: u64,
    user: u64,
) -> Result<Reply, NoMemory>
    requires taken { world.old.now.taken < 2 ^ 60 }
    ensures { CallsMemory (Call.Table rows size user) world.old world.new result }
{
    if rows > LONGEST_RAW {
        return Ok(bad_length(rows, LONGEST_RAW));
    }
    if size > LONGEST_RAW {
        return Ok(bad_length(size, LONGEST_RAW));
    }
    if rows * size > LONGEST_RAW {
        return Ok(bad_length(rows * size, LONGEST_RAW));
    }
    let table = SdrTable::new(alloc, user, rows, size)?;
    let addr = world.make(Thing::Table(table))?;
    Ok(Reply::At { addr })
}

pub fn row(alloc: Global, world: &mut DraftWorld, addr: Addr, row: u64) -> Result<Reply, NoMemory>
    ensures { CallsMemory (Call.Row addr row) world.old world.new result }
{
    let Some(table) = table(world, addr) else {
        return Ok(misnamed(world, addr));
    };
    let rows = table.rows();
    if row >= rows {
        return Ok(Reply::Refused(Refusal::BadRow { row, rows }));
    }
    let count = table.size();
    if count > LONGEST_READ {
        return Ok(bad_length(count, LONGEST_READ));
    }
    let shown = Bytes::copied(alloc, table.row(row))?;
    world.show(shown);
    Ok(Reply::Bytes { count })
}

// Sets a row of the table at an address.
fn put_row(world: &mut DraftWorld, addr: Addr, row: u64, from: &[u8]) -> Result<(), NoMemory>
    requires inside { HasRow (as_table (thing_at world.old.now addr)) row (length from.now) }
    ensures set { OnOk result
        (SetsRow (as_table (thing_at world.old.now addr)) addr row from.now world.old.now world.new.now) }
    ensures begun { world.new.begun ≡ world.old.begun }
    ensures same { OnErr result (world.new.now ≡ world.old.now) }
{
    match world.take(addr)? {
        Thing::Table(mut table) => {
            table.set_row(row, from);
            world.put(addr, Thing::Table(table));
            world.hide();
            Ok(())
        }
        _ => unreachable!(),
    }
}

pub fn set_row(
    world: &mut DraftWorld,
    addr: Addr,
    row: u64,
    from: &Bytes,
) -> Result<Reply, NoMemory>
    ensures { CallsMemory (Call.SetRow addr row from.now) world.old world.new result }
{
    let Some(table) = table(world, addr) else {
        return Ok(misnamed(world, addr));
    };
    let (rows, size) = (table.rows(), table.size());
    if row >= rows {
        return Ok(Reply::Refused(Refusal::BadRow { row, rows }));
    }
    let length = from.len() as u64;
    if length != size {
        return Ok(bad_length(length, size));
    }
    put_row(world, addr, row, from.as_slice())?;
    Ok(Reply::Done)
}

pub fn dimensions(world: &mut DraftWorld, addr: Addr) -> Result<Reply, NoMemory>
    ensures { CallsMemory (Call.Dimensions addr) world.old world.new result }
{
    let Some(table) = table(world, addr) else {
        return Ok(misnamed(world, addr));
    };
    let (first, second) = (table.rows(), table.size());
    world.hide();
    Ok(Reply::Pair { first, second })
}

pub fn table_user(world: &mut DraftWorld, addr: Addr) -> Result<Reply, NoMemory>
    ensures { CallsMemory (Call.TableUser addr) world.old world.new result }
{
    let Some(table) = table(world, addr) else {
        return Ok(misnamed(world, addr));
    };
    let value = table.user();
    world.hide();
    Ok(Reply::Value { value })
}

pub fn table_destroy(world: &mut DraftWorld, addr: Addr) -> Result<Reply, NoMemory>
    ensures { CallsMemory (Call.TableDestroy addr) world.old world.new result }
{
    if table(world, addr).is_none() {
        return Ok(misnamed(world, addr));
    }
    world.lose(addr)?;
    Ok(Reply::Done)
}
