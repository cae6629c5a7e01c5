// The calls on tables, as steps of the machine.
ghost use Rattle.std.specs.Prelude.{[], length, ◌*◌, ◌+◌, ◌/◌, ◌≡◌, ◌≤◌};
ghost use Rattle.step_things.specs.Answering.{ComesInEach};
ghost use Rattle.sdr_base.specs.Moves.{KeepsSome};
ghost use Rattle.sdr_base.specs.Works.{Spends};
ghost use Rattle.sdr_model.specs.Fields.{AreBytes, IsWord};
ghost use Rattle.sdr_model.specs.declared.call.Call.TheVariants as calls;
ghost use Rattle.sdr_table.specs.Kept.{IsTable};

use crate::{PAGE, Page};
use sdr_base::{Addr, Objects, Stop};
use sdr_model::Reply;

/// Makes a table.
pub fn table<O: Objects>(
    o: &mut O,
    rows: u64,
    size: u64,
    user: u64,
    page: &mut Page,
) -> Result<Reply, Stop>
    requires kept { KeepsSome (O.keeps o.old) }
    requires spare { 1 ≤ (O.heap o.old).spare }
    requires unmoved { (O.heap o.old).moves ≡ [] }
    ensures comes { ComesInEach (calls.Table rows size user) (O.heap o.old) (O.heap o.new) page.old
        page.new result }
    ensures works { Spends O.HasHeap (26 + (24 + rows * size) / 64) o.old o.new result }
    ensures word { IsWord user }
{
    let addr = sdr_table::create(o, rows, size, user)?;
    page.clear();
    Ok(Reply::At { addr })
}

/// Reads a row of a table.
pub fn row<O: Objects>(o: &mut O, table: Addr, row: u64, page: &mut Page) -> Result<Reply, Stop>
    requires kept { KeepsSome (O.keeps o.old) }
    requires table { IsTable ((O.heap o.old).blocks table) }
    requires unmoved { (O.heap o.old).moves ≡ [] }
    ensures comes { ComesInEach (calls.Row table row) (O.heap o.old) (O.heap o.new) page.old page.new
        result }
    ensures works { Spends O.HasHeap 0 o.old o.new result }
    ensures touched { (O.transaction o.new).touched ≡ (O.transaction o.old).touched }
{
    let mut bytes = [0; PAGE];
    let count = sdr_table::row(o, table, row, &mut bytes)?;
    page.show(&bytes[..count as usize]);
    Ok(Reply::Bytes { count })
}

/// Sets a row of a table.
pub fn set_row<O: Objects>(
    o: &mut O,
    table: Addr,
    row: u64,
    from: &[u8],
    page: &mut Page,
) -> Result<Reply, Stop>
    requires kept { KeepsSome (O.keeps o.old) }
    requires table { IsTable ((O.heap o.old).blocks table) }
    requires unmoved { (O.heap o.old).moves ≡ [] }
    ensures comes { ComesInEach (calls.SetRow table row from.now) (O.heap o.old) (O.heap o.new) page.old
        page.new result }
    ensures works { Spends O.HasHeap (2 + length from.now / 64) o.old o.new result }
    ensures bytes { AreBytes from.now }
{
    sdr_table::set_row(o, table, row, from)?;
    page.clear();
    Ok(Reply::Done)
}

/// How many rows a table has, and the bytes of a row.
pub fn dimensions<O: Objects>(o: &mut O, table: Addr, page: &mut Page) -> Result<Reply, Stop>
    requires kept { KeepsSome (O.keeps o.old) }
    requires table { IsTable ((O.heap o.old).blocks table) }
    requires unmoved { (O.heap o.old).moves ≡ [] }
    ensures comes { ComesInEach (calls.Dimensions table) (O.heap o.old) (O.heap o.new) page.old page.new
        result }
    ensures works { Spends O.HasHeap 0 o.old o.new result }
    ensures touched { (O.transaction o.new).touched ≡ (O.transaction o.old).touched }
{
    let (first, second) = sdr_table::dimensions(o, table)?;
    page.clear();
    Ok(Reply::Pair { first, second })
}

/// The user's number of a table.
pub fn table_user<O: Objects>(o: &mut O, table: Addr, page: &mut Page) -> Result<Reply, Stop>
    requires kept { KeepsSome (O.keeps o.old) }
    requires table { IsTable ((O.heap o.old).blocks table) }
    requires unmoved { (O.heap o.old).moves ≡ [] }
    ensures comes { ComesInEach (calls.TableUser table) (O.heap o.old) (O.heap o.new) page.old page.new
        result }
    ensures works { Spends O.HasHeap 0 o.old o.new result }
    ensures touched { (O.transaction o.new).touched ≡ (O.transaction o.old).touched }
{
    let value = sdr_table::user_data(o, table)?;
    page.clear();
    Ok(Reply::Value { value })
}

/// Gives a table back.
pub fn table_destroy<O: Objects>(o: &mut O, table: Addr, page: &mut Page) -> Result<Reply, Stop>
    requires kept { KeepsSome (O.keeps o.old) }
    requires spare { 1 ≤ (O.heap o.old).spare }
    requires table { IsTable ((O.heap o.old).blocks table) }
    requires unmoved { (O.heap o.old).moves ≡ [] }
    ensures comes { ComesInEach (calls.TableDestroy table) (O.heap o.old) (O.heap o.new) page.old page.new
        result }
    ensures works { Spends O.HasHeap 24 o.old o.new result }
{
    sdr_table::destroy(o, table)?;
    page.clear();
    Ok(Reply::Done)
}
