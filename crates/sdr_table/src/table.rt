// A table as a whole, and what it says.
ghost use Rattle.std.specs.Prelude.{◌≡◌, ◌+◌, ◌*◌, ◌/◌, ◌≤◌, ◌<◌, Some, None, IfOk, IfErr, OnOk};
ghost use Rattle.sdr_base.specs.Moves.{KeepsSome};
ghost use Rattle.sdr_base.specs.Objects.{Misses};
ghost use Rattle.sdr_base.specs.Transaction.{LeavesTouched};
ghost use Rattle.sdr_base.specs.Works.{Looks, Spends};
ghost use Rattle.sdr_base.specs.declared.kind.Kind.TheVariants as kinds;
ghost use Rattle.sdr_base.specs.declared.refusal.Refusal.TheVariants as Refusal;
ghost use Rattle.sdr_base.specs.declared.stop.Stop.TheVariants as Stop;
ghost use Rattle.sdr_table.specs.Calls.{CreateStops, DestroysTable, DestroyStops, MakesTable, TellsOfTable};
ghost use Rattle.sdr_table.specs.Kept.{IsAbove, IsTable, first_above};

use byteorder::{BigEndian, ByteOrder};
use sdr_base::layout::table as words;
use sdr_base::{Addr, Kind, Objects, Refusal, Stop, check_failed, expect_kind, word};

/// The most rows of a table, the most bytes of a row, and the most bytes of all rows together.
pub const LARGEST_TABLE: u64 = 1_048_576;

/// Where the rows begin in a table's block, in bytes.
pub const ROWS_FROM: u64 = 24;

/// Makes a table of so many rows of so many zero bytes, with the user's number.
#[tactic(auto, using(sdr_base::proofs::LeavingLemmas::leaving))]
pub fn create<O: Objects>(o: &mut O, rows: u64, size: u64, user: u64) -> Result<Addr, Stop>
    requires kept { KeepsSome (O.keeps o.old) }
    requires spare { 1 ≤ (O.heap o.old).spare }
    ensures made { IfOk result (λ table.
        MakesTable rows size user table (O.heap o.old) (O.heap o.new)) }
    ensures refused { IfErr result (CreateStops rows size (O.heap o.old) (O.heap o.new)) }
    ensures untouched { IfErr result (LeavesTouched (O.transaction o.old) (O.transaction o.new)) }
    ensures works { Spends O.HasHeap (26 + (ROWS_FROM + rows * size) / 64) o.old o.new result }
{
    check_failed(o)?;
    let bytes = bytes_of(rows, size)?;
    let table = o.take(Kind::Table, ROWS_FROM + bytes)?;
    let mut head = [0; 24];
    BigEndian::write_u64_into(&[user, size, rows], &mut head);
    o.put(table, 0, &head)?;
    Ok(table)
}

// The bytes of so many rows of so many bytes, where neither count is too high, nor the bytes are.
fn bytes_of(rows: u64, size: u64) -> Result<u64, Stop>
    ensures fit { IfOk result (λ bytes.
        (bytes ≡ rows * size) × (bytes ≤ LARGEST_TABLE) × (first_above rows size ≡ None)) }
    ensures above { IfErr result (IsAbove rows size) }
{
    check_count(rows)?;
    check_count(size)?;
    check_count(rows * size)?;
    Ok(rows * size)
}

// Refuses a count above the most.
fn check_count(count: u64) -> Result<(), Stop>
    ensures fits { OnOk result (count ≤ LARGEST_TABLE) }
    ensures above { IfErr result (λ stop. (stop
        ≡ Stop.Refused (Refusal.BadLength count LARGEST_TABLE)) × (LARGEST_TABLE < count)) }
{
    if count > LARGEST_TABLE {
        return Err(Stop::Refused(Refusal::BadLength {
            length: count,
            most: LARGEST_TABLE,
        }));
    }
    Ok(())
}

/// How many rows a table has, and the bytes of a row.
pub fn dimensions<O: Objects>(o: &mut O, table: Addr) -> Result<(u64, u64), Stop>
    requires kept { KeepsSome (O.keeps o.old) }
    requires table { IsTable ((O.heap o.old).blocks table) }
    ensures given { IfOk result
        (TellsOfTable (λ t. (t.rows, t.size)) ((O.heap o.old).blocks table)) }
    ensures refused { IfErr result (Misses ((O.heap o.old).blocks table) table kinds.Table) }
    ensures looks { Looks O.HasHeap o.old o.new result }
{
    expect_kind(o, table, Kind::Table)?;
    let rows = word(o, table, words::ROWS)?;
    let size = word(o, table, words::SIZE)?;
    Ok((rows, size))
}

/// The user's number of a table.
pub fn user_data<O: Objects>(o: &mut O, table: Addr) -> Result<u64, Stop>
    requires kept { KeepsSome (O.keeps o.old) }
    requires table { IsTable ((O.heap o.old).blocks table) }
    ensures given { IfOk result (TellsOfTable (λ t. t.user) ((O.heap o.old).blocks table)) }
    ensures refused { IfErr result (Misses ((O.heap o.old).blocks table) table kinds.Table) }
    ensures looks { Looks O.HasHeap o.old o.new result }
{
    expect_kind(o, table, Kind::Table)?;
    word(o, table, words::USER)
}

/// Gives a table back.
#[tactic(auto, using(sdr_base::proofs::LeavingLemmas::leaving))]
pub fn destroy<O: Objects>(o: &mut O, table: Addr) -> Result<(), Stop>
    requires kept { KeepsSome (O.keeps o.old) }
    requires spare { 1 ≤ (O.heap o.old).spare }
    requires table { IsTable ((O.heap o.old).blocks table) }
    ensures destroyed { OnOk result (DestroysTable table (O.heap o.old) (O.heap o.new)) }
    ensures refused { IfErr result (DestroyStops table (O.heap o.old) (O.heap o.new)) }
    ensures untouched { IfErr result (LeavesTouched (O.transaction o.old) (O.transaction o.new)) }
    ensures works { Spends O.HasHeap 24 o.old o.new result }
{
    expect_kind(o, table, Kind::Table)?;
    o.give(table)
}
