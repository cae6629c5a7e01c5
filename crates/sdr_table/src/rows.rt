// The rows of a table.
ghost use Rattle.std.specs.Prelude.{◌≡◌, ◌+◌, ◌/◌, ◌≤◌, ◌<◌, length, IfOk, IfErr, OnOk};
ghost use Rattle.sdr_base.specs.Moves.{KeepsSome};
ghost use Rattle.sdr_base.specs.Transaction.{LeavesTouched};
ghost use Rattle.sdr_base.specs.Works.{Looks, Spends};
ghost use Rattle.sdr_table.specs.Kept.{IsTable};
ghost use Rattle.sdr_table.specs.Rows.{HasRow, LacksRow, ReadsRow, RowStops, SetsRow, SetStops};

use crate::table::ROWS_FROM;
use sdr_base::layout::table as words;
use sdr_base::{Addr, Kind, Objects, Refusal, Stop, expect_kind, word};

/// The most bytes of a row that is read.
pub const LONGEST_ROW: u64 = 4096;

/// Puts a row of a table into the first bytes of a buffer, and answers how many they are.
pub fn row<O: Objects>(o: &mut O, table: Addr, row: u64, into: &mut [u8; 4096]) -> Result<u64, Stop>
    requires kept { KeepsSome (O.keeps o.old) }
    requires table { IsTable ((O.heap o.old).blocks table) }
    ensures given { IfOk result
        (λ size. ReadsRow ((O.heap o.old).blocks table) row size into.new) }
    ensures refused { IfErr result (RowStops ((O.heap o.old).blocks table) table row) }
    ensures looks { Looks O.HasHeap o.old o.new result }
{
    let size = row_size(o, table, row)?;
    if size > LONGEST_ROW {
        return Err(Stop::Refused(Refusal::BadLength {
            length: size,
            most: LONGEST_ROW,
        }));
    }
    o.get(table, ROWS_FROM + size * row, &mut into[..size as usize])?;
    Ok(size)
}

/// Sets a row of a table to bytes of its size.
#[tactic(auto, using(sdr_base::proofs::LeavingLemmas::leaving))]
pub fn set_row<O: Objects>(o: &mut O, table: Addr, row: u64, from: &[u8]) -> Result<(), Stop>
    requires kept { KeepsSome (O.keeps o.old) }
    requires table { IsTable ((O.heap o.old).blocks table) }
    ensures set { OnOk result (SetsRow table row from.now (O.heap o.old) (O.heap o.new)) }
    ensures refused { IfErr result
        (SetStops table row (length from.now) (O.heap o.old) (O.heap o.new)) }
    ensures untouched { IfErr result (LeavesTouched (O.transaction o.old) (O.transaction o.new)) }
    ensures works { Spends O.HasHeap (2 + length from.now / 64) o.old o.new result }
{
    let size = row_size(o, table, row)?;
    if from.len() as u64 != size {
        return Err(Stop::Refused(Refusal::BadLength {
            length: from.len() as u64,
            most: size,
        }));
    }
    o.put(table, ROWS_FROM + size * row, from)
}

// The bytes of a row, where the table has the row.
fn row_size<O: Objects>(o: &mut O, table: Addr, row: u64) -> Result<u64, Stop>
    requires kept { KeepsSome (O.keeps o.old) }
    requires table { IsTable ((O.heap o.old).blocks table) }
    ensures given { IfOk result (HasRow ((O.heap o.old).blocks table) row) }
    ensures refused { IfErr result (LacksRow ((O.heap o.old).blocks table) table row) }
    ensures looks { Looks O.HasHeap o.old o.new result }
{
    expect_kind(o, table, Kind::Table)?;
    let rows = word(o, table, words::ROWS)?;
    if row >= rows {
        return Err(Stop::Refused(Refusal::BadRow { row, rows }));
    }
    word(o, table, words::SIZE)
}
