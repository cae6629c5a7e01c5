// Old lines, put back as they are read from the log region.
ghost use Rattle.std.specs.Prelude.{◌≡◌, ◌≤◌, ◌<◌, ◌+◌, ◌*◌, ◌^◌, List, length, IfOk, OnOk};
ghost use Rattle.sdr_base.specs.Causes.{HasCause};
ghost use Rattle.sdr_base.specs.Parts.{part};
ghost use Rattle.sdr_disk.specs.Moments.{AtEach, Reads};
ghost use Rattle.sdr_disk.specs.Pending.{IsSynced};
ghost use Rattle.sdr_disk.specs.Tells.{IfTells};
ghost use Rattle.sdr_log.specs.Calls.{AreBelow, KeepsDisk, KeepsOutside, MayPut, Puts, PutsBack, with_records};
ghost use Rattle.sdr_log.specs.Frame.{LieInside, first_number};
ghost use Rattle.sdr_log.specs.Logged.{GivesSame, IsAtRest, IsLogged, Logs};
ghost use Rattle.sdr_log.specs.Undoing.{AreOpen, record_at, record_of, records_at};

use crate::lines::put_line;
use crate::{Frame, Record, close};
use byteorder::{BigEndian, ByteOrder};
use sdr_base::LINE;
use sdr_disk::{Disk, DiskFault};

// The record whose bytes these are.
#[tactic(auto, unfolding(crate::specs::Frame::first_number))]
fn record_of(bytes: &[u8; 68]) -> Record
    ensures { result ≡ record_of bytes.now }
{
    let mut old = [0; 64];
    old.copy_from_slice(&bytes[4..68]);
    Record {
        line: BigEndian::read_u32(&bytes[..4]),
        bytes: old,
    }
}

// The record at a place of the disk.
fn read_record<D: Disk>(disk: &mut D, place: u64) -> Result<Record, DiskFault>
    requires inside { place + 68 ≤ length (D.bytes disk.old) }
    ensures given { IfOk result (λ r. r ≡ record_at place (D.bytes disk.old)) }
    ensures cause { HasCause (D.faults disk.old) (D.faults disk.new) result }
    ensures reads { Reads D.bytes D.tells_crashes D.moment D.may_hold_after disk.old disk.new }
{
    let mut bytes = [0; 68];
    disk.read_at(place, &mut bytes)?;
    Ok(record_of(&bytes))
}

// Puts back so many records from a place of the log region on, as they are read. It makes a read
// and a write for each.
fn restore_records<D: Disk>(
    disk: &mut D,
    frame: Frame,
    place: u64,
    count: u64,
) -> Result<(), DiskFault>
    requires regions { LieInside frame (length (D.bytes disk.old)) }
    requires inside { place + 68 * count ≤ LINE * frame.log_lines }
    requires below { AreBelow frame.heap_lines (records_at (LINE + place) count
        (D.bytes disk.old)) }

    ensures written { OnOk result (D.bytes disk.new ≡ with_records frame
        (records_at (LINE + place) count (D.bytes disk.old)) (D.bytes disk.old)) }
    ensures cause { HasCause (D.faults disk.old) (D.faults disk.new) result }

    ensures disk { KeepsDisk D.bytes D.tells_crashes disk.old disk.new }
    ensures inside { KeepsOutside frame (D.bytes disk.old) (D.bytes disk.new) }

    ensures puts { OnOk result
        (MayPut frame (records_at (LINE + place) count (D.bytes disk.old)) (D.bytes disk.old)
        (D.may_hold_after disk.old (D.moment disk.old))
        → Puts frame (records_at (LINE + place) count (D.bytes disk.old)) (D.bytes disk.old)
        (D.bytes disk.new) (D.may_hold_after disk.new (D.moment disk.new))) }
    ensures forward { D.moment disk.old ≤ D.moment disk.new }
    ensures calls { D.moment disk.new ≤ D.moment disk.old + 2 * count }
    ensures any_moment { MayPut frame (records_at (LINE + place) count (D.bytes disk.old))
        (D.bytes disk.old) (D.may_hold_after disk.old (D.moment disk.old))
        → AtEach D.moment D.may_hold_after disk.old disk.new (GivesSame (D.bytes disk.old)) }
{
    for done in 0..count {
        let old = read_record(disk, LINE + place + 68 * done)?;
        put_line(disk, frame, &old)?;
    }
    Ok(())
}

// How many records the batch has whose gate stands at a place of the disk.
#[tactic(auto, unfolding(crate::specs::Frame::first_number))]
fn read_count<D: Disk>(disk: &mut D, place: u64) -> Result<u64, DiskFault>
    requires inside { place + 5 ≤ length (D.bytes disk.old) }
    requires small { place < 2 ^ 60 }
    ensures given { IfOk result (λ n. n ≡ first_number (part (place + 1) 4 (D.bytes disk.old))) }
    ensures few { IfOk result (λ n. n < 2 ^ 32) }
    ensures cause { HasCause (D.faults disk.old) (D.faults disk.new) result }
    ensures reads { Reads D.bytes D.tells_crashes D.moment D.may_hold_after disk.old disk.new }
{
    let mut bytes = [0; 4];
    disk.read_at(place + 1, &mut bytes)?;
    Ok(BigEndian::read_u32(&bytes) as u64)
}

/// Puts back the old lines of all open batches, which end at a place of the log region, and closes
/// them. It takes no memory. It makes a write for each line, a sync, a write and a sync. A crash on
/// the way leaves the same heap as before.
pub fn undo<D: Disk>(disk: &mut D, frame: Frame, end: u64) -> Result<(), DiskFault>
    requires regions { LieInside frame (length (D.bytes disk.old)) }
    requires batches { AreOpen frame end (D.bytes disk.old) }

    ensures back { OnOk result ((records : List Record) → Logs frame (D.bytes disk.old) records
        → PutsBack frame (length records) (D.bytes disk.old) (D.bytes disk.new)) }
    ensures cause { HasCause (D.faults disk.old) (D.faults disk.new) result }

    ensures disk { KeepsDisk D.bytes D.tells_crashes disk.old disk.new }
    ensures inside { KeepsOutside frame (D.bytes disk.old) (D.bytes disk.new) }

    ensures synced { OnOk result (IsSynced D.bytes D.tells_crashes D.moment D.may_hold_after
        disk.new) }
    ensures rest { OnOk result (IfTells (D.tells_crashes disk.old)
        (IsLogged frame (D.bytes disk.old) (D.may_hold_after disk.old (D.moment disk.old))
        → IsAtRest frame (D.bytes disk.new) (D.may_hold_after disk.new (D.moment disk.new)))) }
    ensures forward { D.moment disk.old ≤ D.moment disk.new }
    ensures calls { (records : List Record) → Logs frame (D.bytes disk.old) records
        → D.moment disk.new ≤ D.moment disk.old + 2 * (length records + 3) }
    ensures any_moment { IfTells (D.tells_crashes disk.old)
        (IsLogged frame (D.bytes disk.old) (D.may_hold_after disk.old (D.moment disk.old))
        → AtEach D.moment D.may_hold_after disk.old disk.new (GivesSame (D.bytes disk.old))) }
{
    let mut place = 0;
    while place < end {
        let count = read_count(disk, LINE + place)?;
        restore_records(disk, frame, place + 5, count)?;
        place += 5 + 68 * count;
    }
    close(disk, frame)?;
    Ok(())
}
