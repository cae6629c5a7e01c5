// A disk, put back after a crash.
ghost use Rattle.std.specs.Prelude.{◌≡◌, ◌≤◌, ◌<◌, ◌+◌, ◌*◌, ◌⊎◌, true, length};
ghost use Rattle.std.specs.Prelude.{IfOk, IfErr, OnErr, OnOk};
ghost use Rattle.sdr_base.specs.Causes.{HasCause};
ghost use Rattle.sdr_disk.specs.Moments.{AtEach, Only, Reads};
ghost use Rattle.sdr_disk.specs.Tells.{IfTells};
ghost use Rattle.sdr_log.specs.BackErrors.{HasBackCause, OnBadLog, UnlessFault};
ghost use Rattle.sdr_log.specs.Calls.{GivesNone, IsFramed, KeepsDisk, KeepsOutside, MayPutBack, PutsBack};
ghost use Rattle.sdr_log.specs.Faulted.{FailsAtGate, FailsBack};
ghost use Rattle.sdr_log.specs.Frame.{LieInside};
ghost use Rattle.sdr_log.specs.Left.{IsLeftFrom};
ghost use Rattle.sdr_log.specs.Log.{are_good, first_gate, log_of};
ghost use Rattle.sdr_log.specs.Logged.{GivesSame, IsAtRest, IsOpen, Logs};

use crate::reading::read_batches;
use crate::{BackError, Frame, Record, close, put_lines, read_frame};
use sdr_base::{Bytes, Items, LINE};
use sdr_disk::{Disk, DiskFault};
use std::alloc::Global;

// The log region of a disk.
fn read_log<D: Disk>(alloc: Global, disk: &mut D, frame: Frame) -> Result<Bytes, BackError>
    requires regions { LieInside frame (length (D.bytes disk.old)) }

    ensures given { IfOk result (λ log. log ≡ log_of frame (D.bytes disk.old)) }
    ensures long { IfOk result (λ log. length log ≡ LINE * frame.log_lines) }
    ensures good { IfErr result (λ why. OnBadLog why ⊥) }
    ensures cause { HasBackCause (D.faults disk.old) (D.faults disk.new) result }

    ensures reads { Reads D.bytes D.tells_crashes D.moment D.may_hold_after disk.old disk.new }
{
    let mut bytes = vec![in alloc; 0; (LINE * frame.log_lines) as usize]?;
    disk.read_at(LINE, &mut bytes)?;
    Ok(Bytes::of(bytes))
}

// The records of the open batches, with all the memory that recovery takes.
fn read_records<D: Disk>(
    alloc: Global,
    disk: &mut D,
    frame: Frame,
) -> Result<Items<Record>, BackError>
    requires framed { IsFramed (D.bytes disk.old) frame }

    ensures logs { IfOk result (λ records. Logs frame (D.bytes disk.old) records) }
    ensures good { IfOk result (λ records. are_good frame.heap_lines records ≡ true) }
    ensures bad_log { IfErr result (λ why. OnBadLog why (GivesNone frame (D.bytes disk.old))) }
    ensures cause { HasBackCause (D.faults disk.old) (D.faults disk.new) result }

    ensures reads { Reads D.bytes D.tells_crashes D.moment D.may_hold_after disk.old disk.new }
{
    let log = read_log(alloc, disk, frame)?;
    let records = read_batches(alloc, frame.heap_lines as usize, log.as_slice())?;
    Ok(records)
}

// Puts back the records of the open batches.
fn restore<D: Disk>(disk: &mut D, frame: Frame, records: &[Record]) -> Result<(), DiskFault>
    requires regions { LieInside frame (length (D.bytes disk.old)) }
    requires good { are_good frame.heap_lines records.now ≡ true }
    requires some { 0 < length records.now }

    ensures forward { D.moment disk.old ≤ D.moment disk.new }
    ensures calls { D.moment disk.new ≤ D.moment disk.old + 2 * (length records.now + 3) }
    ensures back { OnOk result (Logs frame (D.bytes disk.old) records.now
        → PutsBack frame (length records.now) (D.bytes disk.old) (D.bytes disk.new)) }
    ensures cause { HasCause (D.faults disk.old) (D.faults disk.new) result }
    ensures disk { KeepsDisk D.bytes D.tells_crashes disk.old disk.new }
    ensures inside { KeepsOutside frame (D.bytes disk.old) (D.bytes disk.new) }

    ensures rest { OnOk result (IfTells (D.tells_crashes disk.old)
        (Logs frame (D.bytes disk.old) records.now
        → IsOpen frame (D.bytes disk.old) (D.may_hold_after disk.old (D.moment disk.old))
        → IsAtRest frame (D.bytes disk.new) (D.may_hold_after disk.new (D.moment disk.new)))) }
    ensures faulted { OnErr result (IfTells (D.tells_crashes disk.old)
        (Logs frame (D.bytes disk.old) records.now
        → IsOpen frame (D.bytes disk.old) (D.may_hold_after disk.old (D.moment disk.old))
        → MayPutBack frame (D.bytes disk.new) (D.may_hold_after disk.new (D.moment disk.new))
        ⊎ FailsAtGate D.moment D.may_hold_after disk.old disk.new (D.bytes disk.old)
        (D.bytes disk.new))) }
    ensures left { IfTells (D.tells_crashes disk.old)
        (Logs frame (D.bytes disk.old) records.now
        → Only (D.bytes disk.old) (D.may_hold_after disk.old (D.moment disk.old))
        → AtEach D.moment D.may_hold_after disk.old disk.new (IsLeftFrom (D.bytes disk.old))) }
    ensures any_moment { IfTells (D.tells_crashes disk.old)
        (Logs frame (D.bytes disk.old) records.now
        → IsOpen frame (D.bytes disk.old) (D.may_hold_after disk.old (D.moment disk.old))
        → AtEach D.moment D.may_hold_after disk.old disk.new (GivesSame (D.bytes disk.old))) }
{
    put_lines(disk, frame, records)?;
    close(disk, frame)?;
    Ok(())
}

/// Puts back the old lines of all open batches of a disk with the head of these regions and closes
/// them, and gives how many lines that were. All batches are checked before a line is written, and
/// all memory is taken before. Where no batch is open it writes nothing, else a line each, a sync, a
/// gate and a sync. After a fault the disk gives the same heap as before.
pub fn put_back_found<D: Disk>(alloc: Global, disk: &mut D, frame: Frame) -> Result<u64, BackError>
    requires framed { IsFramed (D.bytes disk.old) frame }

    ensures back { IfOk result (λ count. PutsBack frame count (D.bytes disk.old)
        (D.bytes disk.new)) }
    ensures bad_log { IfErr result (λ why. OnBadLog why (GivesNone frame (D.bytes disk.old))) }
    ensures cause { HasBackCause (D.faults disk.old) (D.faults disk.new) result }

    ensures disk { KeepsDisk D.bytes D.tells_crashes disk.old disk.new }
    ensures inside { KeepsOutside frame (D.bytes disk.old) (D.bytes disk.new) }
    // Where it refuses, it has read alone, and so it has where no batch is open.
    ensures same { IfErr result (λ why. UnlessFault why (Reads D.bytes D.tells_crashes D.moment
        D.may_hold_after disk.old disk.new)) }
    ensures quiet { first_gate (D.bytes disk.old) ≡ 0
        → Reads D.bytes D.tells_crashes D.moment D.may_hold_after disk.old disk.new }
    ensures forward { D.moment disk.old ≤ D.moment disk.new }
    ensures calls { IfOk result (λ count.
        D.moment disk.new ≤ D.moment disk.old + 2 * (count + 3)) }

    ensures rest { OnOk result (IfTells (D.tells_crashes disk.old)
        (MayPutBack frame (D.bytes disk.old) (D.may_hold_after disk.old (D.moment disk.old))
        → IsAtRest frame (D.bytes disk.new) (D.may_hold_after disk.new (D.moment disk.new)))) }
    // After a fault it may be put back again, or it failed as the first gate was being closed.
    ensures faulted { OnErr result (FailsBack frame D.bytes D.tells_crashes D.moment
        D.may_hold_after disk.old disk.new) }
    // Where nothing was pending, a crash leaves what a recovery that was stopped may leave.
    ensures left { IfTells (D.tells_crashes disk.old)
        (Only (D.bytes disk.old) (D.may_hold_after disk.old (D.moment disk.old))
        → AtEach D.moment D.may_hold_after disk.old disk.new (IsLeftFrom (D.bytes disk.old))) }
    ensures any_moment { IfTells (D.tells_crashes disk.old)
        (MayPutBack frame (D.bytes disk.old) (D.may_hold_after disk.old (D.moment disk.old))
        → AtEach D.moment D.may_hold_after disk.old disk.new (GivesSame (D.bytes disk.old))) }
{
    let records = read_records(alloc, disk, frame)?;
    if records.len() == 0 {
        return Ok(0);
    }
    restore(disk, frame, records.as_slice())?;
    Ok(records.len() as u64)
}

/// The same on any disk. It is refused where the disk hasn't the head of these regions.
pub fn put_back<D: Disk>(alloc: Global, disk: &mut D, frame: Frame) -> Result<u64, BackError>
    ensures back { IfOk result (λ count. PutsBack frame count (D.bytes disk.old)
        (D.bytes disk.new)) }
    ensures bad_log { IfErr result (λ why. OnBadLog why (GivesNone frame (D.bytes disk.old))) }
    ensures cause { HasBackCause (D.faults disk.old) (D.faults disk.new) result }

    ensures disk { KeepsDisk D.bytes D.tells_crashes disk.old disk.new }
    ensures inside { KeepsOutside frame (D.bytes disk.old) (D.bytes disk.new) }
    // Where it refuses, it has read alone, and so it has where no batch is open.
    ensures same { IfErr result (λ why. UnlessFault why (Reads D.bytes D.tells_crashes D.moment
        D.may_hold_after disk.old disk.new)) }
    ensures quiet { first_gate (D.bytes disk.old) ≡ 0
        → Reads D.bytes D.tells_crashes D.moment D.may_hold_after disk.old disk.new }
    ensures forward { D.moment disk.old ≤ D.moment disk.new }
    ensures calls { IfOk result (λ count.
        D.moment disk.new ≤ D.moment disk.old + 2 * (count + 3)) }

    ensures rest { OnOk result (IfTells (D.tells_crashes disk.old)
        (MayPutBack frame (D.bytes disk.old) (D.may_hold_after disk.old (D.moment disk.old))
        → IsAtRest frame (D.bytes disk.new) (D.may_hold_after disk.new (D.moment disk.new)))) }
    // After a fault it may be put back again, or it failed as the first gate was being closed.
    ensures faulted { OnErr result (FailsBack frame D.bytes D.tells_crashes D.moment
        D.may_hold_after disk.old disk.new) }
    // Where nothing was pending, a crash leaves what a recovery that was stopped may leave.
    ensures left { IfTells (D.tells_crashes disk.old)
        (Only (D.bytes disk.old) (D.may_hold_after disk.old (D.moment disk.old))
        → AtEach D.moment D.may_hold_after disk.old disk.new (IsLeftFrom (D.bytes disk.old))) }
    ensures any_moment { IfTells (D.tells_crashes disk.old)
        (MayPutBack frame (D.bytes disk.old) (D.may_hold_after disk.old (D.moment disk.old))
        → AtEach D.moment D.may_hold_after disk.old disk.new (GivesSame (D.bytes disk.old))) }
{
    let found = read_frame(disk)?;
    if found != Some(frame) {
        return Err(BackError::BadLog);
    }
    let count = put_back_found(alloc, disk, frame)?;
    Ok(count)
}
