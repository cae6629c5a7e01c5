// Lines of an open transaction, written before its end.
ghost use Rattle.std.specs.Prelude.{◌≡◌, ◌≤◌, ◌<◌, ◌+◌, ◌*◌, ℕ, List, true, length, IfOk, OnOk};
ghost use Rattle.sdr_base.specs.Causes.{HasCause};
ghost use Rattle.sdr_base.specs.Parts.{overwrite};
ghost use Rattle.sdr_disk.specs.Moments.{AtEach};
ghost use Rattle.sdr_disk.specs.Tells.{IfTells};
ghost use Rattle.sdr_log.specs.Batch.{batch_size, with_batch};
ghost use Rattle.sdr_log.specs.Calls.{AreBelow, AreNamed, HasPlace, KeepsDisk, KeepsOutside, with_records};
ghost use Rattle.sdr_log.specs.Frame.{LieInside, heap_place};
ghost use Rattle.sdr_log.specs.Log.{names_line};
ghost use Rattle.sdr_log.specs.Logged.{GivesHeap};
ghost use Rattle.sdr_log.specs.Spilled.{KeepsBegin, MaySpill, PutsThrough, Spills};

use crate::{Frame, Record, put_lines, write_batch};
use sdr_base::LINE;
use sdr_disk::{Disk, DiskFault};

/// Opens a batch of lines behind the open ones, with the bytes that they had at begin, puts new
/// bytes into them, and gives the place of the next gate. It makes a write for each line, and two
/// writes and two syncs more.
pub fn spill<D: Disk>(
    disk: &mut D,
    frame: Frame,
    place: u64,
    olds: &[Record],
    news: &[Record],
    buffer: &mut [u8],
) -> Result<u64, DiskFault>
    requires regions { LieInside frame (length (D.bytes disk.old)) }
    requires place { HasPlace frame place (length olds.now) (length buffer.old) }
    requires below { AreBelow frame.heap_lines news.now }
    requires named { AreNamed olds.now news.now }

    ensures next { IfOk result (λ next. next ≡ place + batch_size (length olds.now)) }
    ensures written { OnOk result (D.bytes disk.new ≡ with_records frame news.now
        (with_batch place olds.now (D.bytes disk.old))) }
    ensures cause { HasCause (D.faults disk.old) (D.faults disk.new) result }

    ensures disk { KeepsDisk D.bytes D.tells_crashes disk.old disk.new }
    ensures inside { KeepsOutside frame (D.bytes disk.old) (D.bytes disk.new) }

    ensures spills { OnOk result (IfTells (D.tells_crashes disk.old)
        ((begun : List ℕ) (records : List Record)
        → MaySpill frame begun place records olds.now (D.bytes disk.old)
        (D.may_hold_after disk.old (D.moment disk.old))
        → Spills frame begun place records olds.now news.now (D.bytes disk.old)
        (D.bytes disk.new) (D.may_hold_after disk.new (D.moment disk.new)))) }
    ensures forward { D.moment disk.old ≤ D.moment disk.new }
    ensures calls { D.moment disk.new ≤ D.moment disk.old + 2 * (length news.now + 4) }
    // A crash leaves the bytes at begin.
    ensures any_moment { IfTells (D.tells_crashes disk.old)
        ((begun : List ℕ) (records : List Record)
        → MaySpill frame begun place records olds.now (D.bytes disk.old)
        (D.may_hold_after disk.old (D.moment disk.old))
        → AtEach D.moment D.may_hold_after disk.old disk.new (GivesHeap begun)) }
{
    let next = write_batch(disk, frame, place, olds, buffer)?;
    put_lines(disk, frame, news)?;
    Ok(next)
}

/// Writes a line to its place that an open batch names. It makes one write.
pub fn put_through<D: Disk>(disk: &mut D, frame: Frame, line: Record) -> Result<(), DiskFault>
    requires regions { LieInside frame (length (D.bytes disk.old)) }
    requires below { line.line < frame.heap_lines }

    ensures written { OnOk result (D.bytes disk.new ≡ overwrite (heap_place frame + LINE *
        line.line) line.bytes (D.bytes disk.old)) }
    ensures cause { HasCause (D.faults disk.old) (D.faults disk.new) result }

    ensures disk { KeepsDisk D.bytes D.tells_crashes disk.old disk.new }
    ensures inside { KeepsOutside frame (D.bytes disk.old) (D.bytes disk.new) }

    ensures through { OnOk result (IfTells (D.tells_crashes disk.old)
        ((begun : List ℕ) (place : ℕ) (records : List Record)
        → KeepsBegin frame begun place records (D.bytes disk.old)
        (D.may_hold_after disk.old (D.moment disk.old))
        → names_line records line.line ≡ true
        → PutsThrough frame begun place records line (D.bytes disk.old) (D.bytes disk.new)
        (D.may_hold_after disk.new (D.moment disk.new)))) }
    ensures forward { D.moment disk.old ≤ D.moment disk.new }
    ensures calls { D.moment disk.new ≤ D.moment disk.old + 2 }
    ensures any_moment { IfTells (D.tells_crashes disk.old)
        ((begun : List ℕ) (place : ℕ) (records : List Record)
        → KeepsBegin frame begun place records (D.bytes disk.old)
        (D.may_hold_after disk.old (D.moment disk.old))
        → names_line records line.line ≡ true
        → AtEach D.moment D.may_hold_after disk.old disk.new (GivesHeap begun)) }
{
    put_lines(disk, frame, &[line])?;
    Ok(())
}
