// Lines of the heap region, written to their places.
ghost use Rattle.std.specs.Prelude.{◌≡◌, ◌≤◌, ◌<◌, ◌+◌, ◌*◌, ◌∷◌, [], length, OnErr, OnOk, Some};
ghost use Rattle.sdr_base.specs.Causes.{HasCause};
ghost use Rattle.sdr_disk.specs.Moments.{AtEach, Only, Writes};
ghost use Rattle.sdr_base.specs.Parts.{overwrite};
ghost use Rattle.sdr_disk.specs.Ranges.{Agrees, range};
ghost use Rattle.sdr_disk.specs.Tells.{IfTells};
ghost use Rattle.sdr_log.specs.Calls.{AreBelow, KeepsDisk, KeepsOutside, MayPut, Puts, with_records};
ghost use Rattle.sdr_log.specs.Frame.{LieInside, heap_place};
ghost use Rattle.sdr_log.specs.Logged.{GivesSame, IsLogged, line_ranges};

use crate::{Frame, Record};
use sdr_base::LINE;
use sdr_disk::{Disk, DiskFault};

/// Writes a line to its place. It makes one write.
pub fn put_line<D: Disk>(disk: &mut D, frame: Frame, line: &Record) -> Result<(), DiskFault>
    requires regions { LieInside frame (length (D.bytes disk.old)) }
    requires below { line.now.line < frame.heap_lines }

    ensures written { OnOk result (D.bytes disk.new ≡ overwrite (heap_place frame + LINE *
        line.now.line) line.now.bytes (D.bytes disk.old)) }
    ensures long { length line.now.bytes ≡ LINE }
    ensures rises { OnOk result (D.moment disk.new ≡ D.moment disk.old + 2) }
    ensures cause { HasCause (D.faults disk.old) (D.faults disk.new) result }

    ensures others { Agrees (range (heap_place frame + LINE * line.now.line) LINE ∷ [])
        (D.bytes disk.old) (D.bytes disk.new) }
    ensures tells { D.tells_crashes disk.new ≡ D.tells_crashes disk.old }
    ensures size { length (D.bytes disk.new) ≡ length (D.bytes disk.old) }

    ensures moments { Writes D.moment D.may_hold_after (heap_place frame + LINE * line.now.line) LINE
        disk.old disk.new }
{
    disk.write_at(frame.heap_place() + LINE * line.line as u64, &line.bytes)
}

/// Writes lines to their places, in order, and doesn't sync. It makes a write for each.
pub fn put_lines<D: Disk>(disk: &mut D, frame: Frame, lines: &[Record]) -> Result<(), DiskFault>
    requires regions { LieInside frame (length (D.bytes disk.old)) }
    requires below { AreBelow frame.heap_lines lines.now }

    ensures written { OnOk result (D.bytes disk.new ≡ with_records frame lines.now
        (D.bytes disk.old)) }
    ensures cause { HasCause (D.faults disk.old) (D.faults disk.new) result }

    ensures disk { KeepsDisk D.bytes D.tells_crashes disk.old disk.new }
    ensures inside { KeepsOutside frame (D.bytes disk.old) (D.bytes disk.new) }

    ensures puts { OnOk result (IfTells (D.tells_crashes disk.old)
        (MayPut frame lines.now (D.bytes disk.old) (D.may_hold_after disk.old (D.moment disk.old))
        → Puts frame lines.now (D.bytes disk.old) (D.bytes disk.new)
        (D.may_hold_after disk.new (D.moment disk.new)))) }
    // After a fault too the open batches name all that is pending.
    ensures faulted { OnErr result (IfTells (D.tells_crashes disk.old)
        (MayPut frame lines.now (D.bytes disk.old) (D.may_hold_after disk.old (D.moment disk.old))
        → IsLogged frame (D.bytes disk.new) (D.may_hold_after disk.new (D.moment disk.new)))) }
    ensures rises { OnOk result (D.moment disk.new ≡ D.moment disk.old + 2 * length lines.now) }
    ensures forward { D.moment disk.old ≤ D.moment disk.new }
    ensures calls { D.moment disk.new ≤ D.moment disk.old + 2 * length lines.now }
    // Where nothing was pending, a crash leaves other bytes in these lines alone.
    ensures outside { IfTells (D.tells_crashes disk.old)
        (Only (D.bytes disk.old) (D.may_hold_after disk.old (D.moment disk.old))
        → AtEach D.moment D.may_hold_after disk.old disk.new (Agrees (line_ranges frame lines.now)
        (D.bytes disk.old))) }
    ensures any_moment { IfTells (D.tells_crashes disk.old)
        (MayPut frame lines.now (D.bytes disk.old) (D.may_hold_after disk.old (D.moment disk.old))
        → AtEach D.moment D.may_hold_after disk.old disk.new (GivesSame (D.bytes disk.old))) }
{
    let mut rest = lines;
    while let Some((line, after)) = rest.split_first() {
        put_line(disk, frame, line)?;
        rest = after;
    }
    Ok(())
}
