// The buffer's lines, spilled to make room.
ghost use Rattle.std.specs.Prelude.{◌≡◌, ◌≤◌, ◌<◌, ◌+◌, ◌*◌, [], length, OnOk};
ghost use Rattle.sdr_base.specs.Causes.{HasCause};
ghost use Rattle.sdr_log.specs.Frame.{LieInside};
ghost use Rattle.sdr_image.specs.Lines.{IsLines, Leaves, MarksSame, Stands, Steps, begun_of, now_of};

use crate::buffer::MOST_BUFFERED;
use crate::lines::Lines;
use crate::marks::Stand;
use sdr_disk::{Disk, DiskFault};
use sdr_log::Frame;

// Opens a batch of the buffer's lines, by rising number, and writes them to the heap region.
fn spill<D: Disk>(disk: &mut D, frame: Frame, lines: &mut Lines) -> Result<(), DiskFault>
    requires regions { LieInside frame (length (D.bytes disk.old)) }
    requires kept { IsLines frame lines.old }
    requires stands { Stands frame (begun_of (D.bytes disk.old)) lines.old (D.bytes disk.old) }
    requires some { 0 < length lines.old.buffer.olds }

    ensures empty { OnOk result (lines.new.buffer.olds ≡ []) }
    ensures leaves { OnOk result (Leaves D.bytes D.tells_crashes D.moment D.may_hold_after frame
        disk.old disk.new lines.new (now_of frame lines.old (D.bytes disk.old))) }
    ensures cause { HasCause (D.faults disk.old) (D.faults disk.new) result }

    ensures marks { MarksSame lines.old.marks lines.new.marks }
    ensures cache { lines.new.cache ≡ lines.old.cache }
    ensures steps { Steps D.bytes D.tells_crashes D.moment D.may_hold_after frame disk.old disk.new
        lines.old lines.new }
    ensures calls { D.moment disk.new ≤ D.moment disk.old + 2 * 68 }
{
    lines.buffer.rise();
    let count = lines.buffer.len();
    let next = sdr_log::spill(
        disk,
        frame,
        lines.place,
        lines.buffer.olds(),
        lines.buffer.news(),
        &mut lines.batch,
    )?;
    lines.place = next;
    lines.logged += count as u64;
    lines.marks.set_all(lines.buffer.olds(), Stand::Logged);
    lines.buffer.clear();
    Ok(())
}

/// Makes room in the buffer for a line more: where it is full, its lines are spilled.
pub fn make_room<D: Disk>(disk: &mut D, frame: Frame, lines: &mut Lines) -> Result<(), DiskFault>
    requires regions { LieInside frame (length (D.bytes disk.old)) }
    requires kept { IsLines frame lines.old }
    requires stands { Stands frame (begun_of (D.bytes disk.old)) lines.old (D.bytes disk.old) }

    ensures room { OnOk result (length lines.new.buffer.olds < MOST_BUFFERED) }
    ensures leaves { OnOk result (Leaves D.bytes D.tells_crashes D.moment D.may_hold_after frame
        disk.old disk.new lines.new (now_of frame lines.old (D.bytes disk.old))) }
    ensures cause { HasCause (D.faults disk.old) (D.faults disk.new) result }

    ensures marks { MarksSame lines.old.marks lines.new.marks }
    ensures cache { lines.new.cache ≡ lines.old.cache }
    ensures steps { Steps D.bytes D.tells_crashes D.moment D.may_hold_after frame disk.old disk.new
        lines.old lines.new }
    ensures calls { D.moment disk.new ≤ D.moment disk.old + 2 * 68 }
{
    if lines.buffer.len() < MOST_BUFFERED {
        return Ok(());
    }
    spill(disk, frame, lines)?;
    Ok(())
}
