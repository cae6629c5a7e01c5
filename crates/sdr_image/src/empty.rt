// An empty heap, written to a disk.
ghost use Rattle.std.specs.Prelude.{◌≡◌, ◌≤◌, ◌<◌, ◌+◌, ◌∷◌, [], length, OnOk};
ghost use Rattle.std.specs.Prelude.{replicate};
ghost use Rattle.sdr_base.specs.Causes.{HasCause};
ghost use Rattle.sdr_base.specs.FreshHeap.{fresh_heap};
ghost use Rattle.sdr_base.specs.Parts.{overwrite};
ghost use Rattle.sdr_log.specs.Frame.{IsInLimits, disk_bytes, heap_place, head_of};
ghost use Rattle.sdr_image.specs.Format.{formatted, HasFormatCause, IfTooSmall};
ghost use Rattle.sdr_disk.specs.Pending.{IsSynced};

use crate::FormatError;
use crate::fresh::fresh_control;
use crate::zeros::write_zeros;
use sdr_base::LINE;
use sdr_disk::{Disk, DiskFault};
use sdr_log::Frame;

// Step 1: no head, so that from here on the disk gives no heap.
fn erase_head<D: Disk>(disk: &mut D) -> Result<(), DiskFault>
    requires { 64 ≤ length (D.bytes disk.old) }
    ensures written { OnOk result (D.bytes disk.new ≡ overwrite 0 (replicate 64 0)
        (D.bytes disk.old)) }
    ensures tells { D.tells_crashes disk.new ≡ D.tells_crashes disk.old }
    ensures size { length (D.bytes disk.new) ≡ length (D.bytes disk.old) }
    ensures cause { HasCause (D.faults disk.old) (D.faults disk.new) result }
{
    disk.write_at(0, &[0; 64])?;
    disk.sync()
}

// The heap region of a fresh heap, in pieces, without a sync.
fn write_heap<D: Disk>(disk: &mut D, frame: &Frame) -> Result<(), DiskFault>
    requires limits { IsInLimits frame.now }
    requires inside { disk_bytes frame.now ≤ length (D.bytes disk.old) }
    ensures written { OnOk result (D.bytes disk.new ≡ overwrite (heap_place frame.now) (fresh_heap
        frame.now.heap_lines) (D.bytes disk.old)) }
    ensures tells { D.tells_crashes disk.new ≡ D.tells_crashes disk.old }
    ensures size { length (D.bytes disk.new) ≡ length (D.bytes disk.old) }
    ensures cause { HasCause (D.faults disk.old) (D.faults disk.new) result }
{
    disk.write_at(frame.heap_place(), &fresh_control(frame.heap_lines))?;
    write_zeros(
        disk,
        frame.heap_place() + 1024,
        LINE * frame.heap_lines - 1024,
    )?;
    Ok(())
}

// Step 2: the first gate, closed, and the heap region.
fn write_regions<D: Disk>(disk: &mut D, frame: &Frame) -> Result<(), DiskFault>
    requires limits { IsInLimits frame.now }
    requires inside { disk_bytes frame.now ≤ length (D.bytes disk.old) }
    ensures written { OnOk result (D.bytes disk.new ≡ overwrite (heap_place frame.now) (fresh_heap
        frame.now.heap_lines) (overwrite LINE (0 ∷ []) (D.bytes disk.old))) }
    ensures tells { D.tells_crashes disk.new ≡ D.tells_crashes disk.old }
    ensures size { length (D.bytes disk.new) ≡ length (D.bytes disk.old) }
    ensures cause { HasCause (D.faults disk.old) (D.faults disk.new) result }
{
    disk.write_at(LINE, &[0])?;
    write_heap(disk, frame)?;
    disk.sync()
}

// Step 3: the head. At `Ok` the disk gives the fresh heap.
fn write_head<D: Disk>(disk: &mut D, frame: &Frame) -> Result<(), DiskFault>
    requires limits { IsInLimits frame.now }
    requires inside { disk_bytes frame.now ≤ length (D.bytes disk.old) }
    ensures written { OnOk result (D.bytes disk.new ≡ overwrite 0 (head_of frame.now)
        (D.bytes disk.old)) }
    ensures tells { D.tells_crashes disk.new ≡ D.tells_crashes disk.old }
    ensures size { length (D.bytes disk.new) ≡ length (D.bytes disk.old) }
    ensures cause { HasCause (D.faults disk.old) (D.faults disk.new) result }
    ensures durable { OnOk result (IsSynced D.bytes D.tells_crashes D.moment D.may_hold_after
        disk.new) }
{
    disk.write_at(0, &frame.head())?;
    disk.sync()
}

/// Makes an empty heap of a disk, whose content is lost but for what lies behind its regions. It
/// takes no memory. At `Ok` nothing is pending. After a `DiskFault` the disk has to be formatted
/// again.
pub fn format<D: Disk>(disk: &mut D, frame: Frame) -> Result<(), FormatError>
    requires { IsInLimits frame }
    ensures formatted { OnOk result (D.bytes disk.new ≡ formatted frame (D.bytes disk.old)) }

    ensures durable { OnOk result (IsSynced D.bytes D.tells_crashes D.moment D.may_hold_after
        disk.new) }

    ensures same { IfTooSmall result (disk.new ≡ disk.old) }
    ensures cause { HasFormatCause (disk_bytes frame) (length (D.bytes disk.old)) (D.faults
        disk.old) (D.faults disk.new) result }

    ensures tells { D.tells_crashes disk.new ≡ D.tells_crashes disk.old }
    ensures size { length (D.bytes disk.new) ≡ length (D.bytes disk.old) }
{
    let need = frame.disk_bytes();
    let have = disk.len();
    if have < need {
        return Err(FormatError::TooSmall { need, have });
    }
    erase_head(disk)?;
    write_regions(disk, &frame)?;
    write_head(disk, &frame)?;
    Ok(())
}
