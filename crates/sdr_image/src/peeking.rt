// The heap that a disk gives, put back in memory.
ghost use Rattle.std.specs.Prelude.{◌≡◌, ◌≢◌, ◌≤◌, ◌<◌, IfErr, IfOk, IsTrue, None, Some, length};
ghost use Rattle.sdr_base.specs.Causes.{HasCause};
ghost use Rattle.sdr_disk.specs.MemoryDisk.{bytes_now};
ghost use Rattle.sdr_disk.specs.Moments.{Reads};
ghost use Rattle.sdr_image.specs.Opening.{HasImageCause, OnNotFormatted};
ghost use Rattle.sdr_log.specs.Calls.{GivesNone, IsFramed};
ghost use Rattle.sdr_log.specs.Frame.{IsInLimits, disk_bytes};
ghost use Rattle.sdr_log.specs.Log.{first_gate, heap_of, put_back_of};
ghost use Rattle.sdr_log.specs.Logged.{GivesHeap};
ghost use Rattle.sdr_image.specs.Peeking.{IsCopied};

use crate::{ImageError, Still};
use sdr_base::LINE;
use sdr_disk::{Disk, DiskFault, MemoryDisk};
use sdr_log::{BackError, Frame, put_back, read_frame};
use std::alloc::Global;

// The head and the regions of a disk, as a disk in memory.
fn copied<D: Disk>(alloc: Global, disk: &mut D, frame: &Frame) -> Result<MemoryDisk, ImageError>
    requires framed { IsFramed (D.bytes disk.old) frame.now }
    ensures copy { IfOk result (λ copy. IsCopied frame.now (D.bytes disk.old) (bytes_now copy)) }
    ensures size { IfOk result (λ copy. length (bytes_now copy) ≡ disk_bytes frame.now) }
    ensures formatted { IfErr result (λ why. OnNotFormatted why ⊥) }
    ensures cause { HasImageCause (D.faults disk.old) (D.faults disk.new) result }
    ensures reads { Reads D.bytes D.tells_crashes D.moment D.may_hold_after disk.old disk.new }
{
    let mut bytes = vec![in alloc; 0; frame.disk_bytes() as usize]?;
    disk.read_at(0, &mut bytes)?;
    Ok(MemoryDisk::new(bytes, Vec::new(alloc)))
}

// Whether the first gate of a disk is closed.
fn is_closed<D: Disk>(disk: &mut D) -> Result<bool, DiskFault>
    requires long { LINE < length (D.bytes disk.old) }
    ensures closed { IfOk result (λ closed. IsTrue closed → first_gate (D.bytes disk.old) ≡ 0) }
    ensures cause { HasCause (D.faults disk.old) (D.faults disk.new) result }
    ensures reads { Reads D.bytes D.tells_crashes D.moment D.may_hold_after disk.old disk.new }
{
    let mut gate = [0; 1];
    disk.read_at(LINE, &mut gate)?;
    Ok(gate[0] == 0)
}

// The heap region of a disk, as it stands.
fn heap_region<D: Disk>(alloc: Global, disk: &mut D, frame: &Frame) -> Result<Still, ImageError>
    requires limits { IsInLimits frame.now }
    requires fits { disk_bytes frame.now ≤ length (D.bytes disk.old) }
    ensures heap { IfOk result (λ s. s ≡ heap_of frame.now (D.bytes disk.old)) }
    ensures formatted { IfErr result (λ why. OnNotFormatted why ⊥) }
    ensures cause { HasImageCause (D.faults disk.old) (D.faults disk.new) result }
    ensures reads { Reads D.bytes D.tells_crashes D.moment D.may_hold_after disk.old disk.new }
{
    let mut bytes = vec![in alloc; 0; (LINE * frame.heap_lines) as usize]?;
    disk.read_at(frame.heap_place(), &mut bytes)?;
    Ok(Still::of(bytes))
}

// Puts back the open batches of a disk in memory, and gives its heap region. A call of such a disk fails
// only where its record of writes finds no memory.
fn put_back_copy(alloc: Global, copy: &mut MemoryDisk, frame: Frame) -> Result<Still, ImageError>
    requires limits { IsInLimits frame }
    requires fits { disk_bytes frame ≤ length (bytes_now copy.old) }
    ensures heap { IfOk result (λ s. GivesHeap s (bytes_now copy.old)) }
    ensures none { IfErr result (λ why. OnNotFormatted why (GivesNone frame (bytes_now copy.old))) }
    ensures sound { IfErr result (λ why. why ≢ ImageError.DiskFault) }
{
    match put_back(alloc, copy, frame) {
        Ok(_) => match heap_region(alloc, copy, &frame) {
            Ok(still) => Ok(still),
            Err(_) => Err(ImageError::NoMemory),
        },
        Err(BackError::BadLog) => Err(ImageError::NotFormatted),
        Err(BackError::DiskFault) => Err(ImageError::NoMemory),
        Err(BackError::NoMemory) => Err(ImageError::NoMemory),
    }
}

/// Reads the heap that a disk gives, and puts it back in memory, where it stays as it is. The disk is
/// only read: its head, and then its heap region, or where a batch is open both regions, once.
///
/// Memory is taken for the heap region, and where a batch is open for a copy of the regions and for what
/// recovery takes.
pub fn peek<D: Disk>(alloc: Global, disk: &mut D) -> Result<Still, ImageError>
    ensures heap { IfOk result (λ s. put_back_of (D.bytes disk.old) ≡ Some s) }
    ensures not_formatted { IfErr result (λ why. OnNotFormatted why (put_back_of (D.bytes disk.old)
        ≡ None)) }
    ensures cause { HasImageCause (D.faults disk.old) (D.faults disk.new) result }
    ensures reads { Reads D.bytes D.tells_crashes D.moment D.may_hold_after disk.old disk.new }
{
    let Some(frame) = read_frame(disk)? else {
        return Err(ImageError::NotFormatted);
    };
    if is_closed(disk)? {
        return heap_region(alloc, disk, &frame);
    }
    let mut copy = copied(alloc, disk, &frame)?;
    put_back_copy(alloc, &mut copy, frame)
}
