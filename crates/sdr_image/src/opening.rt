// A disk, read for the first time.
ghost use Rattle.std.specs.Prelude.{◌≡◌, ◌≤◌, ◌+◌, ◌*◌, IfOk, IfErr, OnErr, OnOk, None};
ghost use Rattle.sdr_disk.specs.Moments.{AtEach, Only, Reads};
ghost use Rattle.sdr_disk.specs.Pending.{IsSynced};
ghost use Rattle.sdr_disk.specs.Tells.{IfTells};
ghost use Rattle.sdr_log.specs.Calls.{IsFramed, KeepsDisk, KeepsOutside, KeepsRest, PutsBack};
ghost use Rattle.sdr_log.specs.Frame.{IsInLimits};
ghost use Rattle.sdr_log.specs.Left.{IsLeftFrom};
ghost use Rattle.sdr_log.specs.Log.{first_gate, put_back_of};
ghost use Rattle.sdr_log.specs.Logged.{GivesSame};
ghost use Rattle.sdr_image.specs.Lines.{IsFresh};
ghost use Rattle.sdr_image.specs.Opening.{FailsOpening, HasImageCause, MayBeOpened};
ghost use Rattle.sdr_image.specs.Opening.{OnNotFormatted, UnlessFault};

use crate::ImageError;
use crate::buffer::Buffer;
use crate::cache::Cache;
use crate::lines::Lines;
use crate::marks::Marks;
use sdr_base::NoMemory;
use sdr_disk::Disk;
use sdr_log::{BackError, Frame, put_back_found, read_frame};
use std::alloc::Global;

/// How many bytes a batch of as many lines as a buffer holds takes behind its gate.
const BATCH_BYTES: usize = 4_357;

/// What opening takes from a disk, and the memory of an image.
#[derive(Drop)]
pub struct Loaded {
    pub frame: Frame,
    pub lines: Lines,
    /// How many lines were put back.
    pub restored: u64,
}

// All the memory of an image with these regions.
fn reserve(alloc: Global, frame: &Frame) -> Result<Lines, NoMemory>
    requires limits { IsInLimits frame.now }
    ensures fresh { IfOk result (IsFresh frame.now) }
{
    Ok(Lines {
        place: 0,
        logged: 0,
        buffer: Buffer::new(alloc)?,
        marks: Marks::new(alloc, frame.heap_lines as usize)?,
        batch: vec![in alloc; 0; BATCH_BYTES]?,
        cache: Cache::new(alloc)?,
    })
}

// Puts back the open batches of a disk with the head of these regions, and gives how many lines
// that were.
fn restore<D: Disk>(alloc: Global, disk: &mut D, frame: Frame) -> Result<u64, ImageError>
    requires framed { IsFramed (D.bytes disk.old) frame }
    ensures back { IfOk result (λ count. PutsBack frame count (D.bytes disk.old)
        (D.bytes disk.new)) }
    ensures not_formatted { IfErr result (λ why. OnNotFormatted why (put_back_of (D.bytes disk.old)
        ≡ None)) }
    ensures cause { HasImageCause (D.faults disk.old) (D.faults disk.new) result }
    ensures disk { KeepsDisk D.bytes D.tells_crashes disk.old disk.new }
    ensures inside { KeepsOutside frame (D.bytes disk.old) (D.bytes disk.new) }
    ensures same { IfErr result (λ why. UnlessFault why (Reads D.bytes D.tells_crashes D.moment
        D.may_hold_after disk.old disk.new)) }
    ensures synced { OnOk result (IfTells (D.tells_crashes disk.old)
        (MayBeOpened (D.bytes disk.old) (D.may_hold_after disk.old (D.moment disk.old))
        → IsSynced D.bytes D.tells_crashes D.moment D.may_hold_after disk.new)) }
    ensures faulted { OnErr result (FailsOpening D.bytes D.tells_crashes D.moment D.may_hold_after
        disk.old disk.new) }
    ensures quiet { first_gate (D.bytes disk.old) ≡ 0
        → Reads D.bytes D.tells_crashes D.moment D.may_hold_after disk.old disk.new }
    ensures forward { D.moment disk.old ≤ D.moment disk.new }
    ensures calls { IfOk result (λ count.
        D.moment disk.new ≤ D.moment disk.old + 2 * (count + 3)) }
    // Where nothing was pending, a crash leaves what a recovery that was stopped may leave.
    ensures left { IfTells (D.tells_crashes disk.old)
        (Only (D.bytes disk.old) (D.may_hold_after disk.old (D.moment disk.old))
        → AtEach D.moment D.may_hold_after disk.old disk.new (IsLeftFrom (D.bytes disk.old))) }
    ensures any_moment { IfTells (D.tells_crashes disk.old)
        (MayBeOpened (D.bytes disk.old) (D.may_hold_after disk.old (D.moment disk.old))
        → AtEach D.moment D.may_hold_after disk.old disk.new (GivesSame (D.bytes disk.old))) }
{
    match put_back_found(alloc, disk, frame) {
        Ok(count) => Ok(count),
        Err(BackError::BadLog) => Err(ImageError::NotFormatted),
        Err(BackError::DiskFault) => Err(ImageError::DiskFault),
        Err(BackError::NoMemory) => Err(ImageError::NoMemory),
    }
}

/// Takes all the memory of an image, and what it holds from a disk, whose open batches are put
/// back.
pub fn load<D: Disk>(alloc: Global, disk: &mut D) -> Result<Loaded, ImageError>
    ensures found { IfOk result (λ l. IsFramed (D.bytes disk.old) l.frame) }
    ensures back { IfOk result (λ l. PutsBack l.frame l.restored (D.bytes disk.old)
        (D.bytes disk.new)) }
    ensures fresh { IfOk result (λ l. IsFresh l.frame l.lines) }
    ensures synced { OnOk result (IfTells (D.tells_crashes disk.old)
        (MayBeOpened (D.bytes disk.old) (D.may_hold_after disk.old (D.moment disk.old))
        → IsSynced D.bytes D.tells_crashes D.moment D.may_hold_after disk.new)) }

    ensures not_formatted { IfErr result (λ why. OnNotFormatted why (put_back_of (D.bytes disk.old)
        ≡ None)) }
    ensures cause { HasImageCause (D.faults disk.old) (D.faults disk.new) result }
    ensures same { IfErr result (λ why. UnlessFault why (Reads D.bytes D.tells_crashes D.moment
        D.may_hold_after disk.old disk.new)) }
    // After a fault it may be opened again, or it failed as the first gate was being closed.
    ensures faulted { OnErr result (FailsOpening D.bytes D.tells_crashes D.moment D.may_hold_after
        disk.old disk.new) }

    ensures disk { KeepsDisk D.bytes D.tells_crashes disk.old disk.new }
    ensures inside { KeepsRest (D.bytes disk.old) (D.bytes disk.new) }
    ensures quiet { first_gate (D.bytes disk.old) ≡ 0
        → Reads D.bytes D.tells_crashes D.moment D.may_hold_after disk.old disk.new }
    ensures forward { D.moment disk.old ≤ D.moment disk.new }
    ensures calls { IfOk result (λ l.
        D.moment disk.new ≤ D.moment disk.old + 2 * (l.restored + 3)) }
    // Where nothing was pending, a crash leaves what a recovery that was stopped may leave.
    ensures left { IfTells (D.tells_crashes disk.old)
        (Only (D.bytes disk.old) (D.may_hold_after disk.old (D.moment disk.old))
        → AtEach D.moment D.may_hold_after disk.old disk.new (IsLeftFrom (D.bytes disk.old))) }
    ensures any_moment { IfTells (D.tells_crashes disk.old)
        (MayBeOpened (D.bytes disk.old) (D.may_hold_after disk.old (D.moment disk.old))
        → AtEach D.moment D.may_hold_after disk.old disk.new (GivesSame (D.bytes disk.old))) }
{
    let Some(frame) = read_frame(disk)? else {
        return Err(ImageError::NotFormatted);
    };
    let lines = reserve(alloc, &frame)?;
    let restored = restore(alloc, disk, frame)?;
    Ok(Loaded {
        frame,
        lines,
        restored,
    })
}
