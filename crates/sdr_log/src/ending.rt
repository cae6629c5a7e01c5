// How a transaction ends whose lines are spilled.
ghost use Rattle.std.specs.Prelude.{◌≡◌, ◌≤◌, ◌<◌, ◌+◌, ◌*◌, ◌∷◌, [], ℕ, List, length, OnOk};
ghost use Rattle.sdr_base.specs.Causes.{HasCause};
ghost use Rattle.sdr_base.specs.Parts.{overwrite};
ghost use Rattle.sdr_disk.specs.Moments.{AtEach};
ghost use Rattle.sdr_disk.specs.Pending.{IsSynced};
ghost use Rattle.sdr_disk.specs.Tells.{IfTells};
ghost use Rattle.sdr_log.specs.Batch.{with_batch};
ghost use Rattle.sdr_log.specs.Calls.{AreBelow, AreNamed, HasPlace, KeepsDisk, KeepsOutside, with_records};
ghost use Rattle.sdr_log.specs.Frame.{LieInside};
ghost use Rattle.sdr_log.specs.Log.{heap_of, put_records};
ghost use Rattle.sdr_log.specs.Spilled.{Ends, GivesEither, KeepsBegin, MaySpill};

use crate::{Frame, Record, close, spill};
use sdr_base::LINE;
use sdr_disk::{Disk, DiskFault};

/// Spills the last lines of a transaction, and closes all its batches: the heap region has the new
/// bytes of all lines, and nothing is pending. It makes a write for each of the last lines, and
/// seven writes and syncs more.
pub fn end_with<D: Disk>(
    disk: &mut D,
    frame: Frame,
    place: u64,
    olds: &[Record],
    news: &[Record],
    buffer: &mut [u8],
) -> Result<(), DiskFault>
    requires regions { LieInside frame (length (D.bytes disk.old)) }
    requires place { HasPlace frame place (length olds.now) (length buffer.old) }
    requires below { AreBelow frame.heap_lines news.now }
    requires named { AreNamed olds.now news.now }

    ensures written { OnOk result (D.bytes disk.new ≡ overwrite LINE (0 ∷ []) (with_records frame
        news.now (with_batch place olds.now (D.bytes disk.old)))) }
    ensures cause { HasCause (D.faults disk.old) (D.faults disk.new) result }

    ensures disk { KeepsDisk D.bytes D.tells_crashes disk.old disk.new }
    ensures inside { KeepsOutside frame (D.bytes disk.old) (D.bytes disk.new) }

    ensures ends { OnOk result (IfTells (D.tells_crashes disk.old)
        ((begun : List ℕ) (records : List Record)
        → MaySpill frame begun place records olds.now (D.bytes disk.old)
        (D.may_hold_after disk.old (D.moment disk.old))
        → Ends frame (put_records news.now (heap_of frame (D.bytes disk.old)))
        (D.bytes disk.new) (D.may_hold_after disk.new (D.moment disk.new)))) }
    ensures synced { OnOk result (IsSynced D.bytes D.tells_crashes D.moment D.may_hold_after
        disk.new) }
    ensures forward { D.moment disk.old ≤ D.moment disk.new }
    ensures calls { D.moment disk.new ≤ D.moment disk.old + 2 * (length news.now + 7) }
    // A crash leaves the bytes at begin, or those at the end.
    ensures any_moment { IfTells (D.tells_crashes disk.old)
        ((begun : List ℕ) (records : List Record)
        → MaySpill frame begun place records olds.now (D.bytes disk.old)
        (D.may_hold_after disk.old (D.moment disk.old))
        → AtEach D.moment D.may_hold_after disk.old disk.new
        (GivesEither begun (put_records news.now (heap_of frame (D.bytes disk.old))))) }
{
    spill(disk, frame, place, olds, news, buffer)?;
    close(disk, frame)?;
    Ok(())
}

/// The same where all lines are spilled already: it closes the batches. It makes a sync, a write
/// and a sync.
pub fn end_spilled<D: Disk>(disk: &mut D, frame: Frame) -> Result<(), DiskFault>
    requires regions { LieInside frame (length (D.bytes disk.old)) }

    ensures written { OnOk result (D.bytes disk.new ≡ overwrite LINE (0 ∷ []) (D.bytes disk.old)) }
    ensures cause { HasCause (D.faults disk.old) (D.faults disk.new) result }

    ensures disk { KeepsDisk D.bytes D.tells_crashes disk.old disk.new }
    ensures inside { KeepsOutside frame (D.bytes disk.old) (D.bytes disk.new) }

    ensures ends { OnOk result (IfTells (D.tells_crashes disk.old)
        ((begun : List ℕ) (place : ℕ) (records : List Record)
        → KeepsBegin frame begun place records (D.bytes disk.old)
        (D.may_hold_after disk.old (D.moment disk.old))
        → 0 < length records
        → Ends frame (heap_of frame (D.bytes disk.old)) (D.bytes disk.new)
        (D.may_hold_after disk.new (D.moment disk.new)))) }
    ensures synced { OnOk result (IsSynced D.bytes D.tells_crashes D.moment D.may_hold_after
        disk.new) }
    ensures forward { D.moment disk.old ≤ D.moment disk.new }
    ensures calls { D.moment disk.new ≤ D.moment disk.old + 2 * 3 }
    ensures any_moment { IfTells (D.tells_crashes disk.old)
        ((begun : List ℕ) (place : ℕ) (records : List Record)
        → KeepsBegin frame begun place records (D.bytes disk.old)
        (D.may_hold_after disk.old (D.moment disk.old))
        → 0 < length records
        → AtEach D.moment D.may_hold_after disk.old disk.new
        (GivesEither begun (heap_of frame (D.bytes disk.old)))) }
{
    close(disk, frame)?;
    Ok(())
}
