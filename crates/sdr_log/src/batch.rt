// A batch of old lines, written and opened.
ghost use Rattle.std.specs.Prelude.{◌≡◌, ◌≤◌, ◌<◌, ◌+◌, ◌^◌, [], ◌∷◌, length};
ghost use Rattle.std.specs.Prelude.{IfOk, OnOk};
ghost use Rattle.sdr_base.specs.Causes.{HasCause};
ghost use Rattle.sdr_disk.specs.Moments.{AtEach, IsTorn};
ghost use Rattle.sdr_base.specs.Parts.{overwrite};
ghost use Rattle.sdr_disk.specs.Ranges.{Agrees, range};
ghost use Rattle.sdr_disk.specs.Tells.{IfTells};
ghost use Rattle.sdr_disk.specs.Pending.{IsSynced};
ghost use Rattle.sdr_log.specs.Batch.{batch_size, with_batch};
ghost use Rattle.sdr_log.specs.Calls.{HasPlace, KeepsDisk, KeepsOutside, MayOpen, OpensBatch};
ghost use Rattle.sdr_log.specs.Frame.{LieInside};
ghost use Rattle.sdr_log.specs.Logged.{GivesSame};

use crate::gathering::gather;
use crate::saving::save_at;
use crate::{Frame, Record};
use sdr_base::LINE;
use sdr_disk::{Disk, DiskFault};

// Step 1: the batch behind its gate, which is closed, with the next gate closed too.
fn save_batch<D: Disk>(disk: &mut D, place: u64, batch: &[u8]) -> Result<(), DiskFault>
    requires inside { LINE + place + 1 + length batch.now ≤ length (D.bytes disk.old) }
    requires small { place < 2 ^ 60 }

    ensures written { OnOk result (D.bytes disk.new ≡ overwrite (LINE + place + 1) batch.now
        (D.bytes disk.old)) }
    ensures cause { HasCause (D.faults disk.old) (D.faults disk.new) result }

    ensures others { Agrees (range (LINE + place + 1) (length batch.now) ∷ []) (D.bytes disk.old)
        (D.bytes disk.new) }
    ensures tells { D.tells_crashes disk.new ≡ D.tells_crashes disk.old }
    ensures size { length (D.bytes disk.new) ≡ length (D.bytes disk.old) }

    ensures durable { OnOk result (IsSynced D.bytes D.tells_crashes D.moment D.may_hold_after
        disk.new) }
    ensures calls { D.moment disk.new ≤ D.moment disk.old + 4 }
    ensures any_moment { AtEach D.moment D.may_hold_after disk.old disk.new
        (IsTorn (D.may_hold_after disk.old (D.moment disk.old)) (LINE + place + 1)
        (length batch.now)) }
{
    save_at(disk, LINE + place + 1, batch)
}

// Step 2: the gate, as open. From here on a crash puts the batch's lines back.
fn open_gate<D: Disk>(disk: &mut D, place: u64) -> Result<(), DiskFault>
    requires inside { LINE + place < length (D.bytes disk.old) }
    requires small { place < 2 ^ 60 }

    ensures written { OnOk result (D.bytes disk.new ≡ overwrite (LINE + place) (1 ∷ [])
        (D.bytes disk.old)) }
    ensures cause { HasCause (D.faults disk.old) (D.faults disk.new) result }

    ensures others { Agrees (range (LINE + place) 1 ∷ []) (D.bytes disk.old) (D.bytes disk.new) }
    ensures tells { D.tells_crashes disk.new ≡ D.tells_crashes disk.old }
    ensures size { length (D.bytes disk.new) ≡ length (D.bytes disk.old) }

    ensures durable { OnOk result (IsSynced D.bytes D.tells_crashes D.moment D.may_hold_after
        disk.new) }
    ensures calls { D.moment disk.new ≤ D.moment disk.old + 4 }
    ensures any_moment { AtEach D.moment D.may_hold_after disk.old disk.new
        (IsTorn (D.may_hold_after disk.old (D.moment disk.old)) (LINE + place) 1) }
{
    save_at(disk, LINE + place, &[1])
}

/// Opens a batch of these records at a place of the log region, behind the earlier ones, and gives
/// the place of the next gate. The batch is gathered in the buffer. At `Ok` it is open, and a crash
/// from then on puts its lines back. It makes two writes and two syncs.
pub fn write_batch<D: Disk>(
    disk: &mut D,
    frame: Frame,
    place: u64,
    records: &[Record],
    buffer: &mut [u8],
) -> Result<u64, DiskFault>
    requires regions { LieInside frame (length (D.bytes disk.old)) }
    requires place { HasPlace frame place (length records.now) (length buffer.old) }

    ensures next { IfOk result (λ next. next ≡ place + batch_size (length records.now)) }
    ensures written { OnOk result (D.bytes disk.new ≡ with_batch place records.now
        (D.bytes disk.old)) }
    ensures cause { HasCause (D.faults disk.old) (D.faults disk.new) result }

    ensures disk { KeepsDisk D.bytes D.tells_crashes disk.old disk.new }
    ensures inside { KeepsOutside frame (D.bytes disk.old) (D.bytes disk.new) }

    ensures opens { OnOk result (IfTells (D.tells_crashes disk.old)
        (MayOpen frame place records.now (D.bytes disk.old)
        (D.may_hold_after disk.old (D.moment disk.old))
        → OpensBatch frame place records.now (D.bytes disk.old) (D.bytes disk.new)
        (D.may_hold_after disk.new (D.moment disk.new)))) }
    ensures forward { D.moment disk.old ≤ D.moment disk.new }
    ensures calls { D.moment disk.new ≤ D.moment disk.old + 8 }
    ensures any_moment { IfTells (D.tells_crashes disk.old)
        (MayOpen frame place records.now (D.bytes disk.old)
        (D.may_hold_after disk.old (D.moment disk.old))
        → AtEach D.moment D.may_hold_after disk.old disk.new (GivesSame (D.bytes disk.old))) }
{
    let batch = gather(records, buffer);
    save_batch(disk, place, batch)?;
    open_gate(disk, place)?;
    Ok(place + batch.len() as u64)
}
