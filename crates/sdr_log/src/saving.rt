// A write that is synced at once.
ghost use Rattle.std.specs.Prelude.{◌≡◌, ◌≤◌, ◌<◌, ◌+◌, ◌⊎◌, ◌∷◌, [], length, OnOk};
ghost use Rattle.sdr_base.specs.Causes.{HasCause};
ghost use Rattle.sdr_disk.specs.Moments.{AtEach, IsTorn, Reads};
ghost use Rattle.sdr_base.specs.Parts.{overwrite};
ghost use Rattle.sdr_disk.specs.Ranges.{Agrees, range};
ghost use Rattle.sdr_disk.specs.Pending.{IsSynced};

use sdr_disk::{Disk, DiskFault};

/// Writes bytes from a place on, and syncs. At `Ok` a crash leaves them, and all that was written
/// before.
pub fn save_at<D: Disk>(disk: &mut D, place: u64, from: &[u8]) -> Result<(), DiskFault>
    requires { place + length from.now ≤ length (D.bytes disk.old) }

    ensures written { OnOk result (D.bytes disk.new ≡ overwrite place from.now (D.bytes disk.old)) }
    ensures cause { HasCause (D.faults disk.old) (D.faults disk.new) result }

    ensures others { Agrees (range place (length from.now) ∷ []) (D.bytes disk.old)
        (D.bytes disk.new) }
    ensures tells { D.tells_crashes disk.new ≡ D.tells_crashes disk.old }
    ensures size { length (D.bytes disk.new) ≡ length (D.bytes disk.old) }

    ensures durable { OnOk result (IsSynced D.bytes D.tells_crashes D.moment D.may_hold_after
        disk.new) }
    ensures calls { D.moment disk.new ≤ D.moment disk.old + 4 }
    // Where no call of the disk was made, nothing has changed.
    ensures made { (D.moment disk.old < D.moment disk.new) ⊎ Reads D.bytes D.tells_crashes D.moment
        D.may_hold_after disk.old disk.new }
    ensures any_moment { AtEach D.moment D.may_hold_after disk.old disk.new
        (IsTorn (D.may_hold_after disk.old (D.moment disk.old)) place (length from.now)) }
{
    disk.write_at(place, from)?;
    disk.sync()
}
