// The first gate, closed.
ghost use Rattle.std.specs.Prelude.{◌≡◌, ◌≤◌, ◌<◌, ◌+◌, ◌⊎◌, ◌∷◌, [], OnErr, OnOk, length};
ghost use Rattle.sdr_base.specs.Causes.{HasCause};
ghost use Rattle.sdr_disk.specs.Moments.{AtEach, IsTorn, Reads, Syncs};
ghost use Rattle.sdr_disk.specs.Pending.{IsSynced};
ghost use Rattle.sdr_disk.specs.Ranges.{Agrees, range};
ghost use Rattle.sdr_disk.specs.Tells.{IfTells};
ghost use Rattle.sdr_base.specs.Parts.{overwrite};
ghost use Rattle.sdr_log.specs.Calls.{Closes, KeepsDisk, KeepsOutside};
ghost use Rattle.sdr_log.specs.Faulted.{PendsAtGate};
ghost use Rattle.sdr_log.specs.Frame.{LieInside};
ghost use Rattle.sdr_log.specs.Log.{heap_of};
ghost use Rattle.sdr_log.specs.Logged.{GivesHeap, GivesSame, IsLogged, IsOpen};

use crate::Frame;
use crate::saving::save_at;
use sdr_base::LINE;
use sdr_disk::{Disk, DiskFault};

// Step 1: the lines are on the disk before the gate is closed.
fn save_lines<D: Disk>(disk: &mut D) -> Result<(), DiskFault>
    ensures rises { OnOk result (D.moment disk.new ≡ D.moment disk.old + 2) }
    ensures cause { HasCause (D.faults disk.old) (D.faults disk.new) result }

    ensures same { D.bytes disk.new ≡ D.bytes disk.old }
    ensures tells { D.tells_crashes disk.new ≡ D.tells_crashes disk.old }

    ensures durable { OnOk result (IsSynced D.bytes D.tells_crashes D.moment D.may_hold_after
        disk.new) }
    ensures moments { Syncs D.moment D.may_hold_after disk.old disk.new }
{
    disk.sync()
}

// Step 2: the first gate, as closed. From here on a crash leaves the heap region as it is.
fn close_gate<D: Disk>(disk: &mut D) -> Result<(), DiskFault>
    requires { LINE < length (D.bytes disk.old) }

    ensures written { OnOk result (D.bytes disk.new ≡ overwrite LINE (0 ∷ []) (D.bytes disk.old)) }
    ensures cause { HasCause (D.faults disk.old) (D.faults disk.new) result }

    ensures others { Agrees (range LINE 1 ∷ []) (D.bytes disk.old) (D.bytes disk.new) }
    ensures tells { D.tells_crashes disk.new ≡ D.tells_crashes disk.old }
    ensures size { length (D.bytes disk.new) ≡ length (D.bytes disk.old) }

    ensures durable { OnOk result (IsSynced D.bytes D.tells_crashes D.moment D.may_hold_after
        disk.new) }
    ensures calls { D.moment disk.new ≤ D.moment disk.old + 4 }
    ensures made { (D.moment disk.old < D.moment disk.new) ⊎ Reads D.bytes D.tells_crashes D.moment
        D.may_hold_after disk.old disk.new }
    ensures any_moment { AtEach D.moment D.may_hold_after disk.old disk.new
        (IsTorn (D.may_hold_after disk.old (D.moment disk.old)) LINE 1) }
{
    save_at(disk, LINE, &[0])
}

/// Closes the first gate, and with it all batches, once the lines are synced. At `Ok` the heap is
/// the heap region as it stands, and nothing is pending. It makes a sync, a write and a sync.
pub fn close<D: Disk>(disk: &mut D, frame: Frame) -> Result<(), DiskFault>
    requires regions { LieInside frame (length (D.bytes disk.old)) }

    ensures written { OnOk result (D.bytes disk.new ≡ overwrite LINE (0 ∷ []) (D.bytes disk.old)) }
    ensures cause { HasCause (D.faults disk.old) (D.faults disk.new) result }

    ensures disk { KeepsDisk D.bytes D.tells_crashes disk.old disk.new }
    ensures inside { KeepsOutside frame (D.bytes disk.old) (D.bytes disk.new) }

    ensures closes { OnOk result (IfTells (D.tells_crashes disk.old)
        (IsOpen frame (D.bytes disk.old) (D.may_hold_after disk.old (D.moment disk.old))
        → Closes frame (D.bytes disk.old) (D.bytes disk.new)
        (D.may_hold_after disk.new (D.moment disk.new)))) }
    ensures synced { OnOk result (IsSynced D.bytes D.tells_crashes D.moment D.may_hold_after
        disk.new) }
    // After a fault the open batches name all that is pending, as before; or the lines are synced, and
    // bytes are pending at the first gate alone.
    ensures faulted { OnErr result (IfTells (D.tells_crashes disk.old)
        (IsLogged frame (D.bytes disk.old) (D.may_hold_after disk.old (D.moment disk.old))
        → IsLogged frame (D.bytes disk.new) (D.may_hold_after disk.new (D.moment disk.new))
        ⊎ ((D.moment disk.old + 2 < D.moment disk.new) × PendsAtGate (D.bytes disk.old)
        (D.bytes disk.new) (D.may_hold_after disk.new (D.moment disk.new))))) }
    ensures forward { D.moment disk.old ≤ D.moment disk.new }
    ensures calls { D.moment disk.new ≤ D.moment disk.old + 6 }
    // A crash leaves what it might have left before, or the bytes as read but for the gate.
    ensures gate { IfTells (D.tells_crashes disk.old)
        (AtEach D.moment D.may_hold_after disk.old disk.new (λ image. D.may_hold_after disk.old
        (D.moment disk.old) image ⊎ Agrees (range LINE 1 ∷ []) (D.bytes disk.old) image)) }
    // So it leaves the heap from before the call, or the heap region as it stands.
    ensures any_moment { IfTells (D.tells_crashes disk.old)
        (IsOpen frame (D.bytes disk.old) (D.may_hold_after disk.old (D.moment disk.old))
        → AtEach D.moment D.may_hold_after disk.old disk.new (λ image. GivesSame (D.bytes disk.old)
        image ⊎ GivesHeap (heap_of frame (D.bytes disk.old)) image)) }
{
    save_lines(disk)?;
    close_gate(disk)?;
    Ok(())
}
