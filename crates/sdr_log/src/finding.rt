// The head of a disk, read.
ghost use Rattle.std.specs.Prelude.{◌≡◌, IfOk, IfSome, IsNone, None};
ghost use Rattle.sdr_base.specs.Causes.{HasCause};
ghost use Rattle.sdr_disk.specs.Moments.{Reads};
ghost use Rattle.sdr_log.specs.Calls.{IsFramed};
ghost use Rattle.sdr_log.specs.Log.{put_back_of};

use crate::Frame;
use sdr_base::LINE;
use sdr_disk::{Disk, DiskFault};

/// The regions that the head of a disk tells of, where the disk has a head and is as long as it
/// tells; else it gives no heap. It makes one read, and none where there is no room for a head.
pub fn read_frame<D: Disk>(disk: &mut D) -> Result<Option<Frame>, DiskFault>
    ensures found { IfOk result (λ found. IfSome found (IsFramed (D.bytes disk.old))) }
    ensures none { IfOk result (λ found. IsNone found → put_back_of (D.bytes disk.old) ≡ None) }
    ensures cause { HasCause (D.faults disk.old) (D.faults disk.new) result }

    ensures reads { Reads D.bytes D.tells_crashes D.moment D.may_hold_after disk.old disk.new }
{
    let have = disk.len();
    if have < LINE {
        return Ok(None);
    }
    let mut head = [0; 64];
    disk.read_at(0, &mut head)?;
    match Frame::from_head(&head) {
        Some(frame) if frame.disk_bytes() <= have => Ok(Some(frame)),
        _ => Ok(None),
    }
}
