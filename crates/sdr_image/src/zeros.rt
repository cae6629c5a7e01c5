// Zeros written over a part of a disk.
ghost use Rattle.std.specs.Prelude.{◌≡◌, ◌≤◌, ◌<◌, ◌+◌, ◌^◌, replicate, OnOk, length};
ghost use Rattle.sdr_base.specs.Causes.{HasCause};
ghost use Rattle.sdr_base.specs.Parts.{overwrite};

use sdr_disk::{Disk, DiskFault};

// What one call of the disk writes at most.
const PIECE: usize = 4096;

// Writes so many zeros by one call.
fn write_few_zeros<D: Disk>(disk: &mut D, place: u64, count: u64) -> Result<(), DiskFault>
    requires few { count ≤ PIECE }
    requires inside { place + count ≤ length (D.bytes disk.old) }
    ensures written { OnOk result (D.bytes disk.new ≡ overwrite place (replicate count 0)
        (D.bytes disk.old)) }
    ensures tells { D.tells_crashes disk.new ≡ D.tells_crashes disk.old }
    ensures size { length (D.bytes disk.new) ≡ length (D.bytes disk.old) }
    ensures cause { HasCause (D.faults disk.old) (D.faults disk.new) result }
{
    let zeros = [0; PIECE];
    disk.write_at(place, &zeros[..count as usize])?;
    Ok(())
}

/// Writes so many zeros from a place on, without a sync. It takes no memory.
pub fn write_zeros<D: Disk>(disk: &mut D, place: u64, count: u64) -> Result<(), DiskFault>
    requires inside { place + count ≤ length (D.bytes disk.old) }
    requires fits { place + count < 2 ^ 64 }
    ensures written { OnOk result (D.bytes disk.new ≡ overwrite place (replicate count 0)
        (D.bytes disk.old)) }
    ensures tells { D.tells_crashes disk.new ≡ D.tells_crashes disk.old }
    ensures size { length (D.bytes disk.new) ≡ length (D.bytes disk.old) }
    ensures cause { HasCause (D.faults disk.old) (D.faults disk.new) result }
{
    let mut done = 0;
    while done < count {
        let more = (count - done).min(PIECE as u64);
        write_few_zeros(disk, place + done, more)?;
        done += more;
    }
    Ok(())
}
