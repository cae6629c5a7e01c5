// The heap of a disk that is opened for a run.
ghost use Rattle.std.specs.Prelude.{◌≡◌, IfErr, IfOk};
ghost use Rattle.sdr_run.specs.Handed.{handed_as};
ghost use Rattle.sdr_run.specs.Opening.{OpenedSo};
ghost use Rattle.sdr_run.specs.Replaying.{IsNotRun};

use crate::handed::{Handed, HandedIn};
use crate::handed_ground::HandedGround;
use sdr_base::Media;
use sdr_disk::Disk;
use sdr_station::{HeapGround, OpenError, Shut};
use std::alloc::Global;
use zco_acct::{Compares, Notice};

/// Opens the heap of a disk that is handed in, with media. Where it isn't opened, the disk and the media come back with the cause.
pub fn open_handed<D: Disk, M: Media, J: HandedIn>(
    alloc: Global,
    disk: D,
    media: M,
) -> Result<HandedGround<D, M, J>, Shut<D, M>>
    requires handed { J.was ≡ handed_as D.Disk disk }
    ensures opened { IfOk result (OpenedSo D.Disk disk media) }
    ensures shut { IfErr result (λ shut. IsNotRun D.Disk disk shut.disk shut.why) }
    ensures unread { IfErr result (λ shut. shut.media ≡ media) }
{
    let held = Handed::<D, J>::new(disk);
    match HeapGround::open(alloc, held, media, Notice::new(Compares)) {
        Ok(ground) => Ok(HandedGround::new(ground)),
        Err(Shut { why, disk, media }) => Err(Shut {
            why,
            disk: disk.into_disk(),
            media,
        }),
    }
}

/// The disk and the media of a heap that was opened, and on which there was no memory for a run.
pub fn shut_unrun<D: Disk, M: Media, J: HandedIn>(base: HandedGround<D, M, J>) -> Shut<D, M>
    ensures why { result.why ≡ OpenError.NoMemory }
    ensures disk { result.disk ≡ base.heap.cells.disk }
    ensures media { result.media ≡ base.media }
{
    let (disk, media) = base.into_parts();
    Shut {
        why: OpenError::NoMemory,
        disk,
        media,
    }
}
