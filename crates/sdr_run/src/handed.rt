// A disk that was handed in.
ghost use Rattle.std.specs.Prelude.{◌≡◌, ⊤};
ghost use Rattle.sdr_run.specs.Handed.{HandedDisk, no_disk};

use sdr_disk::{Disk, DiskFault};
use std::marker::{Brand, Model, PhantomData};

/// How a disk was as it was handed in. The caller that hands it in picks it.
pub trait HandedIn {
    ghost was: { HandedDisk };

    /// The condition under which it is told what a crash leaves of it.
    ghost condition: { Type 0 };
}

impl HandedIn for Brand {
    ghost was = { no_disk };

    ghost condition = { ⊤ };
}

/// A disk that tells what a crash may leave if it did as it was handed in. Whatever is made of it,
/// this stays.
pub struct Handed<D: Disk, J: HandedIn> {
    disk: D,
    of: PhantomData<J>,
}

impl<D: Disk, J: HandedIn> Model for Handed<D, J> {
    ghost use Rattle.std.specs.Prelude.{◌≡◌};

    ghost Value = { D };

    ghost view = { λ h. h.disk };

    ghost invariant = { λ h. D.tells_crashes h.disk ≡ J.was.tells };
}

impl<D: Disk, J: HandedIn> Handed<D, J> {
    pub fn new(disk: D) -> Handed<D, J>
        requires { D.tells_crashes disk ≡ J.was.tells }
        ensures { result ≡ disk }
    {
        Handed {
            disk,
            of: PhantomData,
        }
    }

    pub fn into_disk(self) -> D
        ensures disk { result ≡ self }
        ensures tells { D.tells_crashes result ≡ J.was.tells }
    {
        let Handed { disk, of: _ } = self;
        disk
    }
}

impl<D: Disk, J: HandedIn> Disk for Handed<D, J> {
    ghost bytes = { λ d. D.bytes d };

    ghost tells_crashes = { λ d. D.tells_crashes d };

    ghost faults = { λ d. D.faults d };

    ghost moment = { λ d. D.moment d };

    ghost may_hold_after = { λ d m image. D.may_hold_after d m image };

    ghost long = { λ d. D.long d };

    ghost read_now = { λ d. D.read_now d };

    fn len(&self) -> u64 {
        self.disk.len()
    }

    fn read_at(&mut self, place: u64, into: &mut [u8]) -> Result<(), DiskFault> {
        self.disk.read_at(place, into)
    }

    fn write_at(&mut self, place: u64, from: &[u8]) -> Result<(), DiskFault> {
        self.disk.write_at(place, from)
    }

    fn sync(&mut self) -> Result<(), DiskFault> {
        self.disk.sync()
    }

    fn now(&self) -> u64 {
        self.disk.now()
    }
}
