// A heap region in memory that stays as it is.
ghost use Rattle.std.specs.Prelude.{◌≡◌, ◌+◌, ◌<◌, ◌^◌, List, ℕ, length, refl};
ghost use Rattle.std.proofs.Common.{◌∙◌};
ghost use Rattle.sdr_base.specs.Cells.{IsRegionSize, lines_of};
ghost use Rattle.sdr_image.specs.Still.{untouched};

use sdr_base::{Cells, LINE, Refusal, Stop};
use std::marker::Model;

/// A heap region in memory, which stays as it is. It is read without a fault, and has room for no
/// line: a write of a byte or more is refused.
#[derive(Drop)]
pub struct Still {
    bytes: Vec<u8>,
}

impl Model for Still {
    ghost Value = { List ℕ };

    ghost view = { λ s. s.bytes.items };

    ghost invariant = { λ s. IsRegionSize (length s.bytes.items) };
}

impl Still {
    /// The region with these bytes.
    pub fn of(bytes: Vec<u8>) -> Still
        requires { IsRegionSize (length bytes.items) }
        ensures { result ≡ bytes.items }
    {
        Still { bytes }
    }
}

// How many lines hold a byte of so many from a place on.
fn covered(place: u64, count: u64) -> u64
    requires some { 0 < count }
    requires few { count < 2 ^ 63 }
    ensures { result ≡ length (lines_of place count) }
{
    (place % LINE + count).div_ceil(LINE)
}

impl Cells for Still {
    ghost bytes = { λ s. s };

    ghost begun = { λ s. s };

    ghost transaction = { λ _. untouched };

    ghost quiet = { λ a b. b ≡ a };

    fn size(&self) -> u64 {
        self.bytes.len() as u64
    }

    fn read(&mut self, place: u64, into: &mut [u8]) -> Result<(), Stop> {
        let place = place as usize;
        into.copy_from_slice(&self.bytes[place..place + into.len()]);
        Ok(())
    }

    fn write(&mut self, place: u64, from: &[u8]) -> Result<(), Stop> {
        if from.is_empty() {
            return Ok(());
        }
        let lines = covered(place, from.len() as u64);
        Err(Stop::Refused(Refusal::LogFull { lines, room: 0 }))
    }

    ghost quiet_refl = { λ a. refl };

    ghost quiet_trans = { λ a b c f g. g ∙ f };
}
