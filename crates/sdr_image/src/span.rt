// The lines that hold some bytes.
ghost use Rattle.std.specs.Prelude.{◌<◌, ◌+◌, ◌^◌};
ghost use Rattle.sdr_image.specs.Lines.{IsSpan};

use sdr_base::LINE;

/// The first of the lines that hold a byte of so many from a place on, and the one behind the last.
#[tactic(auto, unfolding(sdr_base::specs::Cells::lines_of))]
pub fn span(place: u64, count: u64) -> (u64, u64)
    requires { place + count < 2 ^ 60 }
    ensures { IsSpan place count result.0 result.1 }
{
    let first = place / LINE;
    if count == 0 {
        return (first, first);
    }
    (first, (place + count - 1) / LINE + 1)
}
