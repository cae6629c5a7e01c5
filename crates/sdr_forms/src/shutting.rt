// Why a heap isn't opened, as it is told.
ghost use Rattle.std.specs.Prelude.{◌≡◌, ◌≤◌};
ghost use Rattle.sdr_forms.specs.Answers.{Wrote, seen};
ghost use Rattle.sdr_forms.specs.Shutting.{line_shut, status_shut, why_text};

use crate::last_line::last_line;
use crate::status::{DAMAGED, DISK_FAULT, NO_MEMORY, NOT_FORMATTED};
use sdr_audit::Check;
use sdr_base::Sink;
use sdr_station::OpenError;
use sdr_text::Line;

// What is wrong at a place, in a word.
fn why_text(why: Check) -> &'static [u8]
    ensures { result.now ≡ why_text why }
{
    match why {
        Check::Control => b"control",
        Check::Block => b"block",
        Check::Bits => b"bits",
        Check::Free => b"free",
        Check::Content => b"content",
        Check::Owner => b"owner",
        Check::Count => b"count",
        Check::Queue => b"queue",
    }
}

/// Tells why a heap wasn't opened.
pub fn tell_shut<K: Sink>(why: OpenError, output: &mut K) -> u8
    ensures status { result ≡ status_shut why }
    ensures written { Wrote (seen K.taken K.faults output.old) (seen K.taken K.faults output.new)
        (line_shut why) }
    ensures later { K.faults output.old ≤ K.faults output.new }
{
    match why {
        OpenError::NotFormatted => {
            last_line(output, b"not formatted\n");
            NOT_FORMATTED
        }
        OpenError::Damaged { place, why } => {
            let mut text = Line::new();
            text.push(b"damaged ");
            text.number(place);
            text.push(b" ");
            text.push(why_text(why));
            text.push(b"\n");
            last_line(output, text.as_slice());
            DAMAGED
        }
        OpenError::DiskFault => {
            last_line(output, b"disk fault\n");
            DISK_FAULT
        }
        OpenError::NoMemory => {
            last_line(output, b"no memory\n");
            NO_MEMORY
        }
    }
}
