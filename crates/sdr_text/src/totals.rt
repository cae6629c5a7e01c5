// What is printed of totals.
ghost use Rattle.std.specs.Prelude.{◌≡◌, ◌≤◌, ◌+◌, OnOk, OnErr, fold, length};
ghost use Rattle.std.specs.Io.KnownBytes.{Appends};
ghost use Rattle.sdr_base.specs.Causes.{HasCause};
ghost use Rattle.sdr_base.specs.Written.{AppendsPart};
ghost use Rattle.sdr_text.specs.Refused.{field_on};
ghost use Rattle.sdr_text.specs.TotalsText.{printed_numbers, totals_text};

use crate::Line;
use sdr_base::{Sink, SinkFault, write_all};
use sdr_board::Totals;

// Adds the ten numbers, each after a space.
fn add_numbers(line: &mut Line, totals: &Totals)
    requires { length line.old ≤ 100 }
    ensures text { line.new ≡ fold field_on line.old (printed_numbers totals.now) }
    ensures len { length line.new ≤ length line.old + 210 }
{
    line.field(totals.entries);
    line.field(totals.number);
    line.field(totals.ended);
    line.field(totals.cancelled);
    line.field(totals.exited);
    line.field(totals.faulted);
    line.field(totals.looks);
    line.field(totals.left);
    line.field(totals.taken);
    line.field(totals.given);
}

/// Writes the line of totals: the word `totals`, and the ten numbers in the order of the fields. It writes all, or a part from the front
/// where the sink fails.
pub fn write_totals<K: Sink>(out: &mut K, totals: &Totals) -> Result<(), SinkFault>
    ensures ok { OnOk result (Appends (K.taken out.old) (K.taken out.new)
        (totals_text totals.now)) }
    ensures err { OnErr result (AppendsPart (K.taken out.old) (K.taken out.new)
        (totals_text totals.now)) }
    ensures cause { HasCause (K.faults out.old) (K.faults out.new) result }
{
    let mut line = Line::new();
    line.push(b"totals");
    add_numbers(&mut line, totals);
    line.push(b"\n");
    write_all(out, line.as_slice())
}
