// A line of the output.
ghost use Rattle.std.specs.Prelude.{◌≡◌, ◌≤◌, ◌⊎◌};
ghost use Rattle.std.specs.Io.KnownBytes.{Appends};
ghost use Rattle.sdr_base.specs.Causes.{Rose};
ghost use Rattle.sdr_base.specs.Written.{AppendsPart};
ghost use Rattle.sdr_forms.specs.Still.{WritesOut};

use crate::status::{DONE, OUTPUT_FAULT};
use sdr_base::{Sink, write_all};

/// Writes the last line of a status, which stands whether or not the sink takes the line.
pub fn last_line<K: Sink>(output: &mut K, line: &[u8])
    ensures written { WritesOut (K.taken output.old) (K.taken output.new)
        (K.faults output.old) (K.faults output.new)
        line.now }
    ensures later { K.faults output.old ≤ K.faults output.new }
{
    let _ = write_all(output, line);
}

/// Writes the one line of a form that is done, and gives the status.
pub fn print_line<K: Sink>(output: &mut K, line: &[u8]) -> u8
    ensures known { (result ≡ DONE) ⊎ (result ≡ OUTPUT_FAULT) }
    ensures text { result ≡ DONE → Appends (K.taken output.old) (K.taken output.new) line.now }
    ensures part { result ≡ OUTPUT_FAULT →
        AppendsPart (K.taken output.old) (K.taken output.new) line.now }
    ensures output { result ≡ OUTPUT_FAULT → Rose (K.faults output.old) (K.faults output.new) }
    ensures later { K.faults output.old ≤ K.faults output.new }
{
    match write_all(output, line) {
        Ok(()) => DONE,
        Err(_) => OUTPUT_FAULT,
    }
}
