// What is printed, and how it is put behind what waits.
ghost use Rattle.std.specs.Prelude.{◌≡◌, ◌<◌, ◌≤◌, ◌+◌, ℕ, List, OnErr, OnOk, length, take};
ghost use Rattle.std.specs.Io.KnownBytes.{Appends, append_known};
ghost use Rattle.sdr_base.specs.Causes.{HasCause};
ghost use Rattle.sdr_base.specs.Written.{AppendsPart};
ghost use Rattle.sdr_buffer.specs.Waiting.{Grows};

use crate::OutputBuffer;
use sdr_base::{Sink, SinkFault};

/// Something that is printed.
pub trait Printed {
    /// Its text.
    ghost text: { Self → List ℕ };

    /// When it can be printed.
    ghost can: { Self → Type 0 };

    /// Writes its text: whole, or a part of it from the front where the sink fails.
    fn write_to<K: Sink>(&self, out: &mut K) -> Result<(), SinkFault>
        requires { can self.now }
        ensures ok { OnOk result (Appends (K.taken out.old) (K.taken out.new) (text self.now)) }
        ensures err { OnErr result (AppendsPart (K.taken out.old) (K.taken out.new) (text self.now)) }
        ensures cause { HasCause (K.faults out.old) (K.faults out.new) result };
}

// Passes on what waits up to a start, and writes a text straight to the output.
#[tactic(auto, using(crate::proofs::WaitingLemmas::passing))]
fn put_straight<K: Sink, P: Printed>(
    out: &mut K,
    waiting: &mut OutputBuffer,
    start: usize,
    piece: &P,
) -> Result<(), SinkFault>
    requires can { P.can piece.now }
    requires start { start ≤ length waiting.old.bytes }
    ensures ok { OnOk result (Appends (append_known (K.taken out.old) (take start waiting.old.bytes))
        (append_known (K.taken out.new) waiting.new.bytes) (P.text piece.now)) }
    ensures err { OnErr result
        (AppendsPart (append_known (K.taken out.old) (take start waiting.old.bytes))
        (append_known (K.taken out.new) waiting.new.bytes) (P.text piece.now)) }
    ensures grows { Grows (K.taken out.old) (K.taken out.new) }
    ensures cause { HasCause (K.faults out.old) (K.faults out.new) result }
    ensures full { 0 < waiting.old.refused → length waiting.old.bytes ≡ 8192 }
{
    waiting.cut(start);
    waiting.pass_on(out)?;
    piece.write_to(out)
}

/// Puts a text behind what waits for an output. Where it doesn't fit, what waits is passed on, and the text is written
/// straight to the output. Of a text that fits the output isn't told.
pub fn put<K: Sink, P: Printed>(
    out: &mut K,
    waiting: &mut OutputBuffer,
    piece: &P,
) -> Result<(), SinkFault>
    requires { P.can piece.now }
    ensures ok { OnOk result (Appends (append_known (K.taken out.old) waiting.old.bytes)
        (append_known (K.taken out.new) waiting.new.bytes) (P.text piece.now)) }
    ensures err { OnErr result (AppendsPart (append_known (K.taken out.old) waiting.old.bytes)
        (append_known (K.taken out.new) waiting.new.bytes) (P.text piece.now)) }
    ensures grows { Grows (K.taken out.old) (K.taken out.new) }
    ensures cause { HasCause (K.faults out.old) (K.faults out.new) result }
    ensures idle { length waiting.old.bytes + length (P.text piece.now) < 8192 → out.new ≡ out.old }
{
    let start = waiting.start();
    match piece.write_to(waiting) {
        Ok(()) => Ok(()),
        Err(_) => put_straight(out, waiting, start, piece),
    }
}
