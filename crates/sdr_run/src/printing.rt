// The printer of a schedule: its lines wait in a buffer, and go out together.
ghost use Rattle.std.specs.Prelude.{◌≡◌, ◌≤◌, List, ℕ, [], true};
ghost use Rattle.sdr_buffer.specs.Waiting.{Grows};
ghost use Rattle.sdr_run.specs.Playing.{IsPrinted, Output, PrintsMore, output};
ghost use Rattle.sdr_run.specs.Printing.{behind};

use sdr_base::{Sink, SinkFault};
use sdr_buffer::{OutputBuffer, Printed, put};
use sdr_model::{Answer, ScriptStep};
use sdr_text::write_answer;

/// The line of an answer to a step, with the bytes that its call gave.
#[derive(Drop)]
pub struct AnswerLine<'s, 'g, 'b> {
    pub step: &'s ScriptStep,
    pub given: &'g Answer,
    pub bytes: &'b [u8],
}

impl Printed for AnswerLine<'_, '_, '_> {
    ghost use Rattle.sdr_text.specs.Text.{line_text};

    ghost text = { λ s. line_text s.step.now.line s.step.now.daemon s.given.now s.bytes.now };

    ghost can = { λ _. Unit {0} };

    fn write_to<K: Sink>(&self, out: &mut K) -> Result<(), SinkFault> {
        let step = self.step;
        write_answer(out, step.line, step.daemon, self.given, self.bytes)
    }
}

/// What is printed of a schedule: lines that wait, and whether the output took all others.
#[derive(Drop)]
pub struct Printer {
    pub waiting: OutputBuffer,
    pub going: bool,
}

impl Printer {
    /// A printer that has printed nothing.
    pub fn new() -> Printer
        ensures going { result.going ≡ true }
        ensures empty { result.waiting.bytes ≡ [] }
    {
        Printer {
            waiting: OutputBuffer::new(),
            going: true,
        }
    }

    /// Puts a text behind the lines that wait, unless the output has failed.
    #[tactic(auto, using(crate::proofs::PlayingLemmas::silent))]
    pub fn print<K: Sink, P: Printed>(&mut self, out: &mut K, line: &P)
        requires { P.can line.now }
        ensures prints { PrintsMore self.old.going self.new.going
            (behind (output K.taken K.faults out.old) self.old)
            (behind (output K.taken K.faults out.new) self.new) (P.text line.now) }
        ensures grows { Grows (K.taken out.old) (K.taken out.new) }
        ensures later { K.faults out.old ≤ K.faults out.new }
    {
        if !self.going {
            return;
        }
        self.going = put(out, &mut self.waiting, line).is_ok();
    }

    /// Passes on the lines that wait, unless the output has failed.
    #[tactic(auto, using(crate::proofs::PlayingLemmas::silent))]
    pub fn pass_on<K: Sink>(&mut self, out: &mut K)
        ensures prints { PrintsMore self.old.going self.new.going
            (behind (output K.taken K.faults out.old) self.old)
            (behind (output K.taken K.faults out.new) self.new) [] }
        ensures empty { self.new.going ≡ true → self.new.waiting.bytes ≡ [] }
        ensures grows { Grows (K.taken out.old) (K.taken out.new) }
        ensures later { K.faults out.old ≤ K.faults out.new }
    {
        if !self.going {
            return;
        }
        self.going = self.waiting.pass_on(out).is_ok();
    }

    /// Passes on the lines that wait, behind the last one. Says whether the output took all.
    pub fn finish<K: Sink>(mut self, out: &mut K) -> bool
        ensures prints { (first : Output) (text : List ℕ) → Grows first.taken (K.taken out.old)
            → first.faults ≤ K.faults out.old
            → IsPrinted self.going first (behind (output K.taken K.faults out.old) self) text
            → IsPrinted result first (output K.taken K.faults out.new) text }
        ensures later { K.faults out.old ≤ K.faults out.new }
    {
        self.pass_on(out);
        self.going
    }
}
