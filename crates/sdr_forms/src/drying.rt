// A dry run of the input's script, and what is said of it.
ghost use Rattle.std.specs.Prelude.{◌≡◌, ◌≤◌, ◌+◌, ◌⊎◌, ◌++◌, codes};
ghost use Rattle.std.specs.Prelude.{length, IfSome};
ghost use Rattle.std.specs.Io.KnownBytes.{Appends};
ghost use Rattle.sdr_base.specs.Causes.{Rose};
ghost use Rattle.sdr_base.specs.Written.{AppendsPart};
ghost use Rattle.sdr_core.specs.Caused.{HaveFailed, media_change};
ghost use Rattle.sdr_forms.specs.Answers.{AsksDry, RanAsking, seen};
ghost use Rattle.sdr_forms.specs.Still.{WritesOut, HadRun, IsDone, IsRefused, IsDryStatus, IsStarved};
ghost use Rattle.sdr_forms.specs.Still.{Tells, line_refused};
ghost use Rattle.sdr_run.specs.Schedule.{RunsWhole, SomeRun};

use crate::last_line::last_line;
use crate::replaying::{RunEnd, tell_ran};
use crate::status::{DONE, INPUT_FAULT, NO_MEMORY, OUTPUT_FAULT, REFUSED_LINE};
use sdr_base::{Media, Sink, Source};
use sdr_model::ScriptStep;
use sdr_run::dry;
use sdr_text::Line;
use sdr_words::{ScriptError, read_script};
use std::alloc::Global;

// Writes the number of a refused line.
fn refuse_line<K: Sink>(output: &mut K, line: u64)
    ensures written { WritesOut (K.taken output.old) (K.taken output.new)
        (K.faults output.old) (K.faults output.new)
        (line_refused line) }
    ensures later { K.faults output.old ≤ K.faults output.new }
{
    let mut text = Line::new();
    text.push(b"line ");
    text.number(line);
    text.push(b"\n");
    last_line(output, text.as_slice());
}

// Runs a script in memory, with these media, and gives them back.
fn run_script<M: Media, K: Sink>(
    alloc: Global,
    script: &[ScriptStep],
    media: M,
    output: &mut K,
) -> (u8, M)
    requires few { length script.now ≤ 1048577 }
    ensures known { (result.0 ≡ DONE) ⊎ (result.0 ≡ OUTPUT_FAULT) ⊎ (result.0 ≡ NO_MEMORY) }
    ensures media { HaveFailed 0 0 (media_change M.told M.faults M.short media result.1) }
    ensures later { K.faults output.old ≤ K.faults output.new }
    ensures asks { RanAsking (M.told media) script.now (M.asks media) (M.asks result.1)
        (seen K.taken K.faults output.old) (seen K.taken K.faults output.new) }
    ensures done { result.0 ≡ DONE →
        RunsWhole (media_change M.told M.faults M.short media result.1) script.now
        (Appends (K.taken output.old) (K.taken output.new)) }
    ensures fault { result.0 ≡ OUTPUT_FAULT → Rose (K.faults output.old) (K.faults output.new) }
    ensures part { result.0 ≡ OUTPUT_FAULT →
        SomeRun (media_change M.told M.faults M.short media result.1) script.now (λ rest text.
        AppendsPart (K.taken output.old) (K.taken output.new) text) }
    ensures starved { result.0 ≡ NO_MEMORY →
        SomeRun (media_change M.told M.faults M.short media result.1) script.now (λ rest text.
        WritesOut (K.taken output.old) (K.taken output.new) (K.faults output.old) (K.faults output.new)
        (text ++ codes "no memory\n")) }
{
    match dry(alloc, script, media, output) {
        Ok(ran) => {
            let end = RunEnd {
                failed: false,
                starved: ran.played.starved,
                printing: ran.played.printing,
            };
            let status = tell_ran(end, output);
            (status, ran.media)
        }
        Err(media) => {
            last_line(output, b"no memory\n");
            (NO_MEMORY, media)
        }
    }
}

/// Tells why no script was read.
pub fn tell<K: Sink>(error: &ScriptError, output: &mut K) -> u8
    ensures later { K.faults output.old ≤ K.faults output.new }
    ensures told { Tells error.now result
        (K.taken output.old) (K.taken output.new) (K.faults output.old) (K.faults output.new) }
{
    match error {
        ScriptError::Input => {
            last_line(output, b"input fault\n");
            INPUT_FAULT
        }
        ScriptError::Line { line } => {
            refuse_line(output, *line);
            REFUSED_LINE
        }
        ScriptError::NoMemory => {
            last_line(output, b"no memory\n");
            NO_MEMORY
        }
    }
}

/// A dry run of the input's script, with these media, which are given back. A script that is refused runs nothing and reads no media.
#[tactic(auto, using(crate::proofs::ScriptRead::read_scripts))]
pub fn dry_input<M: Media, S: Source, K: Sink>(
    alloc: Global,
    media: M,
    input: &mut S,
    output: &mut K,
) -> (u8, M)
    ensures known { IsDryStatus result.0 }
    ensures later { (S.faults input.old ≤ S.faults input.new)
        × (K.faults output.old ≤ K.faults output.new) }
    ensures media { HaveFailed 0 0 (media_change M.told M.faults M.short media result.1) }
    ensures asks { AsksDry (S.left input.old) (M.told media) (M.asks media) (M.asks result.1)
        (seen K.taken K.faults output.old) (seen K.taken K.faults output.new) }
    ensures reads { S.reads input.new ≤ S.reads input.old + 1048577 }
    ensures each { IfSome (S.left input.old)
        (λ bytes. S.reads input.new ≤ S.reads input.old + length bytes + 1) }
    ensures done { result.0 ≡ DONE →
        IsDone (S.left input.old) (S.left input.new)
        (media_change M.told M.faults M.short media result.1)
        (K.taken output.old) (K.taken output.new) }
    ensures input { result.0 ≡ INPUT_FAULT → Rose (S.faults input.old) (S.faults input.new) }
    ensures input_text { result.0 ≡ INPUT_FAULT →
        WritesOut (K.taken output.old) (K.taken output.new) (K.faults output.old) (K.faults output.new)
        (codes "input fault\n") }
    ensures output { result.0 ≡ OUTPUT_FAULT → Rose (K.faults output.old) (K.faults output.new) }
    ensures part { result.0 ≡ OUTPUT_FAULT → HadRun (S.left input.old)
        (media_change M.told M.faults M.short media result.1) (λ rest text.
        AppendsPart (K.taken output.old) (K.taken output.new) text) }
    ensures refused { result.0 ≡ REFUSED_LINE → IsRefused (S.left input.old)
        (K.taken output.old) (K.taken output.new) (K.faults output.old) (K.faults output.new) }
    ensures unread { (result.0 ≡ INPUT_FAULT) ⊎ (result.0 ≡ REFUSED_LINE) → result.1 ≡ media }
    ensures starved { result.0 ≡ NO_MEMORY → IsStarved (S.left input.old)
        (media_change M.told M.faults M.short media result.1) (result.1 ≡ media)
        (K.taken output.old) (K.taken output.new) (K.faults output.old) (K.faults output.new) }
{
    match read_script(alloc, input) {
        Ok(script) => run_script(alloc, script.as_slice(), media, output),
        Err(error) => (tell(&error, output), media),
    }
}
