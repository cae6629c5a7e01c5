// A schedule that is played on a run.
ghost use Rattle.std.specs.Prelude.{◌≡◌, ◌≤◌, ◌<◌, ◌+◌, ◌^◌, ◌⊎◌, [], None, false, true, length};
ghost use Rattle.std.specs.Prelude.{IfOk, OnErr, OnOk};
ghost use Rattle.sdr_buffer.specs.Waiting.{Grows};
ghost use Rattle.sdr_core.specs.Going.{MakesNext};
ghost use Rattle.sdr_machine.specs.Holders.{hold_none};
ghost use Rattle.sdr_run.specs.Playing.{IsPrinted, Plays, PrintsMore, leave_of, output};
ghost use Rattle.sdr_run.specs.Printing.{behind};
ghost use Rattle.sdr_run.specs.Running.{AnswersStep, HasRun, MakesStep, TellsGiven};
ghost use Rattle.sdr_text.specs.Text.{line_text};

use crate::Steps;
use crate::printing::{AnswerLine, Printer};
use sdr_base::{NoMemory, Sink};
use sdr_core::{Runs, leave_all};
use sdr_machine::Came;
use sdr_model::{Event, Leave, ScriptStep};
use sdr_words::Bindings;
use std::alloc::Global;

/// What stopped a schedule, if anything did.
#[derive(Clone, Copy, Debug, PartialEq, Eq)]
pub struct Played {
    /// Whether memory was wanting before the last step was made.
    pub starved: bool,
    /// Whether the output took every line.
    pub printing: bool,
}

// Before an event that may close a transaction, passes on the lines that wait.
#[tactic(auto, using(crate::proofs::PlayingLemmas::silent))]
fn settle<K: Sink>(event: &Event, out: &mut K, printer: &mut Printer)
    ensures prints { PrintsMore printer.old.going printer.new.going
        (behind (output K.taken K.faults out.old) printer.old)
        (behind (output K.taken K.faults out.new) printer.new) [] }
    ensures grows { Grows (K.taken out.old) (K.taken out.new) }
    ensures later { K.faults out.old ≤ K.faults out.new }
{
    match event {
        Event::End | Event::Cancel | Event::Exit => printer.pass_on(out),
        _ => (),
    }
}

// Makes the event of a step, and prints its answer. Before an event that may close a transaction the lines that
// wait are passed on. Want of memory leaves the run as before, and no line is printed then.
#[tactic(auto, using(crate::proofs::PlayingLemmas::silent))]
fn answer<R: Runs, K: Sink>(
    run: &mut R,
    step: &ScriptStep,
    event: &Event,
    out: &mut K,
    printer: &mut Printer,
) -> Result<Came, NoMemory>
    requires drawn { (R.roll_of run.old).drawn < 2 ^ 60 }
    requires lasts { R.lasts run.old }
    ensures makes { IfOk result (λ came.
        MakesNext R.HasRun step.now.daemon step.now.line event.now came run.old run.new) }
    ensures prints { IfOk result (λ came. TellsGiven R.HasRun run.new came (λ bytes.
        PrintsMore printer.old.going printer.new.going
        (behind (output K.taken K.faults out.old) printer.old)
        (behind (output K.taken K.faults out.new) printer.new)
        (line_text step.now.line step.now.daemon came.answer bytes))) }
    ensures err { OnErr result ((run.new ≡ run.old) × PrintsMore printer.old.going printer.new.going
        (behind (output K.taken K.faults out.old) printer.old)
        (behind (output K.taken K.faults out.new) printer.new) []) }
    ensures grows { Grows (K.taken out.old) (K.taken out.new) }
    ensures later { K.faults out.old ≤ K.faults out.new }
{
    settle(event, out, printer);
    let came = run.event(step.daemon, step.line, event)?;
    let line = AnswerLine {
        step,
        given: &came.answer,
        bytes: run.given(&came),
    };
    printer.print(out, &line);
    Ok(came)
}

// Makes a step: its event, its printed answer, and what its name holds from then on. Where memory is
// wanting, the run is as before, or the step was answered and only its name holds nothing.
#[tactic(auto, using(crate::proofs::PlayingLemmas::silent))]
fn make<R: Runs, K: Sink>(
    alloc: Global,
    run: &mut R,
    bindings: &mut Bindings,
    step: &ScriptStep,
    out: &mut K,
    printer: &mut Printer,
) -> Result<(), NoMemory>
    requires drawn { (R.roll_of run.old).drawn < 2 ^ 60 }
    requires lasts { R.lasts run.old }
    ensures makes { OnOk result (
        MakesStep R.HasRun bindings.old step.now run.old run.new bindings.new
        (PrintsMore printer.old.going printer.new.going
        (behind (output K.taken K.faults out.old) printer.old)
        (behind (output K.taken K.faults out.new) printer.new))) }
    ensures err { OnErr result (
        ((run.new ≡ run.old) × PrintsMore printer.old.going printer.new.going
        (behind (output K.taken K.faults out.old) printer.old)
        (behind (output K.taken K.faults out.new) printer.new) [])
        ⊎ AnswersStep R.HasRun bindings.old step.now run.old run.new
        (PrintsMore printer.old.going printer.new.going
        (behind (output K.taken K.faults out.old) printer.old)
        (behind (output K.taken K.faults out.new) printer.new))) }
    ensures grows { Grows (K.taken out.old) (K.taken out.new) }
    ensures later { K.faults out.old ≤ K.faults out.new }
{
    let event = bindings.event(alloc, step)?;
    let came = answer(run, step, &event, out, printer)?;
    bindings.bind(alloc, step, &came.answer)?;
    Ok(())
}

// Makes the steps of a schedule in order, where no name holds anything yet, and answers whether memory was
// wanting.
#[tactic(auto, using(crate::proofs::PlayingLemmas::silent))]
fn play_on<R: Runs, S: Steps, K: Sink>(
    alloc: Global,
    run: &mut R,
    steps: &mut S,
    out: &mut K,
    printer: &mut Printer,
) -> bool
    requires drawn { (R.roll_of run.old).drawn + length (S.left steps.old) + 512 ≤ 2 ^ 60 }
    requires lasts { R.lasts run.old }
    requires going { printer.old.going ≡ true }
    ensures ran { HasRun R.HasRun run.old (S.left steps.old) run.new (λ rest text.
        (result ≡ false → rest ≡ []) × IsPrinted printer.new.going
        (behind (output K.taken K.faults out.old) printer.old)
        (behind (output K.taken K.faults out.new) printer.new) text) }
    ensures lasts { R.lasts run.new }
    ensures drawn { (R.roll_of run.new).drawn ≤ (R.roll_of run.old).drawn + length (S.left steps.old) }
    ensures grows { Grows (K.taken out.old) (K.taken out.new) }
    ensures later { K.faults out.old ≤ K.faults out.new }
{
    let mut bindings = Bindings::new(alloc);
    while let Some(step) = steps.next() {
        let Ok(()) = make(alloc, run, &mut bindings, step, out, printer) else {
            return true;
        };
        let Ok(()) = steps.pass() else {
            return true;
        };
    }
    false
}

// The leave that daemons make at the end.
fn leave_of(starved: bool) -> Leave
    ensures { result ≡ leave_of starved }
{
    if starved { Leave::Memory } else { Leave::Done }
}

/// Plays a schedule: makes its steps in order, where no name holds anything yet, prints the line of each answer, and makes the leaves at the end,
/// which print nothing. Lines wait in a buffer. They are passed on where it is full, before each event that may close a transaction, and behind the
/// last step. Where an event, a name or the next step finds no memory, no further step is made, and the leaves tell so. Where the
/// output fails, nothing more is printed, and the run goes on. Unless the disk has failed, no number is held then.
#[tactic(auto, using(crate::proofs::PlayingLemmas::silent))]
pub fn play<R: Runs, S: Steps, K: Sink>(
    alloc: Global,
    run: &mut R,
    steps: &mut S,
    out: &mut K,
) -> Played
    requires drawn { (R.roll_of run.old).drawn + length (S.left steps.old) + 512 ≤ 2 ^ 60 }
    requires lasts { R.lasts run.old }
    ensures plays { Plays R.HasRun run.old run.new (S.left steps.old)
        (output K.taken K.faults out.old) (output K.taken K.faults out.new) result }
    ensures none { (R.roll_of run.new).failed ≡ None →
        hold_none (R.roll_of run.new).daemons ≡ true }
    ensures later { K.faults out.old ≤ K.faults out.new }
{
    let mut printer = Printer::new();
    let starved = play_on(alloc, run, steps, out, &mut printer);
    let printing = printer.finish(out);
    run.roll();
    leave_all(run, leave_of(starved));
    Played { starved, printing }
}
