// The call for a script that was read.
ghost use Rattle.std.specs.Prelude.{◌≤◌, Some, length};
ghost use Rattle.sdr_forms.specs.Form.{form_on};
ghost use Rattle.sdr_forms.specs.ReadBefore.{WasRead};
ghost use Rattle.sdr_shell.specs.Words.{AnswersForm};

use sdr_base::{Gate, Media, Sink, Source};
use sdr_disk::Disk;
use sdr_forms::{HeapForm, RunOutcome, replay_script, run_scripts};
use sdr_model::Script;
use std::alloc::Global;
use std::sync::Wait;
use std::thread::Threads;

/// Answers a form that runs a script on the heap of the disk, where the script was read before: `input` is what is left of its source. It
/// answers as `top` does to a source that gives the same, and reads nothing more. It may wait for daemons; what it answers holds if it returns.
pub fn top_read<
    R: Threads + Wait + Sync,
    D: Disk + Send,
    M: Media + Send,
    S: Source,
    K: Sink,
    G: Gate + Sync,
>(
    rt: &R,
    alloc: Global,
    form: HeapForm,
    script: Script,
    disk: D,
    media: M,
    input: &S,
    output: &mut K,
    gate: &G,
) -> RunOutcome<D, M>
    requires few { length script ≤ 1_048_577 }
    ensures { (before : _) → WasRead S.Source script before input.now →
        AnswersForm D.Disk M.Media S.Source K.Sink (Some (form_on form)) disk media
        before input.now output.old output.new result }
{
    let _ = input;
    match form {
        HeapForm::Replay => replay_script(alloc, script.as_slice(), disk, media, output),
        HeapForm::Run { totals } => {
            run_scripts(rt, alloc, totals, script, disk, media, output, gate)
        }
    }
}
