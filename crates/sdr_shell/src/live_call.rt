// The call that may wait.
ghost use Rattle.std.specs.Prelude.{◌≡◌};
ghost use Rattle.sdr_forms.specs.Form.{live_totals};
ghost use Rattle.sdr_shell.specs.Words.{AnswersLive};

use sdr_base::{Gate, Media, Sink, Source};
use sdr_disk::Disk;
use sdr_forms::{Form, RunOutcome, form_of, no_form, run_input};
use std::alloc::Global;
use std::rc::RcStr;
use std::sync::Wait;
use std::thread::Threads;

// Whether totals are asked, where it is the form `run`.
fn live_totals(form: Option<Form>) -> Option<bool>
    ensures { result ≡ live_totals form }
{
    match form {
        Some(Form::Run { totals }) => Some(totals),
        _ => None,
    }
}

/// Answers the words `run` and `run totals`, with the daemons of the input's scripts in threads, and all other words as words that are no form. It
/// may wait for daemons; what it answers holds if it returns.
pub fn live<
    R: Threads + Wait + Sync,
    D: Disk + Send,
    M: Media + Send,
    S: Source,
    K: Sink,
    G: Gate + Sync,
>(
    rt: &R,
    alloc: Global,
    words: &[RcStr],
    disk: D,
    media: M,
    input: &mut S,
    output: &mut K,
    gate: &G,
) -> RunOutcome<D, M>
    ensures { AnswersLive D.Disk M.Media S.Source K.Sink words.now disk media
        input.old input.new output.old output.new result }
{
    match live_totals(form_of(words)) {
        Some(totals) => run_input(rt, alloc, totals, disk, media, input, output, gate),
        None => no_form(alloc, disk, media, output),
    }
}
