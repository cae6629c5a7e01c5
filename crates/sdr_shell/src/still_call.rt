// The calls that wait for nobody.
ghost use Rattle.sdr_shell.specs.Words.{AnswersStill};

use sdr_base::{Media, Sink, Source};
use sdr_disk::Disk;
use sdr_forms::{
    Form, Recovered, RunOutcome, dry_input, form_of, format_disk, inspect_disk, load_disk, no_form,
    recover_disk, replay_input, without_journal,
};
use std::alloc::Global;
use std::rc::RcStr;

/// Answers the words, waits for nobody, and returns for every input. Words whose first is `run` it answers as words that are no form.
pub fn still<D: Disk, M: Media, S: Source, K: Sink>(
    alloc: Global,
    words: &[RcStr],
    mut disk: D,
    media: M,
    input: &mut S,
    output: &mut K,
) -> RunOutcome<D, M>
    ensures { AnswersStill D.Disk M.Media S.Source K.Sink words.now disk media
        input.old input.new output.old output.new result }
{
    match form_of(words) {
        Some(Form::Dry) => {
            let (status, media) = dry_input(alloc, media, input, output);
            without_journal(alloc, status, disk, media)
        }
        Some(Form::Replay) => replay_input(alloc, disk, media, input, output),
        Some(Form::Load { rounds }) => load_disk(alloc, rounds, disk, media, output),
        Some(Form::Recover) => {
            let Recovered { status, disk } = recover_disk(alloc, disk, output);
            without_journal(alloc, status, disk, media)
        }
        Some(Form::Inspect) => {
            let status = inspect_disk(alloc, &mut disk, output);
            without_journal(alloc, status, disk, media)
        }
        Some(Form::Format { frame }) => {
            let status = format_disk(frame, &mut disk, output);
            without_journal(alloc, status, disk, media)
        }
        Some(Form::Run { .. }) => no_form(alloc, disk, media, output),
        None => no_form(alloc, disk, media, output),
    }
}
