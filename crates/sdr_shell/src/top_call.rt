// The call that the program makes.
ghost use Rattle.sdr_shell.specs.Words.{AnswersWords};

use crate::live_call::live;
use crate::still_call::still;
use sdr_base::{Gate, Media, Sink, Source};
use sdr_disk::Disk;
use sdr_forms::{RunOutcome, asks_live};
use std::alloc::Global;
use std::rc::RcStr;
use std::sync::Wait;
use std::thread::Threads;

/// Answers the words: the call that the program makes. Words whose first is `run` go to `live`, which may start threads and wait for
/// them, so that what it answers holds if it returns; all others go to `still`, which returns.
pub fn top<
    R: Threads + Wait + Sync,
    D: Disk + Send,
    M: Media + Send,
    S: Source,
    K: Sink,
    G: Gate + Sync,
>(
    rt: &R,
    alloc: Global,
    words: &[RcStr],
    disk: D,
    media: M,
    input: &mut S,
    output: &mut K,
    gate: &G,
) -> RunOutcome<D, M>
    ensures { AnswersWords D.Disk M.Media S.Source K.Sink words.now disk media
        input.old input.new output.old output.new result }
{
    if asks_live(words) {
        live(rt, alloc, words, disk, media, input, output, gate)
    } else {
        still(alloc, words, disk, media, input, output)
    }
}
