// A replay of the input's schedule on the heap of a disk, and what is said of it.
ghost use Rattle.std.specs.Prelude.{◌≡◌, ◌≤◌, length};
ghost use Rattle.sdr_core.specs.Caused.{HaveFailed, media_change};
ghost use Rattle.sdr_run.specs.Playing.{ReplaysSteps};
ghost use Rattle.sdr_forms.specs.Answers.{seen};
ghost use Rattle.sdr_forms.specs.Telling.{AnswersInput, RunsOrNot, Telling};

use crate::RunOutcome;
use crate::drying::tell;
use crate::last_line::last_line;
use crate::outcome::without_journal;
use crate::shutting::tell_shut;
use crate::status::{DISK_FAULT, DONE, NO_MEMORY, OUTPUT_FAULT};
use sdr_base::{Media, Sink, Source};
use sdr_disk::Disk;
use sdr_model::ScriptStep;
use sdr_run::replay;
use sdr_words::read_script;
use std::alloc::Global;

/// What stopped a run, if anything did.
#[derive(Clone, Copy)]
pub struct RunEnd {
    /// Whether the disk failed in an entry.
    pub failed: bool,
    /// Whether memory was wanting.
    pub starved: bool,
    /// Whether the output took all of the text.
    pub printing: bool,
}

/// Tells what stopped a run, if anything did, behind its text.
pub fn tell_ran<K: Sink>(ran: RunEnd, output: &mut K) -> u8
    ensures told { Telling ran.failed ran.starved ran.printing result
        (seen K.taken K.faults output.old) (seen K.taken K.faults output.new) }
    ensures later { K.faults output.old ≤ K.faults output.new }
{
    if ran.failed {
        return DISK_FAULT;
    }
    if ran.starved {
        if ran.printing {
            last_line(output, b"no memory\n");
        }
        return NO_MEMORY;
    }
    if ran.printing { DONE } else { OUTPUT_FAULT }
}

/// Replays a script that was read on the heap of the disk, whose sources name these media, and tells what stopped it.
pub fn replay_script<D: Disk, M: Media, K: Sink>(
    alloc: Global,
    script: &[ScriptStep],
    disk: D,
    media: M,
    output: &mut K,
) -> RunOutcome<D, M>
    requires { length script.now ≤ 1_048_577 }
    ensures runs { RunsOrNot D.Disk M.Media ReplaysSteps disk media script.now
        (seen K.taken K.faults output.old) (seen K.taken K.faults output.new) result }
    ensures media { HaveFailed 0 0 (media_change M.told M.faults M.short media result.media) }
    ensures later { K.faults output.old ≤ K.faults output.new }
{
    match replay(alloc, script, disk, media, output) {
        Ok(ran) => {
            let end = RunEnd {
                failed: ran.failed,
                starved: ran.starved,
                printing: ran.printing,
            };
            let status = tell_ran(end, output);
            let (disk, media) = ran.base;
            RunOutcome {
                status,
                journal: ran.journal,
                disk,
                media,
            }
        }
        Err(shut) => {
            let status = tell_shut(shut.why, output);
            without_journal(alloc, status, shut.disk, shut.media)
        }
    }
}

/// Replays the schedule of the input on the heap of the disk, whose sources name these media. A line
/// that is refused is told before anything runs.
#[tactic(auto, using(crate::proofs::ScriptRead::read_scripts))]
pub fn replay_input<D: Disk, M: Media, S: Source, K: Sink>(
    alloc: Global,
    disk: D,
    media: M,
    input: &mut S,
    output: &mut K,
) -> RunOutcome<D, M>
    ensures { AnswersInput D.Disk M.Media S.Source K.Sink ReplaysSteps disk media
        input.old input.new output.old output.new result }
{
    match read_script(alloc, input) {
        Ok(script) => replay_script(alloc, script.as_slice(), disk, media, output),
        Err(error) => {
            let status = tell(&error, output);
            without_journal(alloc, status, disk, media)
        }
    }
}
