// A load on the heap of the disk, and what is said of it.
ghost use Rattle.std.specs.Prelude.{◌≤◌};
ghost use Rattle.sdr_core.specs.Caused.{HaveFailed, media_change};
ghost use Rattle.sdr_load.specs.declared.round.TheConstants.{MOST_ROUNDS};
ghost use Rattle.sdr_log.specs.Calls.{KeepsDisk};
ghost use Rattle.sdr_forms.specs.Answers.{seen};
ghost use Rattle.sdr_forms.specs.Loading.{AnswersLoad, TellsLoad};

use crate::RunOutcome;
use crate::last_line::{last_line, print_line};
use crate::outcome::without_journal;
use crate::shutting::tell_shut;
use crate::status::{DISK_FAULT, NO_MEMORY};
use run_load::{LoadEnd, load, summary_line};
use sdr_base::{Media, Sink};
use sdr_disk::Disk;
use std::alloc::Global;

// Tells how a load of so many rounds ended.
fn tell_load<K: Sink>(rounds: u64, end: LoadEnd, output: &mut K) -> u8
    ensures told { TellsLoad rounds end result
        (seen K.taken K.faults output.old) (seen K.taken K.faults output.new) }
    ensures later { K.faults output.old ≤ K.faults output.new }
{
    match end {
        LoadEnd::Summed(summary) => {
            let text = summary_line(rounds, &summary);
            print_line(output, text.as_slice())
        }
        LoadEnd::Starved => {
            last_line(output, b"no memory\n");
            NO_MEMORY
        }
        LoadEnd::Failed | LoadEnd::Unread => DISK_FAULT,
    }
}

/// Runs a load of so many rounds on the heap of the disk, and prints its summary. It reads no input.
pub fn load_disk<D: Disk, M: Media, K: Sink>(
    alloc: Global,
    rounds: u64,
    disk: D,
    media: M,
    output: &mut K,
) -> RunOutcome<D, M>
    requires few { rounds ≤ MOST_ROUNDS }
    ensures answers { AnswersLoad rounds D.Disk M.Media result.status disk result.disk media
        result.media result.journal (seen K.taken K.faults output.old) (seen K.taken K.faults output.new) }
    ensures media { HaveFailed 0 0 (media_change M.told M.faults M.short media result.media) }
    ensures later { (K.faults output.old ≤ K.faults output.new)
        × (D.faults disk ≤ D.faults result.disk) }
    ensures keeps { KeepsDisk D.bytes D.tells_crashes disk result.disk }
{
    match load(alloc, rounds, disk, media) {
        Ok(loaded) => {
            let status = tell_load(rounds, loaded.end, output);
            RunOutcome {
                status,
                journal: loaded.journal,
                disk: loaded.disk,
                media: loaded.media,
            }
        }
        Err(shut) => {
            let status = tell_shut(shut.why, output);
            without_journal(alloc, status, shut.disk, shut.media)
        }
    }
}
