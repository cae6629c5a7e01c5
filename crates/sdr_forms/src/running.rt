// The daemons of the input's scripts on the heap of a disk, and what is said of them.
ghost use Rattle.std.specs.Prelude.{◌≡◌, ◌≤◌, ◌++◌, OnErr, OnOk};
ghost use Rattle.std.specs.Io.KnownBytes.{Appends};
ghost use Rattle.sdr_base.specs.Causes.{HasCause};
ghost use Rattle.sdr_base.specs.Written.{AppendsPart};
ghost use Rattle.sdr_core.specs.Caused.{HaveFailed, media_change};
ghost use Rattle.sdr_run.specs.Playing.{IsPrinted};
ghost use Rattle.sdr_forms.specs.Answers.{output_of, seen};
ghost use Rattle.sdr_forms.specs.Running.{PrintsJournal, line_asked};
ghost use Rattle.sdr_forms.specs.Telling.{AnswersInput, RunsOrNot};
ghost use Rattle.sdr_text.specs.JournalText.{journal_text};

use crate::RunOutcome;
use crate::drying::tell;
use crate::outcome::without_journal;
use crate::replaying::{RunEnd, tell_ran};
use crate::shutting::tell_shut;
use run_live::run_daemons;
use sdr_base::{Gate, Media, Sink, SinkFault, Source};
use sdr_board::Totals;
use sdr_disk::Disk;
use sdr_model::{Entry, Script};
use sdr_text::write_totals;
use sdr_text_journal::write_entries;
use sdr_words::read_script;
use std::alloc::Global;
use std::sync::Wait;
use std::thread::Threads;

// Writes the line of totals, where it is asked.
fn write_asked<K: Sink>(output: &mut K, asked: bool, totals: &Totals) -> Result<(), SinkFault>
    ensures ok { OnOk result (Appends (K.taken output.old) (K.taken output.new)
        (line_asked asked totals.now)) }
    ensures err { OnErr result (AppendsPart (K.taken output.old) (K.taken output.new)
        (line_asked asked totals.now)) }
    ensures cause { HasCause (K.faults output.old) (K.faults output.new) result }
{
    if asked {
        write_totals(output, totals)
    } else {
        Ok(())
    }
}

// Writes a journal, and behind it the line of these totals where it is asked.
fn write_run<K: Sink>(
    output: &mut K,
    journal: &[Entry],
    asked: bool,
    totals: &Totals,
) -> Result<(), SinkFault>
    ensures ok { OnOk result (Appends (K.taken output.old) (K.taken output.new)
        (journal_text journal.now ++ line_asked asked totals.now)) }
    ensures err { OnErr result (AppendsPart (K.taken output.old) (K.taken output.new)
        (journal_text journal.now ++ line_asked asked totals.now)) }
    ensures cause { HasCause (K.faults output.old) (K.faults output.new) result }
{
    write_entries(output, journal)?;
    write_asked(output, asked, totals)
}

// Prints a journal, and behind it the line of these totals where it is asked. Says whether the output took all of the text.
fn print_run<K: Sink>(output: &mut K, journal: &[Entry], asked: bool, totals: &Totals) -> bool
    ensures printed { IsPrinted result (output_of (seen K.taken K.faults output.old))
        (output_of (seen K.taken K.faults output.new))
        (journal_text journal.now ++ line_asked asked totals.now) }
    ensures later { K.faults output.old ≤ K.faults output.new }
{
    match write_run(output, journal, asked, totals) {
        Ok(()) => true,
        Err(_) => false,
    }
}

/// Runs the daemons of a script that was read on the heap of the disk, whose sources name these media, and prints the journal, and behind it
/// the line of its totals where that is asked. It may wait, and what it ensures holds if it returns.
pub fn run_scripts<
    R: Threads + Wait + Sync,
    D: Disk + Send,
    M: Media + Send,
    K: Sink,
    G: Gate + Sync,
>(
    rt: &R,
    alloc: Global,
    totals: bool,
    script: Script,
    disk: D,
    media: M,
    output: &mut K,
    gate: &G,
) -> RunOutcome<D, M>
    ensures runs { RunsOrNot D.Disk M.Media (PrintsJournal totals) disk media script
        (seen K.taken K.faults output.old) (seen K.taken K.faults output.new) result }
    ensures media { HaveFailed 0 0 (media_change M.told M.faults M.short media result.media) }
    ensures later { K.faults output.old ≤ K.faults output.new }
{
    match run_daemons(rt, alloc, script, disk, media, gate) {
        Ok(ran) => {
            let printing = print_run(output, ran.journal.as_slice(), totals, &ran.totals);
            let end = RunEnd {
                failed: ran.failed,
                starved: ran.starved,
                printing,
            };
            let status = tell_ran(end, output);
            let (disk, media) = ran.base;
            RunOutcome {
                status,
                journal: ran.journal,
                disk,
                media,
            }
        }
        Err(shut) => {
            let status = tell_shut(shut.why, output);
            without_journal(alloc, status, shut.disk, shut.media)
        }
    }
}

/// Runs the daemons of the input's scripts on the heap of the disk, whose sources name these media, and prints the journal, and
/// behind it the line of its totals where that is asked. A line that is refused is told before anything runs. It may wait, and what it ensures holds if it returns.
#[tactic(auto, using(crate::proofs::ScriptRead::read_scripts))]
pub fn run_input<
    R: Threads + Wait + Sync,
    D: Disk + Send,
    M: Media + Send,
    S: Source,
    K: Sink,
    G: Gate + Sync,
>(
    rt: &R,
    alloc: Global,
    totals: bool,
    disk: D,
    media: M,
    input: &mut S,
    output: &mut K,
    gate: &G,
) -> RunOutcome<D, M>
    ensures { AnswersInput D.Disk M.Media S.Source K.Sink (PrintsJournal totals) disk media
        input.old input.new output.old output.new result }
{
    match read_script(alloc, input) {
        Ok(script) => run_scripts(rt, alloc, totals, script, disk, media, output, gate),
        Err(error) => {
            let status = tell(&error, output);
            without_journal(alloc, status, disk, media)
        }
    }
}
