// The status of a command line, by its words.
ghost use Rattle.std.specs.Process.{exit_status};
ghost use Rattle.sdr_command.specs.Ending.{EndsWith};

use crate::CANNOT_OPEN;
use crate::about::print;
use crate::answering::{answer_form, answer_usage};
use crate::command::{Command, command_of};
use crate::notes::note_unopened;
use sdr_base::{Media, Sink, Source};
use sdr_disk::{Disk, MemoryDisk};
use sdr_system::{FileDisk, HeldSource, take_streams};
use std::fs::File;
use std::process::ExitCode;
use std::rc::RcStr;
use std::rt::Files;
use std::sync::Wait;
use std::thread::Threads;

// The status of a command line.
fn run<
    R: Threads + Wait + Sync + AllocGlobal + Eprint + Files<File = File>,
    M: Media + Send + Drop,
    S: Source,
    K: Sink,
>(rt: &R, words: &[RcStr], media: M, input: &mut S, output: &mut K) -> u8
    ensures { EndsWith ⟦<MemoryDisk as Disk>⟧ ⟦<FileDisk<File> as Disk>⟧ M.Media S.Source
        ⟦<HeldSource<'static> as Source>⟧ K.Sink words.now media
        input.old input.new output.old output.new result }
{
    match command_of(words) {
        Command::About { text } => print(output, text),
        Command::Usage { words } => answer_usage(rt, words, media, input, output),
        Command::Form { asked } => match take_streams(rt) {
            // Kept until the form is answered.
            Ok(_streams) => answer_form(rt, asked, media, input, output),
            Err(error) => {
                note_unopened(rt, ".", &error);
                CANNOT_OPEN
            }
        },
    }
}

/// What the program ends with: the status of a command line, whose words are these. Files and items that sources name are those of the
/// media. Standard error says more where something can't be opened. It may wait for daemons in threads, and what it ensures holds if it returns.
pub fn exit_code<
    R: Threads + Wait + Sync + AllocGlobal + Eprint + Files<File = File>,
    M: Media + Send + Drop,
    S: Source,
    K: Sink,
>(rt: &R, words: &[RcStr], media: M, input: &mut S, output: &mut K) -> ExitCode
    ensures { EndsWith ⟦<MemoryDisk as Disk>⟧ ⟦<FileDisk<File> as Disk>⟧ M.Media S.Source
        ⟦<HeldSource<'static> as Source>⟧ K.Sink words.now media
        input.old input.new output.old output.new (exit_status result) }
{
    ExitCode::from(run(rt, words, media, input, output))
}
