// The call of `top` that answers a form.
ghost use Rattle.std.specs.Prelude.{◌≡◌, ◌≤◌, ◌↔◌, IfOk, IfSome, MatchOption, Some, None, codes};
ghost use Rattle.std.specs.Prelude.{false, length, true};
ghost use Rattle.sdr_log.specs.Frame.{IsInLimits};
ghost use Rattle.sdr_forms.specs.Answers.{Wrote, seen};
ghost use Rattle.sdr_forms.specs.Form.{OnFormat, form_of, form_on};
ghost use Rattle.sdr_forms.specs.ReadBefore.{WasRead};
ghost use Rattle.sdr_command.specs.Answered.{IsAnswered};
ghost use Rattle.sdr_command.specs.Ending.{ComesBy, ComesHeld, IsEmpty, IsNotOpened, IsStatusOf, IsStatusOnFile};
ghost use Rattle.sdr_command.specs.Ending.{IsStatusRead, SpellsNone, SpellsScript, TakesFile, TakesNoFile, feed_of};
ghost use Rattle.sdr_command.specs.Ending.{runs_on_disk};

use crate::CANNOT_OPEN;
use crate::command::Asked;
use crate::notes::{note_forms, note_loss, note_no_heap, note_unopened};
use sdr_base::{Media, NoGate, Sink, Source, write_all};
use sdr_disk::{Disk, MemoryDisk};
use sdr_forms::{Form, HeapForm, NO_MEMORY, NOT_FORMATTED, USAGE};
use sdr_model::Script;
use sdr_shell::{top, top_read};
use sdr_system::{
    FileDisk, Held, HeldSource, Place, hold, make_disk, open_disk, place_of, view_disk,
};
use sdr_words::{ScriptError, read_script};
use std::alloc::Global;
use std::fs::File;
use std::io;
use std::io::ErrorKind;
use std::rc::RcStr;
use std::rt::Files;
use std::sync::Wait;
use std::thread::Threads;

/// What the top call gave: the status, and the disk back.
#[derive(Drop)]
pub struct Answered<D> {
    pub status: u8,
    pub disk: D,
}

// What the top call gives on a disk, with these media.
fn answer<
    R: Threads + Wait + Sync + AllocGlobal,
    D: Disk + Send + Drop,
    M: Media + Send + Drop,
    S: Source,
    K: Sink,
>(rt: &R, words: &[RcStr], disk: D, media: M, input: &mut S, output: &mut K) -> Answered<D>
    ensures { IsAnswered D.Disk M.Media S.Source K.Sink words.now disk media
        input.old input.new output.old output.new result }
{
    let outcome = top(rt, rt.alloc(), words, disk, media, input, output, &NoGate);
    Answered {
        status: outcome.status,
        disk: outcome.disk,
    }
}

// The status of the top call on an empty disk in memory.
fn answer_in_memory<
    R: Threads + Wait + Sync + AllocGlobal,
    M: Media + Send + Drop,
    S: Source,
    K: Sink,
>(rt: &R, words: &[RcStr], media: M, input: &mut S, output: &mut K) -> u8
    ensures usage { (result ≡ USAGE) ↔ (form_of words.now ≡ None) }
    ensures ends { IsStatusOf ⟦<MemoryDisk as Disk>⟧ (IsEmpty ⟦<MemoryDisk as Disk>⟧) M.Media
        S.Source K.Sink words.now media input.old input.new output.old output.new result }
{
    let disk = MemoryDisk::new(Vec::new(rt.alloc()), Vec::new(rt.alloc()));
    answer(rt, words, disk, media, input, output).status
}

/// The status of words that are no form.
pub fn answer_usage<
    R: Threads + Wait + Sync + AllocGlobal + Eprint,
    M: Media + Send + Drop,
    S: Source,
    K: Sink,
>(rt: &R, words: &[RcStr], media: M, input: &mut S, output: &mut K) -> u8
    requires none { form_of words.now ≡ None }
    ensures usage { result ≡ USAGE }
    ensures ends { IsStatusOf ⟦<MemoryDisk as Disk>⟧ (IsEmpty ⟦<MemoryDisk as Disk>⟧) M.Media
        S.Source K.Sink words.now media input.old input.new output.old output.new result }
{
    note_forms(rt);
    answer_in_memory(rt, words, media, input, output)
}

// The file of a path as a disk to be changed: as it is, or of so many bytes.
fn open_to_change<R: Files<File = File> + AllocGlobal>(
    rt: &R,
    path: &str,
    bytes: Option<u64>,
) -> io::Result<FileDisk<File>> {
    match bytes {
        Some(bytes) => make_disk(rt, path, bytes),
        None => open_disk(rt, path),
    }
}

// The file of a path as a disk for a form: to be looked at alone, or to be changed.
fn open_for<R: Files<File = File> + AllocGlobal>(
    rt: &R,
    form: Form,
    path: &str,
    bytes: Option<u64>,
) -> io::Result<FileDisk<File>> {
    match form {
        Form::Inspect => view_disk(rt, path),
        _ => open_to_change(rt, path, bytes),
    }
}

// The status where there is no memory for the input, or for the bytes of a file.
fn answer_starved<K: Sink>(output: &mut K) -> u8
    ensures status { result ≡ NO_MEMORY }
    ensures written { Wrote (seen K.taken K.faults output.old) (seen K.taken K.faults output.new)
        (codes "no memory\n") }
{
    let _ = write_all(output, b"no memory\n");
    NO_MEMORY
}

// The status where a file isn't opened: the cause is told on standard error, and want of memory by the last line.
fn answer_unopened<R: AllocGlobal + Eprint, K: Sink>(
    rt: &R,
    path: &str,
    error: &io::Error,
    output: &mut K,
) -> u8
    ensures { IsNotOpened K.Sink output.old output.new result }
{
    if error.kind() == ErrorKind::OutOfMemory {
        return answer_starved(output);
    }
    note_unopened(rt, path, error);
    CANNOT_OPEN
}

// The status of a form on the file of a path, where it can be opened.
fn answer_on_file<
    R: Threads + Wait + Sync + AllocGlobal + Eprint + Files<File = File>,
    M: Media + Send + Drop,
    S: Source,
    K: Sink,
>(
    rt: &R,
    asked: Asked<'_>,
    path: &str,
    bytes: Option<u64>,
    media: M,
    input: &mut S,
    output: &mut K,
) -> u8
    requires limits { OnFormat (Some asked.form) IsInLimits }
    ensures { IsStatusOnFile ⟦<FileDisk<File> as Disk>⟧ M.Media S.Source K.Sink
        asked.entry.words.now media input.old input.new output.old output.new result }
{
    let mut disk = match open_for(rt, asked.form, path, bytes) {
        Ok(disk) => disk,
        Err(error) => return answer_unopened(rt, path, &error, output),
    };
    // What can't be read to be told is met again by the form.
    if let Form::Format { frame } = asked.form {
        let _ = note_loss(rt, path, frame, &mut disk);
    }
    let Answered { status, mut disk } = answer(rt, asked.words, disk, media, input, output);
    if status == NOT_FORMATTED {
        let _ = note_no_heap(rt, path, &mut disk);
    }
    status
}

// What the top call gives on a disk for a script that was read, of whose source this is left, with these media.
fn answer_read<
    R: Threads + Wait + Sync + AllocGlobal,
    D: Disk + Send + Drop,
    M: Media + Send + Drop,
    S: Source,
    K: Sink,
>(
    rt: &R,
    asked: Asked<'_>,
    form: HeapForm,
    script: Script,
    disk: D,
    media: M,
    input: &S,
    output: &mut K,
) -> Answered<D>
    requires few { length script ≤ 1_048_577 }
    requires is { form_of asked.words.now ≡ Some (form_on form) }
    ensures { (before : _) → WasRead S.Source script before input.now →
        IsAnswered D.Disk M.Media S.Source K.Sink asked.entry.words.now disk media
        before input.now output.old output.new result }
{
    let outcome = top_read(
        rt,
        rt.alloc(),
        form,
        script,
        disk,
        media,
        input,
        output,
        &NoGate,
    );
    Answered {
        status: outcome.status,
        disk: outcome.disk,
    }
}

// The status of a form that runs a script on the file of a path, where it can be opened. The script was read before: this is left of its source.
fn run_read<
    R: Threads + Wait + Sync + AllocGlobal + Eprint + Files<File = File>,
    M: Media + Send + Drop,
    S: Source,
    K: Sink,
>(
    rt: &R,
    asked: Asked<'_>,
    form: HeapForm,
    script: Script,
    path: &str,
    bytes: Option<u64>,
    media: M,
    input: &S,
    output: &mut K,
) -> u8
    requires few { length script ≤ 1_048_577 }
    requires is { form_of asked.words.now ≡ Some (form_on form) }
    ensures { (before : _) → WasRead S.Source script before input.now →
        IsStatusRead ⟦<FileDisk<File> as Disk>⟧ M.Media S.Source K.Sink
        asked.entry.words.now media before input.now output.old output.new result }
{
    let disk = match open_to_change(rt, path, bytes) {
        Ok(disk) => disk,
        Err(error) => return answer_unopened(rt, path, &error, output),
    };
    let Answered { status, mut disk } = answer_read(
        rt, asked, form, script, disk, media, input, output,
    );
    if status == NOT_FORMATTED {
        let _ = note_no_heap(rt, path, &mut disk);
    }
    status
}

// The script of an input that is held, which is read from its source, if it spells one. One that failed spells none.
fn read_held(
    alloc: Global,
    held: &Held,
    source: &mut HeldSource<'_>,
) -> Result<Option<Script>, ScriptError>
    requires whole { source.old ≡ feed_of held.now }
    ensures read { IfOk result (λ script. MatchOption script (SpellsNone held.now)
        (λ script. SpellsScript held.now
        × WasRead ⟦<HeldSource<'static> as Source>⟧ script source.old source.new)) }
    ensures few { IfOk result (λ script. IfSome script (λ script. length script ≤ 1_048_577)) }
{
    if held.failed {
        return Ok(None);
    }
    match read_script(alloc, source) {
        Ok(script) => Ok(Some(script)),
        Err(ScriptError::Line { .. }) => Ok(None),
        // What is held of an input that didn't fail doesn't fail: there is no memory.
        Err(error) => Err(error),
    }
}

// How a form runs a script on the heap of the disk, if it does.
fn heap_form(form: Form) -> Option<HeapForm>
    ensures { MatchOption result (runs_on_disk form ≡ false)
        (λ heap. (runs_on_disk form ≡ true) × (form ≡ form_on heap)) }
{
    match form {
        Form::Replay => Some(HeapForm::Replay),
        Form::Run { totals } => Some(HeapForm::Run { totals }),
        _ => None,
    }
}

// The status of a form that runs a script on the file of a path. The input is read whole before the file is opened, and
// a script that is refused, or whose input failed, opens none.
fn run_on_file<
    R: Threads + Wait + Sync + AllocGlobal + Eprint + Files<File = File>,
    M: Media + Send + Drop,
    S: Source,
    K: Sink,
>(
    rt: &R,
    asked: Asked<'_>,
    form: HeapForm,
    path: &str,
    bytes: Option<u64>,
    media: M,
    input: &mut S,
    output: &mut K,
) -> u8
    requires is { form_of asked.words.now ≡ Some (form_on form) }
    ensures { ComesHeld ⟦<MemoryDisk as Disk>⟧ ⟦<FileDisk<File> as Disk>⟧ M.Media S.Source
        ⟦<HeldSource<'static> as Source>⟧ K.Sink asked.entry.words.now media
        input.old input.new output.old output.new result }
{
    let Ok(held) = hold(rt.alloc(), input) else {
        return answer_starved(output);
    };
    let mut source = held.source();
    let Ok(script) = read_held(rt.alloc(), &held, &mut source) else {
        return answer_starved(output);
    };
    match script {
        Some(script) => run_read(rt, asked, form, script, path, bytes, media, &source, output),
        None => answer_in_memory(rt, asked.words, media, &mut held.source(), output),
    }
}

// The file that a form takes: its path, and how many bytes it is to have where the word says so.
fn file_of(asked: Asked<'_>) -> Option<(&str, Option<u64>)>
    ensures { MatchOption result (TakesNoFile asked.entry.disk.now asked.entry.form)
        (λ file. TakesFile asked.entry.disk.now asked.entry.form) }
{
    if let Form::Dry = asked.form {
        return None;
    }
    match place_of(asked.disk) {
        Place::Memory => None,
        Place::File { path } => Some((path, None)),
        Place::Sized { path, bytes } => Some((path, Some(bytes))),
    }
}

/// The status of a form.
pub fn answer_form<
    R: Threads + Wait + Sync + AllocGlobal + Eprint + Files<File = File>,
    M: Media + Send + Drop,
    S: Source,
    K: Sink,
>(rt: &R, asked: Asked<'_>, media: M, input: &mut S, output: &mut K) -> u8
    requires limits { OnFormat (Some asked.form) IsInLimits }
    requires is { form_of asked.words.now ≡ Some asked.form }
    ensures { ComesBy ⟦<MemoryDisk as Disk>⟧ ⟦<FileDisk<File> as Disk>⟧ M.Media S.Source
        ⟦<HeldSource<'static> as Source>⟧ K.Sink asked.entry.disk.now asked.entry.form
        asked.entry.words.now media input.old input.new output.old output.new result }
{
    let Some((path, bytes)) = file_of(asked) else {
        return answer_in_memory(rt, asked.words, media, input, output);
    };
    match heap_form(asked.form) {
        Some(form) => run_on_file(rt, asked, form, path, bytes, media, input, output),
        None => answer_on_file(rt, asked, path, bytes, media, input, output),
    }
}
