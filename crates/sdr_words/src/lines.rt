// Reading a script line by line.
ghost use Rattle.std.specs.Prelude.{◌≡◌, ◌≤◌, ◌<◌, ◌^◌, MatchOption, IfOk, IfSome, OnOk, OnErr, ◌+◌, ◌++◌, ◌∷◌, [], length, Some, None};
ghost use Rattle.sdr_words.specs.Fields.{fields_of};
ghost use Rattle.sdr_words.specs.LineAnswers.{AddsStep, GivesOr, ReadsAs};
ghost use Rattle.sdr_words.specs.Script.{input_lines, ended_lines, read_line, read_lines};
ghost use Rattle.sdr_words.specs.Statements.{is_bound_by, name_and_rest, step_of, verb_and_args};

use crate::arguments::args_of;
use crate::draft::Draft;
use crate::fields::{are_line_bytes, cut_field, is_skipped};
use crate::words::{daemon_of, is_name};
use crate::{LineError, ScriptError, place_of, shapes_at};
use bstr::ByteSlice;
use sdr_base::Bytes;
use sdr_model::{Args, ScriptStep};
use std::alloc::Global;

/// A part of a line cut behind its first field, where it has one.
type Cut<'a> = Option<(&'a [u8], &'a [u8])>;

/// The name that the rest of a line behind its daemon binds, and what stands behind it, cut behind the verb.
fn name_and_rest(rest: &[u8]) -> Option<(&[u8], Cut<'_>)>
    ensures { let given = name_and_rest (fields_of rest.now) in
        MatchOption result (given ≡ None)
        (λ named. MatchOption named.1 (given ≡ Some (named.0.now, []))
        (λ cut. given ≡ Some (named.0.now, cut.0.now ∷ fields_of cut.1.now))) }
{
    let (first, behind) = cut_field(rest)?;
    match cut_field(behind) {
        Some((equals, after)) if equals == b"=".as_slice() => {
            if is_name(first) {
                Some((first, cut_field(after)))
            } else {
                None
            }
        }
        _ => Some((&[], Some((first, behind)))),
    }
}

/// The verb's place and the arguments of a line of this daemon: the verb is cut off the front of what stands behind it.
fn verb_and_args(
    alloc: Global,
    draft: &Draft<'_>,
    daemon: u8,
    verb: &[u8],
    arguments: &[u8],
) -> Result<(u64, Args), LineError>
    ensures { GivesOr result (verb_and_args (is_bound_by draft.now.steps daemon)
        (verb.now ∷ fields_of arguments.now)) }
{
    let place = place_of(verb).ok_or(LineError::Refused)?;
    let args = args_of(alloc, draft, daemon, shapes_at(place), arguments)?;
    Ok((place as u64, args))
}

// Makes a step of the next line, which isn't skipped. Where it makes none, all is as before.
fn read_step<'a>(alloc: Global, draft: &mut Draft<'a>, line: &'a [u8]) -> Result<(), LineError>
    requires room { draft.old.next < 2 ^ 63 }
    ensures step { AddsStep result draft.old draft.new
        (step_of draft.old.steps draft.old.next (fields_of line.now)) }
    ensures err { OnErr result (draft.new ≡ draft.old) }
{
    let (first, rest) = cut_field(line).ok_or(LineError::Refused)?;
    let daemon = daemon_of(first).ok_or(LineError::Refused)?;
    let (name, cut) = name_and_rest(rest).ok_or(LineError::Refused)?;
    let (verb, arguments) = cut.ok_or(LineError::Refused)?;
    let (verb, args) = verb_and_args(alloc, draft, daemon, verb, arguments)?;
    let step = ScriptStep {
        line: draft.next_line(),
        daemon,
        name: Bytes::copied(alloc, name)?,
        verb,
        args,
    };
    draft.add(daemon, name, step)?;
    Ok(())
}

/// Reads the next line.
pub fn read_line<'a>(
    alloc: Global,
    draft: &mut Draft<'a>,
    line: &'a [u8],
) -> Result<(), ScriptError>
    requires room { draft.old.next < 2 ^ 63 }
    ensures line { ReadsAs result draft.new (read_line draft.old line.now) }
    ensures next { OnOk result (draft.new.next ≡ draft.old.next + 1) }
{
    let number = draft.next_line();
    if !are_line_bytes(line) {
        return Err(ScriptError::Line { line: number });
    }
    if is_skipped(line) {
        draft.skip_line();
        return Ok(());
    }
    match read_step(alloc, draft, line) {
        Ok(()) => Ok(()),
        Err(LineError::Refused) => Err(ScriptError::Line { line: number }),
        Err(LineError::NoMemory) => Err(ScriptError::NoMemory),
    }
}

// The line at the front, and what stands behind its end; none where no line ends within the bytes.
#[tactic(auto, using(crate::proofs::ReadingLemmas::cutting))]
fn cut_line(bytes: &[u8]) -> Option<(&[u8], &[u8])>
    ensures lines { MatchOption result (input_lines bytes.now ≡ bytes.now ∷ [])
        (λ cut. input_lines bytes.now ≡ cut.0.now ∷ input_lines cut.1.now) }
    ensures shorter { IfSome result (λ cut. length cut.1.now < length bytes.now) }
{
    let end = bytes.find_byte(b'\n')?;
    Some((&bytes[..end], &bytes[end + 1..]))
}

/// Reads the lines that end within the bytes, and gives what stands behind the last of them.
#[tactic(auto, using(crate::proofs::ReadingLemmas::reading))]
pub fn read_ended<'a>(
    alloc: Global,
    draft: &mut Draft<'a>,
    bytes: &'a [u8],
) -> Result<&'a [u8], ScriptError>
    requires room { draft.old.next + length bytes.now < 2 ^ 63 }
    ensures ended { ReadsAs result draft.new (read_lines draft.old (ended_lines bytes.now)) }
    ensures last { IfOk result (λ last.
        input_lines bytes.now ≡ ended_lines bytes.now ++ last.now ∷ []) }
    ensures room { OnOk result (draft.new.next < 2 ^ 63) }
{
    let mut rest = bytes;
    while let Some((line, after)) = cut_line(rest) {
        read_line(alloc, draft, line)?;
        rest = after;
    }
    Ok(rest)
}
