// Reading a script from a source.
ghost use Rattle.std.specs.Prelude.{◌≡◌, ◌≤◌, ◌<◌, ◌+◌, ◌^◌, length, IfOk, IfErr, IfSome, IsErrOf};
ghost use Rattle.sdr_base.specs.Causes.{Rose};
ghost use Rattle.sdr_words.specs.LineAnswers.{GivesScript};
ghost use Rattle.sdr_words.specs.Reading.{ReadsScript, ReadsInput, NamesLine, NamesNoLine};
ghost use Rattle.sdr_words.specs.Script.{script_of, refused_behind, input_script};

use crate::ScriptError;
use crate::draft::Draft;
use crate::lines::{read_ended, read_line};
use sdr_base::Source;
use sdr_model::Script;
use std::alloc::Global;

/// An input has at most so many bytes.
const LONGEST_INPUT: usize = 1_048_576;

/// So many bytes are asked of the source at once.
const PIECE: usize = 4096;

// Reads to the end of the input, or until it is too long.
#[tactic(auto, using(crate::proofs::ReadingLemmas::taking))]
fn read_input<S: Source>(alloc: Global, source: &mut S) -> Result<Vec<u8>, ScriptError>
    ensures read { IfOk result (λ v. ReadsInput (S.left source.old) (S.left source.new) v.items) }
    ensures bound { IfOk result (λ v. length v.items ≤ LONGEST_INPUT + PIECE) }
    ensures no_line { IfErr result NamesNoLine }
    ensures later { S.faults source.old ≤ S.faults source.new }
    ensures reads { S.reads source.new ≤ S.reads source.old + 1048577 }
    ensures each { IfSome (S.left source.old)
        (λ bytes. S.reads source.new ≤ S.reads source.old + length bytes + 1) }
    ensures input { IsErrOf result ScriptError.Input →
        Rose (S.faults source.old) (S.faults source.new) }
{
    let mut input = Vec::new(alloc);
    let mut piece = [0u8; PIECE];
    while input.len() <= LONGEST_INPUT {
        let count = source.read(&mut piece)? as usize;
        if count == 0 {
            break;
        }
        input.extend_from_slice(&piece[..count])?;
    }
    Ok(input)
}

// The script of an input that is not too long, or its first refused line.
fn script_of(alloc: Global, input: &[u8]) -> Result<Script, ScriptError>
    requires { length input.now < 2 ^ 32 }
    ensures { GivesScript result (script_of input.now) }
{
    let mut draft = Draft::new(alloc, input.len())?;
    let last = read_ended(alloc, &mut draft, input)?;
    read_line(alloc, &mut draft, last)?;
    Ok(draft.into_script())
}

// The first refused line of an input that goes on behind its longest front.
fn refused_behind(alloc: Global, front: &[u8]) -> Result<Script, ScriptError>
    requires { length front.now < 2 ^ 32 }
    ensures { GivesScript result (refused_behind front.now) }
{
    let mut draft = Draft::new(alloc, front.len())?;
    read_ended(alloc, &mut draft, front)?;
    Err(ScriptError::Line {
        line: draft.next_line(),
    })
}

// The script that an input of any length spells, or its first refused line.
fn input_script(alloc: Global, input: &[u8]) -> Result<Script, ScriptError>
    requires { length input.now < 2 ^ 32 }
    ensures { GivesScript result (input_script input.now) }
{
    if input.len() <= LONGEST_INPUT {
        return script_of(alloc, input);
    }
    let (front, _) = input.split_at(LONGEST_INPUT);
    refused_behind(alloc, front)
}

/// Reads a script to the end of its input and not past it, in at most 1,048,577 reads: each but the last gave a byte. Where the source
/// tells its bytes, the reads are at most one more than these.
pub fn read_script<S: Source>(alloc: Global, source: &mut S) -> Result<Script, ScriptError>
    ensures script { IfOk result (ReadsScript (S.left source.old) (S.left source.new)) }
    ensures line { IfErr result (NamesLine (S.left source.old) (S.left source.new)) }
    ensures later { S.faults source.old ≤ S.faults source.new }
    ensures reads { S.reads source.new ≤ S.reads source.old + 1048577 }
    ensures each { IfSome (S.left source.old)
        (λ bytes. S.reads source.new ≤ S.reads source.old + length bytes + 1) }
    ensures input { IsErrOf result ScriptError.Input →
        Rose (S.faults source.old) (S.faults source.new) }
{
    let input = read_input(alloc, source)?;
    input_script(alloc, input.as_slice())
}
