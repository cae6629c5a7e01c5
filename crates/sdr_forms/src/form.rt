// The forms that the words of a command line have.
ghost use Rattle.std.specs.Prelude.{◌≡◌, ◌≤◌, IfSome, true};
ghost use Rattle.std.specs.Rc.{rc_str_bytes};
ghost use Rattle.sdr_log.specs.Frame.{IsInLimits};
ghost use Rattle.sdr_forms.specs.Form.{are_rounds, asks_live, frame_from, form_of, rounds_from, OnFormat, OnLoad};
ghost use Rattle.sdr_words.specs.Words.{as_number};

use sdr_load::MOST_ROUNDS;
use sdr_log::Frame;
use sdr_words::number_of;
use std::rc::RcStr;

/// What the words ask for.
#[derive(Clone, Copy, Debug, PartialEq, Eq)]
pub enum Form {
    /// `dry`: runs the schedule of the input on a plain world; the disk isn't touched.
    Dry,
    /// `replay`: runs the schedule of the input on the heap of the disk.
    Replay,
    /// `run`: runs the daemons of the input's scripts on the heap of the disk, each in a thread. `run totals` prints the totals
    /// of the journal behind it.
    Run { totals: bool },
    /// `load N`: runs a generated load of so many rounds on the heap of the disk, and prints a summary of it.
    Load { rounds: u64 },
    /// `recover`: puts back the heap of the disk.
    Recover,
    /// `inspect`: prints the world of the heap; the disk is only read.
    Inspect,
    /// `format L H`: makes an empty heap of the disk, with so many lines of log and of heap.
    Format { frame: Frame },
}

/// A form that runs a script on the heap of the disk.
#[derive(Clone, Copy, Debug, PartialEq, Eq)]
pub enum HeapForm {
    /// `replay`.
    Replay,
    /// `run`, or `run totals`.
    Run { totals: bool },
}

// The regions that two words ask for.
fn frame_of(log: &[u8], heap: &[u8]) -> Option<Frame>
    ensures frame { result ≡ frame_from (as_number log.now) (as_number heap.now) }
    ensures limits { IfSome result (λ frame. IsInLimits frame) }
{
    let log_lines = number_of(log)?;
    let heap_lines = number_of(heap)?;
    let frame = Frame {
        log_lines,
        heap_lines,
    };
    if frame.is_in_limits() {
        Some(frame)
    } else {
        None
    }
}

// Whether a load may have so many rounds.
fn are_rounds(rounds: u64) -> bool
    ensures test { result ≡ are_rounds rounds }
    ensures few { result ≡ true → rounds ≤ MOST_ROUNDS }
{
    rounds >= 1 && rounds <= MOST_ROUNDS
}

// The rounds that a word asks for: from 1 to the most that a load has.
fn rounds_of(word: &[u8]) -> Option<u64>
    ensures rounds { result ≡ rounds_from (as_number word.now) }
    ensures few { IfSome result (λ rounds. rounds ≤ MOST_ROUNDS) }
{
    let rounds = number_of(word)?;
    if are_rounds(rounds) {
        Some(rounds)
    } else {
        None
    }
}

/// The form that the words are, if they are one.
pub fn form_of(words: &[RcStr]) -> Option<Form>
    ensures form { result ≡ form_of words.now }
    ensures limits { OnFormat result IsInLimits }
    ensures rounds { OnLoad result (λ rounds. rounds ≤ MOST_ROUNDS) }
{
    match words {
        [word] if word.as_str() == "run" => Some(Form::Run { totals: false }),
        [word] if word.as_str() == "dry" => Some(Form::Dry),
        [word] if word.as_str() == "replay" => Some(Form::Replay),
        [word] if word.as_str() == "recover" => Some(Form::Recover),
        [word] if word.as_str() == "inspect" => Some(Form::Inspect),
        [word, more] if word.as_str() == "run" && more.as_str() == "totals" => {
            Some(Form::Run { totals: true })
        }
        [word, rounds] if word.as_str() == "load" => {
            let rounds = rounds_of(rounds.as_bytes())?;
            Some(Form::Load { rounds })
        }
        [word, log, heap] if word.as_str() == "format" => {
            let frame = frame_of(log.as_bytes(), heap.as_bytes())?;
            Some(Form::Format { frame })
        }
        _ => None,
    }
}

/// Whether the first of the words is `run`: such words are for `live`, and all others for `still`.
pub fn asks_live(words: &[RcStr]) -> bool
    ensures { result ≡ asks_live words.now }
{
    match words {
        [] => false,
        [word, ..] => word.as_str() == "run",
    }
}
