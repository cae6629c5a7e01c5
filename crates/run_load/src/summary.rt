// What is told of a load.
ghost use Rattle.std.specs.Prelude.{◌≡◌, ◌≤◌, ◌+◌, ◌++◌, length};
ghost use Rattle.run_load.specs.Summing.{summed};
ghost use Rattle.run_load.specs.SummaryText.{number_line, summary_text};

use sdr_board::Totals;
use sdr_model::Entry;
use sdr_text::Line;

/// A list that was read.
#[derive(Clone, Copy, Debug, PartialEq, Eq)]
pub struct ListRead {
    /// How many elements it has.
    pub elements: u64,
    /// How many bytes the raw objects have together that its elements' data name.
    pub bytes: u64,
}

impl ListRead {
    /// A list that isn't there.
    pub const NONE: ListRead = ListRead {
        elements: 0,
        bytes: 0,
    };
}

/// What a load came to.
#[derive(Clone, Copy, Debug, PartialEq, Eq)]
pub struct Summary {
    /// How many transactions ended.
    pub ended: u64,
    /// How many were cancelled.
    pub cancelled: u64,
    /// How many elements the list has that the name `load` finds, 0 where it finds none.
    pub elements: u64,
    /// How many bytes the raw objects have together that their data name.
    pub bytes: u64,
}

impl Summary {
    /// The summary of a journal, and of the list that stands behind it.
    pub fn of(journal: &[Entry], list: ListRead) -> Summary
        ensures { result ≡ summed journal.now list }
    {
        let totals = Totals::of(journal);
        Summary {
            ended: totals.ended,
            cancelled: totals.cancelled,
            elements: list.elements,
            bytes: list.bytes,
        }
    }
}

// Adds a line of a word and a number.
fn add_line(text: &mut Line, word: &[u8], number: u64)
    requires room { length text.old + length word.now + 22 ≤ 1024 }
    ensures text { text.new ≡ text.old ++ number_line word.now number }
    ensures len { length text.new ≤ length text.old + length word.now + 22 }
{
    text.push(word);
    text.field(number);
    text.push(b"\n");
}

/// The five lines of the summary of a load of so many rounds.
pub fn summary_line(rounds: u64, summary: &Summary) -> Line
    ensures { result ≡ summary_text rounds summary.now }
{
    let mut text = Line::new();
    add_line(&mut text, b"load", rounds);
    add_line(&mut text, b"ended", summary.ended);
    add_line(&mut text, b"cancelled", summary.cancelled);
    add_line(&mut text, b"elements", summary.elements);
    add_line(&mut text, b"bytes", summary.bytes);
    text
}
