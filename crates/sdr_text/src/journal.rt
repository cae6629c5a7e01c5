// What is printed of a journal.
ghost use Rattle.std.specs.Prelude.{◌≡◌, ◌≤◌, ◌+◌, ◌-◌, ◌++◌, OnOk, OnErr, flat_map, length, take};
ghost use Rattle.std.specs.Io.KnownBytes.{Appends};
ghost use Rattle.sdr_base.specs.Causes.{HasCause};
ghost use Rattle.sdr_base.specs.Written.{AppendsPart};
ghost use Rattle.sdr_text.specs.JournalText.{behind_begin, entry_line, entry_text, journal_text, leave_text, said_line, printed_in, printed_of, what_on};

use crate::Line;
use crate::answer::{close, write_behind};
use sdr_base::{Sink, SinkFault, write_all};
use sdr_model::{Close, Entry, Event, Leave, Said, What};

// Why a daemon left.
fn leave_text(leave: Leave) -> &'static [u8]
    ensures text { result.now ≡ leave_text leave }
    ensures len { length result.now ≤ 6 }
{
    match leave {
        Leave::Done => b"done",
        Leave::Fault => b"fault",
        Leave::Memory => b"memory",
        Leave::Spent => b"spent",
    }
}

// Adds what an entry is of.
fn add_what(line: &mut Line, what: &What)
    requires { length line.old ≤ 100 }
    ensures text { line.new ≡ what_on line.old what.now }
    ensures len { length line.new ≤ length line.old + 38 }
{
    match what {
        What::Work { close: how, .. } => close(line, *how),
        What::Waits { ticket } => {
            line.push(b"waits");
            line.field(*ticket);
        }
        What::Awarded { ticket } => {
            line.push(b"awarded");
            line.field(*ticket);
        }
        What::Stalled { ticket } => {
            line.push(b"stalled");
            line.field(*ticket);
        }
        What::Leaves { leave } => {
            line.push(b"leaves ");
            line.push(leave_text(*leave));
        }
    }
}

// Writes the first line of an entry.
fn write_front<K: Sink>(out: &mut K, entry: &Entry) -> Result<(), SinkFault>
    ensures ok { OnOk result (Appends (K.taken out.old) (K.taken out.new) (entry_line entry.now)) }
    ensures err { OnErr result (AppendsPart (K.taken out.old) (K.taken out.new)
        (entry_line entry.now)) }
    ensures cause { HasCause (K.faults out.old) (K.faults out.new) result }
{
    let mut line = Line::new();
    line.number(entry.number);
    line.field(u64::from(entry.daemon));
    line.push(b" ");
    add_what(&mut line, &entry.what);
    line.push(b"\n");
    write_all(out, line.as_slice())
}

// Writes the line of an answer in a transaction.
fn write_said<K: Sink>(out: &mut K, said: &Said) -> Result<(), SinkFault>
    ensures ok { OnOk result (Appends (K.taken out.old) (K.taken out.new) (said_line said.now)) }
    ensures err { OnErr result (AppendsPart (K.taken out.old) (K.taken out.new)
        (said_line said.now)) }
    ensures cause { HasCause (K.faults out.old) (K.faults out.new) result }
{
    let mut front = Line::new();
    front.push(b"  ");
    write_behind(out, &mut front, &said.answer, said.bytes.as_slice())
}

// Writes the lines of answers in a transaction.
fn write_saids<K: Sink>(out: &mut K, said: &[Said]) -> Result<(), SinkFault>
    ensures ok { OnOk result (Appends (K.taken out.old) (K.taken out.new)
        (flat_map said_line said.now)) }
    ensures err { OnErr result (AppendsPart (K.taken out.old) (K.taken out.new)
        (flat_map said_line said.now)) }
    ensures cause { HasCause (K.faults out.old) (K.faults out.new) result }
{
    let mut rest = said;
    while let Some((one, after)) = rest.split_first() {
        write_said(out, one)?;
        rest = after;
    }
    Ok(())
}

// What was said behind a first begin.
fn behind_begin(said: &[Said]) -> &[Said]
    ensures { result.now ≡ behind_begin said.now }
{
    match said {
        [] => said,
        [first, rest @ ..] => match &first.event {
            Event::Begin => rest,
            _ => said,
        },
    }
}

// All but the last one.
fn but_last(said: &[Said]) -> &[Said]
    ensures { result.now ≡ take (length said.now - 1) said.now }
{
    match said.len() {
        0 => said,
        count => &said[..count - 1],
    }
}

// The answers of a transaction that are printed.
fn printed(said: &[Said], close: Close) -> &[Said]
    ensures { result.now ≡ printed_of said.now close }
{
    match close {
        Close::Faulted => behind_begin(said),
        _ => but_last(behind_begin(said)),
    }
}

// Writes the lines of the answers of an entry.
fn write_inner<K: Sink>(out: &mut K, what: &What) -> Result<(), SinkFault>
    ensures ok { OnOk result (Appends (K.taken out.old) (K.taken out.new)
        (flat_map said_line (printed_in what.now))) }
    ensures err { OnErr result (AppendsPart (K.taken out.old) (K.taken out.new)
        (flat_map said_line (printed_in what.now))) }
    ensures cause { HasCause (K.faults out.old) (K.faults out.new) result }
{
    match what {
        What::Work { said, close } => write_saids(out, printed(said.as_slice(), *close)),
        _ => Ok(()),
    }
}

// Writes an entry.
fn write_one<K: Sink>(out: &mut K, entry: &Entry) -> Result<(), SinkFault>
    ensures ok { OnOk result (Appends (K.taken out.old) (K.taken out.new) (entry_text entry.now)) }
    ensures err { OnErr result (AppendsPart (K.taken out.old) (K.taken out.new)
        (entry_text entry.now)) }
    ensures cause { HasCause (K.faults out.old) (K.faults out.new) result }
{
    write_front(out, entry)?;
    write_inner(out, &entry.what)
}

/// Writes a journal: for each entry its lock number, its daemon and what it is of, and below a transaction a line for each
/// answer in it. It writes all, or a part from the front where the sink fails.
pub fn write_journal<K: Sink>(out: &mut K, journal: &[Entry]) -> Result<(), SinkFault>
    ensures ok { OnOk result (Appends (K.taken out.old) (K.taken out.new)
        (journal_text journal.now)) }
    ensures err { OnErr result (AppendsPart (K.taken out.old) (K.taken out.new)
        (journal_text journal.now)) }
    ensures cause { HasCause (K.faults out.old) (K.faults out.new) result }
{
    let mut rest = journal;
    while let Some((entry, after)) = rest.split_first() {
        write_one(out, entry)?;
        rest = after;
    }
    Ok(())
}
