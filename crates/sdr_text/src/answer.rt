// What is printed of an answer.
ghost use Rattle.std.specs.Prelude.{◌≡◌, ◌≤◌, ◌+◌, ◌++◌, OnOk, OnErr, codes, length};
ghost use Rattle.std.specs.Io.KnownBytes.{Appends};
ghost use Rattle.sdr_base.specs.Causes.{HasCause};
ghost use Rattle.sdr_base.specs.Written.{AppendsPart};
ghost use Rattle.sdr_text.specs.Refused.{field_on};
ghost use Rattle.sdr_text.specs.Text.{grant_text, reply_on, close_on, answer_on, answer_text, bytes_text, literal_text, line_text};

use crate::Line;
use crate::given::{write_given, write_literal};
use crate::refused::{reason, refusal};
use sdr_base::{Sink, SinkFault, write_all};
use sdr_model::{Answer, Close, Reply};

// Whether a ticket was granted at once.
fn grant_text(granted: bool) -> &'static [u8]
    ensures text { result.now ≡ grant_text granted }
    ensures len { length result.now ≤ 8 }
{
    if granted { b" granted" } else { b" waiting" }
}

/// Adds whether a ticket was granted.
pub fn add_grant(line: &mut Line, granted: bool)
    requires { length line.old ≤ 1000 }
    ensures text { line.new ≡ line.old ++ grant_text granted }
    ensures len { length line.new ≤ length line.old + 8 }
{
    line.push(grant_text(granted));
}

// Adds a reply, without the bytes that it gives and what comes behind them.
fn reply(line: &mut Line, reply: &Reply)
    requires { length line.old ≤ 400 }
    ensures text { line.new ≡ reply_on line.old reply.now }
    ensures len { length line.new ≤ length line.old + 142 }
{
    match reply {
        Reply::Done => line.push(b"ok"),
        Reply::At { addr } => {
            line.push(b"at");
            line.field(*addr);
        }
        Reply::Value { value } => {
            line.push(b"value");
            line.field(*value);
        }
        Reply::Pair { first, second } => {
            line.push(b"pair");
            line.field(*first);
            line.field(*second);
        }
        Reply::Bytes { .. } => line.push(b"bytes "),
        Reply::Named { .. } => line.push(b"named "),
        Reply::Ticket { number, granted } => {
            line.push(b"ticket");
            line.field(*number);
            add_grant(line, *granted);
        }
        Reply::Refused(why) => {
            line.push(b"refused ");
            refusal(line, why);
        }
        Reply::MediaFault => line.push(b"media fault"),
        Reply::DiskFault => line.push(b"disk fault"),
        Reply::Failed { .. } => line.push(b"failed"),
    }
}

// Adds how a transaction closed.
pub fn close(line: &mut Line, close: Close)
    requires { length line.old ≤ 400 }
    ensures text { line.new ≡ close_on line.old close }
    ensures len { length line.new ≤ length line.old + 38 }
{
    match close {
        Close::Ended => line.push(b"ended"),
        Close::Exited => line.push(b"exited"),
        Close::Cancelled(why) => {
            line.push(b"cancelled ");
            reason(line, why);
        }
        Close::Faulted => line.push(b"faulted"),
    }
}

// Adds an answer, without the bytes that it gives and what comes behind them.
fn answer(line: &mut Line, answer: &Answer)
    requires { length line.old ≤ 300 }
    ensures text { line.new ≡ answer_on line.old answer.now }
    ensures len { length line.new ≤ length line.old + 142 }
{
    match answer {
        Answer::Lock { number } => {
            line.push(b"lock");
            line.field(*number);
        }
        Answer::Depth { depth } => {
            line.push(b"depth");
            line.field(*depth);
        }
        Answer::Closed(how) => close(line, *how),
        Answer::Reply(what) => reply(line, what),
        Answer::Awarded => line.push(b"awarded"),
        Answer::Waits => line.push(b"waits"),
        Answer::Stalled => line.push(b"stalled"),
    }
}

// Writes the front of a line, bytes, and the end of the line.
fn write_bytes<K: Sink>(out: &mut K, front: &mut Line, bytes: &[u8]) -> Result<(), SinkFault>
    requires { length front.old ≤ 500 }
    ensures ok { OnOk result (Appends (K.taken out.old) (K.taken out.new)
        (front.old ++ bytes_text bytes.now ++ codes "\n")) }
    ensures err { OnErr result (AppendsPart (K.taken out.old) (K.taken out.new)
        (front.old ++ bytes_text bytes.now ++ codes "\n")) }
    ensures cause { HasCause (K.faults out.old) (K.faults out.new) result }
{
    front.push(b"x");
    write_given(out, front.as_slice(), bytes, b"\n")
}

// The type and the object of an entry of the catalogue, at the end of a line.
fn entry_end(line: &mut Line, kind: u32, addr: u64)
    requires { length line.old ≤ 400 }
    ensures text { line.new ≡ field_on (field_on line.old kind) addr ++ codes "\n" }
    ensures len { length line.new ≤ length line.old + 43 }
{
    line.field(u64::from(kind));
    line.field(addr);
    line.push(b"\n");
}

// Writes the front of a line, a name, and the type and object of its entry.
fn write_entry<K: Sink>(
    out: &mut K,
    front: Line,
    name: &[u8],
    kind: u32,
    addr: u64,
) -> Result<(), SinkFault>
    requires { length front ≤ 500 }
    ensures ok { OnOk result (Appends (K.taken out.old) (K.taken out.new)
        (field_on (field_on (front ++ literal_text name.now) kind) addr ++ codes "\n")) }
    ensures err { OnErr result (AppendsPart (K.taken out.old) (K.taken out.new)
        (field_on (field_on (front ++ literal_text name.now) kind) addr ++ codes "\n")) }
    ensures cause { HasCause (K.faults out.old) (K.faults out.new) result }
{
    let mut end = Line::new();
    entry_end(&mut end, kind, addr);
    write_literal(out, front, name, end.as_slice())
}

// Writes the rest of a line behind its front: an answer, with the bytes that its call gave.
pub fn write_behind<K: Sink>(
    out: &mut K,
    text: &mut Line,
    given: &Answer,
    bytes: &[u8],
) -> Result<(), SinkFault>
    requires { length text.old ≤ 300 }
    ensures ok { OnOk result (Appends (K.taken out.old) (K.taken out.new)
        (answer_text text.old given.now bytes.now ++ codes "\n")) }
    ensures err { OnErr result (AppendsPart (K.taken out.old) (K.taken out.new)
        (answer_text text.old given.now bytes.now ++ codes "\n")) }
    ensures cause { HasCause (K.faults out.old) (K.faults out.new) result }
{
    answer(text, given);
    match given {
        Answer::Reply(Reply::Bytes { .. }) => write_bytes(out, text, bytes),
        Answer::Reply(Reply::Named { kind, addr, .. }) => {
            let mut front = Line::new();
            front.push(text.as_slice());
            write_entry(out, front, bytes, *kind, *addr)
        }
        _ => {
            text.push(b"\n");
            write_all(out, text.as_slice())
        }
    }
}

/// Writes the line of an answer to a statement on a line (from 1) of a daemon, with the bytes that its
/// call gave: whole, or a part of it from the front where the sink fails.
pub fn write_answer<K: Sink>(
    out: &mut K,
    line: u64,
    daemon: u8,
    given: &Answer,
    bytes: &[u8],
) -> Result<(), SinkFault>
    ensures ok { OnOk result (Appends (K.taken out.old) (K.taken out.new)
        (line_text line daemon given.now bytes.now)) }
    ensures err { OnErr result (AppendsPart (K.taken out.old) (K.taken out.new)
        (line_text line daemon given.now bytes.now)) }
    ensures cause { HasCause (K.faults out.old) (K.faults out.new) result }
{
    let mut text = Line::new();
    text.number(line);
    text.field(u64::from(daemon));
    text.push(b" ");
    write_behind(out, &mut text, given, bytes)
}
