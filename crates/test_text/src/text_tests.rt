// What is printed of each answer, by literals from outside; and that it is written at all.
use sdr_base::{MemorySink, Reason, Refusal, Space};
use sdr_model::{Answer, Close, Reply};
use sdr_text::write_answer;
use std::alloc::Global;

/// An answer, or what an answer tells.
#[derive(Clone, Copy)]
enum Told {
    Answer(Answer),
    Cancelled(Reason),
    Reply(Reply),
    Refused(Refusal),
}

// What is told, and what is printed of it.
type Row<'a> = (Told, &'a [u8]);

// Bytes that a call gave, and what is printed of the answer.
type Given<'a> = (&'a [u8], &'a [u8]);

// Of answers.
const ANSWERS: [Row<'static>; 8] = [
    (Told::Answer(Answer::Lock { number: 12 }), b"lock 12"),
    (Told::Answer(Answer::Depth { depth: 64 }), b"depth 64"),
    (Told::Answer(Answer::Closed(Close::Ended)), b"ended"),
    (Told::Answer(Answer::Closed(Close::Exited)), b"exited"),
    (Told::Answer(Answer::Closed(Close::Faulted)), b"faulted"),
    (Told::Answer(Answer::Awarded), b"awarded"),
    (Told::Answer(Answer::Waits), b"waits"),
    (Told::Answer(Answer::Stalled), b"stalled"),
];

// Of reasons.
const REASONS: [Row<'static>; 5] = [
    (Told::Cancelled(Reason::Inner), b"cancelled inner"),
    (
        Told::Cancelled(Reason::Refused(26)),
        b"cancelled refused 26",
    ),
    (Told::Cancelled(Reason::Asked), b"cancelled asked"),
    (Told::Cancelled(Reason::Modified), b"cancelled modified"),
    (Told::Cancelled(Reason::Left), b"cancelled left"),
];

// Of replies.
const REPLIES: [Row<'static>; 9] = [
    (Told::Reply(Reply::Done), b"ok"),
    (Told::Reply(Reply::At { addr: 8 }), b"at 8"),
    (
        Told::Reply(Reply::Value {
            value: 18_446_744_073_709_551_615,
        }),
        b"value 18446744073709551615",
    ),
    (
        Told::Reply(Reply::Pair {
            first: 1,
            second: 8,
        }),
        b"pair 1 8",
    ),
    (
        Told::Reply(Reply::Ticket {
            number: 3,
            granted: true,
        }),
        b"ticket 3 granted",
    ),
    (
        Told::Reply(Reply::Ticket {
            number: 4,
            granted: false,
        }),
        b"ticket 4 waiting",
    ),
    (Told::Reply(Reply::MediaFault), b"media fault"),
    (Told::Reply(Reply::DiskFault), b"disk fault"),
    (Told::Reply(Reply::Failed { moment: 9 }), b"failed"),
];

// Of refusals: of the heap, of addresses and of lengths.
const FIRST: [Row<'static>; 7] = [
    (
        Told::Refused(Refusal::NoBlock { need: 1 }),
        b"refused 1 NoBlock 1",
    ),
    (
        Told::Refused(Refusal::LogFull { lines: 1, room: 2 }),
        b"refused 2 LogFull 1 2",
    ),
    (
        Told::Refused(Refusal::BadAddress { addr: 1 }),
        b"refused 3 BadAddress 1",
    ),
    (
        Told::Refused(Refusal::WrongKind { addr: 1, kind: 13 }),
        b"refused 4 WrongKind 1 13",
    ),
    (
        Told::Refused(Refusal::OutOfBounds {
            addr: 1,
            place: 2,
            length: 3,
        }),
        b"refused 5 OutOfBounds 1 2 3",
    ),
    (
        Told::Refused(Refusal::NotStaged { addr: 1 }),
        b"refused 6 NotStaged 1",
    ),
    (
        Told::Refused(Refusal::BadLength { length: 1, most: 2 }),
        b"refused 7 BadLength 1 2",
    ),
];

// Of names, of keys and of rows.
const NEXT: [Row<'static>; 7] = [
    (
        Told::Refused(Refusal::NameTaken { addr: 1 }),
        b"refused 8 NameTaken 1",
    ),
    (Told::Refused(Refusal::NotFound), b"refused 9 NotFound"),
    (
        Told::Refused(Refusal::InUse { addr: 1, count: 0 }),
        b"refused 10 InUse 1 0",
    ),
    (
        Told::Refused(Refusal::BadRow { row: 1, rows: 2 }),
        b"refused 11 BadRow 1 2",
    ),
    (
        Told::Refused(Refusal::KeyTaken { value: 1 }),
        b"refused 12 KeyTaken 1",
    ),
    (
        Told::Refused(Refusal::BadKeyLength { length: 1, want: 2 }),
        b"refused 13 BadKeyLength 1 2",
    ),
    (
        Told::Refused(Refusal::NoSpace {
            space: Space::File,
            occupied: 1,
            asked: 2,
            most: 3,
        }),
        b"refused 14 NoSpace file 1 2 3",
    ),
];

// Of accounts, of objects and of the lock.
const LAST: [Row<'static>; 12] = [
    (
        Told::Refused(Refusal::Queue { ticket: 1 }),
        b"refused 15 Queue 1",
    ),
    (
        Told::Refused(Refusal::TooLarge {
            space: Space::Bulk,
            asked: 1,
            most: 2,
        }),
        b"refused 16 TooLarge bulk 1 2",
    ),
    (
        Told::Refused(Refusal::BadTicket { ticket: 1 }),
        b"refused 17 BadTicket 1",
    ),
    (
        Told::Refused(Refusal::NotAwarded { ticket: 1 }),
        b"refused 18 NotAwarded 1",
    ),
    (
        Told::Refused(Refusal::SourceShort { have: 1, want: 2 }),
        b"refused 19 SourceShort 1 2",
    ),
    (Told::Refused(Refusal::NoCapsule), b"refused 20 NoCapsule"),
    (
        Told::Refused(Refusal::BadRange {
            offset: 1,
            length: 2,
            have: 3,
        }),
        b"refused 21 BadRange 1 2 3",
    ),
    (
        Told::Refused(Refusal::Doomed {
            by: Reason::Refused(9),
        }),
        b"refused 22 Doomed refused 9",
    ),
    (Told::Refused(Refusal::TooDeep), b"refused 23 TooDeep"),
    (
        Told::Refused(Refusal::Suspended {
            serving: 1,
            mine: 2,
        }),
        b"refused 24 Suspended 1 2",
    ),
    (Told::Refused(Refusal::NotBegun), b"refused 25 NotBegun"),
    (
        Told::Refused(Refusal::InTransaction { mine: 1 }),
        b"refused 26 InTransaction 1",
    ),
];

// Bytes are printed in lower-case digits.
const BYTES: [Given<'static>; 3] = [
    (b"", b"bytes x"),
    (b"\x00\xafz", b"bytes x00af7a"),
    (b"hi", b"bytes x6869"),
];

// A name is printed as text or as bytes.
const ENTRY: [Given<'static>; 5] = [
    (b"load", b"named \"load\" 5 40"),
    (b"!~", b"named \"!~\" 5 40"),
    (b"a b", b"named x612062 5 40"),
    (b"a\"", b"named x6122 5 40"),
    (b"\x7f", b"named x7f 5 40"),
];

fn answer_of(told: Told) -> Answer {
    match told {
        Told::Answer(answer) => answer,
        Told::Cancelled(reason) => Answer::Closed(Close::Cancelled(reason)),
        Told::Reply(reply) => Answer::Reply(reply),
        Told::Refused(refusal) => Answer::Reply(Reply::Refused(refusal)),
    }
}

// Whether an answer to line 7 of daemon 3, with these bytes, is printed as this text.
fn is_printed(alloc: Global, answer: &Answer, bytes: &[u8], text: &[u8]) -> bool {
    let mut out = MemorySink::new(alloc, Vec::new(alloc));
    let done = write_answer(&mut out, 7, 3, answer, bytes);
    match out.taken() {
        [b'7', b' ', b'3', b' ', printed @ .., b'\n'] => done.is_ok() && printed == text,
        _ => false,
    }
}

// The first row of which something else is printed.
fn wrong_row<'a>(alloc: Global, rows: &[Row<'a>]) -> Option<&'a [u8]> {
    for (told, text) in rows {
        if !is_printed(alloc, &answer_of(*told), b"", text) {
            return Some(text);
        }
    }
    None
}

// The first bytes of which something else is printed.
fn wrong_bytes<'a>(alloc: Global, answer: Answer, rows: &[Given<'a>]) -> Option<&'a [u8]> {
    for (bytes, text) in rows {
        if !is_printed(alloc, &answer, bytes, text) {
            return Some(text);
        }
    }
    None
}

#[test]
fn each_answer_reason_and_reply_has_its_text(rt: HostRuntime) {
    assert_eq!(rt; wrong_row(rt.alloc(), &ANSWERS), None);
    assert_eq!(rt; wrong_row(rt.alloc(), &REASONS), None);
    assert_eq!(rt; wrong_row(rt.alloc(), &REPLIES), None);
}

#[test]
fn each_refusal_has_its_number_its_name_and_its_fields(rt: HostRuntime) {
    assert_eq!(rt; wrong_row(rt.alloc(), &FIRST), None);
    assert_eq!(rt; wrong_row(rt.alloc(), &NEXT), None);
    assert_eq!(rt; wrong_row(rt.alloc(), &LAST), None);
}

#[test]
fn bytes_are_printed_in_digits_and_names_as_text_where_they_can(rt: HostRuntime) {
    let given = Answer::Reply(Reply::Bytes { count: 3 });
    let named = Answer::Reply(Reply::Named {
        count: 2,
        kind: 5,
        addr: 40,
    });
    assert_eq!(rt; wrong_bytes(rt.alloc(), given, &BYTES), None);
    assert_eq!(rt; wrong_bytes(rt.alloc(), named, &ENTRY), None);
}
