// What is printed of a journal, by literals from outside.
use sdr_base::{Bytes, Items, MemorySink, NoMemory, Reason};
use sdr_board::Totals;
use sdr_model::{Answer, Close, Entry, Event, Leave, Reply, Said, What};
use sdr_text::{write_journal, write_totals};
use std::alloc::Global;

/// An answer in a transaction, and the bytes that its call gave.
type Inner<'a> = (Answer, &'a [u8]);

/// How a transaction closes.
#[derive(Clone, Copy)]
enum Last {
    End,
    Cancel,
    FailedEnd,
}

/// What an entry is of.
#[derive(Clone, Copy)]
enum Of {
    Work(Last),
    FailedLook,
    Waits,
    Awarded,
    Stalled,
    Leaves(Leave),
}

/// The lock number and the daemon of an entry, and what it is of.
type Row = (u64, u8, Of);

const ROWS: [Row; 11] = [
    (1, 1, Of::Work(Last::End)),
    (2, 2, Of::Work(Last::Cancel)),
    (3, 1, Of::Waits),
    (4, 2, Of::Awarded),
    (5, 1, Of::Stalled),
    (6, 16, Of::Work(Last::FailedEnd)),
    (7, 3, Of::FailedLook),
    (8, 1, Of::Leaves(Leave::Done)),
    (9, 2, Of::Leaves(Leave::Fault)),
    (10, 3, Of::Leaves(Leave::Memory)),
    (11, 16, Of::Leaves(Leave::Spent)),
];

// The answers of a transaction between its begin and its closing event.
const INNER: [Inner<'static>; 3] = [
    (Answer::Depth { depth: 2 }, b""),
    (Answer::Reply(Reply::At { addr: 2056 }), b""),
    (Answer::Reply(Reply::Bytes { count: 2 }), b"hi"),
];

// What is printed of that journal.
const PRINTED: &[u8] = b"1 1 ended\n  depth 2\n  at 2056\n  bytes x6869\n\
2 2 cancelled asked\n  depth 2\n  at 2056\n  bytes x6869\n\
3 1 waits 2\n4 2 awarded 18446744073709551615\n5 1 stalled 2\n\
6 16 faulted\n  depth 2\n  at 2056\n  bytes x6869\n  disk fault\n\
7 3 faulted\n  disk fault\n\
8 1 leaves done\n9 2 leaves fault\n10 3 leaves memory\n11 16 leaves spent\n";

fn said(alloc: Global, event: Event, answer: Answer, bytes: &[u8]) -> Result<Said, NoMemory> {
    Ok(Said {
        line: 7,
        event,
        answer,
        bytes: Bytes::copied(alloc, bytes)?,
        moves: Items::new(alloc),
    })
}

// The answer to the last event of a transaction, and how it closes.
fn closing(last: Last) -> (Answer, Close) {
    match last {
        Last::End => (Answer::Closed(Close::Ended), Close::Ended),
        Last::Cancel => {
            let close = Close::Cancelled(Reason::Asked);
            (Answer::Closed(close), close)
        }
        Last::FailedEnd => (Answer::Reply(Reply::DiskFault), Close::Faulted),
    }
}

// A transaction that begins, has those answers, and closes so.
fn work(alloc: Global, last: Last) -> Result<What, NoMemory> {
    let (answer, close) = closing(last);
    let mut all = Items::new(alloc);
    all.push(said(alloc, Event::Begin, Answer::Lock { number: 1 }, b"")?)?;
    for (inner, bytes) in &INNER {
        all.push(said(alloc, Event::Begin, *inner, bytes)?)?;
    }
    all.push(said(alloc, Event::End, answer, b"")?)?;
    Ok(What::Work { said: all, close })
}

// A look in which the disk failed stands alone.
fn failed_look(alloc: Global) -> Result<What, NoMemory> {
    let mut all = Items::new(alloc);
    let fault = Answer::Reply(Reply::DiskFault);
    all.push(said(alloc, Event::Look(2), fault, b"")?)?;
    Ok(What::Work {
        said: all,
        close: Close::Faulted,
    })
}

// What an entry is of.
fn what_of(alloc: Global, of: Of) -> Result<What, NoMemory> {
    match of {
        Of::Work(last) => work(alloc, last),
        Of::FailedLook => failed_look(alloc),
        Of::Waits => Ok(What::Waits { ticket: 2 }),
        Of::Awarded => Ok(What::Awarded { ticket: u64::MAX }),
        Of::Stalled => Ok(What::Stalled { ticket: 2 }),
        Of::Leaves(leave) => Ok(What::Leaves { leave }),
    }
}

// An entry.
fn entry_of(alloc: Global, number: u64, daemon: u8, of: Of) -> Result<Entry, NoMemory> {
    Ok(Entry {
        number,
        daemon,
        begun: 40,
        done: 42,
        what: what_of(alloc, of)?,
    })
}

// The journal of these entries, by rising lock number.
fn journal(alloc: Global, rows: &[Row]) -> Result<Vec<Entry>, NoMemory> {
    let mut entries = Vec::new(alloc);
    for (number, daemon, of) in rows {
        entries.push(entry_of(alloc, *number, *daemon, *of)?)?;
    }
    Ok(entries)
}

// Whether the journal is printed as that text.
fn is_printed(alloc: Global) -> Result<bool, NoMemory> {
    let entries = journal(alloc, &ROWS)?;
    let mut out = MemorySink::new(alloc, Vec::new(alloc));
    let done = write_journal(&mut out, entries.as_slice());
    Ok(done.is_ok() && out.taken() == PRINTED)
}

#[test]
fn a_journal_has_a_line_for_each_entry_and_each_answer_within(rt: HostRuntime) {
    assert!(rt; is_printed(rt.alloc()).is_ok_and(|printed| printed));
}

const TOTALS: Totals = Totals {
    entries: 21,
    number: 18_446_744_073_709_551_615,
    ended: 1,
    cancelled: 2,
    exited: 3,
    faulted: 4,
    looks: 5,
    left: 6,
    taken: 8,
    given: 7,
};

#[test]
fn totals_are_a_word_and_ten_numbers(rt: HostRuntime) {
    let mut out = MemorySink::new(rt.alloc(), Vec::new(rt.alloc()));
    assert!(rt; write_totals(&mut out, &TOTALS).is_ok());
    let want: &[u8] = b"totals 21 18446744073709551615 1 2 3 4 5 6 8 7\n";
    assert_eq!(rt; out.taken(), want);
}
