// The event that each statement makes, against literals.
use crate::scripts::script_of;
use sdr_base::{Acct, Bytes, Space};
use sdr_model::{Call, Event, Keys};
use sdr_words::{Bindings, ScriptError};
use std::alloc::Global;

/// The words among the arguments of a call.
#[derive(Clone, Copy, PartialEq, Eq)]
enum Words {
    No,
    Of(Acct),
    In(Acct, Space),
    ByBytes,
    ByLength,
}

/// The numbers of an event in order, and 0 behind them.
type Numbers = (u64, u64, u64, u64, u64);

// A line, and the event of its statement: its name, its numbers, its bytes and its words.
type Row<'a> = (&'a [u8], &'a str, Numbers, &'a [u8], Words);

// Of transactions, raw objects and strings.
const RAW: [Row<'static>; 15] = [
    (b"1: begin", "Begin", (0, 0, 0, 0, 0), b"", Words::No),
    (b"1: end", "End", (0, 0, 0, 0, 0), b"", Words::No),
    (b"1: cancel", "Cancel", (0, 0, 0, 0, 0), b"", Words::No),
    (b"1: exit", "Exit", (0, 0, 0, 0, 0), b"", Words::No),
    (b"1: await 1", "Look", (1, 0, 0, 0, 0), b"", Words::No),
    (b"1: malloc 1", "Malloc", (1, 0, 0, 0, 0), b"", Words::No),
    (b"1: free 1", "Free", (1, 0, 0, 0, 0), b"", Words::No),
    (b"1: length 1", "Length", (1, 0, 0, 0, 0), b"", Words::No),
    (b"1: read 1 2 3", "Read", (1, 2, 3, 0, 0), b"", Words::No),
    (
        b"1: write 1 2 \"k\"",
        "Write",
        (1, 2, 0, 0, 0),
        b"k",
        Words::No,
    ),
    (b"1: stage 1 2", "Stage", (1, 2, 0, 0, 0), b"", Words::No),
    (
        b"1: string \"k\"",
        "String",
        (0, 0, 0, 0, 0),
        b"k",
        Words::No,
    ),
    (
        b"1: string_length 1",
        "StringLength",
        (1, 0, 0, 0, 0),
        b"",
        Words::No,
    ),
    (
        b"1: string_read 1",
        "StringRead",
        (1, 0, 0, 0, 0),
        b"",
        Words::No,
    ),
    (
        b"1: string_dup 1",
        "StringDup",
        (1, 0, 0, 0, 0),
        b"",
        Words::No,
    ),
];

// Of lists.
const LISTS: [Row<'static>; 18] = [
    (b"1: list 1", "List", (1, 0, 0, 0, 0), b"", Words::No),
    (
        b"1: list_destroy 1",
        "ListDestroy",
        (1, 0, 0, 0, 0),
        b"",
        Words::No,
    ),
    (
        b"1: list_length 1",
        "ListLength",
        (1, 0, 0, 0, 0),
        b"",
        Words::No,
    ),
    (
        b"1: list_user 1",
        "ListUser",
        (1, 0, 0, 0, 0),
        b"",
        Words::No,
    ),
    (
        b"1: set_list_user 1 2",
        "SetListUser",
        (1, 2, 0, 0, 0),
        b"",
        Words::No,
    ),
    (
        b"1: insert_first 1 2",
        "InsertFirst",
        (1, 2, 0, 0, 0),
        b"",
        Words::No,
    ),
    (
        b"1: insert_last 1 2",
        "InsertLast",
        (1, 2, 0, 0, 0),
        b"",
        Words::No,
    ),
    (
        b"1: insert_before 1 2",
        "InsertBefore",
        (1, 2, 0, 0, 0),
        b"",
        Words::No,
    ),
    (
        b"1: insert_after 1 2",
        "InsertAfter",
        (1, 2, 0, 0, 0),
        b"",
        Words::No,
    ),
    (
        b"1: insert_ordered 1 2 length",
        "InsertOrdered",
        (1, 2, 0, 0, 0),
        b"",
        Words::ByLength,
    ),
    (
        b"1: search 1 2 length",
        "Search",
        (1, 2, 0, 0, 0),
        b"",
        Words::ByLength,
    ),
    (b"1: delete 1", "Delete", (1, 0, 0, 0, 0), b"", Words::No),
    (b"1: first 1", "First", (1, 0, 0, 0, 0), b"", Words::No),
    (b"1: last 1", "Last", (1, 0, 0, 0, 0), b"", Words::No),
    (b"1: next 1", "Next", (1, 0, 0, 0, 0), b"", Words::No),
    (b"1: prev 1", "Prev", (1, 0, 0, 0, 0), b"", Words::No),
    (b"1: data 1", "Datum", (1, 0, 0, 0, 0), b"", Words::No),
    (
        b"1: set_data 1 2",
        "SetDatum",
        (1, 2, 0, 0, 0),
        b"",
        Words::No,
    ),
];

// Of tables and hashes.
const TABLES: [Row<'static>; 13] = [
    (b"1: table 1 2 3", "Table", (1, 2, 3, 0, 0), b"", Words::No),
    (b"1: row 1 2", "Row", (1, 2, 0, 0, 0), b"", Words::No),
    (
        b"1: set_row 1 2 \"k\"",
        "SetRow",
        (1, 2, 0, 0, 0),
        b"k",
        Words::No,
    ),
    (
        b"1: dimensions 1",
        "Dimensions",
        (1, 0, 0, 0, 0),
        b"",
        Words::No,
    ),
    (
        b"1: table_user 1",
        "TableUser",
        (1, 0, 0, 0, 0),
        b"",
        Words::No,
    ),
    (
        b"1: table_destroy 1",
        "TableDestroy",
        (1, 0, 0, 0, 0),
        b"",
        Words::No,
    ),
    (b"1: hash 1 2", "Hash", (1, 2, 0, 0, 0), b"", Words::No),
    (
        b"1: hash_insert 1 \"k\" 2",
        "HashInsert",
        (1, 2, 0, 0, 0),
        b"k",
        Words::No,
    ),
    (
        b"1: hash_retrieve 1 \"k\"",
        "HashRetrieve",
        (1, 0, 0, 0, 0),
        b"k",
        Words::No,
    ),
    (
        b"1: hash_revise 1 \"k\" 2",
        "HashRevise",
        (1, 2, 0, 0, 0),
        b"k",
        Words::No,
    ),
    (
        b"1: hash_remove 1 \"k\"",
        "HashRemove",
        (1, 0, 0, 0, 0),
        b"k",
        Words::No,
    ),
    (
        b"1: hash_count 1",
        "HashCount",
        (1, 0, 0, 0, 0),
        b"",
        Words::No,
    ),
    (
        b"1: hash_destroy 1",
        "HashDestroy",
        (1, 0, 0, 0, 0),
        b"",
        Words::No,
    ),
];

// Of the catalogue, sources and accounts.
const NAMES: [Row<'static>; 12] = [
    (
        b"1: catlg \"k\" 1 2",
        "Catlg",
        (1, 2, 0, 0, 0),
        b"k",
        Words::No,
    ),
    (b"1: find \"k\"", "Find", (0, 0, 0, 0, 0), b"k", Words::No),
    (
        b"1: uncatlg \"k\"",
        "Uncatlg",
        (0, 0, 0, 0, 0),
        b"k",
        Words::No,
    ),
    (b"1: entry 1", "Entry", (1, 0, 0, 0, 0), b"", Words::No),
    (
        b"1: file_ref \"k\" 1",
        "FileRef",
        (1, 0, 0, 0, 0),
        b"k",
        Words::No,
    ),
    (
        b"1: bulk_ref 1 2",
        "BulkRef",
        (1, 2, 0, 0, 0),
        b"",
        Words::No,
    ),
    (b"1: obj_ref 1", "ObjRef", (1, 0, 0, 0, 0), b"", Words::No),
    (
        b"1: destroy_ref 1",
        "DestroyRef",
        (1, 0, 0, 0, 0),
        b"",
        Words::No,
    ),
    (b"1: count 1", "Count", (1, 0, 0, 0, 0), b"", Words::No),
    (
        b"1: occupancy out bulk",
        "Occupancy",
        (0, 0, 0, 0, 0),
        b"",
        Words::In(Acct::Outbound, Space::Bulk),
    ),
    (
        b"1: maximum out bulk",
        "Maximum",
        (0, 0, 0, 0, 0),
        b"",
        Words::In(Acct::Outbound, Space::Bulk),
    ),
    (
        b"1: set_maximum out bulk 1",
        "SetMaximum",
        (1, 0, 0, 0, 0),
        b"",
        Words::In(Acct::Outbound, Space::Bulk),
    ),
];

// Of zero-copy objects and tickets.
const OBJECTS: [Row<'static>; 20] = [
    (
        b"1: create out 1",
        "Create",
        (1, 0, 0, 0, 0),
        b"",
        Words::Of(Acct::Outbound),
    ),
    (
        b"1: append_extent 1 2 3 4 5",
        "AppendExtent",
        (1, 2, 3, 4, 5),
        b"",
        Words::No,
    ),
    (
        b"1: prepend_header 1 2 \"k\"",
        "PrependHeader",
        (1, 2, 0, 0, 0),
        b"k",
        Words::No,
    ),
    (
        b"1: append_trailer 1 2 \"k\"",
        "AppendTrailer",
        (1, 2, 0, 0, 0),
        b"k",
        Words::No,
    ),
    (
        b"1: discard_first_header 1",
        "DiscardFirstHeader",
        (1, 0, 0, 0, 0),
        b"",
        Words::No,
    ),
    (
        b"1: discard_last_trailer 1",
        "DiscardLastTrailer",
        (1, 0, 0, 0, 0),
        b"",
        Words::No,
    ),
    (b"1: bond 1 2", "Bond", (1, 2, 0, 0, 0), b"", Words::No),
    (
        b"1: clone_part 1 2 3 4",
        "ClonePart",
        (1, 2, 3, 4, 0),
        b"",
        Words::No,
    ),
    (
        b"1: delimit 1 2 3",
        "Delimit",
        (1, 2, 3, 0, 0),
        b"",
        Words::No,
    ),
    (b"1: strip 1", "Strip", (1, 0, 0, 0, 0), b"", Words::No),
    (
        b"1: zco_length 1",
        "ZcoLength",
        (1, 0, 0, 0, 0),
        b"",
        Words::No,
    ),
    (
        b"1: source_length 1",
        "SourceLength",
        (1, 0, 0, 0, 0),
        b"",
        Words::No,
    ),
    (b"1: destroy 1", "Destroy", (1, 0, 0, 0, 0), b"", Words::No),
    (
        b"1: transmit 1 2 3",
        "Transmit",
        (1, 2, 3, 0, 0),
        b"",
        Words::No,
    ),
    (
        b"1: receive_headers 1 2 3",
        "ReceiveHeaders",
        (1, 2, 3, 0, 0),
        b"",
        Words::No,
    ),
    (
        b"1: receive_source 1 2 3",
        "ReceiveSource",
        (1, 2, 3, 0, 0),
        b"",
        Words::No,
    ),
    (
        b"1: receive_trailers 1 2 3",
        "ReceiveTrailers",
        (1, 2, 3, 0, 0),
        b"",
        Words::No,
    ),
    (
        b"1: request out 1 2 3 4 5",
        "Request",
        (1, 2, 3, 4, 5),
        b"",
        Words::Of(Acct::Outbound),
    ),
    (b"1: awarded 1", "Awarded", (1, 0, 0, 0, 0), b"", Words::No),
    (b"1: shred 1", "Shred", (1, 0, 0, 0, 0), b"", Words::No),
];

// The name of a call.
fn name_of(call: &Call) -> &'static str {
    match call {
        Call::Malloc(_) => "Malloc",
        Call::Free(_) => "Free",
        Call::Length(_) => "Length",
        Call::Read(_, _, _) => "Read",
        Call::Write(_, _, _) => "Write",
        Call::Stage(_, _) => "Stage",
        Call::String(_) => "String",
        Call::StringLength(_) => "StringLength",
        Call::StringRead(_) => "StringRead",
        Call::StringDup(_) => "StringDup",
        Call::List(_) => "List",
        Call::ListDestroy(_) => "ListDestroy",
        Call::ListLength(_) => "ListLength",
        Call::ListUser(_) => "ListUser",
        Call::SetListUser(_, _) => "SetListUser",
        Call::InsertFirst(_, _) => "InsertFirst",
        Call::InsertLast(_, _) => "InsertLast",
        Call::InsertBefore(_, _) => "InsertBefore",
        Call::InsertAfter(_, _) => "InsertAfter",
        Call::InsertOrdered(_, _, _) => "InsertOrdered",
        Call::Search(_, _, _) => "Search",
        Call::Delete(_) => "Delete",
        Call::First(_) => "First",
        Call::Last(_) => "Last",
        Call::Next(_) => "Next",
        Call::Prev(_) => "Prev",
        Call::Datum(_) => "Datum",
        Call::SetDatum(_, _) => "SetDatum",
        Call::Table(_, _, _) => "Table",
        Call::Row(_, _) => "Row",
        Call::SetRow(_, _, _) => "SetRow",
        Call::Dimensions(_) => "Dimensions",
        Call::TableUser(_) => "TableUser",
        Call::TableDestroy(_) => "TableDestroy",
        Call::Hash(_, _) => "Hash",
        Call::HashInsert(_, _, _) => "HashInsert",
        Call::HashRetrieve(_, _) => "HashRetrieve",
        Call::HashRevise(_, _, _) => "HashRevise",
        Call::HashRemove(_, _) => "HashRemove",
        Call::HashCount(_) => "HashCount",
        Call::HashDestroy(_) => "HashDestroy",
        Call::Catlg(_, _, _) => "Catlg",
        Call::Find(_) => "Find",
        Call::Uncatlg(_) => "Uncatlg",
        Call::Entry(_) => "Entry",
        Call::FileRef(_, _) => "FileRef",
        Call::BulkRef(_, _) => "BulkRef",
        Call::ObjRef(_) => "ObjRef",
        Call::DestroyRef(_) => "DestroyRef",
        Call::Count(_) => "Count",
        Call::Occupancy(_, _) => "Occupancy",
        Call::Maximum(_, _) => "Maximum",
        Call::SetMaximum(_, _, _) => "SetMaximum",
        Call::Create(_, _) => "Create",
        Call::AppendExtent(_, _, _, _, _) => "AppendExtent",
        Call::PrependHeader(_, _, _) => "PrependHeader",
        Call::AppendTrailer(_, _, _) => "AppendTrailer",
        Call::DiscardFirstHeader(_) => "DiscardFirstHeader",
        Call::DiscardLastTrailer(_) => "DiscardLastTrailer",
        Call::Bond(_, _) => "Bond",
        Call::ClonePart(_, _, _, _) => "ClonePart",
        Call::Delimit(_, _, _) => "Delimit",
        Call::Strip(_) => "Strip",
        Call::ZcoLength(_) => "ZcoLength",
        Call::SourceLength(_) => "SourceLength",
        Call::Destroy(_) => "Destroy",
        Call::Transmit(_, _, _) => "Transmit",
        Call::ReceiveHeaders(_, _, _) => "ReceiveHeaders",
        Call::ReceiveSource(_, _, _) => "ReceiveSource",
        Call::ReceiveTrailers(_, _, _) => "ReceiveTrailers",
        Call::Request(_, _, _, _, _, _) => "Request",
        Call::Awarded(_) => "Awarded",
        Call::Shred(_) => "Shred",
    }
}

// The numbers of a call in order, and 0 behind them.
fn numbers_of(call: &Call) -> Numbers {
    match call {
        Call::Malloc(a)
        | Call::Free(a)
        | Call::Length(a)
        | Call::StringLength(a)
        | Call::StringRead(a)
        | Call::StringDup(a)
        | Call::List(a)
        | Call::ListDestroy(a)
        | Call::ListLength(a)
        | Call::ListUser(a)
        | Call::Delete(a)
        | Call::First(a)
        | Call::Last(a)
        | Call::Next(a)
        | Call::Prev(a)
        | Call::Datum(a)
        | Call::Dimensions(a)
        | Call::TableUser(a)
        | Call::TableDestroy(a)
        | Call::HashRetrieve(a, _)
        | Call::HashRemove(a, _)
        | Call::HashCount(a)
        | Call::HashDestroy(a)
        | Call::Entry(a)
        | Call::FileRef(_, a)
        | Call::ObjRef(a)
        | Call::DestroyRef(a)
        | Call::Count(a)
        | Call::SetMaximum(_, _, a)
        | Call::Create(_, a)
        | Call::DiscardFirstHeader(a)
        | Call::DiscardLastTrailer(a)
        | Call::Strip(a)
        | Call::ZcoLength(a)
        | Call::SourceLength(a)
        | Call::Destroy(a)
        | Call::Awarded(a)
        | Call::Shred(a) => (*a, 0, 0, 0, 0),
        Call::Read(a, b, c)
        | Call::Table(a, b, c)
        | Call::Delimit(a, b, c)
        | Call::Transmit(a, b, c)
        | Call::ReceiveHeaders(a, b, c)
        | Call::ReceiveSource(a, b, c)
        | Call::ReceiveTrailers(a, b, c) => (*a, *b, *c, 0, 0),
        Call::Write(a, b, _)
        | Call::Stage(a, b)
        | Call::SetListUser(a, b)
        | Call::InsertFirst(a, b)
        | Call::InsertLast(a, b)
        | Call::InsertBefore(a, b)
        | Call::InsertAfter(a, b)
        | Call::InsertOrdered(a, b, _)
        | Call::Search(a, b, _)
        | Call::SetDatum(a, b)
        | Call::Row(a, b)
        | Call::SetRow(a, b, _)
        | Call::Hash(a, b)
        | Call::HashInsert(a, _, b)
        | Call::HashRevise(a, _, b)
        | Call::BulkRef(a, b)
        | Call::PrependHeader(a, b, _)
        | Call::AppendTrailer(a, b, _)
        | Call::Bond(a, b) => (*a, *b, 0, 0, 0),
        Call::String(_)
        | Call::Find(_)
        | Call::Uncatlg(_)
        | Call::Occupancy(_, _)
        | Call::Maximum(_, _) => (0, 0, 0, 0, 0),
        Call::Catlg(_, a, b) => (u64::from(*a), *b, 0, 0, 0),
        Call::AppendExtent(a, b, c, d, e) => (*a, *b, *c, *d, *e),
        Call::ClonePart(a, b, c, d) => (*a, *b, *c, *d, 0),
        Call::Request(_, a, b, c, d, e) => (*a, *b, *c, u64::from(*d), u64::from(*e)),
    }
}

// The bytes that a call has.
fn text_of(call: &Call) -> Option<&Bytes> {
    match call {
        Call::Write(_, _, text)
        | Call::String(text)
        | Call::SetRow(_, _, text)
        | Call::HashInsert(_, text, _)
        | Call::HashRetrieve(_, text)
        | Call::HashRevise(_, text, _)
        | Call::HashRemove(_, text)
        | Call::Catlg(text, _, _)
        | Call::Find(text)
        | Call::Uncatlg(text)
        | Call::FileRef(text, _)
        | Call::PrependHeader(_, _, text)
        | Call::AppendTrailer(_, _, text) => Some(text),
        _ => None,
    }
}

fn order(keys: Keys) -> Words {
    match keys {
        Keys::ByBytes => Words::ByBytes,
        Keys::ByLength => Words::ByLength,
    }
}

// The words of a call.
fn words_of(call: &Call) -> Words {
    match call {
        Call::Create(account, _) | Call::Request(account, _, _, _, _, _) => Words::Of(*account),
        Call::Occupancy(account, space)
        | Call::Maximum(account, space)
        | Call::SetMaximum(account, space, _) => Words::In(*account, *space),
        Call::InsertOrdered(_, _, keys) | Call::Search(_, _, keys) => order(*keys),
        _ => Words::No,
    }
}

// Whether a call is this one.
fn is_call(call: &Call, want: &Row<'_>) -> bool {
    let text = match text_of(call) {
        Some(bytes) => bytes.as_slice(),
        None => b"",
    };
    (name_of(call), numbers_of(call), text, words_of(call)) == (want.1, want.2, want.3, want.4)
}

// Whether an event has this name, this number, and nothing else.
fn is_bare(name: &str, number: u64, want: &Row<'_>) -> bool {
    (name, (number, 0, 0, 0, 0), b"".as_slice(), Words::No) == (want.1, want.2, want.3, want.4)
}

// Whether an event is this one.
fn is_made(event: &Event, want: &Row<'_>) -> bool {
    match event {
        Event::Begin => is_bare("Begin", 0, want),
        Event::End => is_bare("End", 0, want),
        Event::Cancel => is_bare("Cancel", 0, want),
        Event::Exit => is_bare("Exit", 0, want),
        Event::Look(ticket) => is_bare("Look", *ticket, want),
        Event::Say(call) => is_call(call, want),
        Event::Request | Event::Leaves(_) => false,
    }
}

// Whether a line makes this event, where all names hold 0.
fn makes(alloc: Global, row: &Row<'_>) -> Result<bool, ScriptError> {
    let script = script_of(alloc, row.0)?;
    match script.as_slice() {
        [step] => Ok(is_made(&Bindings::new(alloc).event(alloc, step)?, row)),
        _ => Ok(false),
    }
}

// The first line that makes another event.
fn wrong_event<'a>(alloc: Global, rows: &[Row<'a>]) -> Option<&'a [u8]> {
    for row in rows {
        if !matches!(makes(alloc, row), Ok(true)) {
            return Some(row.0);
        }
    }
    None
}

#[test]
fn each_statement_makes_its_event(rt: HostRuntime) {
    assert_eq!(rt; wrong_event(rt.alloc(), &RAW), None);
    assert_eq!(rt; wrong_event(rt.alloc(), &LISTS), None);
    assert_eq!(rt; wrong_event(rt.alloc(), &TABLES), None);
    assert_eq!(rt; wrong_event(rt.alloc(), &NAMES), None);
    assert_eq!(rt; wrong_event(rt.alloc(), &OBJECTS), None);
}
