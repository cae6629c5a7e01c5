// The verbs of scripts: the one table by which they are read, which is the grammar's.
ghost use Rattle.std.specs.Prelude.{◌≡◌, [], map, nat_eq, slice_get, unwrap_or};
ghost use Rattle.std.specs.Cmp.Lexicographic.{pointwise};
ghost use Rattle.sdr_words.specs.Verbs.{verb_names, place_among, verb_place, shapes, shapes_at, verb_at, verbs};

/// What an argument of a verb may be.
#[derive(Clone, Copy)]
pub enum Shape {
    /// An address, a number or a ticket's number, 0 for none: a number, or a bound name.
    Value,
    /// The type of a name: a number up to 4294967295.
    Type,
    /// A coarse or fine priority: a number up to 255.
    Priority,
    /// A literal.
    Text,
    /// `in` or `out`.
    Account,
    /// `file`, `bulk` or `heap`.
    Space,
    /// `bytes` or `length`.
    Order,
}

/// What a line asks for.
#[derive(Clone, Copy)]
pub enum Verb {
    Begin,
    End,
    Cancel,
    Exit,
    Await,
    Malloc,
    Free,
    Length,
    Read,
    Write,
    Stage,
    String,
    StringLength,
    StringRead,
    StringDup,
    List,
    ListDestroy,
    ListLength,
    ListUser,
    SetListUser,
    InsertFirst,
    InsertLast,
    InsertBefore,
    InsertAfter,
    InsertOrdered,
    Search,
    Delete,
    First,
    Last,
    Next,
    Prev,
    Datum,
    SetDatum,
    Table,
    Row,
    SetRow,
    Dimensions,
    TableUser,
    TableDestroy,
    Hash,
    HashInsert,
    HashRetrieve,
    HashRevise,
    HashRemove,
    HashCount,
    HashDestroy,
    Catlg,
    Find,
    Uncatlg,
    Entry,
    FileRef,
    BulkRef,
    ObjRef,
    DestroyRef,
    Count,
    Occupancy,
    Maximum,
    SetMaximum,
    Create,
    AppendExtent,
    PrependHeader,
    AppendTrailer,
    DiscardFirstHeader,
    DiscardLastTrailer,
    Bond,
    ClonePart,
    Delimit,
    Strip,
    ZcoLength,
    SourceLength,
    Destroy,
    Transmit,
    ReceiveHeaders,
    ReceiveSource,
    ReceiveTrailers,
    Request,
    Awarded,
    Shred,
}

/// A verb, its name, and the shapes of its arguments in order.
type Row = (Verb, &'static [u8], &'static [Shape]);

use Shape::{Account, Order, Priority, Space, Text, Type, Value};

/// The verbs. A step names its verb by the place here, from 0. The contracts below say that the names,
/// the shapes and the verbs are those of the grammar's table, each at its place.
static VERBS: [Row; 78] = [
    (Verb::Begin, b"begin", &[]),
    (Verb::End, b"end", &[]),
    (Verb::Cancel, b"cancel", &[]),
    (Verb::Exit, b"exit", &[]),
    (Verb::Await, b"await", &[Value]),
    (Verb::Malloc, b"malloc", &[Value]),
    (Verb::Free, b"free", &[Value]),
    (Verb::Length, b"length", &[Value]),
    (Verb::Read, b"read", &[Value, Value, Value]),
    (Verb::Write, b"write", &[Value, Value, Text]),
    (Verb::Stage, b"stage", &[Value, Value]),
    (Verb::String, b"string", &[Text]),
    (Verb::StringLength, b"string_length", &[Value]),
    (Verb::StringRead, b"string_read", &[Value]),
    (Verb::StringDup, b"string_dup", &[Value]),
    (Verb::List, b"list", &[Value]),
    (Verb::ListDestroy, b"list_destroy", &[Value]),
    (Verb::ListLength, b"list_length", &[Value]),
    (Verb::ListUser, b"list_user", &[Value]),
    (Verb::SetListUser, b"set_list_user", &[Value, Value]),
    (Verb::InsertFirst, b"insert_first", &[Value, Value]),
    (Verb::InsertLast, b"insert_last", &[Value, Value]),
    (Verb::InsertBefore, b"insert_before", &[Value, Value]),
    (Verb::InsertAfter, b"insert_after", &[Value, Value]),
    (
        Verb::InsertOrdered,
        b"insert_ordered",
        &[Value, Value, Order],
    ),
    (Verb::Search, b"search", &[Value, Value, Order]),
    (Verb::Delete, b"delete", &[Value]),
    (Verb::First, b"first", &[Value]),
    (Verb::Last, b"last", &[Value]),
    (Verb::Next, b"next", &[Value]),
    (Verb::Prev, b"prev", &[Value]),
    (Verb::Datum, b"data", &[Value]),
    (Verb::SetDatum, b"set_data", &[Value, Value]),
    (Verb::Table, b"table", &[Value, Value, Value]),
    (Verb::Row, b"row", &[Value, Value]),
    (Verb::SetRow, b"set_row", &[Value, Value, Text]),
    (Verb::Dimensions, b"dimensions", &[Value]),
    (Verb::TableUser, b"table_user", &[Value]),
    (Verb::TableDestroy, b"table_destroy", &[Value]),
    (Verb::Hash, b"hash", &[Value, Value]),
    (Verb::HashInsert, b"hash_insert", &[Value, Text, Value]),
    (Verb::HashRetrieve, b"hash_retrieve", &[Value, Text]),
    (Verb::HashRevise, b"hash_revise", &[Value, Text, Value]),
    (Verb::HashRemove, b"hash_remove", &[Value, Text]),
    (Verb::HashCount, b"hash_count", &[Value]),
    (Verb::HashDestroy, b"hash_destroy", &[Value]),
    (Verb::Catlg, b"catlg", &[Text, Type, Value]),
    (Verb::Find, b"find", &[Text]),
    (Verb::Uncatlg, b"uncatlg", &[Text]),
    (Verb::Entry, b"entry", &[Value]),
    (Verb::FileRef, b"file_ref", &[Text, Value]),
    (Verb::BulkRef, b"bulk_ref", &[Value, Value]),
    (Verb::ObjRef, b"obj_ref", &[Value]),
    (Verb::DestroyRef, b"destroy_ref", &[Value]),
    (Verb::Count, b"count", &[Value]),
    (Verb::Occupancy, b"occupancy", &[Account, Space]),
    (Verb::Maximum, b"maximum", &[Account, Space]),
    (Verb::SetMaximum, b"set_maximum", &[Account, Space, Value]),
    (Verb::Create, b"create", &[Account, Value]),
    (
        Verb::AppendExtent,
        b"append_extent",
        &[Value, Value, Value, Value, Value],
    ),
    (
        Verb::PrependHeader,
        b"prepend_header",
        &[Value, Value, Text],
    ),
    (
        Verb::AppendTrailer,
        b"append_trailer",
        &[Value, Value, Text],
    ),
    (Verb::DiscardFirstHeader, b"discard_first_header", &[Value]),
    (Verb::DiscardLastTrailer, b"discard_last_trailer", &[Value]),
    (Verb::Bond, b"bond", &[Value, Value]),
    (
        Verb::ClonePart,
        b"clone_part",
        &[Value, Value, Value, Value],
    ),
    (Verb::Delimit, b"delimit", &[Value, Value, Value]),
    (Verb::Strip, b"strip", &[Value]),
    (Verb::ZcoLength, b"zco_length", &[Value]),
    (Verb::SourceLength, b"source_length", &[Value]),
    (Verb::Destroy, b"destroy", &[Value]),
    (Verb::Transmit, b"transmit", &[Value, Value, Value]),
    (
        Verb::ReceiveHeaders,
        b"receive_headers",
        &[Value, Value, Value],
    ),
    (
        Verb::ReceiveSource,
        b"receive_source",
        &[Value, Value, Value],
    ),
    (
        Verb::ReceiveTrailers,
        b"receive_trailers",
        &[Value, Value, Value],
    ),
    (
        Verb::Request,
        b"request",
        &[Account, Value, Value, Value, Priority, Priority],
    ),
    (Verb::Awarded, b"awarded", &[Value]),
    (Verb::Shred, b"shred", &[Value]),
];

// Whether two names are the same. They are short, so their bytes are looked at one by one.
fn is_same(one: &[u8], other: &[u8]) -> bool
    ensures { result ≡ pointwise nat_eq one.now other.now }
{
    let mut front = one;
    let mut behind = other;
    while let ([a, more @ ..], [b, after @ ..]) = (front, behind) {
        if a != b {
            return false;
        }
        front = more;
        behind = after;
    }
    front.is_empty() && behind.is_empty()
}

// The place of the row with this name.
fn place_among(rows: &[Row], name: &[u8]) -> Option<usize>
    ensures { result ≡ place_among (map (λ row. row.1.now) rows.now) name.now }
{
    rows.iter().position(|row| is_same(row.1, name))
}

// The shapes in the row at a place.
fn shapes_in(rows: &[Row], place: usize) -> &'static [Shape]
    ensures { result.now ≡ unwrap_or (slice_get (map (λ row. row.2.now) rows.now) place) [] }
{
    match rows.get(place) {
        Some(row) => row.2,
        None => &[],
    }
}

// The verb in the row at a place.
fn verb_in(rows: &[Row], place: usize) -> Verb
    ensures { result ≡ unwrap_or (slice_get (map (λ row. row.0) rows.now) place) Verb.Begin }
{
    match rows.get(place) {
        Some(row) => row.0,
        None => Verb::Begin,
    }
}

// The table: its verbs, their names and the shapes of their arguments are the grammar's.
#[tactic(auto, unfolding(crate::specs::Verbs::verbs, crate::specs::Verbs::verb_names, crate::specs::Verbs::shapes))]
fn table() -> &'static [Row]
    ensures verbs { map (λ row. row.0) result.now ≡ verbs }
    ensures names { map (λ row. row.1.now) result.now ≡ verb_names }
    ensures shapes { map (λ row. row.2.now) result.now ≡ shapes }
{
    &VERBS
}

/// The place of the verb with this name.
pub fn place_of(name: &[u8]) -> Option<usize>
    ensures { result ≡ verb_place name.now }
{
    place_among(table(), name)
}

/// The shapes of the arguments of the verb at a place.
pub fn shapes_at(place: usize) -> &'static [Shape]
    ensures { result.now ≡ shapes_at place }
{
    shapes_in(table(), place)
}

/// The verb at a place, `begin` where there is none.
pub fn verb_at(place: usize) -> Verb
    ensures { result ≡ verb_at place }
{
    verb_in(table(), place)
}
