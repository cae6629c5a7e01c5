// What a daemon may ask of the heap.
ghost use Rattle.std.specs.Prelude.{◌≡◌};
ghost use Rattle.sdr_model.specs.Reading.{is_reading, reads_media};

use crate::Keys;
use sdr_base::{Acct, Addr, Bytes, Space};

/// A call of the machine, one variant for each verb of a script that is no event of its own, with the
/// verb's arguments in order. Places, counts and lengths are in bytes.
#[derive(Drop)]
pub enum Call {
    /// Makes a raw object of so many zero bytes.
    Malloc(u64),
    /// Frees a raw object or a string.
    Free(Addr),
    /// The bytes of any thing.
    Length(Addr),
    /// Reads bytes of a raw object: place, count.
    Read(Addr, u64, u64),
    /// Writes bytes into a raw object from a place on.
    Write(Addr, u64, Bytes),
    /// Makes a raw object writable in the transaction, and reads its first bytes: count.
    Stage(Addr, u64),
    /// Makes a string of at most 255 bytes.
    String(Bytes),
    StringLength(Addr),
    /// Reads a string.
    StringRead(Addr),
    /// Makes a string of the same text.
    StringDup(Addr),
    /// Makes a list with the user's number.
    List(u64),
    /// Destroys a list with its elements; their data stays with its owner.
    ListDestroy(Addr),
    ListLength(Addr),
    /// The user's number of a list.
    ListUser(Addr),
    SetListUser(Addr, u64),
    /// Inserts data at the front of a list.
    InsertFirst(Addr, u64),
    /// Inserts data at the end of a list.
    InsertLast(Addr, u64),
    /// Inserts data before an element.
    InsertBefore(Addr, u64),
    /// Inserts data after an element.
    InsertAfter(Addr, u64),
    /// Inserts data after the last element of a list whose key is less or equal, else at the front.
    InsertOrdered(Addr, u64, Keys),
    /// The first element of a list whose key is equal to that of the data.
    Search(Addr, u64, Keys),
    /// Takes an element out of its list.
    Delete(Addr),
    First(Addr),
    Last(Addr),
    Next(Addr),
    Prev(Addr),
    /// An element's data.
    Datum(Addr),
    SetDatum(Addr, u64),
    /// Makes a table of zero bytes: rows, row size, the user's number.
    Table(u64, u64, u64),
    /// Reads a row of a table, from 0.
    Row(Addr, u64),
    SetRow(Addr, u64, Bytes),
    /// The rows and the row size of a table.
    Dimensions(Addr),
    /// The user's number of a table.
    TableUser(Addr),
    TableDestroy(Addr),
    /// Makes a hash: key length, buckets.
    Hash(u64, u64),
    HashInsert(Addr, Bytes, u64),
    HashRetrieve(Addr, Bytes),
    HashRevise(Addr, Bytes, u64),
    HashRemove(Addr, Bytes),
    /// The entries of a hash.
    HashCount(Addr),
    HashDestroy(Addr),
    /// Catalogues an object under a name of 1 to 31 bytes, with a type.
    Catlg(Bytes, u32, u64),
    /// Finds the type and object of a name.
    Find(Bytes),
    Uncatlg(Bytes),
    /// The catalogue's entry at a place, from 0.
    Entry(u64),
    /// Makes a source of a file's first bytes: path, length.
    FileRef(Bytes, u64),
    /// Makes a source of a bulk item's first bytes: item, length.
    BulkRef(u64, u64),
    /// Makes a source of a raw object, which stays with its owner.
    ObjRef(Addr),
    /// Destroys a source, at once or with its last use.
    DestroyRef(Addr),
    /// The extents that name a source.
    Count(Addr),
    Occupancy(Acct, Space),
    Maximum(Acct, Space),
    SetMaximum(Acct, Space, u64),
    /// Makes a zero-copy object: account, ticket.
    Create(Acct, u64),
    /// Appends a part of a source, or of a raw object: object, ticket, source or raw object, offset,
    /// length.
    AppendExtent(Addr, u64, Addr, u64, u64),
    /// Puts a header in front: object, ticket, text.
    PrependHeader(Addr, u64, Bytes),
    /// Puts a trailer at the end: object, ticket, text.
    AppendTrailer(Addr, u64, Bytes),
    DiscardFirstHeader(Addr),
    DiscardLastTrailer(Addr),
    /// Makes extents of an object's headers and trailers: object, ticket.
    Bond(Addr, u64),
    /// Makes an object of a part of another: object, ticket, offset, length.
    ClonePart(Addr, u64, u64, u64),
    /// Sets an object's part: object, offset, length.
    Delimit(Addr, u64, u64),
    /// Cuts an object's extents to its part.
    Strip(Addr),
    /// The bytes of an object on the wire.
    ZcoLength(Addr),
    /// The bytes of an object's part.
    SourceLength(Addr),
    Destroy(Addr),
    /// The bytes of an object on the wire: object, place, count.
    Transmit(Addr, u64, u64),
    /// The extents' bytes before the part: object, place, count.
    ReceiveHeaders(Addr, u64, u64),
    /// The part's bytes: object, place, count.
    ReceiveSource(Addr, u64, u64),
    /// The extents' bytes behind the part: object, place, count.
    ReceiveTrailers(Addr, u64, u64),
    /// Asks for space: account, file, bulk and heap bytes, coarse and fine priority.
    Request(Acct, u64, u64, u64, u8, u8),
    /// Whether a ticket is granted.
    Awarded(u64),
    /// Gives a ticket up.
    Shred(u64),
}

impl Call {
    /// Whether the call reads alone: where it is refused, its transaction isn't doomed.
    pub fn is_reading(&self) -> bool
        ensures { result ≡ is_reading self.now }
    {
        matches!(
            self,
            Call::Length(_)
                | Call::Read(_, _, _)
                | Call::Stage(_, _)
                | Call::StringLength(_)
                | Call::StringRead(_)
                | Call::ListLength(_)
                | Call::ListUser(_)
                | Call::Search(_, _, _)
                | Call::First(_)
                | Call::Last(_)
                | Call::Next(_)
                | Call::Prev(_)
                | Call::Datum(_)
                | Call::Row(_, _)
                | Call::Dimensions(_)
                | Call::TableUser(_)
                | Call::HashRetrieve(_, _)
                | Call::HashCount(_)
                | Call::Find(_)
                | Call::Entry(_)
                | Call::Count(_)
                | Call::Occupancy(_, _)
                | Call::Maximum(_, _)
                | Call::ZcoLength(_)
                | Call::SourceLength(_)
                | Call::Transmit(_, _, _)
                | Call::ReceiveHeaders(_, _, _)
                | Call::ReceiveSource(_, _, _)
                | Call::ReceiveTrailers(_, _, _)
                | Call::Awarded(_)
        )
    }

    /// Whether the call may read media: the bytes of an object may lie in files and items.
    pub fn reads_media(&self) -> bool
        ensures { result ≡ reads_media self.now }
    {
        matches!(
            self,
            Call::Transmit(_, _, _)
                | Call::ReceiveHeaders(_, _, _)
                | Call::ReceiveSource(_, _, _)
                | Call::ReceiveTrailers(_, _, _)
        )
    }
}
