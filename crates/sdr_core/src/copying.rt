// Copies of events.
ghost use Rattle.std.specs.Prelude.{◌≡◌, IfOk, IfSome, IsNone, false};
ghost use Rattle.sdr_core.specs.Copying.{is_on_objects, is_on_things};

use sdr_base::{Bytes, NoMemory};
use sdr_model::{Call, Event};
use std::alloc::Global;

// A copy of the bytes.
fn same(alloc: Global, bytes: &Bytes) -> Result<Bytes, NoMemory>
    ensures { IfOk result (λ copy. copy ≡ bytes.now) }
{
    Bytes::copied(alloc, bytes.as_slice())
}

// A copy of a call on raw objects or on what is made of blocks that holds no bytes.
fn copy_of_things(call: &Call) -> Option<Call>
    ensures same { IfSome result (λ copy. copy ≡ call.now) }
    ensures none { IsNone result → is_on_things call.now ≡ false }
{
    Some(match call {
        Call::Malloc(bytes) => Call::Malloc(*bytes),
        Call::Free(addr) => Call::Free(*addr),
        Call::Length(addr) => Call::Length(*addr),
        Call::Read(addr, place, count) => Call::Read(*addr, *place, *count),
        Call::Stage(addr, count) => Call::Stage(*addr, *count),
        Call::StringLength(addr) => Call::StringLength(*addr),
        Call::StringRead(addr) => Call::StringRead(*addr),
        Call::StringDup(addr) => Call::StringDup(*addr),
        Call::List(user) => Call::List(*user),
        Call::ListDestroy(addr) => Call::ListDestroy(*addr),
        Call::ListLength(addr) => Call::ListLength(*addr),
        Call::ListUser(addr) => Call::ListUser(*addr),
        Call::SetListUser(addr, user) => Call::SetListUser(*addr, *user),
        Call::InsertFirst(addr, datum) => Call::InsertFirst(*addr, *datum),
        Call::InsertLast(addr, datum) => Call::InsertLast(*addr, *datum),
        Call::InsertBefore(element, datum) => Call::InsertBefore(*element, *datum),
        Call::InsertAfter(element, datum) => Call::InsertAfter(*element, *datum),
        Call::InsertOrdered(addr, datum, by) => Call::InsertOrdered(*addr, *datum, *by),
        Call::Search(addr, datum, by) => Call::Search(*addr, *datum, *by),
        Call::Delete(element) => Call::Delete(*element),
        Call::First(addr) => Call::First(*addr),
        Call::Last(addr) => Call::Last(*addr),
        Call::Next(element) => Call::Next(*element),
        Call::Prev(element) => Call::Prev(*element),
        Call::Datum(element) => Call::Datum(*element),
        Call::SetDatum(element, value) => Call::SetDatum(*element, *value),
        Call::Table(rows, size, user) => Call::Table(*rows, *size, *user),
        Call::Row(addr, at) => Call::Row(*addr, *at),
        Call::Dimensions(addr) => Call::Dimensions(*addr),
        Call::TableUser(addr) => Call::TableUser(*addr),
        Call::TableDestroy(addr) => Call::TableDestroy(*addr),
        Call::Hash(key_length, buckets) => Call::Hash(*key_length, *buckets),
        Call::HashCount(addr) => Call::HashCount(*addr),
        Call::HashDestroy(addr) => Call::HashDestroy(*addr),
        Call::Entry(place) => Call::Entry(*place),
        _ => return None,
    })
}

// A copy of a call on sources, accounts, tickets or zero-copy objects that holds no bytes.
fn copy_of_objects(call: &Call) -> Option<Call>
    ensures same { IfSome result (λ copy. copy ≡ call.now) }
    ensures none { IsNone result → is_on_objects call.now ≡ false }
{
    Some(match call {
        Call::BulkRef(item, length) => Call::BulkRef(*item, *length),
        Call::ObjRef(addr) => Call::ObjRef(*addr),
        Call::DestroyRef(addr) => Call::DestroyRef(*addr),
        Call::Count(addr) => Call::Count(*addr),
        Call::Occupancy(acct, space) => Call::Occupancy(*acct, *space),
        Call::Maximum(acct, space) => Call::Maximum(*acct, *space),
        Call::SetMaximum(acct, space, value) => Call::SetMaximum(*acct, *space, *value),
        Call::Create(acct, ticket) => Call::Create(*acct, *ticket),
        Call::AppendExtent(object, ticket, named, offset, bytes) => Call::AppendExtent(
            *object, *ticket, *named, *offset, *bytes,
        ),
        Call::DiscardFirstHeader(addr) => Call::DiscardFirstHeader(*addr),
        Call::DiscardLastTrailer(addr) => Call::DiscardLastTrailer(*addr),
        Call::Bond(addr, ticket) => Call::Bond(*addr, *ticket),
        Call::ClonePart(addr, ticket, offset, bytes) => Call::ClonePart(
            *addr, *ticket, *offset, *bytes,
        ),
        Call::Delimit(addr, offset, length) => Call::Delimit(*addr, *offset, *length),
        Call::Strip(addr) => Call::Strip(*addr),
        Call::ZcoLength(addr) => Call::ZcoLength(*addr),
        Call::SourceLength(addr) => Call::SourceLength(*addr),
        Call::Destroy(addr) => Call::Destroy(*addr),
        Call::Transmit(addr, place, count) => Call::Transmit(*addr, *place, *count),
        Call::ReceiveHeaders(addr, place, count) => Call::ReceiveHeaders(*addr, *place, *count),
        Call::ReceiveSource(addr, place, count) => Call::ReceiveSource(*addr, *place, *count),
        Call::ReceiveTrailers(addr, place, count) => Call::ReceiveTrailers(*addr, *place, *count),
        Call::Request(acct, file, bulk, heap, coarse, fine) => Call::Request(
            *acct, *file, *bulk, *heap, *coarse, *fine,
        ),
        Call::Awarded(ticket) => Call::Awarded(*ticket),
        Call::Shred(ticket) => Call::Shred(*ticket),
        _ => return None,
    })
}

// A copy of the call.
fn copy_of_call(alloc: Global, call: &Call) -> Result<Call, NoMemory>
    ensures { IfOk result (λ copy. copy ≡ call.now) }
{
    if let Some(copy) = copy_of_things(call) {
        return Ok(copy);
    }
    if let Some(copy) = copy_of_objects(call) {
        return Ok(copy);
    }
    Ok(match call {
        Call::Write(addr, place, bytes) => Call::Write(*addr, *place, same(alloc, bytes)?),
        Call::String(text) => Call::String(same(alloc, text)?),
        Call::SetRow(addr, at, bytes) => Call::SetRow(*addr, *at, same(alloc, bytes)?),
        Call::HashInsert(addr, key, value) => Call::HashInsert(*addr, same(alloc, key)?, *value),
        Call::HashRetrieve(addr, key) => Call::HashRetrieve(*addr, same(alloc, key)?),
        Call::HashRevise(addr, key, value) => Call::HashRevise(*addr, same(alloc, key)?, *value),
        Call::HashRemove(addr, key) => Call::HashRemove(*addr, same(alloc, key)?),
        Call::Catlg(name, kind, object) => Call::Catlg(same(alloc, name)?, *kind, *object),
        Call::Find(name) => Call::Find(same(alloc, name)?),
        Call::Uncatlg(name) => Call::Uncatlg(same(alloc, name)?),
        Call::FileRef(path, length) => Call::FileRef(same(alloc, path)?, *length),
        Call::PrependHeader(addr, ticket, text) => Call::PrependHeader(
            *addr,
            *ticket,
            same(alloc, text)?,
        ),
        Call::AppendTrailer(addr, ticket, text) => Call::AppendTrailer(
            *addr,
            *ticket,
            same(alloc, text)?,
        ),
        _ => unreachable!(),
    })
}

/// A copy of the event.
pub fn copy_of(alloc: Global, event: &Event) -> Result<Event, NoMemory>
    ensures { IfOk result (λ copy. copy ≡ event.now) }
{
    match event {
        Event::Request => Ok(Event::Request),
        Event::Begin => Ok(Event::Begin),
        Event::Say(call) => Ok(Event::Say(copy_of_call(alloc, call)?)),
        Event::End => Ok(Event::End),
        Event::Cancel => Ok(Event::Cancel),
        Event::Exit => Ok(Event::Exit),
        Event::Look(ticket) => Ok(Event::Look(*ticket)),
        Event::Leaves(leave) => Ok(Event::Leaves(*leave)),
    }
}
