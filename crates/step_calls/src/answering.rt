// The answer of each call but those that read media.
ghost use Rattle.std.specs.Prelude.{◌≡◌, ◌≤◌, ◌+◌, ◌/◌, [], false};
ghost use Rattle.step_things.specs.Answering.{ComesInEach, IsReady, LeavesLines};
ghost use Rattle.sdr_stands.specs.Standing.{HeapStandsFor};
ghost use Rattle.sdr_base.specs.Moves.{KeepsSome};
ghost use Rattle.sdr_base.specs.Works.{Spends};
ghost use Rattle.sdr_model.specs.Fields.{FitsCall};
ghost use Rattle.sdr_model.specs.Reading.{reads_media};
ghost use Rattle.sdr_model.specs.World.{World};
ghost use Rattle.step_calls.specs.Serving.{KeepsKinds, call_lines};

use sdr_base::{Amounts, Objects, Stop};
use sdr_model::{Call, Reply};
use step_keyed::{freeing, hashes, names};
use step_things::{Page, lists, raws, strings, tables};
use step_zco::accounts::{maximum, occupancy, set_maximum};
use step_zco::appending::append_extent;
use step_zco::capsules::{
    append_trailer, discard_first_header, discard_last_trailer, prepend_header,
};
use step_zco::destroying::destroy;
use step_zco::objects::{create, length, source_length};
use step_zco::sources::{bulk_ref, count, destroy_ref, file_ref, obj_ref};
use step_zco::tickets::{Asking, awarded, request, shred};
use step_zco_parts::{bond, clone_part, delimit, strip};
use zco_acct::{Notice, Notify};

/// Answers a call, but one that reads media. A callback is told each time space is made available.
pub fn answer<O: Objects, F: Notify>(
    o: &mut O,
    call: &Call,
    notice: &Notice<F>,
    page: &mut Page,
) -> Result<Reply, Stop>
    requires kept { KeepsSome (O.keeps o.old) }
    requires room { (O.heap o.old).size / 4 + 4 ≤ (O.heap o.old).spare }
    requires kinds { KeepsKinds (O.heap o.old) }
    requires unmoved { (O.heap o.old).moves ≡ [] }
    requires here { reads_media call.now ≡ false }
    ensures comes { ComesInEach call.now (O.heap o.old) (O.heap o.new) page.old page.new result }
    ensures works { (w : World) → HeapStandsFor (O.heap o.old) w → IsReady w →
        Spends O.HasHeap (call_lines (O.heap o.old) w call.now) o.old o.new result }
    ensures lines { LeavesLines O.HasHeap call.now o.old o.new }
    ensures fits { FitsCall call.now }
{
    match call {
        Call::Malloc(bytes) => raws::malloc(o, *bytes, page),
        Call::Free(addr) => freeing::free(o, *addr, page),
        Call::Length(addr) => raws::length(o, *addr, page),
        Call::Read(addr, place, count) => raws::read(o, *addr, *place, *count, page),
        Call::Write(addr, place, bytes) => raws::write(o, *addr, *place, bytes.as_slice(), page),
        Call::Stage(addr, count) => raws::stage(o, *addr, *count, page),
        Call::String(text) => strings::string(o, text.as_slice(), page),
        Call::StringLength(addr) => strings::string_length(o, *addr, page),
        Call::StringRead(addr) => strings::string_read(o, *addr, page),
        Call::StringDup(addr) => strings::string_dup(o, *addr, page),
        Call::List(user) => lists::list(o, *user, page),
        Call::ListDestroy(list) => lists::list_destroy(o, *list, page),
        Call::ListLength(list) => lists::list_length(o, *list, page),
        Call::ListUser(list) => lists::list_user(o, *list, page),
        Call::SetListUser(list, user) => lists::set_list_user(o, *list, *user, page),
        Call::InsertFirst(list, datum) => lists::insert_first(o, *list, *datum, page),
        Call::InsertLast(list, datum) => lists::insert_last(o, *list, *datum, page),
        Call::InsertBefore(element, datum) => lists::insert_before(o, *element, *datum, page),
        Call::InsertAfter(element, datum) => lists::insert_after(o, *element, *datum, page),
        Call::InsertOrdered(list, datum, keys) => {
            lists::insert_ordered(o, *list, *datum, *keys, page)
        }
        Call::Search(list, datum, keys) => lists::search(o, *list, *datum, *keys, page),
        Call::Delete(element) => lists::delete(o, *element, page),
        Call::First(list) => lists::first(o, *list, page),
        Call::Last(list) => lists::last(o, *list, page),
        Call::Next(element) => lists::next(o, *element, page),
        Call::Prev(element) => lists::prev(o, *element, page),
        Call::Datum(element) => lists::datum(o, *element, page),
        Call::SetDatum(element, datum) => lists::set_datum(o, *element, *datum, page),
        Call::Table(rows, size, user) => tables::table(o, *rows, *size, *user, page),
        Call::Row(table, place) => tables::row(o, *table, *place, page),
        Call::SetRow(table, row, bytes) => tables::set_row(o, *table, *row, bytes.as_slice(), page),
        Call::Dimensions(table) => tables::dimensions(o, *table, page),
        Call::TableUser(table) => tables::table_user(o, *table, page),
        Call::TableDestroy(table) => tables::table_destroy(o, *table, page),
        Call::Hash(key_length, buckets) => hashes::hash(o, *key_length, *buckets, page),
        Call::HashInsert(hash, key, value) => {
            hashes::insert(o, *hash, key.as_slice(), *value, page)
        }
        Call::HashRetrieve(hash, key) => hashes::retrieve(o, *hash, key.as_slice(), page),
        Call::HashRevise(hash, key, value) => {
            hashes::revise(o, *hash, key.as_slice(), *value, page)
        }
        Call::HashRemove(hash, key) => hashes::remove(o, *hash, key.as_slice(), page),
        Call::HashCount(hash) => hashes::count(o, *hash, page),
        Call::HashDestroy(hash) => hashes::hash_destroy(o, *hash, page),
        Call::Catlg(name, kind, object) => names::catlg(o, name.as_slice(), *kind, *object, page),
        Call::Find(name) => names::find(o, name.as_slice(), page),
        Call::Uncatlg(name) => names::uncatlg(o, name.as_slice(), page),
        Call::Entry(place) => names::entry(o, *place, page),
        Call::FileRef(path, bytes) => file_ref(o, path.as_slice(), *bytes, page),
        Call::BulkRef(item, bytes) => bulk_ref(o, *item, *bytes, page),
        Call::ObjRef(raw) => obj_ref(o, *raw, page),
        Call::DestroyRef(source) => destroy_ref(o, *source, page),
        Call::Count(source) => count(o, *source, page),
        Call::Occupancy(acct, space) => occupancy(o, *acct, *space, page),
        Call::Maximum(acct, space) => maximum(o, *acct, *space, page),
        Call::SetMaximum(acct, space, value) => {
            set_maximum(o, *acct, *space, *value, notice, page)
        }
        Call::Request(acct, file, bulk, heap, coarse, fine) => {
            let asked = Amounts {
                file: *file,
                bulk: *bulk,
                heap: *heap,
            };
            let asking = Asking {
                acct: *acct,
                asked,
                coarse: *coarse,
                fine: *fine,
            };
            request(o, &asking, notice, page)
        }
        Call::Awarded(ticket) => awarded(o, *ticket, page),
        Call::Shred(ticket) => shred(o, *ticket, notice, page),
        Call::Create(acct, ticket) => create(o, *acct, *ticket, page),
        Call::AppendExtent(object, ticket, named, offset, bytes) => {
            append_extent(o, *object, *ticket, *named, *offset, *bytes, page)
        }
        Call::PrependHeader(object, ticket, text) => {
            prepend_header(o, *object, *ticket, text.as_slice(), page)
        }
        Call::AppendTrailer(object, ticket, text) => {
            append_trailer(o, *object, *ticket, text.as_slice(), page)
        }
        Call::DiscardFirstHeader(object) => { discard_first_header(o, *object, notice, page) }
        Call::DiscardLastTrailer(object) => { discard_last_trailer(o, *object, notice, page) }
        Call::ZcoLength(object) => length(o, *object, page),
        Call::SourceLength(object) => source_length(o, *object, page),
        Call::Destroy(object) => destroy(o, *object, notice, page),
        Call::ClonePart(object, ticket, offset, bytes) => {
            clone_part(o, *object, *ticket, *offset, *bytes, page)
        }
        Call::Delimit(object, offset, bytes) => delimit(o, *object, *offset, *bytes, page),
        Call::Bond(object, ticket) => bond(o, *object, *ticket, page),
        Call::Strip(object) => strip(o, *object, notice, page),
        Call::Transmit(_, _, _)
        | Call::ReceiveHeaders(_, _, _)
        | Call::ReceiveSource(_, _, _)
        | Call::ReceiveTrailers(_, _, _) => unreachable!(),
    }
}
