// What a call does to a world.
ghost use Rattle.mem_calls.specs.Answers.{CallsMemory};
ghost use Rattle.mem_world.specs.Calling.{MayCall};

use mem_calls::account_calls::{Asking, awarded, maximum, occupancy, request, set_maximum, shred};
use mem_calls::element_calls::{datum, delete, next, prev, set_datum};
use mem_calls::hash_calls::{
    hash_count, hash_destroy, hash_insert, hash_remove, hash_retrieve, hash_revise, make_hash,
};
use mem_calls::insert_calls::{insert_after, insert_before, insert_first, insert_last};
use mem_calls::list_calls::{
    first, last, list_destroy, list_length, list_user, make_list, set_list_user,
};
use mem_calls::name_calls::{catlg, entry, find, uncatlg};
use mem_calls::ordered_calls::{insert_ordered, search};
use mem_calls::raw_calls::{free, length, malloc, read, stage, write};
use mem_calls::table_calls::{dimensions, make_table, row, set_row, table_destroy, table_user};
use mem_calls::text_calls::{string, string_dup, string_length, string_read};
use mem_world::DraftWorld;
use mem_zco_calls::append_calls::{Append, append_extent};
use mem_zco_calls::bond_calls::bond;
use mem_zco_calls::capsule_calls::{append_trailer, prepend_header};
use mem_zco_calls::clone_calls::clone_part;
use mem_zco_calls::destroy_calls::destroy;
use mem_zco_calls::object_calls::{create, delimit, source_length, zco_length};
use mem_zco_calls::part_calls::{discard_first_header, discard_last_trailer};
use mem_zco_calls::source_calls::{bulk_ref, count, destroy_ref, file_ref, obj_ref};
use mem_zco_calls::strip_calls::strip;
use mem_zco_calls::wire_calls::give;
use sdr_base::{Amounts, NoMemory};
use sdr_model::{Call, Reply};
use std::alloc::Global;

/// Makes a call on a plain world, where the k-th block that is taken has address 8 k. A refused call
/// changes nothing, and want of memory leaves the world as before.
///
/// Calls on lists and on their elements are at most linear in the list, `uncatlg` in the catalogue, and the
/// first change of a thing in a transaction in that thing. A key is looked for in its bucket alone; a new or
/// removed one moves the entries of its hash behind it. A call that is refused for an address at which no
/// thing begins is linear in the list, hash or object that has or had a block there, and in the catalogue.
/// Calls on objects are at most linear in what is in them, and those that give bytes take the logarithm of the
/// world for each extent. Calls that charge an account, give it back or tell what it has occupied go over all things, with
/// what is in objects, and over its queue, and take the logarithm of the world for each source, and for each extent that has
/// another source than the one before it. `destroy`, and `strip` where it leaves out extents, go over all of that once more. `free`,
/// `obj_ref` and an append of a raw object look at each thing for a source, and `count`, `destroy_ref` and an append of a source
/// at each extent. All others take about the logarithm of the world.
pub fn apply(alloc: Global, world: &mut DraftWorld, call: &Call) -> Result<Reply, NoMemory>
    requires may { MayCall world.old.now }
    ensures { CallsMemory call.now world.old world.new result }
{
    match call {
        Call::Malloc(bytes) => malloc(alloc, world, *bytes),
        Call::Free(addr) => free(world, *addr),
        Call::Length(addr) => length(world, *addr),
        Call::Read(addr, place, count) => read(alloc, world, *addr, *place, *count),
        Call::Write(addr, place, bytes) => write(world, *addr, *place, bytes),
        Call::Stage(addr, count) => stage(alloc, world, *addr, *count),
        Call::String(text) => string(alloc, world, text),
        Call::StringLength(addr) => string_length(world, *addr),
        Call::StringRead(addr) => string_read(alloc, world, *addr),
        Call::StringDup(addr) => string_dup(alloc, world, *addr),
        Call::List(user) => make_list(alloc, world, *user),
        Call::ListDestroy(addr) => list_destroy(world, *addr),
        Call::ListLength(addr) => list_length(world, *addr),
        Call::ListUser(addr) => list_user(world, *addr),
        Call::SetListUser(addr, user) => set_list_user(world, *addr, *user),
        Call::InsertFirst(addr, datum) => insert_first(world, *addr, *datum),
        Call::InsertLast(addr, datum) => insert_last(world, *addr, *datum),
        Call::InsertBefore(element, datum) => insert_before(world, *element, *datum),
        Call::InsertAfter(element, datum) => insert_after(world, *element, *datum),
        Call::InsertOrdered(addr, datum, by) => insert_ordered(world, *addr, *datum, *by),
        Call::Search(addr, datum, by) => search(world, *addr, *datum, *by),
        Call::Delete(element) => delete(world, *element),
        Call::First(addr) => first(world, *addr),
        Call::Last(addr) => last(world, *addr),
        Call::Next(element) => next(world, *element),
        Call::Prev(element) => prev(world, *element),
        Call::Datum(element) => datum(world, *element),
        Call::SetDatum(element, value) => set_datum(world, *element, *value),
        Call::Table(rows, size, user) => make_table(alloc, world, *rows, *size, *user),
        Call::Row(addr, at) => row(alloc, world, *addr, *at),
        Call::SetRow(addr, at, bytes) => set_row(world, *addr, *at, bytes),
        Call::Dimensions(addr) => dimensions(world, *addr),
        Call::TableUser(addr) => table_user(world, *addr),
        Call::TableDestroy(addr) => table_destroy(world, *addr),
        Call::Hash(key_length, buckets) => make_hash(alloc, world, *key_length, *buckets),
        Call::HashInsert(addr, key, value) => hash_insert(alloc, world, *addr, key, *value),
        Call::HashRetrieve(addr, key) => hash_retrieve(world, *addr, key),
        Call::HashRevise(addr, key, value) => hash_revise(alloc, world, *addr, key, *value),
        Call::HashRemove(addr, key) => hash_remove(world, *addr, key),
        Call::HashCount(addr) => hash_count(world, *addr),
        Call::HashDestroy(addr) => hash_destroy(world, *addr),
        Call::Catlg(name, kind, object) => catlg(world, name, *kind, *object),
        Call::Find(name) => find(world, name),
        Call::Uncatlg(name) => uncatlg(world, name),
        Call::Entry(place) => entry(alloc, world, *place),
        Call::ZcoLength(addr) => zco_length(world, *addr),
        Call::SourceLength(addr) => source_length(world, *addr),
        Call::Transmit(_, _, _)
        | Call::ReceiveHeaders(_, _, _)
        | Call::ReceiveSource(_, _, _)
        | Call::ReceiveTrailers(_, _, _) => give(alloc, world, call),
        Call::FileRef(path, length) => file_ref(alloc, world, path, *length),
        Call::BulkRef(item, length) => bulk_ref(world, *item, *length),
        Call::ObjRef(addr) => obj_ref(world, *addr),
        Call::DestroyRef(addr) => destroy_ref(world, *addr),
        Call::Count(addr) => count(world, *addr),
        Call::Occupancy(acct, space) => occupancy(world, *acct, *space),
        Call::Maximum(acct, space) => maximum(world, *acct, *space),
        Call::SetMaximum(acct, space, value) => set_maximum(world, *acct, *space, *value),
        Call::Request(acct, file, bulk, heap, coarse, fine) => {
            let amounts = Amounts {
                file: *file,
                bulk: *bulk,
                heap: *heap,
            };
            let asking = Asking {
                amounts,
                coarse: *coarse,
                fine: *fine,
            };
            request(world, *acct, asking)
        }
        Call::Awarded(ticket) => awarded(world, *ticket),
        Call::Shred(ticket) => shred(world, *ticket),
        Call::Create(acct, ticket) => create(alloc, world, *acct, *ticket),
        Call::Destroy(addr) => destroy(alloc, world, *addr),
        Call::Strip(addr) => strip(alloc, world, *addr),
        Call::DiscardFirstHeader(addr) => discard_first_header(world, *addr),
        Call::DiscardLastTrailer(addr) => discard_last_trailer(world, *addr),
        Call::Delimit(addr, offset, length) => delimit(world, *addr, *offset, *length),
        Call::PrependHeader(addr, ticket, text) => {
            prepend_header(alloc, world, *addr, *ticket, text)
        }
        Call::AppendTrailer(addr, ticket, text) => {
            append_trailer(alloc, world, *addr, *ticket, text)
        }
        Call::AppendExtent(object, ticket, named, offset, bytes) => {
            let asked = Append {
                object: *object,
                ticket: *ticket,
                named: *named,
                offset: *offset,
                bytes: *bytes,
            };
            append_extent(world, &asked)
        }
        Call::ClonePart(addr, ticket, offset, bytes) => {
            clone_part(alloc, world, *addr, *ticket, *offset, *bytes)
        }
        Call::Bond(addr, ticket) => bond(alloc, world, *addr, *ticket),
    }
}
