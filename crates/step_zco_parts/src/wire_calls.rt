// Answers to the calls that read an object's bytes.
ghost use Rattle.std.specs.Prelude.{◌≡◌, ◌≤◌, ◌<◌, [], true, false, IfErr, IfOk, OnErr, OnOk, length};
ghost use Rattle.step_things.specs.Answering.{ComesInEach};
ghost use Rattle.sdr_base.specs.Moves.{KeepsSome};
ghost use Rattle.sdr_base.specs.Works.{Looks};
ghost use Rattle.sdr_model.specs.Limits.{longest_read};
ghost use Rattle.sdr_model.specs.Pieces.{asked_addr, asked_count};
ghost use Rattle.sdr_model.specs.Reading.{reads_media};
ghost use Rattle.step_zco_parts.specs.Giving.{AgreesIn, AsksInEach, CountStops, HasMediaCause, ReadsCall, asked_by, may_read, place_of};
ghost use Rattle.zco_wire.specs.Asking.{AsksOnce};
ghost use Rattle.zco_wire.specs.Naming.{IsWire};
ghost use Rattle.zco_wire.specs.Stopping.{KeepsTold, ReadStops, past_media};

use sdr_base::limits::LONGEST_READ;
use sdr_base::{Addr, Kind, Media, Objects, Refusal, Stop, expect_kind};
use sdr_model::{Call, Reply};
use step_things::{PAGE, Page};
use zco_wire::{Reader, receive_headers, receive_source, receive_trailers, transmit};

// The reader with which a call reads, and how many bytes it asks at most.
fn reader_of(call: &Call) -> (Reader, u64)
    requires reads { reads_media call.now ≡ true }
    ensures object { result.0.object ≡ asked_addr call.now }
    ensures place { result.0.place ≡ place_of call.now }
    ensures count { result.1 ≡ asked_count call.now }
{
    match call {
        Call::Transmit(object, place, count)
        | Call::ReceiveHeaders(object, place, count)
        | Call::ReceiveSource(object, place, count)
        | Call::ReceiveTrailers(object, place, count) => (
            Reader {
                object: *object,
                place: *place,
            },
            *count,
        ),
        _ => unreachable!(),
    }
}

// Reads what a call asks of an object into a buffer of as many bytes as it asks, and answers how
// many there were.
fn read<O: Objects, M: Media>(
    o: &mut O,
    media: &mut M,
    call: &Call,
    reader: &mut Reader,
    into: &mut [u8],
) -> Result<u64, Stop>
    requires kept { KeepsSome (O.keeps o.old) }
    requires reads { reads_media call.now ≡ true }
    requires object { reader.old.object ≡ asked_addr call.now }
    requires place { reader.old.place ≡ place_of call.now }
    requires wire { IsWire (O.heap o.old).blocks (asked_addr call.now) }
    requires page { length into.old ≡ asked_count call.now }
    ensures given { IfOk result (ReadsCall (M.told media.old) (O.heap o.old).blocks
        (asked_addr call.now) call.now into.new) }
    ensures stops { IfErr result (ReadStops M.Media (O.heap o.old).blocks (asked_addr call.now)
        (asked_count call.now) (asked_by call.now) media.old media.new) }
    ensures same { length into.new ≡ length into.old }
    ensures media { KeepsTold M.Media media.old media.new }
    ensures asks { AsksOnce M.Media (O.heap o.old).blocks (asked_addr call.now)
        (asked_by call.now) media.old media.new }
    ensures looks { Looks O.HasHeap o.old o.new (past_media result) }
{
    match call {
        Call::Transmit(..) => transmit(o, media, reader, into),
        Call::ReceiveHeaders(..) => receive_headers(o, media, reader, into),
        Call::ReceiveSource(..) => receive_source(o, media, reader, into),
        Call::ReceiveTrailers(..) => receive_trailers(o, media, reader, into),
        _ => unreachable!(),
    }
}

// Shows what a call asks of an object, which is at most a page.
fn give<O: Objects, M: Media>(
    o: &mut O,
    media: &mut M,
    call: &Call,
    reader: Reader,
    into: &mut [u8],
    page: &mut Page,
) -> Result<Reply, Stop>
    requires kept { KeepsSome (O.keeps o.old) }
    requires wire { IsWire (O.heap o.old).blocks (asked_addr call.now) }
    requires unmoved { (O.heap o.old).moves ≡ [] }
    requires reads { reads_media call.now ≡ true }
    requires object { reader.object ≡ asked_addr call.now }
    requires place { reader.place ≡ place_of call.now }
    requires count { length into.old ≡ asked_count call.now }
    requires few { asked_count call.now ≤ longest_read }
    ensures comes { ComesInEach call.now (O.heap o.old) (O.heap o.new) page.old page.new result }
    ensures agrees { AgreesIn (M.told media.old) call.now (O.heap o.old) result page.new }
    ensures cause { HasMediaCause M.Media call.now (O.heap o.old) media.old media.new result }
    ensures shown { OnErr result (page.new ≡ page.old) }
    ensures media { KeepsTold M.Media media.old media.new }
    ensures unread { may_read call.now result ≡ false → media.new ≡ media.old }
    ensures asks { AsksInEach M.Media call.now (O.heap o.old) media.old media.new }
    ensures looks { Looks O.HasHeap o.old o.new (past_media result) }
{
    let mut at = reader;
    let given = read(o, media, call, &mut at, into)?;
    page.show(&into[..given as usize]);
    Ok(Reply::Bytes { count: given })
}

// Refuses a call that asks too many bytes of an object, unless there is none.
fn refuse_count<O: Objects>(o: &mut O, object: Addr, count: u64) -> Result<Reply, Stop>
    requires kept { KeepsSome (O.keeps o.old) }
    requires many { longest_read < count }
    ensures refused { IfErr result (CountStops (O.heap o.old).blocks object count) }
    ensures only { OnOk result ⊥ }
    ensures looks { Looks O.HasHeap o.old o.new result }
{
    expect_kind(o, object, Kind::Object)?;
    Err(Stop::Refused(Refusal::BadLength {
        length: count,
        most: LONGEST_READ,
    }))
}

/// Answers a call that reads an object's bytes, at most 4,096 of them. Media are asked at most once for each extent
/// that lies with them and of which it needs bytes.
///
/// It is refused `BadAddress` or `WrongKind` where its object isn't there, and `BadLength` where it asks more bytes;
/// for these media aren't asked. It is refused `SourceShort` where media have fewer bytes of an extent than they are asked
/// for, and answers `MediaFault` where they fail. On all of these the heap and the bytes that are shown stay.
pub fn answer<O: Objects, M: Media>(
    o: &mut O,
    media: &mut M,
    call: &Call,
    page: &mut Page,
) -> Result<Reply, Stop>
    requires kept { KeepsSome (O.keeps o.old) }
    requires wire { IsWire (O.heap o.old).blocks (asked_addr call.now) }
    requires unmoved { (O.heap o.old).moves ≡ [] }
    requires reads { reads_media call.now ≡ true }
    ensures comes { ComesInEach call.now (O.heap o.old) (O.heap o.new) page.old page.new result }
    ensures agrees { AgreesIn (M.told media.old) call.now (O.heap o.old) result page.new }
    ensures cause { HasMediaCause M.Media call.now (O.heap o.old) media.old media.new result }
    ensures shown { OnErr result (page.new ≡ page.old) }
    ensures media { KeepsTold M.Media media.old media.new }
    ensures unread { may_read call.now result ≡ false → media.new ≡ media.old }
    ensures asks { AsksInEach M.Media call.now (O.heap o.old) media.old media.new }
    ensures looks { Looks O.HasHeap o.old o.new (past_media result) }
{
    let (reader, count) = reader_of(call);
    if count > LONGEST_READ {
        return refuse_count(o, reader.object, count);
    }
    let mut bytes = [0; PAGE];
    give(o, media, call, reader, &mut bytes[..count as usize], page)
}
