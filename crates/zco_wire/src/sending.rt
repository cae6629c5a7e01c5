// The bytes of an object that go out.
ghost use Rattle.std.specs.Prelude.{◌≡◌, ◌≢◌, ◌≤◌, ◌<◌, ◌+◌, ◌^◌, IfErr, IfOk, OnErr, OnOk, length};
ghost use Rattle.sdr_base.specs.Moves.{KeepsSome};
ghost use Rattle.sdr_base.specs.Works.{Looks};
ghost use Rattle.zco_wire.specs.Asking.{AsksObject, AsksOnce};
ghost use Rattle.zco_wire.specs.Naming.{IsWire, SomeWire};
ghost use Rattle.zco_wire.specs.Reading.{FillsWith, GivesObject, asked_wire};
ghost use Rattle.zco_wire.specs.Stopping.{IsPageRefused, KeepsTold, ReadStops, StopsObject, past_media};

use crate::cursor::Cursor;
use crate::extents::read_extents;
use crate::heads::read_heads;
use crate::reader::{Reader, moved_by};
use sdr_base::limits::LONGEST_READ;
use sdr_base::{Addr, Kind, Media, Objects, Refusal, Stop, expect_kind};
use zco_obj::first_parts;

/// Gives bytes of an object on the wire from the reader's place on, as many as the buffer holds, and
/// fewer only where they end; answers how many, and moves the reader behind them. The bytes of
/// headers and trailers, and those that lie in raw objects, are copied once from their blocks; media
/// are asked once for each extent that lies with them and of which a byte is asked. It is linear in
/// what is before the place and in what is asked.
///
/// It is refused `BadAddress` or `WrongKind` where the reader's object isn't there, `BadLength` where
/// the buffer has more than 4,096 bytes, and `SourceShort` where media have fewer bytes of an extent
/// than they are asked for; it answers `MediaFault` where media fail, and `DiskFault` or `Failed` as
/// every call on blocks does. Unless it is answered `Ok` the reader stays where it was. What the
/// buffer holds behind the bytes that were given is open.
pub fn transmit<O: Objects, M: Media>(
    o: &mut O,
    media: &mut M,
    reader: &mut Reader,
    into: &mut [u8],
) -> Result<u64, Stop>
    requires kept { KeepsSome (O.keeps o.old) }
    requires object { IsWire (O.heap o.old).blocks reader.old.object }
    ensures given { IfOk result (GivesObject (M.told media.old) (O.heap o.old).blocks
        reader.old.object (asked_wire reader.old.place (length into.old))
        (λ row. reader.old.place) into.new reader.old reader.new) }
    ensures stops { IfErr result (ReadStops M.Media (O.heap o.old).blocks reader.old.object
        (length into.old) (asked_wire reader.old.place (length into.old)) media.old media.new) }
    ensures stays { OnErr result (reader.new ≡ reader.old) }
    ensures same { length into.new ≡ length into.old }
    ensures media { KeepsTold M.Media media.old media.new }
    ensures asks { AsksOnce M.Media (O.heap o.old).blocks reader.old.object
        (asked_wire reader.old.place (length into.old)) media.old media.new }
    ensures looks { Looks O.HasHeap o.old o.new (past_media result) }
{
    expect_kind(o, reader.object, Kind::Object)?;
    check_page(into.len() as u64)?;
    let given = read_wire(o, media, reader.object, reader.place, into)?;
    *reader = moved_by(reader.place, given, *reader);
    Ok(given)
}

// Refuses a buffer of too many bytes.
pub fn check_page(count: u64) -> Result<(), Stop>
    ensures fits { OnOk result (count ≤ LONGEST_READ) }
    ensures refused { IfErr result (IsPageRefused count) }
{
    if count > LONGEST_READ {
        return Err(Stop::Refused(Refusal::BadLength {
            length: count,
            most: LONGEST_READ,
        }));
    }
    Ok(())
}

// Fills a buffer with the bytes of an object on the wire from a place on, and answers how many they
// are.
fn read_wire<O: Objects, M: Media>(
    o: &mut O,
    media: &mut M,
    object: Addr,
    place: u64,
    into: &mut [u8],
) -> Result<u64, Stop>
    requires kept { KeepsSome (O.keeps o.old) }
    requires object { SomeWire (O.heap o.old).blocks object }
    requires page { length into.old ≤ 4096 }
    ensures fills { IfOk result (FillsWith (M.told media.old) (O.heap o.old).blocks object
        (asked_wire place (length into.old)) into.new) }
    ensures ends { IfOk result (λ given. given ≢ 0 → place + given < 2 ^ 64) }
    ensures stops { IfErr result (StopsObject M.Media (O.heap o.old).blocks object
        (asked_wire place (length into.old)) media.old media.new) }
    ensures same { length into.new ≡ length into.old }
    ensures media { KeepsTold M.Media media.old media.new }
    ensures asks { AsksObject M.Media (O.heap o.old).blocks object
        (asked_wire place (length into.old)) media.old media.new }
    ensures looks { Looks O.HasHeap o.old o.new (past_media result) }
{
    let first = first_parts(o, object)?;
    let begin = Cursor {
        skip: place,
        given: 0,
    };
    let headers = read_heads(o, first.header, begin, into)?;
    let extents = read_extents(o, media, first.extent, headers, into)?;
    let trailers = read_heads(o, first.trailer, extents, into)?;
    Ok(trailers.given)
}
