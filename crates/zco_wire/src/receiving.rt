// The bytes of an object that came in: those of its headers before its part, of its part, and of its
// trailers behind.
ghost use Rattle.std.specs.Prelude.{◌≡◌, ◌≢◌, ◌≤◌, ◌<◌, ◌+◌, ◌-◌, ◌^◌, IfErr, IfOk, OnErr, length, max, min};
ghost use Rattle.sdr_base.specs.Moves.{KeepsSome};
ghost use Rattle.sdr_base.specs.Objects.{OnlyFault};
ghost use Rattle.sdr_base.specs.Works.{Looks};
ghost use Rattle.sdr_model.specs.Pieces.{cut_pieces};
ghost use Rattle.zco_obj.specs.Kept.{SomeObject};
ghost use Rattle.zco_wire.specs.Asking.{AsksObject, AsksOnce};
ghost use Rattle.zco_wire.specs.Naming.{IsWire, SomeWire};
ghost use Rattle.zco_wire.specs.Reading.{FillsWith, GivesObject, asked_headers, asked_source, asked_trailers, end_of};
ghost use Rattle.zco_wire.specs.Seeing.{SeesPart};
ghost use Rattle.zco_wire.specs.Stopping.{KeepsTold, ReadStops, StopsObject, past_media};

use crate::cursor::Cursor;
use crate::extents::read_extents;
use crate::reader::{Reader, moved_by};
use crate::sending::check_page;
use sdr_base::layout::object as words;
use sdr_base::{Addr, Kind, Media, Objects, Stop, expect_kind, word};
use sdr_model::Part;

/// Gives bytes of an object's extents before its part, which are its headers as they came in, from the
/// reader's place on, as many as the buffer holds, and fewer only where they end; answers how many,
/// and moves the reader behind them. Media are asked once for each extent that lies with them and of
/// which a byte is asked. It is linear in what is before the place and in what is asked.
///
/// It is refused and answers `MediaFault` as `transmit` does, and leaves the reader and the buffer so.
pub fn receive_headers<O: Objects, M: Media>(
    o: &mut O,
    media: &mut M,
    reader: &mut Reader,
    into: &mut [u8],
) -> Result<u64, Stop>
    requires kept { KeepsSome (O.keeps o.old) }
    requires object { IsWire (O.heap o.old).blocks reader.old.object }
    ensures given { IfOk result (GivesObject (M.told media.old) (O.heap o.old).blocks
        reader.old.object (asked_headers reader.old.place (length into.old))
        (λ row. reader.old.place) into.new reader.old reader.new) }
    ensures stops { IfErr result (ReadStops M.Media (O.heap o.old).blocks reader.old.object
        (length into.old) (asked_headers reader.old.place (length into.old)) media.old media.new) }
    ensures stays { OnErr result (reader.new ≡ reader.old) }
    ensures same { length into.new ≡ length into.old }
    ensures media { KeepsTold M.Media media.old media.new }
    ensures asks { AsksOnce M.Media (O.heap o.old).blocks reader.old.object
        (asked_headers reader.old.place (length into.old)) media.old media.new }
    ensures looks { Looks O.HasHeap o.old o.new (past_media result) }
{
    expect_kind(o, reader.object, Kind::Object)?;
    check_page(into.len() as u64)?;
    let part = see_part(o, reader.object)?;
    let most = part.offset.saturating_sub(reader.place);
    let given = read_some(o, media, reader.object, reader.place, most, into)?;
    *reader = moved_by(reader.place, given, *reader);
    Ok(given)
}

/// Gives bytes of an object's part, from the reader's place among its extents' bytes on, as
/// `receive_headers` gives those before it. A reader that stands before the part begins with it.
pub fn receive_source<O: Objects, M: Media>(
    o: &mut O,
    media: &mut M,
    reader: &mut Reader,
    into: &mut [u8],
) -> Result<u64, Stop>
    requires kept { KeepsSome (O.keeps o.old) }
    requires object { IsWire (O.heap o.old).blocks reader.old.object }
    ensures given { IfOk result (GivesObject (M.told media.old) (O.heap o.old).blocks
        reader.old.object (asked_source reader.old.place (length into.old))
        (λ row. max reader.old.place row.part_offset) into.new reader.old reader.new) }
    ensures stops { IfErr result (ReadStops M.Media (O.heap o.old).blocks reader.old.object
        (length into.old) (asked_source reader.old.place (length into.old)) media.old media.new) }
    ensures stays { OnErr result (reader.new ≡ reader.old) }
    ensures same { length into.new ≡ length into.old }
    ensures media { KeepsTold M.Media media.old media.new }
    ensures asks { AsksOnce M.Media (O.heap o.old).blocks reader.old.object
        (asked_source reader.old.place (length into.old)) media.old media.new }
    ensures looks { Looks O.HasHeap o.old o.new (past_media result) }
{
    expect_kind(o, reader.object, Kind::Object)?;
    check_page(into.len() as u64)?;
    let part = see_part(o, reader.object)?;
    let from = reader.place.max(part.offset);
    let most = (part.offset + part.length).saturating_sub(from);
    let given = read_some(o, media, reader.object, from, most, into)?;
    *reader = moved_by(from, given, *reader);
    Ok(given)
}

/// Gives bytes of an object's extents behind its part, which are its trailers as they came in, from
/// the reader's place among its extents' bytes on, as `receive_headers` gives those before it. A
/// reader that stands before the part's end begins behind it.
pub fn receive_trailers<O: Objects, M: Media>(
    o: &mut O,
    media: &mut M,
    reader: &mut Reader,
    into: &mut [u8],
) -> Result<u64, Stop>
    requires kept { KeepsSome (O.keeps o.old) }
    requires object { IsWire (O.heap o.old).blocks reader.old.object }
    ensures given { IfOk result (GivesObject (M.told media.old) (O.heap o.old).blocks
        reader.old.object (asked_trailers reader.old.place (length into.old))
        (λ row. max reader.old.place (end_of row)) into.new reader.old reader.new) }
    ensures stops { IfErr result (ReadStops M.Media (O.heap o.old).blocks reader.old.object
        (length into.old) (asked_trailers reader.old.place (length into.old)) media.old media.new) }
    ensures stays { OnErr result (reader.new ≡ reader.old) }
    ensures same { length into.new ≡ length into.old }
    ensures media { KeepsTold M.Media media.old media.new }
    ensures asks { AsksOnce M.Media (O.heap o.old).blocks reader.old.object
        (asked_trailers reader.old.place (length into.old)) media.old media.new }
    ensures looks { Looks O.HasHeap o.old o.new (past_media result) }
{
    expect_kind(o, reader.object, Kind::Object)?;
    check_page(into.len() as u64)?;
    let part = see_part(o, reader.object)?;
    let from = reader.place.max(part.offset + part.length);
    let given = read_some(o, media, reader.object, from, into.len() as u64, into)?;
    *reader = moved_by(from, given, *reader);
    Ok(given)
}

// The part of an object.
fn see_part<O: Objects>(o: &mut O, object: Addr) -> Result<Part, Stop>
    requires kept { KeepsSome (O.keeps o.old) }
    requires object { SomeObject (O.heap o.old).blocks object }
    ensures seen { IfOk result (SeesPart (O.heap o.old).blocks object) }
    ensures small { IfOk result (λ part. part.offset + part.length < 2 ^ 63) }
    ensures refused { IfErr result OnlyFault }
    ensures looks { Looks O.HasHeap o.old o.new result }
{
    let offset = word(o, object, words::PART_OFFSET)?;
    let length = word(o, object, words::PART_LENGTH)?;
    Ok(Part { offset, length })
}

// Fills a buffer with so many bytes of an object's extents at most, from a place on, and answers how
// many they are.
fn read_some<O: Objects, M: Media>(
    o: &mut O,
    media: &mut M,
    object: Addr,
    place: u64,
    most: u64,
    into: &mut [u8],
) -> Result<u64, Stop>
    requires kept { KeepsSome (O.keeps o.old) }
    requires object { SomeWire (O.heap o.old).blocks object }
    requires page { length into.old ≤ 4096 }
    ensures fills { IfOk result (FillsWith (M.told media.old) (O.heap o.old).blocks object
        (λ row named. cut_pieces place (min (length into.old) most) named) into.new) }
    ensures ends { IfOk result (λ given. given ≢ 0 → place + given < 2 ^ 64) }
    ensures stops { IfErr result (StopsObject M.Media (O.heap o.old).blocks object
        (λ row named. cut_pieces place (min (length into.old) most) named) media.old media.new) }
    ensures same { length into.new ≡ length into.old }
    ensures media { KeepsTold M.Media media.old media.new }
    ensures asks { AsksObject M.Media (O.heap o.old).blocks object
        (λ row named. cut_pieces place (min (length into.old) most) named) media.old media.new }
    ensures looks { Looks O.HasHeap o.old o.new (past_media result) }
{
    let first = word(o, object, words::FIRST_EXTENT)?;
    let count = most.min(into.len() as u64) as usize;
    let begin = Cursor {
        skip: place,
        given: 0,
    };
    let at = read_extents(o, media, first, begin, &mut into[..count])?;
    Ok(at.given)
}
