// The bytes of a source.
ghost use Rattle.std.specs.Prelude.{◌≡◌, ◌≤◌, ◌+◌, IfErr, IfOk, OnOk, Option, length};
ghost use Rattle.sdr_base.specs.Media.{Told};
ghost use Rattle.sdr_base.specs.Moves.{KeepsSome};
ghost use Rattle.sdr_base.specs.Objects.{OnlyFault};
ghost use Rattle.sdr_base.specs.Works.{Looks};
ghost use Rattle.zco_ref.specs.Kept.{SomeSource};
ghost use Rattle.zco_wire.specs.Asking.{AsksRange};
ghost use Rattle.zco_wire.specs.Naming.{SomeNamed};
ghost use Rattle.zco_wire.specs.Seeing.{SeesMedium, SeesRaw};
ghost use Rattle.zco_wire.specs.Sources.{GivesRange, IsShortOf, SeesPath, SomePath, TellsPath};
ghost use Rattle.zco_wire.specs.Stopping.{KeepsTold, StopsRange, past_media};

use sdr_base::layout::{raw, source as words};
use sdr_base::limits::LONGEST_PATH;
use sdr_base::{Addr, Media, MediaFault, Medium, Objects, Refusal, Stop, word};
use zco_obj::ExtentPiece;
use zco_ref::medium_of;

// Where the path of a file begins in its source's block, in bytes.
const PATH_FROM: u64 = 8 * words::WORDS;

// The medium of a source.
fn medium<O: Objects>(o: &mut O, source: Addr) -> Result<Medium, Stop>
    requires kept { KeepsSome (O.keeps o.old) }
    requires source { SomeSource ((O.heap o.old).blocks source) }
    ensures seen { IfOk result (SeesMedium ((O.heap o.old).blocks source)) }
    ensures refused { IfErr result OnlyFault }
    ensures looks { Looks O.HasHeap o.old o.new result }
{
    let number = word(o, source, words::MEDIUM)?;
    Ok(medium_of(number))
}

// Puts the path of a source at the front of a buffer, and answers how many bytes it has.
fn see_path<O: Objects>(o: &mut O, source: Addr, into: &mut [u8]) -> Result<u64, Stop>
    requires kept { KeepsSome (O.keeps o.old) }
    requires source { SomePath ((O.heap o.old).blocks source) }
    requires long { LONGEST_PATH ≤ length into.old }
    ensures seen { IfOk result (SeesPath ((O.heap o.old).blocks source) into.new) }
    ensures refused { IfErr result OnlyFault }
    ensures looks { Looks O.HasHeap o.old o.new result }
{
    let bytes = path_length(o, source)?;
    o.get(source, PATH_FROM, &mut into[..bytes as usize])?;
    Ok(bytes)
}

// How many bytes the path of a source has.
fn path_length<O: Objects>(o: &mut O, source: Addr) -> Result<u64, Stop>
    requires kept { KeepsSome (O.keeps o.old) }
    requires source { SomePath ((O.heap o.old).blocks source) }
    ensures told { IfOk result (TellsPath ((O.heap o.old).blocks source)) }
    ensures refused { IfErr result OnlyFault }
    ensures looks { Looks O.HasHeap o.old o.new result }
{
    Ok(match o.kind(source)? {
        Some((_, all)) => all - PATH_FROM,
        None => 0,
    })
}

// Refuses fewer bytes than were asked of media.
fn check_whole(have: u64, want: u64) -> Result<(), Stop>
    ensures whole { OnOk result (want ≤ have) }
    ensures refused { IfErr result (IsShortOf have want) }
{
    if have < want {
        return Err(Stop::Refused(Refusal::SourceShort { have, want }));
    }
    Ok(())
}

// Reads a range of a file into a buffer of its length.
fn read_file<O: Objects, M: Media>(
    o: &mut O,
    media: &mut M,
    range: ExtentPiece,
    into: &mut [u8],
) -> Result<(), Stop>
    requires kept { KeepsSome (O.keeps o.old) }
    requires named { SomeNamed (O.heap o.old).blocks range }
    requires file { SeesMedium ((O.heap o.old).blocks range.of) Medium.File }
    requires long { length into.old ≡ range.bytes }
    ensures gives { OnOk result
        (GivesRange (M.told media.old) (O.heap o.old).blocks range into.new) }
    ensures stops { IfErr result
        (StopsRange M.Media (O.heap o.old).blocks range media.old media.new) }
    ensures same { length into.new ≡ length into.old }
    ensures media { KeepsTold M.Media media.old media.new }
    ensures asks { M.asks media.new ≤ M.asks media.old + 1 }
    ensures looks { Looks O.HasHeap o.old o.new (past_media result) }
{
    let mut buffer = [0; LONGEST_PATH as usize];
    let path = see_path(o, range.of, &mut buffer)? as usize;
    match media.file_read(&buffer[..path], range.offset, into) {
        Ok(have) => check_whole(have, into.len() as u64),
        Err(MediaFault) => Err(Stop::MediaFault),
    }
}

// Reads a range of an item into a buffer of its length.
fn read_item<O: Objects, M: Media>(
    o: &mut O,
    media: &mut M,
    range: ExtentPiece,
    into: &mut [u8],
) -> Result<(), Stop>
    requires kept { KeepsSome (O.keeps o.old) }
    requires named { SomeNamed (O.heap o.old).blocks range }
    requires item { SeesMedium ((O.heap o.old).blocks range.of) Medium.Bulk }
    requires long { length into.old ≡ range.bytes }
    ensures gives { OnOk result
        (GivesRange (M.told media.old) (O.heap o.old).blocks range into.new) }
    ensures stops { IfErr result
        (StopsRange M.Media (O.heap o.old).blocks range media.old media.new) }
    ensures same { length into.new ≡ length into.old }
    ensures media { KeepsTold M.Media media.old media.new }
    ensures asks { M.asks media.new ≤ M.asks media.old + 1 }
    ensures looks { Looks O.HasHeap o.old o.new (past_media result) }
{
    let item = word(o, range.of, words::SUBJECT)?;
    match media.bulk_read(item, range.offset, into) {
        Ok(have) => check_whole(have, into.len() as u64),
        Err(MediaFault) => Err(Stop::MediaFault),
    }
}

// Reads a range of a raw object into a buffer of its length.
fn read_raw<O: Objects>(o: &mut O, range: ExtentPiece, into: &mut [u8]) -> Result<(), Stop>
    requires kept { KeepsSome (O.keeps o.old) }
    requires named { SomeNamed (O.heap o.old).blocks range }
    requires raw { SeesRaw (O.heap o.old).blocks range.of }
    requires long { length into.old ≡ range.bytes }
    ensures gives { OnOk result ((told : Option Told) →
        GivesRange told (O.heap o.old).blocks range into.new) }
    ensures refused { IfErr result OnlyFault }
    ensures same { length into.new ≡ length into.old }
    ensures looks { Looks O.HasHeap o.old o.new result }
{
    let addr = word(o, range.of, words::SUBJECT)?;
    o.get(addr, raw::BYTES + range.offset, into)
}

// Reads a range of a source into a buffer of its length. Media are asked once, for all of it.
pub fn read_range<O: Objects, M: Media>(
    o: &mut O,
    media: &mut M,
    range: ExtentPiece,
    into: &mut [u8],
) -> Result<(), Stop>
    requires kept { KeepsSome (O.keeps o.old) }
    requires named { SomeNamed (O.heap o.old).blocks range }
    requires long { length into.old ≡ range.bytes }
    ensures gives { OnOk result
        (GivesRange (M.told media.old) (O.heap o.old).blocks range into.new) }
    ensures stops { IfErr result
        (StopsRange M.Media (O.heap o.old).blocks range media.old media.new) }
    ensures same { length into.new ≡ length into.old }
    ensures media { KeepsTold M.Media media.old media.new }
    ensures asks { AsksRange M.Media (O.heap o.old).blocks range media.old media.new }
    ensures looks { Looks O.HasHeap o.old o.new (past_media result) }
{
    match medium(o, range.of)? {
        Medium::File => read_file(o, media, range, into),
        Medium::Bulk => read_item(o, media, range, into),
        Medium::Heap | Medium::Obj => read_raw(o, range, into),
    }
}
