// Sources of files and items.
ghost use Rattle.std.specs.Prelude.{◌≡◌, ◌+◌, ◌/◌, ◌≤◌, [], ◌∷◌, length, IfOk, IfErr, OnOk};
ghost use Rattle.sdr_base.specs.Moves.{KeepsSome};
ghost use Rattle.sdr_base.specs.Objects.{OnlyShort};
ghost use Rattle.sdr_base.specs.Sources.{medium_number};
ghost use Rattle.sdr_base.specs.Words.{TakesBytes, layout};
ghost use Rattle.sdr_base.specs.Transaction.{LeavesTouched};
ghost use Rattle.sdr_base.specs.Works.{Spends};
ghost use Rattle.sdr_base.specs.declared.kind.Kind.TheVariants as kinds;
ghost use Rattle.zco_ref.specs.Making.{BulkStops, FileStops, IsPathLength, MakesBulk, MakesFile};
ghost use Rattle.zco_ref.specs.Making.{PathRefused, SourceRefused, TakesSource, file_row, plain_row};

use byteorder::{BigEndian, ByteOrder};
use sdr_base::limits::{LONGEST_PATH, LONGEST_SOURCE};
use sdr_base::{
    Addr, Kind, Medium, Objects, Refusal, Stop, check_failed, put_at, take_bytes, take_words,
};

/// Where the path begins in a source's block, in bytes.
pub const PATH_FROM: usize = 48;

/// Makes a source of the first bytes of a file, so many. The file isn't looked at.
#[tactic(auto, using(sdr_base::proofs::LeavingLemmas::leaving))]
pub fn file_ref<O: Objects>(o: &mut O, path: &[u8], bytes: u64) -> Result<Addr, Stop>
    requires kept { KeepsSome (O.keeps o.old) }
    requires spare { 1 ≤ (O.heap o.old).spare }
    ensures made { IfOk result (λ source.
        MakesFile path.now bytes source (O.heap o.old) (O.heap o.new)) }
    ensures refused { IfErr result (FileStops path.now bytes (O.heap o.old) (O.heap o.new)) }
    ensures untouched { IfErr result (LeavesTouched (O.transaction o.old) (O.transaction o.new)) }
    ensures works { Spends O.HasHeap
        (26 + (PATH_FROM + length path.now) / 32) o.old o.new result }
{
    check_failed(o)?;
    check_path(path.len() as u64)?;
    check_bytes(bytes)?;
    take_file(o, path, bytes)
}

/// Makes a source of the first bytes of an item of bulk storage, so many. The item isn't looked at.
#[tactic(auto, using(sdr_base::proofs::LeavingLemmas::leaving))]
pub fn bulk_ref<O: Objects>(o: &mut O, item: u64, bytes: u64) -> Result<Addr, Stop>
    requires kept { KeepsSome (O.keeps o.old) }
    requires spare { 1 ≤ (O.heap o.old).spare }
    ensures made { IfOk result (λ source.
        MakesBulk item bytes source (O.heap o.old) (O.heap o.new)) }
    ensures refused { IfErr result (BulkStops bytes (O.heap o.old) (O.heap o.new)) }
    ensures untouched { IfErr result (LeavesTouched (O.transaction o.old) (O.transaction o.new)) }
    ensures works { Spends O.HasHeap 29 o.old o.new result }
{
    check_failed(o)?;
    check_bytes(bytes)?;
    take_plain(o, Medium::Bulk, item, bytes)
}

// Refuses a path of no byte or of too many.
fn check_path(count: u64) -> Result<(), Stop>
    ensures fits { OnOk result (IsPathLength count) }
    ensures refused { IfErr result (PathRefused count) }
{
    if count == 0 || count > LONGEST_PATH {
        return Err(Stop::Refused(Refusal::BadLength {
            length: count,
            most: LONGEST_PATH,
        }));
    }
    Ok(())
}

// Refuses a source of too many bytes.
fn check_bytes(bytes: u64) -> Result<(), Stop>
    ensures fits { OnOk result (bytes ≤ LONGEST_SOURCE) }
    ensures refused { IfErr result (SourceRefused bytes) }
{
    if bytes > LONGEST_SOURCE {
        return Err(Stop::Refused(Refusal::BadLength {
            length: bytes,
            most: LONGEST_SOURCE,
        }));
    }
    Ok(())
}

// Takes a block for a source of a file, which no extent names.
fn take_file<O: Objects>(o: &mut O, path: &[u8], bytes: u64) -> Result<Addr, Stop>
    requires kept { KeepsSome (O.keeps o.old) }
    requires spare { 1 ≤ (O.heap o.old).spare }
    requires short { length path.now ≤ LONGEST_PATH }
    ensures taken { IfOk result (λ source.
        TakesSource (file_row path.now bytes) source (O.heap o.old) (O.heap o.new)) }
    ensures refused { IfErr result
        (OnlyShort (PATH_FROM + length path.now) (O.heap o.old) (O.heap o.new)) }
    ensures works { Spends O.HasHeap
        (26 + (PATH_FROM + length path.now) / 32) o.old o.new result }
{
    let mut buffer = [0; PATH_FROM + LONGEST_PATH as usize];
    let block = &mut buffer[..PATH_FROM + path.len()];
    fill(number_of(Medium::File), path, bytes, block);
    take_bytes(o, Kind::Source, block)
}

// Fills a buffer with the block of a source with a path and the subject 0, which no extent names.
fn fill(medium: u64, path: &[u8], bytes: u64, into: &mut [u8])
    requires long { length into.old ≡ PATH_FROM + length path.now }
    ensures { into.new ≡ layout (medium ∷ 0 ∷ 0 ∷ 0 ∷ 0 ∷ bytes ∷ []) path.now }
{
    let mut head = [0; PATH_FROM];
    BigEndian::write_u64_into(&[medium, 0, 0, 0, 0, bytes], &mut head);
    put_at(into, 0, &head);
    put_at(into, PATH_FROM, path);
}

// Takes a block for a source without a path, which no extent names.
pub fn take_plain<O: Objects>(
    o: &mut O,
    medium: Medium,
    subject: u64,
    bytes: u64,
) -> Result<Addr, Stop>
    requires kept { KeepsSome (O.keeps o.old) }
    requires spare { 1 ≤ (O.heap o.old).spare }
    ensures taken { IfOk result (λ source.
        TakesSource (plain_row medium subject bytes) source (O.heap o.old) (O.heap o.new)) }
    ensures refused { IfErr result (OnlyShort 48 (O.heap o.old) (O.heap o.new)) }
    ensures works { Spends O.HasHeap 29 o.old o.new result }
{
    let head = [number_of(medium), 0, 0, 0, subject, bytes];
    take_words(o, Kind::Source, &head)
}

// The number of a medium, which stands in a source's block.
fn number_of(medium: Medium) -> u64
    ensures { result ≡ medium_number medium }
{
    match medium {
        Medium::File => 1,
        Medium::Bulk => 2,
        Medium::Heap => 3,
        Medium::Obj => 4,
    }
}
