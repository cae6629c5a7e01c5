// Parts of sources and of raw objects that come to an object.
ghost use Rattle.std.specs.Prelude.{◌≡◌, ◌≤◌, IfErr, OnOk};
ghost use Rattle.sdr_base.specs.Blocks.{IsKind};
ghost use Rattle.sdr_base.specs.Moves.{KeepsSome};
ghost use Rattle.sdr_base.specs.Objects.{OnlyShort};
ghost use Rattle.sdr_base.specs.Transaction.{LeavesTouched};
ghost use Rattle.sdr_base.specs.Works.{Spends};
ghost use Rattle.sdr_base.specs.declared.kind.Kind.TheVariants as kinds;
ghost use Rattle.sdr_model.specs.Limits.{longest_source};
ghost use Rattle.zco_obj.specs.Appending.{AppendsPiece, AppendsRaw, AppendsSource, IsWithin};
ghost use Rattle.zco_obj.specs.AppendStops.{AppendStops};
ghost use Rattle.zco_obj.specs.Appending.{NamesSource};
ghost use Rattle.zco_obj.specs.AppendStops.{RangeRefused, RawPieceStops, SourceStops};
ghost use Rattle.zco_obj.specs.Beside.{IsWithRaw, IsWithSource, SomePair, SomeWithRaw, SomeWithSource};

use crate::charging::{charge_object, extent_amounts, naming_amounts};
use crate::extent::{ExtentPiece, add_extent};
use crate::object::account;
use crate::seeing::{see_count, see_source};
use sdr_base::{Addr, Kind, Objects, Refusal, Space, Stop, expect_kind};
use zco_acct::charge;
use zco_ref::{attach, expect_unnamed, heap_source};

/// Puts a part of a source behind an object's extents, and charges the object's account for it: for the
/// whole source too, where no extent of the account named that. Of a raw object, which no source may
/// name, a source of its own is made first, which takes it over.
/// The object's part grows where it reached the end of what was there. What is left of the grant of
/// the ticket of this number covers what it can; 0 is no ticket.
#[tactic(auto, using(sdr_base::proofs::LeavingLemmas::leaving))]
pub fn append_extent<O: Objects>(
    o: &mut O,
    object: Addr,
    ticket: u64,
    source_or_raw: Addr,
    offset: u64,
    bytes: u64,
) -> Result<(), Stop>
    requires kept { KeepsSome (O.keeps o.old) }
    requires spare { 2 ≤ (O.heap o.old).spare }
    requires source { IsWithSource (O.heap o.old) object source_or_raw }
    requires raw { IsWithRaw (O.heap o.old) object source_or_raw }
    ensures appended { OnOk result (AppendsPiece object ticket
        (record { of = source_or_raw; offset = offset; bytes = bytes })
        (O.heap o.old) (O.heap o.new)) }
    ensures refused { IfErr result (AppendStops object ticket
        (record { of = source_or_raw; offset = offset; bytes = bytes })
        (O.heap o.old) (O.heap o.new)) }
    ensures untouched { IfErr result (LeavesTouched (O.transaction o.old) (O.transaction o.new)) }
    ensures works { Spends O.HasHeap 73 o.old o.new result }
    ensures works_source { IsKind ((O.heap o.old).blocks source_or_raw) kinds.Source →
        Spends O.HasHeap 42 o.old o.new result }
{
    expect_kind(o, object, Kind::Object)?;
    let piece = ExtentPiece {
        of: source_or_raw,
        offset,
        bytes,
    };
    match o.kind(source_or_raw)? {
        Some((Kind::Source, _)) => append_source(o, object, ticket, piece),
        _ => append_raw(o, object, ticket, piece),
    }
}

// Puts a part of a source behind an object's extents, and charges the object's account for it: for the
// whole source too, where no extent of the account named that.
#[tactic(auto, using(sdr_base::proofs::LeavingLemmas::leaving))]
fn append_source<O: Objects>(
    o: &mut O,
    object: Addr,
    ticket: u64,
    piece: ExtentPiece,
) -> Result<(), Stop>
    requires kept { KeepsSome (O.keeps o.old) }
    requires spare { 1 ≤ (O.heap o.old).spare }
    requires some { SomeWithSource (O.heap o.old) object piece.of }
    ensures appended { OnOk result
        (AppendsSource object ticket piece (O.heap o.old) (O.heap o.new)) }
    ensures refused { IfErr result
        (SourceStops object ticket piece (O.heap o.old) (O.heap o.new)) }
    ensures untouched { IfErr result (LeavesTouched (O.transaction o.old) (O.transaction o.new)) }
    ensures works { Spends O.HasHeap 42 o.old o.new result }
{
    let seen = see_source(o, piece.of)?;
    if seen.flagged {
        return Err(Stop::Refused(Refusal::NotFound));
    }
    check_range(piece, seen.bytes)?;
    let acct = account(o, object)?;
    let count = see_count(o, piece.of, acct)?;
    charge(o, acct, ticket, &naming_amounts(seen, count == 0))?;
    name_source(o, object, piece)
}

// Puts a part of a raw object behind an object's extents, whose account is charged for it and for the
// whole raw object. A source takes the raw object over before.
#[tactic(auto, using(sdr_base::proofs::LeavingLemmas::leaving))]
fn append_raw<O: Objects>(
    o: &mut O,
    object: Addr,
    ticket: u64,
    piece: ExtentPiece,
) -> Result<(), Stop>
    requires kept { KeepsSome (O.keeps o.old) }
    requires spare { 2 ≤ (O.heap o.old).spare }
    requires object { IsKind ((O.heap o.old).blocks object) kinds.Object }
    requires other { IsKind ((O.heap o.old).blocks piece.of) kinds.Source → ⊥ }
    requires raw { IsWithRaw (O.heap o.old) object piece.of }
    ensures appended { OnOk result
        (AppendsRaw object ticket piece (O.heap o.old) (O.heap o.new)) }
    ensures refused { IfErr result
        (RawPieceStops object ticket piece (O.heap o.old) (O.heap o.new)) }
    ensures untouched { IfErr result (LeavesTouched (O.transaction o.old) (O.transaction o.new)) }
    ensures works { Spends O.HasHeap 73 o.old o.new result }
{
    let have = expect_unnamed(o, piece.of)?;
    check_range(piece, have)?;
    charge_object(o, object, ticket, &extent_amounts(Space::Heap, have))?;
    let source = heap_source(o, piece.of)?;
    name_source(
        o,
        object,
        ExtentPiece {
            of: source,
            ..piece
        },
    )
}

// Refuses a piece that has no byte, or doesn't lie within so many.
fn check_range(piece: ExtentPiece, have: u64) -> Result<(), Stop>
    ensures within { OnOk result (IsWithin piece have) }
    ensures refused { IfErr result (RangeRefused piece have) }
{
    if piece.bytes == 0 || piece.bytes > have || piece.offset > have - piece.bytes {
        return Err(Stop::Refused(Refusal::BadRange {
            offset: piece.offset,
            length: piece.bytes,
            have,
        }));
    }
    Ok(())
}

// Puts an extent behind an object's others that names this piece of a source, which counts it.
fn name_source<O: Objects>(o: &mut O, object: Addr, piece: ExtentPiece) -> Result<(), Stop>
    requires kept { KeepsSome (O.keeps o.old) }
    requires spare { 1 ≤ (O.heap o.old).spare }
    requires some { SomePair (O.heap o.old).blocks object piece.of }
    requires short { piece.bytes ≤ longest_source }
    ensures named { OnOk result (NamesSource object piece (O.heap o.old) (O.heap o.new)) }
    ensures refused { IfErr result (OnlyShort 32 (O.heap o.old) (O.heap o.new)) }
    ensures works { Spends O.HasHeap 37 o.old o.new result }
{
    let acct = account(o, object)?;
    add_extent(o, object, piece)?;
    attach(o, piece.of, acct)
}
