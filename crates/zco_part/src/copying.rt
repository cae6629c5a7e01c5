// Extents of a new object.
ghost use Rattle.std.specs.Prelude.{◌≡◌, ◌≢◌, ◌+◌, ◌*◌, ◌≤◌, List, length, IfErr, IfOk, OnOk};
ghost use Rattle.sdr_base.specs.Blocks.{UsesRange};
ghost use Rattle.sdr_base.specs.Moves.{KeepsSome};
ghost use Rattle.sdr_base.specs.Objects.{OnlyShort, OnlyUnmoved};
ghost use Rattle.sdr_base.specs.Words.{TakesBytes};
ghost use Rattle.sdr_base.specs.Wanting.{OnlyWanting};
ghost use Rattle.sdr_base.specs.Works.{Spends};
ghost use Rattle.sdr_base.specs.ZcoObjects.{ExtentRow};
ghost use Rattle.sdr_base.specs.declared.account.Acct.{Acct};
ghost use Rattle.sdr_base.specs.declared.kind.Kind.TheVariants as kinds;
ghost use Rattle.sdr_model.specs.Limits.{longest_source};
ghost use Rattle.zco_obj.specs.Appending.{NamesSource};
ghost use Rattle.zco_obj.specs.Extents.{AddsExtent};
ghost use Rattle.zco_obj.specs.Gone.{NamedSource};
ghost use Rattle.zco_part.specs.Copying.{CopiesChain, CopyAt, CopyStops, SomeCopy, parts};
ghost use Rattle.zco_part.specs.Naming.{FollowsLast, NamesPiece, PieceStops, SomeWhole, SomeWholePair};
ghost use Rattle.zco_part.specs.Naming.{extent_bytes, with_end};
ghost use Rattle.zco_part.specs.Pieces.{filled};

use crate::span::{Span, cut, later};
use byteorder::{BigEndian, ByteOrder};
use sdr_base::layout::{extent as extent_words, object as words};
use sdr_base::{Addr, Kind, Objects, Stop, WORD, check_failed, set_word, take_bytes, word};
use zco_obj::{ExtentPiece, TOO_MANY_PARTS, account, see_link};
use zco_ref::attach;

// Fills an empty object with one extent for each extent of the chain that the span meets, cut at the
// span's ends. Each source counts one more. It is linear in the chain.
#[tactic(auto, using(sdr_base::proofs::LeavingLemmas::wanting))]
pub fn copy_chain<O: Objects>(o: &mut O, copy: Addr, first: Addr, span: Span) -> Result<(), Stop>
    requires kept { KeepsSome (O.keeps o.old) }
    requires chain { SomeCopy copy (O.heap o.old) first span }
    ensures copied { OnOk result (CopiesChain copy first span (O.heap o.old) (O.heap o.new)) }
    ensures refused { IfErr result (CopyStops copy first span (O.heap o.old) (O.heap o.new)) }
    ensures wants { IfErr result OnlyWanting }
    ensures works { (acct : Acct) (extents : List ExtentRow) (sources : List NamedSource) →
        CopyAt copy acct (O.heap o.old).blocks first extents sources →
        Spends O.HasHeap (33 * length (parts span extents)) o.old o.new result }
{
    check_failed(o)?;
    let mut extent = first;
    let mut left = span;
    for i in 0..TOO_MANY_PARTS {
        if extent == 0 {
            break;
        }
        let link = see_link(o, extent)?;
        name_piece(o, copy, cut(left, link.piece))?;
        left = later(left, link.piece.bytes);
        extent = link.next;
    }
    Ok(())
}

// Gives an object that is whole an extent of a piece, unless the piece has no byte.
#[tactic(auto, using(sdr_base::proofs::LeavingLemmas::wanting))]
fn name_piece<O: Objects>(o: &mut O, object: Addr, piece: ExtentPiece) -> Result<(), Stop>
    requires kept { KeepsSome (O.keeps o.old) }
    requires spare { length (filled piece) ≤ (O.heap o.old).spare }
    requires some { SomeWholePair (O.heap o.old).blocks object piece.of }
    requires short { piece.bytes ≤ longest_source }
    ensures named { OnOk result (NamesPiece object piece (O.heap o.old) (O.heap o.new)) }
    ensures refused { IfErr result (PieceStops piece (O.heap o.old) (O.heap o.new)) }
    ensures wants { IfErr result OnlyWanting }
    ensures works { Spends O.HasHeap (33 * length (filled piece)) o.old o.new result }
{
    if piece.bytes == 0 {
        check_failed(o)
    } else {
        name_bytes(o, object, piece)
    }
}

// Gives an object that is whole an extent of a piece, which its source counts.
fn name_bytes<O: Objects>(o: &mut O, object: Addr, piece: ExtentPiece) -> Result<(), Stop>
    requires kept { KeepsSome (O.keeps o.old) }
    requires spare { 1 ≤ (O.heap o.old).spare }
    requires some { SomeWholePair (O.heap o.old).blocks object piece.of }
    requires short { piece.bytes ≤ longest_source }
    ensures named { OnOk result (NamesSource object piece (O.heap o.old) (O.heap o.new)) }
    ensures refused { IfErr result (OnlyShort 32 (O.heap o.old) (O.heap o.new)) }
    ensures works { Spends O.HasHeap 33 o.old o.new result }
{
    let acct = account(o, object)?;
    push_extent(o, object, piece)?;
    attach(o, piece.of, acct)
}

// Makes an extent behind the others of an object that is whole.
fn push_extent<O: Objects>(o: &mut O, object: Addr, piece: ExtentPiece) -> Result<(), Stop>
    requires kept { KeepsSome (O.keeps o.old) }
    requires spare { 1 ≤ (O.heap o.old).spare }
    requires object { SomeWhole (O.heap o.old).blocks object }
    requires short { piece.bytes ≤ longest_source }
    ensures added { OnOk result (AddsExtent object piece (O.heap o.old) (O.heap o.new)) }
    ensures refused { IfErr result (OnlyShort 32 (O.heap o.old) (O.heap o.new)) }
    ensures works { Spends O.HasHeap 31 o.old o.new result }
{
    let last = word(o, object, words::LAST_EXTENT)?;
    let part = word(o, object, words::PART_LENGTH)?;
    let longer = part + piece.bytes;
    let added = take_extent(o, piece)?;
    end_at(o, object, added, longer)?;
    link_behind(o, object, last, added)
}

// Takes the block of an extent with none behind it.
fn take_extent<O: Objects>(o: &mut O, piece: ExtentPiece) -> Result<Addr, Stop>
    requires kept { KeepsSome (O.keeps o.old) }
    requires spare { 1 ≤ (O.heap o.old).spare }
    ensures taken { IfOk result (λ addr.
        TakesBytes kinds.Extent (extent_bytes piece) addr (O.heap o.old) (O.heap o.new)) }
    ensures refused { IfErr result (OnlyShort 32 (O.heap o.old) (O.heap o.new)) }
    ensures works { Spends O.HasHeap 27 o.old o.new result }
{
    let mut block = [0; 32];
    BigEndian::write_u64_into(&[piece.of, piece.offset, piece.bytes, 0], &mut block);
    take_bytes(o, Kind::Extent, &block)
}

// Makes an extent the last one of an object that is whole, and its part so long, in one write: from
// the word for the one to the word for the other, so that no more lines are touched than by one word.
fn end_at<O: Objects>(o: &mut O, object: Addr, last: Addr, part: u64) -> Result<(), Stop>
    requires kept { KeepsSome (O.keeps o.old) }
    requires object { SomeWhole (O.heap o.old).blocks object }
    ensures ended { OnOk result (O.heap o.new ≡ with_end (O.heap o.old) object last part) }
    ensures refused { IfErr result (OnlyUnmoved (O.heap o.old) (O.heap o.new)) }
    ensures works { Spends O.HasHeap 2 o.old o.new result }
{
    let mut bytes = [0; 56];
    BigEndian::write_u64_into(&[last, 0, 0, 0, 0, 0, part], &mut bytes);
    o.put(object, WORD * words::LAST_EXTENT, &bytes)
}

// Makes an added extent follow the last one of an object, or its first where that is 0.
fn link_behind<O: Objects>(o: &mut O, object: Addr, last: Addr, added: Addr) -> Result<(), Stop>
    requires kept { KeepsSome (O.keeps o.old) }
    requires object { UsesRange (O.heap o.old).blocks object 0 72 }
    requires last { last ≢ 0 → UsesRange (O.heap o.old).blocks last 0 32 }
    ensures linked { OnOk result (FollowsLast object last added (O.heap o.old) (O.heap o.new)) }
    ensures refused { IfErr result (OnlyUnmoved (O.heap o.old) (O.heap o.new)) }
    ensures works { Spends O.HasHeap 2 o.old o.new result }
{
    if last == 0 {
        set_word(o, object, words::FIRST_EXTENT, added)
    } else {
        set_word(o, last, extent_words::NEXT, added)
    }
}
