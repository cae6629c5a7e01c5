// Pieces of an object, and their rebuilding.
ghost use Rattle.std.specs.Prelude.{◌≡◌, ◌≢◌, ◌≤◌, ◌∷◌, [], length, IfOk, OnOk};
ghost use Rattle.sdr_base.specs.Moves.{KeepsSome};
ghost use Rattle.zco_pieces.specs.Places.{missing_of};
ghost use Rattle.law_pieces.specs.Texts.{HasNothing, SomeText};

use crate::calls::{Payload, Sent, finish_and_send, make_payload};
use crate::heaps::begun;
use law_pieces::texts_keep;
use sdr_base::{Acct, Addr, Objects, Refusal, Stop};
use std::alloc::Global;
use zco_pieces::{Piece, PieceStop, Rebuild, count, cut};

/// The two pieces of an object by four bytes, and how many it has.
#[derive(Clone, Copy, Drop)]
struct ByFour {
    count: u64,
    first: Piece,
    second: Piece,
}

fn by_four<O: Objects>(o: &mut O, object: Addr) -> Result<ByFour, Stop>
    requires kept { KeepsSome (O.keeps o.old) }
    requires text { SomeText (O.heap o.old) [] (object ∷ []) 1 100 }
    ensures kept { OnOk result (KeepsSome (O.keeps o.new)) }
    ensures text { IfOk result (λ p. SomeText (O.heap o.new) []
        (p.second.object ∷ object ∷ p.first.object ∷ []) 1 96) }
{
    texts_keep();
    let count = count(o, object, 4)?;
    let first = cut(o, object, 0, 4, 0)?;
    let second = cut(o, object, 0, 4, 1)?;
    Ok(ByFour {
        count,
        first,
        second,
    })
}

/// What is missing as the second piece is added, twice over, and then the first.
fn add_by_four<O: Objects>(
    o: &mut O,
    text: &mut Rebuild,
    object: Addr,
    pieces: &ByFour,
) -> Result<[u64; 3], PieceStop>
    requires kept { KeepsSome (O.keeps o.old) }
    requires empty { text.old.parts ≡ [] }
    requires text { SomeText (O.heap o.old) []
        (pieces.now.second.object ∷ object ∷ pieces.now.first.object ∷ []) 1 96 }
    ensures kept { OnOk result (KeepsSome (O.keeps o.new)) }
    ensures few { OnOk result (length text.new.parts ≤ 7) }
    ensures text { OnOk result (SomeText (O.heap o.new) text.new.parts
        (pieces.now.first.object ∷ pieces.now.second.object ∷ object ∷ []) 1 74) }
{
    texts_keep();
    let one = text.add(o, 0, &pieces.second)?;
    let two = text.add(o, 0, &pieces.second)?;
    let three = text.add(o, 0, &pieces.first)?;
    Ok([one, two, three])
}

/// What the calls of the first row answer.
#[derive(Clone, Copy, Debug, PartialEq, Eq, Drop)]
struct Told {
    raw: Addr,
    object: Addr,
    count: u64,
    first: Piece,
    second: Piece,
    left: [u64; 3],
    sent: Sent,
}

fn rebuilt<O: Objects>(o: &mut O, alloc: Global) -> Result<Told, PieceStop>
    requires kept { KeepsSome (O.keeps o.old) }
    requires nothing { HasNothing (O.heap o.old) }
    requires spare { 104 ≤ (O.heap o.old).spare }
{
    texts_keep();
    let Payload { raw, object } = make_payload(o)?;
    let pieces = by_four(o, object)?;
    let mut text = Rebuild::new(alloc, 6);
    let left = add_by_four(o, &mut text, object, &pieces)?;
    let sent = finish_and_send(o, &mut text)?;
    Ok(Told {
        raw,
        object,
        count: pieces.count,
        first: pieces.first,
        second: pieces.second,
        left,
        sent,
    })
}

fn row(alloc: Global) -> Option<Result<Told, PieceStop>> {
    let Some(mut heap) = begun(alloc) else {
        return None;
    };
    Some(rebuilt(&mut heap, alloc))
}

#[test]
fn two_pieces(rt: HostRuntime) {
    let wanted = Told {
        raw: 2056,
        object: 2080,
        count: 2,
        first: Piece {
            object: 2256,
            offset: 0,
            total: 6,
        },
        second: Piece {
            object: 2376,
            offset: 4,
            total: 6,
        },
        left: [4, 4, 0],
        sent: Sent {
            given: 6,
            bytes: [b'A', b'B', b'C', b'D', b'E', b'F', 0, 0, 0],
        },
    };
    assert_eq!(rt; row(rt.alloc()), Some(Ok(wanted)));
}

fn third<O: Objects>(o: &mut O) -> Result<Option<Stop>, Stop>
    requires kept { KeepsSome (O.keeps o.old) }
    requires nothing { HasNothing (O.heap o.old) }
    requires spare { 104 ≤ (O.heap o.old).spare }
{
    texts_keep();
    let Payload { object, .. } = make_payload(o)?;
    match cut(o, object, 0, 4, 2) {
        Ok(_) => Ok(None),
        Err(stop) => Ok(Some(stop)),
    }
}

fn row_of_third(alloc: Global) -> Option<Result<Option<Stop>, Stop>> {
    let Some(mut heap) = begun(alloc) else {
        return None;
    };
    Some(third(&mut heap))
}

#[test]
fn no_piece_behind_the_last(rt: HostRuntime) {
    let wanted = Stop::Refused(Refusal::BadRange {
        offset: 2,
        length: 4,
        have: 6,
    });
    assert_eq!(rt; row_of_third(rt.alloc()), Some(Ok(Some(wanted))));
}

/// A piece by four bytes, and the two by five.
#[derive(Clone, Copy, Drop)]
struct Overlapping {
    by_four: Piece,
    by_five: Piece,
    last: Piece,
}

fn cut_overlapping<O: Objects>(o: &mut O, object: Addr) -> Result<Overlapping, Stop>
    requires kept { KeepsSome (O.keeps o.old) }
    requires text { SomeText (O.heap o.old) [] (object ∷ []) 1 100 }
    ensures kept { OnOk result (KeepsSome (O.keeps o.new)) }
    ensures text { IfOk result (λ p. SomeText (O.heap o.new) []
        (p.last.object ∷ object ∷ p.by_five.object ∷ p.by_four.object ∷ []) 1 94) }
{
    texts_keep();
    let by_four = cut(o, object, 0, 4, 0)?;
    let by_five = cut(o, object, 0, 5, 0)?;
    let last = cut(o, object, 0, 5, 1)?;
    Ok(Overlapping {
        by_four,
        by_five,
        last,
    })
}

/// What is missing as the first two are added.
fn add_two<O: Objects>(
    o: &mut O,
    text: &mut Rebuild,
    object: Addr,
    pieces: &Overlapping,
) -> Result<[u64; 2], PieceStop>
    requires kept { KeepsSome (O.keeps o.old) }
    requires empty { text.old.parts ≡ [] }
    requires text { SomeText (O.heap o.old) [] (pieces.now.last.object ∷ object
        ∷ pieces.now.by_five.object ∷ pieces.now.by_four.object ∷ []) 1 94 }
    ensures kept { OnOk result (KeepsSome (O.keeps o.new)) }
    ensures few { OnOk result (length text.new.parts ≤ 3) }
    ensures text { OnOk result (SomeText (O.heap o.new) text.new.parts (pieces.now.by_five.object
        ∷ pieces.now.by_four.object ∷ pieces.now.last.object ∷ object ∷ []) 1 86) }
{
    texts_keep();
    let one = text.add(o, 0, &pieces.by_four)?;
    let two = text.add(o, 0, &pieces.by_five)?;
    Ok([one, two])
}

/// The refusal of a text that is finished while bytes are missing.
fn finish_early<O: Objects>(o: &mut O, text: &mut Rebuild) -> Option<Stop>
    requires kept { KeepsSome (O.keeps o.old) }
    requires missing { missing_of text.old ≢ 0 }
    ensures kept { KeepsSome (O.keeps o.new) }
    ensures same { O.heap o.new ≡ O.heap o.old }
    ensures text { text.new ≡ text.old }
{
    match text.finish(o, Acct::Outbound, 0) {
        Ok(_) => None,
        Err(stop) => Some(stop),
    }
}

/// What the calls of the second row answer, in order.
#[derive(Clone, Copy, Debug, PartialEq, Eq, Drop)]
struct Overlapped {
    left: [u64; 2],
    early: Option<Stop>,
    third: u64,
    sent: Sent,
}

/// Adds the last piece, behind a finish that is too early, and finishes then.
fn finish_twice<O: Objects>(
    o: &mut O,
    text: &mut Rebuild,
    object: Addr,
    pieces: &Overlapping,
    left: [u64; 2],
) -> Result<Option<Overlapped>, PieceStop>
    requires kept { KeepsSome (O.keeps o.old) }
    requires few { length text.old.parts ≤ 3 }
    requires text { SomeText (O.heap o.old) text.old.parts (pieces.now.by_five.object
        ∷ pieces.now.by_four.object ∷ pieces.now.last.object ∷ object ∷ []) 1 86 }
{
    texts_keep();
    if text.missing() == 0 {
        return Ok(None);
    }
    let early = finish_early(o, text);
    let third = text.add(o, 0, &pieces.last)?;
    let sent = finish_and_send(o, text)?;
    Ok(Some(Overlapped {
        left,
        early,
        third,
        sent,
    }))
}

fn overlap<O: Objects>(o: &mut O, alloc: Global) -> Result<Option<Overlapped>, PieceStop>
    requires kept { KeepsSome (O.keeps o.old) }
    requires nothing { HasNothing (O.heap o.old) }
    requires spare { 104 ≤ (O.heap o.old).spare }
{
    let Payload { object, .. } = make_payload(o)?;
    let pieces = cut_overlapping(o, object)?;
    let mut text = Rebuild::new(alloc, 6);
    let left = add_two(o, &mut text, object, &pieces)?;
    finish_twice(o, &mut text, object, &pieces, left)
}

fn second_row(alloc: Global) -> Option<Result<Option<Overlapped>, PieceStop>> {
    let Some(mut heap) = begun(alloc) else {
        return None;
    };
    Some(overlap(&mut heap, alloc))
}

#[test]
fn overlapping_pieces(rt: HostRuntime) {
    let wanted = Overlapped {
        left: [2, 1],
        early: Some(Stop::Refused(Refusal::BadRange {
            offset: 5,
            length: 1,
            have: 6,
        })),
        third: 0,
        sent: Sent {
            given: 6,
            bytes: [b'A', b'B', b'C', b'D', b'E', b'F', 0, 0, 0],
        },
    };
    assert_eq!(rt; second_row(rt.alloc()), Some(Ok(Some(wanted))));
}
