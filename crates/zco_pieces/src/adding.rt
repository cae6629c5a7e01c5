// A piece is added: the gaps that it meets are filled.
ghost use Rattle.std.specs.Prelude.{◌≡◌, ◌*◌, ◌+◌, ◌≤◌, ◌<◌, ◌^◌, ◌++◌, ◌∷◌, [], List, length, IfErr, IfOk, OnErr, OnOk};
ghost use Rattle.sdr_base.specs.Blocks.{IsKind};
ghost use Rattle.sdr_base.specs.Moves.{KeepsSome};
ghost use Rattle.sdr_base.specs.Works.{Spends};
ghost use Rattle.sdr_base.specs.ZcoObjects.{ObjectRow};
ghost use Rattle.sdr_model.specs.declared.accounts.Ticket.{Ticket};
ghost use Rattle.zco_obj.specs.Gone.{NamedSource};
ghost use Rattle.zco_pieces.specs.Adding.{AddsPiece, AddStops, BeginAt, FillsPart, FillsParts, FillsSome};
ghost use Rattle.zco_pieces.specs.Adding.{IsNoPieceOf, IsPieceOf, IsToAdd, KeepsFilled, KeepsToFill, SomeToFill};
ghost use Rattle.zco_pieces.specs.Adding.{SpendsOrLacks, StopsPart, moves_to_fill};
ghost use Rattle.zco_pieces.specs.Places.{AreInOrder, gap, missing_of, opened};

use crate::cutting::bad_range;
use crate::piece::{Piece, PieceStop};
use crate::rebuild::Rebuild;
use sdr_base::{Items, NoMemory, Objects, Stop, check_failed};
use std::alloc::Global;
use zco_join::Filled;
use zco_obj::source_length;
use zco_part::clone_part;

impl Rebuild {
    /// Fills what a piece has of the bytes that aren't filled, and answers how many are missing then. Each gap
    /// that the piece meets gets one clone of just its bytes, by rising offset; where it meets none, the
    /// ticket isn't looked at. What is left of the grant of the ticket of this number covers what it can; 0
    /// is no ticket. The piece's object stays the caller's. Memory is taken before the first clone is made.
    /// It is linear in the parts that are filled, and in the extents that are cloned.
    ///
    /// It is refused `BadAddress` or `WrongKind` where the object isn't there, `BadRange` where the piece has
    /// no byte, doesn't lie within the text, or is of a text of another length, and then as a clone of a part
    /// is: the gaps that were filled before stay filled, except behind `NoBlock` and `LogFull`, behind which
    /// the transaction has to be cancelled.
    pub fn add<O: Objects>(
        &mut self,
        o: &mut O,
        ticket: u64,
        piece: &Piece,
    ) -> Result<u64, PieceStop>
        requires kept { KeepsSome (O.keeps o.old) }
        requires piece { IsToAdd (O.heap o.old) self.old piece.now }
        ensures added { OnOk result
            (AddsPiece ticket piece.now self.old self.new (O.heap o.old) (O.heap o.new)) }
        ensures told { IfOk result (λ missing. missing ≡ missing_of self.new) }
        ensures refused { IfErr result
            (AddStops ticket piece.now self.old self.new (O.heap o.old) (O.heap o.new)) }
        ensures works { (row : ObjectRow) (tickets : List Ticket) (sources : List NamedSource) →
            KeepsToFill (O.heap o.old) piece.now.object piece.now.offset
            (opened 0 self.old.total self.old.parts piece.now.offset row.part_length)
            row tickets sources →
            SpendsOrLacks O.HasHeap
            (34 * moves_to_fill piece.now.offset row
            (opened 0 self.old.total self.old.parts piece.now.offset row.part_length))
            o.old o.new result }
    {
        let length = source_length(o, piece.object)?;
        check_piece(piece, length, self.total)?;
        let opened = open(
            self.alloc,
            self.total,
            self.parts.as_slice(),
            piece.offset,
            length,
        )?;
        let Filling { parts, outcome } = fill(o, ticket, piece, opened);
        self.parts = parts;
        outcome?;
        Ok(self.missing())
    }
}

// Refuses a piece that has no byte, doesn't lie within a text of so many bytes, or is of one of another length.
fn check_piece(piece: &Piece, length: u64, total: u64) -> Result<(), Stop>
    ensures fits { OnOk result (IsPieceOf total piece.now length) }
    ensures refused { IfErr result (IsNoPieceOf total piece.now length) }
{
    if length == 0 || piece.total != total || length > total || piece.offset > total - length {
        return Err(bad_range(piece.offset, length, total));
    }
    Ok(())
}

// The parts, and between them the gaps that a piece of so many bytes from an offset on meets.
fn open(
    alloc: Global,
    total: u64,
    parts: &[Filled],
    offset: u64,
    length: u64,
) -> Result<Vec<Filled>, NoMemory>
    requires order { AreInOrder 0 total parts.now }
    requires long { total < 2 ^ 63 }
    requires within { offset + length < 2 ^ 63 }
    ensures { IfOk result (λ all. all.items ≡ opened 0 total parts.now offset length) }
{
    let mut opened = Vec::new(alloc);
    let mut from = 0;
    for part in parts {
        push_gap(&mut opened, from, part.offset, offset, length)?;
        opened.push(*part)?;
        from = part.offset + part.length;
    }
    push_gap(&mut opened, from, total, offset, length)?;
    Ok(opened)
}

// Adds what a piece of so many bytes from an offset on has between two places, unless it has no byte there.
fn push_gap(
    opened: &mut Vec<Filled>,
    from: u64,
    to: u64,
    offset: u64,
    length: u64,
) -> Result<(), NoMemory>
    requires within { offset + length < 2 ^ 63 }
    ensures { OnOk result
        (opened.new.items ≡ opened.old.items ++ gap from to offset length) }
{
    let first = from.max(offset);
    let end = to.min(offset + length);
    if first < end {
        opened.push(Filled {
            offset: first,
            length: end - first,
            object: 0,
        })?;
    }
    Ok(())
}

// What has become of parts among which there were gaps.
#[derive(Drop)]
struct Filling {
    // Those that have a clone now.
    parts: Items<Filled>,
    outcome: Result<(), Stop>,
}

// Fills the gaps among parts, and leaves out those that weren't filled.
fn fill<O: Objects>(o: &mut O, ticket: u64, piece: &Piece, parts: Vec<Filled>) -> Filling
    requires kept { KeepsSome (O.keeps o.old) }
    requires object { SomeToFill (O.heap o.old) piece.now.object piece.now.offset parts.items }
    requires behind { BeginAt piece.now.offset parts.items }
    ensures filled { OnOk result.outcome (FillsParts piece.now.object ticket piece.now.offset
        parts.items result.parts (O.heap o.old) (O.heap o.new)) }
    ensures refused { IfErr result.outcome (KeepsFilled piece.now.object ticket piece.now.offset
        parts.items result.parts (O.heap o.old) (O.heap o.new)) }
    ensures works { (row : ObjectRow) (tickets : List Ticket) (sources : List NamedSource) →
        KeepsToFill (O.heap o.old) piece.now.object piece.now.offset parts.items
        row tickets sources →
        Spends O.HasHeap (34 * moves_to_fill piece.now.offset row parts.items)
        o.old o.new result.outcome }
{
    let mut parts = parts;
    let outcome = fill_gaps(o, ticket, piece, &mut parts);
    parts.retain(|part| part.object != 0);
    Filling {
        parts: Items::of(parts),
        outcome,
    }
}

// Fills the gaps, one after another.
fn fill_gaps<O: Objects>(
    o: &mut O,
    ticket: u64,
    piece: &Piece,
    parts: &mut [Filled],
) -> Result<(), Stop>
    requires kept { KeepsSome (O.keeps o.old) }
    requires object { SomeToFill (O.heap o.old) piece.now.object piece.now.offset parts.old }
    requires behind { BeginAt piece.now.offset parts.old }
    ensures filled { OnOk result (FillsParts piece.now.object ticket piece.now.offset
        parts.old parts.new (O.heap o.old) (O.heap o.new)) }
    ensures refused { IfErr result (FillsSome piece.now.object ticket piece.now.offset
        parts.old parts.new (O.heap o.old) (O.heap o.new)) }
    ensures works { (row : ObjectRow) (tickets : List Ticket) (sources : List NamedSource) →
        KeepsToFill (O.heap o.old) piece.now.object piece.now.offset parts.old
        row tickets sources →
        Spends O.HasHeap (34 * moves_to_fill piece.now.offset row parts.old) o.old o.new result }
{
    check_failed(o)?;
    for i in 0..parts.len() {
        parts[i] = fill_gap(o, ticket, piece, parts[i])?;
    }
    Ok(())
}

// Fills a part that is a gap with a clone of a piece's bytes.
fn fill_gap<O: Objects>(o: &mut O, ticket: u64, piece: &Piece, part: Filled) -> Result<Filled, Stop>
    requires kept { KeepsSome (O.keeps o.old) }
    requires object { SomeToFill (O.heap o.old) piece.now.object piece.now.offset (part ∷ []) }
    requires behind { part.object ≡ 0 → piece.now.offset ≤ part.offset }
    ensures filled { IfOk result (λ full. FillsPart piece.now.object ticket piece.now.offset
        part full (O.heap o.old) (O.heap o.new)) }
    ensures refused { IfErr result (StopsPart piece.now.object ticket piece.now.offset
        part (O.heap o.old) (O.heap o.new)) }
    ensures works { (row : ObjectRow) (tickets : List Ticket) (sources : List NamedSource) →
        KeepsToFill (O.heap o.old) piece.now.object piece.now.offset (part ∷ [])
        row tickets sources →
        Spends O.HasHeap (34 * moves_to_fill piece.now.offset row (part ∷ []))
        o.old o.new result }
{
    if part.object != 0 {
        check_failed(o)?;
        return Ok(part);
    }
    let object = clone_part(
        o,
        piece.object,
        ticket,
        part.offset - piece.offset,
        part.length,
    )?;
    Ok(Filled { object, ..part })
}
