// A heap.
ghost use Rattle.std.specs.Prelude.{◌≡◌, ◌+◌, ◌/◌, ◌≤◌, [], length, replicate, false, IfOk, IfErr};
ghost use Rattle.std.specs.Borrow.{sem};
ghost use Rattle.sdr_heap.specs.Lending.{lends_cells};

use crate::marks::Marks;
use crate::moves::MoveBuffer;
use sdr_base::{Cells, Move, WORD};
use std::alloc::Global;
use std::marker::Model;

/// The blocks of a heap region, with the marks of a transaction and the moves of a call. Contracts
/// see the cells, the bytes of the region as the heap was made, the marks, the moves, and for how many
/// more there is room.
#[derive(Drop)]
pub struct Heap<C: Cells> {
    pub(crate) cells: C,
    pub(crate) size: u64,
    pub(crate) marks: Marks,
    pub(crate) moves: MoveBuffer,
}

impl<C: Cells> Model for Heap<C> {
    ghost use Rattle.std.specs.Prelude.{length};
    ghost use Rattle.sdr_heap.specs.Noted as noted;

    ghost Value = { noted.Held C };

    ghost view = { λ s. record {
      cells = s.cells;
      size = s.size;
      marks = s.marks;
      moves = noted.moves_in s.moves.places.items s.moves.used;
      spare = noted.spare_in s.moves.places.items s.moves.used;
    } };

    ghost invariant = { λ s. noted.FitsRegion s.size s.marks (length s.moves.places.items) };
}

/// A heap that wasn't made, for want of memory.
#[derive(Drop)]
pub struct HeapShut<C: Cells> {
    pub cells: C,
}

impl<C: Cells> Heap<C> {
    /// The heap in these cells, with no mark and no move. All memory is taken here: for a mark of
    /// each word, and for as many moves as a call can make.
    pub fn new(alloc: Global, cells: C) -> Result<Heap<C>, HeapShut<C>>
        ensures made { IfOk result (λ heap. heap ≡ record {
          cells = cells;
          size = length (C.bytes cells);
          marks = replicate (length (C.bytes cells) / WORD) false;
          moves = [];
          spare = length (C.bytes cells) / 4 + 4;
        }) }
        ensures back { IfErr result (λ shut. shut.cells ≡ cells) }
    {
        let size = cells.size();
        let marks = Marks::new(alloc, (size / WORD) as usize);
        let moves = MoveBuffer::new(alloc, (size / 4 + 4) as usize);
        match (marks, moves) {
            (Ok(marks), Ok(moves)) => Ok(Heap {
                cells,
                size,
                marks,
                moves,
            }),
            _ => Err(HeapShut { cells }),
        }
    }

    /// The cells below, to be committed or cancelled. What is written to them is no move.
    pub fn cells(&mut self) -> &mut C
        ensures* writes_back { sem 𝓛 (lends_cells C.row C.Cells self.entry result) }
        ensures value { result.now ≡ self.old.cells }
    {
        &mut self.cells
    }

    /// Forgets the moves, so that there is room for those of any one call.
    pub fn clear_moves(&mut self)
        ensures none { self.new ≡ record self.old { moves = []; spare = self.new.spare } }
        ensures room { self.old.size / 4 + 4 ≤ self.new.spare }
    {
        self.moves.clear();
    }

    /// Takes all marks off, which costs at most 64 bytes written for each word that is marked.
    pub fn unmark(&mut self)
        ensures { self.new ≡ record self.old { marks = replicate (length self.old.marks) false } }
    {
        self.marks.clear();
    }

    /// How many bytes the region has.
    pub fn size(&self) -> u64
        ensures { result ≡ self.now.size }
    {
        self.size
    }

    /// The moves since they were forgotten last.
    pub fn moves(&self) -> &[Move]
        ensures { result.now ≡ self.now.moves }
    {
        self.moves.as_slice()
    }

    /// The cells. What was not committed stands in them still.
    pub fn into_cells(self) -> C
        ensures { result ≡ self.cells }
    {
        let Heap {
            cells,
            size: _,
            marks: _,
            moves: _,
        } = self;
        cells
    }
}
