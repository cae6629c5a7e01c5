// The moves of a call.
ghost use Rattle.std.specs.Prelude.{◌≡◌, ◌+◌, ◌-◌, ◌≤◌, ◌++◌, ◌∷◌, [], IfOk, length};
ghost use Rattle.sdr_heap.specs.Noted.{moves_in, spare_in};

use sdr_base::{Move, NoMemory};
use std::alloc::Global;

/// Moves in order, in room that was taken before.
#[derive(Drop)]
pub struct MoveBuffer {
    pub places: Vec<Move>,
    /// So many places from the front hold the moves.
    pub used: usize,
    ghost within: { used ≤ length places.items },
}

impl MoveBuffer {
    /// No move, and room for so many.
    pub fn new(alloc: Global, room: usize) -> Result<MoveBuffer, NoMemory>
        ensures none { IfOk result (λ b. moves_in b.places.items b.used ≡ []) }
        ensures room { IfOk result (λ b. spare_in b.places.items b.used ≡ room) }
    {
        Ok(MoveBuffer {
            places: vec![in alloc; Move::Gave { addr: 0 }; room]?,
            used: 0,
        })
    }

    /// The moves.
    pub fn as_slice(&self) -> &[Move]
        ensures { result.now ≡ moves_in self.now.places.items self.now.used }
    {
        &self.places[..self.used]
    }

    /// Notes a move.
    pub fn push(&mut self, made: Move)
        requires room { 1 ≤ spare_in self.old.places.items self.old.used }
        ensures noted { moves_in self.new.places.items self.new.used
            ≡ moves_in self.old.places.items self.old.used ++ made ∷ [] }
        ensures spare { spare_in self.new.places.items self.new.used
            ≡ spare_in self.old.places.items self.old.used - 1 }
        ensures room { length self.new.places.items ≡ length self.old.places.items }
    {
        self.places[self.used] = made;
        self.used += 1;
    }

    /// Forgets all moves.
    pub fn clear(&mut self)
        ensures none { moves_in self.new.places.items self.new.used ≡ [] }
        ensures spare { spare_in self.new.places.items self.new.used
            ≡ length self.old.places.items }
        ensures room { length self.new.places.items ≡ length self.old.places.items }
    {
        self.used = 0;
    }
}
