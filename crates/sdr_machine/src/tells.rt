// A ground that tells what its calls did.
ghost use Rattle.std.specs.Prelude.{◌≡◌, IfOk};
ghost use Rattle.sdr_machine.specs.Standing.{GroundState};

use crate::Shows;
use sdr_base::{Move, NoMemory};
use sdr_model::Call;

/// Room for what came of a call.
#[derive(Clone, Copy)]
pub struct Room {
    /// How many moves.
    pub moves: usize,
    /// How many bytes.
    pub bytes: usize,
}

/// A ground that tells the moves of its last call beside the bytes that it shows, and how many of both there may be in the
/// call that follows.
pub trait Tells: Shows {
    ghost use Rattle.sdr_machine.specs.Room.{HoldsAny};

    /// The moves of the last call.
    fn moves(&self) -> &[Move]
        ensures { (v : GroundState) → Self.stands self.now v → result.now ≡ v.moves };

    /// Room for what a call that follows may come to.
    fn room_for(&self, call: &Call) -> Result<Room, NoMemory>
        ensures { IfOk result (λ room. (v : GroundState) → Self.stands self.now v →
            HoldsAny room v.now call.now) };
}
