// The moves of a call.
ghost use Rattle.std.specs.Prelude.{◌≡◌, List, slice_index, true};
ghost use Rattle.sdr_base.specs.declared.moves.Move.{Move};
ghost use Rattle.sdr_model.specs.Steps.{taken_addresses};
ghost use Rattle.sdr_model.specs.RowMoves.{row_moves};
ghost use Rattle.sdr_model.specs.Step.{Step, is_answer};
ghost use Rattle.sdr_model.specs.World.{World};
ghost use Rattle.sdr_model.specs.declared.answer.Reply.{Reply};
ghost use Rattle.sdr_model.specs.declared.call.Call.{Call};

/// A law: an answered call has just the moves of its row, with the addresses of the blocks that it took in
/// their places. It does nothing.
pub fn moves_are_the_rows()
    ensures { (w w' : World) (call : Call) (moves : List Move) (reply : Reply) →
        Step w call moves w' reply → is_answer reply ≡ true →
        moves ≡ row_moves w call (slice_index (taken_addresses moves)) }
{}
