// The blocks of a world.
ghost use Rattle.std.specs.Prelude.{◌≡◌, ℕ, List, true};
ghost use Rattle.sdr_base.specs.declared.moves.Move.{Move};
ghost use Rattle.law_steps.specs.Fresh.{AreFresh};
ghost use Rattle.law_steps.specs.MovesBlocks.{MovesBlocks};
ghost use Rattle.sdr_model.specs.Blocks.{addresses_of, blocks_of};
ghost use Rattle.sdr_model.specs.Step.{Step, is_answer};
ghost use Rattle.sdr_model.specs.Things.{block_among};
ghost use Rattle.sdr_model.specs.Valid.{FitTogether, IsValid};
ghost use Rattle.sdr_model.specs.World.{World, block_at};
ghost use Rattle.sdr_model.specs.declared.answer.Reply.{Reply};
ghost use Rattle.sdr_model.specs.declared.call.Call.{Call};

/// A law: in an answered call the blocks of a valid world change just by its moves, with their kinds and
/// lengths, where sources and extents fit each other and the blocks that it takes are fresh. It does nothing.
pub fn blocks_move()
    ensures { (w w' : World) (call : Call) (moves : List Move) (reply : Reply) →
        IsValid w → FitTogether w → AreFresh (addresses_of (blocks_of w)) moves →
        Step w call moves w' reply → is_answer reply ≡ true → MovesBlocks w moves w' }
{}

/// A law: in a valid world the block that begins at an address is the one among the world's blocks. So an
/// address is refused just where none of these begins, or one of another kind does. It does nothing.
pub fn blocks_are_found()
    ensures { (w : World) (addr : ℕ) →
        IsValid w → block_at w addr ≡ block_among addr (blocks_of w) }
{}
