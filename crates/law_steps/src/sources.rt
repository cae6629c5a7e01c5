// Sources, and the extents that name them.
ghost use Rattle.std.specs.Prelude.{ℕ, List};
ghost use Rattle.sdr_base.specs.declared.moves.Move.{Move};
ghost use Rattle.law_steps.specs.Fresh.{AreFresh};
ghost use Rattle.sdr_model.specs.Blocks.{addresses_of, blocks_of};
ghost use Rattle.sdr_model.specs.Step.{Step};
ghost use Rattle.sdr_model.specs.Valid.{FitTogether, IsValid};
ghost use Rattle.sdr_model.specs.World.{World};
ghost use Rattle.sdr_model.specs.declared.answer.Reply.{Reply};
ghost use Rattle.sdr_model.specs.declared.call.Call.{Call};

/// A law: a step of a valid world leaves sources and extents that fit each other, where those
/// before did and the blocks that it takes are fresh. So the source of an extent is never gone, and
/// one that goes with its last extent has one until then. It does nothing.
pub fn sources_kept()
    ensures { (w w' : World) (call : Call) (moves : List Move) (reply : Reply) →
        IsValid w → FitTogether w → AreFresh (addresses_of (blocks_of w)) moves →
        Step w call moves w' reply → FitTogether w' }
{}
