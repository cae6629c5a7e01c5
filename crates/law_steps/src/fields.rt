// The numbers of a world.
ghost use Rattle.std.specs.Prelude.{All, List};
ghost use Rattle.sdr_base.specs.declared.moves.Move.{Move};
ghost use Rattle.sdr_model.specs.Steps.{taken_addresses};
ghost use Rattle.sdr_model.specs.Fields.{FitsCall, FitsFields, IsWord};
ghost use Rattle.sdr_model.specs.Step.{Step};
ghost use Rattle.sdr_model.specs.Valid.{FitTogether, IsValid};
ghost use Rattle.sdr_model.specs.World.{World};
ghost use Rattle.sdr_model.specs.declared.answer.Reply.{Reply};
ghost use Rattle.sdr_model.specs.declared.call.Call.{Call};

/// A law: a step from a valid world, in which sources and extents fit each other, leaves a world whose numbers
/// fit the fields of its blocks, where those of the world before, those of the call, and the addresses of the
/// blocks that it takes do. It does nothing.
pub fn fields_fit()
    ensures { (w w' : World) (call : Call) (moves : List Move) (reply : Reply) →
        IsValid w → FitTogether w → FitsFields w → FitsCall call → All IsWord (taken_addresses moves) →
        Step w call moves w' reply → FitsFields w' }
{}
