// Clones of parts of objects.
ghost use Rattle.std.specs.Prelude.{◌≡◌, ℕ, List, true};
ghost use Rattle.sdr_base.specs.declared.moves.Move.{Move};
ghost use Rattle.law_steps.specs.Fresh.{AreFresh};
ghost use Rattle.law_steps.specs.Payload.{TakesNoPayload};
ghost use Rattle.sdr_model.specs.Blocks.{addresses_of, blocks_of};
ghost use Rattle.sdr_model.specs.Step.{Step, is_answer};
ghost use Rattle.sdr_model.specs.World.{World};
ghost use Rattle.sdr_model.specs.declared.answer.Reply.{Reply};
ghost use Rattle.sdr_model.specs.declared.call.Call.TheVariants as calls;

/// A law: a clone that is answered takes blocks for an object and for extents alone, and makes no
/// raw object, so that it copies no bytes. It does nothing.
pub fn clone_takes_no_payload()
    ensures { (w w' : World) (addr ticket offset bytes : ℕ) (moves : List Move) (reply : Reply) →
        AreFresh (addresses_of (blocks_of w)) moves →
        Step w (calls.ClonePart addr ticket offset bytes) moves w' reply → is_answer reply ≡ true →
        TakesNoPayload w moves w' }
{}
