// Valid worlds.
ghost use Rattle.std.specs.Prelude.{ℕ, List, Option};
ghost use Rattle.sdr_base.specs.Media.{Told};
ghost use Rattle.sdr_base.specs.declared.moves.Move.{Move};
ghost use Rattle.law_steps.specs.Fresh.{AreFresh};
ghost use Rattle.law_steps.specs.ValidDry.{IsValidDry};
ghost use Rattle.sdr_model.specs.Whole.{IsWhole};
ghost use Rattle.sdr_model.specs.Blocks.{addresses_of, blocks_of};
ghost use Rattle.sdr_machine.specs.Core.{Core, RunsCore, first_core};
ghost use Rattle.sdr_machine.specs.Ground.{bare};
ghost use Rattle.sdr_machine.specs.Machine.{Made};
ghost use Rattle.sdr_model.specs.Dry.{StepsDry};
ghost use Rattle.sdr_model.specs.Step.{Step};
ghost use Rattle.sdr_model.specs.Valid.{IsValid};
ghost use Rattle.sdr_model.specs.World.{World, empty_world};
ghost use Rattle.sdr_model.specs.declared.answer.Reply.{Reply};
ghost use Rattle.sdr_model.specs.declared.call.Call.{Call};

/// A law: a step leaves a valid world valid, where the blocks that it takes are fresh. It does nothing.
pub fn valid_kept()
    ensures { (w w' : World) (call : Call) (moves : List Move) (reply : Reply) →
        IsValid w → AreFresh (addresses_of (blocks_of w)) moves → Step w call moves w' reply → IsValid w' }
{}

/// A law: a step leaves a whole world whole, where the blocks that it takes are fresh: sources, extents and
/// queues keep their laws too. It does nothing.
pub fn whole_kept()
    ensures { (w w' : World) (call : Call) (moves : List Move) (reply : Reply) →
        IsWhole w → AreFresh (addresses_of (blocks_of w)) moves → Step w call moves w' reply → IsWhole w' }
{}

/// A law: without a heap a whole world, whose blocks begin at addresses that were given so far, stays one.
/// It does nothing.
pub fn valid_kept_dry()
    ensures { (w w' : World) (call : Call) (moves : List Move) (reply : Reply) →
        IsValidDry w → StepsDry w call moves w' reply → IsValidDry w' }
{}

/// A law: without a heap every world that a run of the machine comes to is whole, the one between
/// transactions and the one that the served transaction has made, whatever media tell. It does nothing.
pub fn dry_worlds_are_valid()
    ensures { (told : Option Told) (daemons : List ℕ) (made : List Made) (c : Core) →
        RunsCore told (first_core daemons (bare empty_world)) made c →
        IsValidDry c.machine.before.world × IsValidDry c.machine.now.world }
{}
