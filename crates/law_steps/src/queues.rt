// The queues of tickets.
ghost use Rattle.std.specs.Prelude.{◌≡◌, ℕ, List, true};
ghost use Rattle.sdr_base.specs.declared.moves.Move.{Move};
ghost use Rattle.sdr_model.specs.Step.{Step};
ghost use Rattle.sdr_model.specs.Valid.{KeepQueues};
ghost use Rattle.sdr_model.specs.World.{World};
ghost use Rattle.sdr_model.specs.declared.answer.Reply.{Reply};
ghost use Rattle.sdr_model.specs.declared.call.Call.{Call};

/// A law: a step keeps both queues of tickets in order, and their numbers distinct. It does
/// nothing.
pub fn queues_kept()
    ensures { (w w' : World) (call : Call) (moves : List Move) (reply : Reply) →
        KeepQueues w.accounts → Step w call moves w' reply → KeepQueues w'.accounts }
{}
