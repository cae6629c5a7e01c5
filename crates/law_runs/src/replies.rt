// What calls are answered.
ghost use Rattle.std.specs.Prelude.{◌≡◌, List, true};
ghost use Rattle.sdr_base.specs.declared.moves.Move.{Move};
ghost use Rattle.sdr_model.specs.Step.{Step};
ghost use Rattle.sdr_model.specs.World.{World};
ghost use Rattle.sdr_model.specs.declared.answer.Reply.{Reply};
ghost use Rattle.sdr_model.specs.declared.call.Call.{Call};
ghost use Rattle.law_runs.specs.Replying.{is_of_call};

/// A law: no call comes to a disk fault, or to a refusal by which the lock and the nesting answer: what an answer is
/// of can be told from it. It does nothing.
pub fn calls_answer_for_themselves()
    ensures { (w w' : World) (call : Call) (moves : List Move) (reply : Reply) →
        Step w call moves w' reply → is_of_call reply ≡ true }
{}
