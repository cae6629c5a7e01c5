// The marks of a transaction.
ghost use Rattle.std.specs.Prelude.{◌≡◌, List, false, true};
ghost use Rattle.sdr_base.specs.declared.moves.Move.{Move};
ghost use Rattle.law_steps.specs.Marks.{MarksTaken};
ghost use Rattle.sdr_model.specs.Reading.{is_reading};
ghost use Rattle.sdr_model.specs.Step.{Step, is_answer};
ghost use Rattle.sdr_model.specs.World.{World};
ghost use Rattle.sdr_model.specs.declared.answer.Reply.{Reply};
ghost use Rattle.sdr_model.specs.declared.call.Call.{Call};

/// A law: a changing call that is answered marks just the blocks that it takes, and shows no bytes. It does
/// nothing.
pub fn taken_are_marked()
    ensures { (w w' : World) (call : Call) (moves : List Move) (reply : Reply) →
        is_reading call ≡ false → Step w call moves w' reply → is_answer reply ≡ true → MarksTaken w moves w' }
{}
