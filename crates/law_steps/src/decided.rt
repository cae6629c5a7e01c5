// What the machine may choose.
ghost use Rattle.std.specs.Prelude.{◌≡◌, ℕ, List, false};
ghost use Rattle.sdr_base.specs.declared.moves.Move.{Move};
ghost use Rattle.law_steps.specs.Decided.{SameButShown};
ghost use Rattle.law_steps.specs.TakesAt.{TakesAt};
ghost use Rattle.sdr_model.specs.Dry.{StepsDry};
ghost use Rattle.sdr_model.specs.Reading.{reads_media};
ghost use Rattle.sdr_model.specs.Rows.{ByRow};
ghost use Rattle.sdr_model.specs.Steps.{Outcome};
ghost use Rattle.sdr_model.specs.World.{World};
ghost use Rattle.sdr_model.specs.declared.answer.Reply.{Reply};
ghost use Rattle.sdr_model.specs.declared.call.Call.{Call};

/// A law: two outcomes that the row of a call allows are the same, where the blocks that they took begin at
/// the same addresses. Those of a call that reads media may differ in the bytes shown, and in nothing else. It
/// does nothing.
pub fn rows_decide()
    ensures same { (w : World) (call : Call) (at : ℕ → ℕ) (o o' : Outcome) →
        reads_media call ≡ false →
        ByRow w o call → ByRow w o' call → TakesAt at o.moves → TakesAt at o'.moves → o ≡ o' }
    ensures but_bytes { (w : World) (call : Call) (at : ℕ → ℕ) (o o' : Outcome) →
        ByRow w o call → ByRow w o' call → TakesAt at o.moves → TakesAt at o'.moves → SameButShown o o' }
{}

/// A law: without a heap a call that a row answers or refuses comes to one outcome, but for the bytes shown of
/// one that reads media. It does nothing.
pub fn dry_decides()
    ensures same { (w w' v : World) (call : Call) (moves others : List Move) (reply other : Reply) →
        reads_media call ≡ false → StepsDry w call moves w' reply → StepsDry w call others v other →
        (moves ≡ others) × (w' ≡ v) × (reply ≡ other) }
    ensures but_bytes { (w w' v : World) (call : Call) (moves others : List Move)
        (reply other : Reply) →
        StepsDry w call moves w' reply → StepsDry w call others v other →
        (moves ≡ others) × (w' ≡ record v { shown = w'.shown }) × (reply ≡ other) }
{}
