// Reading calls.
ghost use Rattle.std.specs.Prelude.{◌≡◌, List, [], true};
ghost use Rattle.sdr_base.specs.declared.moves.Move.{Move};
ghost use Rattle.law_steps.specs.Shows.{ShowsOnly};
ghost use Rattle.sdr_model.specs.Reading.{is_reading};
ghost use Rattle.sdr_model.specs.Step.{Step, is_answer};
ghost use Rattle.sdr_model.specs.World.{World};
ghost use Rattle.sdr_model.specs.declared.answer.Reply.{Reply};
ghost use Rattle.sdr_model.specs.declared.call.Call.{Call};

/// A law: a reading call that is answered has no moves, and changes nothing but the bytes shown; `stage`
/// adds a mark besides. It does nothing.
pub fn reading_shows()
    ensures { (w w' : World) (call : Call) (moves : List Move) (reply : Reply) →
        is_reading call ≡ true → Step w call moves w' reply → is_answer reply ≡ true →
        (moves ≡ []) × ShowsOnly call w w' }
{}
