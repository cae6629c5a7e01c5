// Refused calls.
ghost use Rattle.std.specs.Prelude.{◌≡◌, List, [], false};
ghost use Rattle.sdr_base.specs.declared.moves.Move.{Move};
ghost use Rattle.law_steps.specs.Refused.{is_stop, may_stop_midway};
ghost use Rattle.sdr_model.specs.Rows.{ByRow};
ghost use Rattle.sdr_model.specs.Step.{Step, is_answer};
ghost use Rattle.sdr_model.specs.Steps.{Outcome};
ghost use Rattle.sdr_model.specs.World.{World};
ghost use Rattle.sdr_model.specs.declared.answer.Reply.{Reply};
ghost use Rattle.sdr_model.specs.declared.call.Call.{Call};

/// A law: a refused call and a fault leave the whole world. But for want of a block or of room in the undo
/// log, they have no moves either. It does nothing.
pub fn refused_leaves()
    ensures world { (w w' : World) (call : Call) (moves : List Move) (reply : Reply) →
        Step w call moves w' reply → is_answer reply ≡ false → w' ≡ w }
    ensures moves { (w w' : World) (call : Call) (moves : List Move) (reply : Reply) →
        Step w call moves w' reply → is_answer reply ≡ false → may_stop_midway reply ≡ false → moves ≡ [] }
{}

/// A law: no row answers that a call stops on its way: for want of a block or of room in the undo log, by a
/// failed device, or where media give fewer bytes than were asked for. It does nothing.
pub fn stops_are_no_rows()
    ensures { (w : World) (o : Outcome) (call : Call) → ByRow w o call → is_stop o.reply ≡ false }
{}
