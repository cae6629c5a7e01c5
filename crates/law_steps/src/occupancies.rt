// What is occupied in an account, and the front of its queue.
ghost use Rattle.std.specs.Prelude.{◌≡◌, ℕ, ◌+◌, List, true};
ghost use Rattle.sdr_base.specs.declared.account.Acct.{Acct};
ghost use Rattle.sdr_base.specs.declared.kind.Space.{Space};
ghost use Rattle.sdr_base.specs.declared.moves.Move.{Move};
ghost use Rattle.law_steps.specs.Charged.{charged, grants, released};
ghost use Rattle.law_steps.specs.Fresh.{AreFresh};
ghost use Rattle.sdr_model.specs.Accounts.{tickets_of};
ghost use Rattle.sdr_model.specs.Blocks.{addresses_of, blocks_of};
ghost use Rattle.sdr_model.specs.Charges.{occupancy};
ghost use Rattle.sdr_model.specs.Queue.{with_served};
ghost use Rattle.sdr_model.specs.Step.{Step, is_answer};
ghost use Rattle.sdr_model.specs.Valid.{FitTogether, IsBarred, IsValid, KeepQueues};
ghost use Rattle.sdr_model.specs.World.{World};
ghost use Rattle.sdr_model.specs.declared.answer.Reply.{Reply};
ghost use Rattle.sdr_model.specs.declared.call.Call.{Call};

/// A law: in an answered call of a valid world what is occupied of a space in an account grows by
/// what the call charges beyond its ticket's grant and by what the queue grants, and falls by what
/// the call releases, where the blocks that it takes are fresh. It does nothing.
pub fn occupancy_moves()
    ensures { (w w' : World) (call : Call) (moves : List Move) (reply : Reply)
        (acct : Acct) (space : Space) →
        IsValid w → FitTogether w → KeepQueues w.accounts →
        AreFresh (addresses_of (blocks_of w)) moves →
        Step w call moves w' reply → is_answer reply ≡ true →
        occupancy w' acct space + released w call acct space
        ≡ occupancy w acct space + charged w call acct space
        + grants (tickets_of w.accounts acct) (tickets_of w'.accounts acct) space }
{}

/// A law: where the queue of an account has been served, the first ticket that waits asks of some
/// space more than the room. It does nothing.
pub fn served_is_barred()
    ensures { (w : World) (acct : Acct) →
        KeepQueues w.accounts → IsBarred (with_served w acct) acct }
{}

/// A law: a step of a valid world keeps that the first ticket that waits in the queue of an account
/// asks of some space more than the room, where the blocks that it takes are fresh. It does
/// nothing.
pub fn front_kept()
    ensures { (w w' : World) (call : Call) (moves : List Move) (reply : Reply) (acct : Acct) →
        IsValid w → FitTogether w → KeepQueues w.accounts → IsBarred w acct →
        AreFresh (addresses_of (blocks_of w)) moves →
        Step w call moves w' reply → IsBarred w' acct }
{}
