// A look at a ticket.
ghost use Rattle.std.specs.Prelude.{false, true, ◌≡◌, ◌∷◌, [], IfOk, OnErr, OnOk};
ghost use Rattle.sdr_machine.specs.Crash.{LeavesBefore};
ghost use Rattle.sdr_machine.specs.Serving.{Brings, Doubts, Finds, KeepsGround, MeetsFault, Sees, after_look, is_sight};

use crate::{Backing, Daemon, Fault, Roll, refused};
use sdr_base::Refusal;
use sdr_model::Answer;

// Whether the daemon has left, or waits for a ticket that isn't granted.
fn is_stuck<T: Backing>(base: &mut T, daemon: &Daemon) -> Result<bool, Fault>
    requires { T.idle base.old }
    ensures idle { OnOk result (T.idle base.new) }
    ensures found { IfOk result (λ stuck. Brings T.stands base.old base.new
        (Finds (daemon.now ∷ []) stuck)) }
    ensures fault { OnErr result (MeetsFault T.HasGround base.old base.new) }
    ensures keeps { KeepsGround T.HasGround false base.old base.new }
    ensures any_moment { LeavesBefore T.HasGround base.old base.new }
{
    if daemon.left {
        return Ok(true);
    }
    match daemon.waits {
        None => Ok(false),
        Some(ticket) => match base.look(ticket) {
            Ok(granted) => Ok(!granted.unwrap_or(false)),
            Err(fault) => Err(fault),
        },
    }
}

// Whether all of these daemons have left, or wait for tickets that aren't granted.
fn are_stuck<T: Backing>(base: &mut T, daemons: &[Daemon]) -> Result<bool, Fault>
    requires { T.idle base.old }
    ensures idle { OnOk result (T.idle base.new) }
    ensures found { IfOk result (λ stuck. Brings T.stands base.old base.new
        (Finds daemons.now stuck)) }
    ensures fault { OnErr result (MeetsFault T.HasGround base.old base.new) }
    ensures keeps { KeepsGround T.HasGround false base.old base.new }
    ensures any_moment { LeavesBefore T.HasGround base.old base.new }
{
    match daemons {
        [] => Ok(true),
        [first, others @ ..] => {
            match is_stuck(base, first) {
                Ok(true) => are_stuck(base, others),
                Ok(false) => Ok(false),
                Err(fault) => Err(fault),
            }
        }
    }
}

/// The daemon after a look that was answered so.
pub fn after_look(daemon: Daemon, ticket: u64, answer: &Answer) -> Daemon
    ensures { result ≡ after_look daemon ticket answer.now }
{
    match answer {
        Answer::Awarded => daemon.when_done(),
        Answer::Stalled => daemon.when_done(),
        Answer::Waits => daemon.after_wait(ticket),
        _ => daemon.when_passed_over(),
    }
}

// What a look at a ticket that waits is answered.
fn doubt<T: Backing>(
    base: &mut T,
    roll: &Roll,
    daemon: &Daemon,
    ticket: u64,
) -> Result<Answer, Fault>
    requires { T.idle base.old }
    ensures idle { OnOk result (T.idle base.new) }
    ensures seen { IfOk result (λ answer. Brings T.stands base.old base.new
        (Doubts roll.now daemon.now ticket answer)) }
    ensures kind { IfOk result (λ answer. is_sight answer ≡ true) }
    ensures fault { OnErr result (MeetsFault T.HasGround base.old base.new) }
    ensures keeps { KeepsGround T.HasGround false base.old base.new }
    ensures any_moment { LeavesBefore T.HasGround base.old base.new }
{
    if !daemon.waits_for(ticket) {
        return Ok(Answer::Waits);
    }
    match are_stuck(base, roll.daemons()) {
        Ok(true) => Ok(Answer::Stalled),
        Ok(false) => Ok(Answer::Waits),
        Err(fault) => Err(fault),
    }
}

/// What a look at a ticket is answered.
pub fn sight<T: Backing>(
    base: &mut T,
    roll: &Roll,
    daemon: &Daemon,
    ticket: u64,
) -> Result<Answer, Fault>
    requires { T.idle base.old }
    ensures idle { OnOk result (T.idle base.new) }
    ensures seen { IfOk result (λ answer. Brings T.stands base.old base.new
        (Sees roll.now daemon.now ticket answer)) }
    ensures kind { IfOk result (λ answer. is_sight answer ≡ true) }
    ensures fault { OnErr result (MeetsFault T.HasGround base.old base.new) }
    ensures keeps { KeepsGround T.HasGround false base.old base.new }
    ensures any_moment { LeavesBefore T.HasGround base.old base.new }
{
    match base.look(ticket) {
        Ok(None) => Ok(refused(Refusal::BadTicket { ticket })),
        Ok(Some(true)) => Ok(Answer::Awarded),
        Ok(Some(false)) => doubt(base, roll, daemon, ticket),
        Err(fault) => Err(fault),
    }
}
