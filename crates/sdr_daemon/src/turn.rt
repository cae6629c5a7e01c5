// One turn of a daemon at the lock.
ghost use Rattle.std.specs.Prelude.{◌≡◌, ◌<◌, ◌^◌, ◌+◌, Some, false, is_some, true};
ghost use Rattle.sdr_core.specs.CoreKept.{MakesCoreStep};
ghost use Rattle.sdr_core.specs.Leaving.{LastsOn};
ghost use Rattle.sdr_daemon.specs.Scripts.{IsLeaveDue};
ghost use Rattle.sdr_daemon.specs.TakingTurns.{DoesLine, LeavesNext, MayDepart, MaySayNext, MayTakeTurn, SaysLine, TakesTurn};
ghost use Rattle.sdr_daemon.specs.Turns.{is_refused_outside};
ghost use Rattle.sdr_daemon.specs.Working.{BeginComesTo};
ghost use Rattle.sdr_machine.specs.Core.{closed_by};
ghost use Rattle.sdr_words.specs.Bindings.{event_of};

use crate::script_place::{MOST_DRAWN, ScriptPlace, Scripted, next_step};
use sdr_base::Refusal;
use sdr_core::{Core, Origin};
use sdr_machine::{Came, Tells};
use sdr_model::{Answer, Event, Leave, Reply, ScriptStep};
use sdr_words::begins_or_looks;
use std::alloc::Global;

/// What came of a line.
#[derive(Clone, Copy)]
pub enum LineOutcome {
    /// It was said, and the transaction goes on.
    On,
    /// It was said, and closed the transaction.
    Closed,
    /// It was said, but there was no memory for its name.
    Starved,
    /// There was no memory to say it.
    Unsaid,
}

// Whether the answer closes a transaction.
fn closes(answer: &Answer) -> bool
    ensures { result ≡ is_some (closed_by answer.now) }
{
    match answer {
        Answer::Closed(_) => true,
        Answer::Reply(Reply::DiskFault) => true,
        _ => false,
    }
}

// A line is done: its place is left behind, and its name holds what the answer gives it. Tells whether there was memory for
// that; if not, the daemon means to leave.
fn note(
    alloc: Global,
    progress: &mut ScriptPlace,
    step: &ScriptStep,
    after: usize,
    answer: &Answer,
) -> bool
    ensures does { DoesLine step.now after answer.now progress.old progress.new }
    ensures held { result ≡ true → progress.new.leaving ≡ progress.old.leaving }
    ensures starved { result ≡ false → progress.new.leaving ≡ Some Leave.Memory }
{
    progress.place = after;
    if progress.names.bind(alloc, step, answer).is_err() {
        progress.leaving = Some(Leave::Memory);
        return false;
    }
    true
}

// A daemon makes its leave.
fn make_leave<T: Tells, J: Origin>(core: &mut Core<T, J>, daemon: u8, leave: Leave) -> Came
    requires drawn { core.old.lock.roll.drawn < 2 ^ 60 }
    requires lasts { T.lasts core.old.lock.base 1 }
    ensures { MakesCoreStep T.HasGround daemon 0 (Event.Leaves leave) result core.old.lock
        core.old.log core.new.lock core.new.log }
{
    let Ok(came) = core.event(daemon, 0, &Event::Leaves(leave)) else {
        unreachable!();
    };
    came
}

// Says a line, and notes its answer.
fn say<T: Tells, J: Origin>(
    alloc: Global,
    core: &mut Core<T, J>,
    progress: &mut ScriptPlace,
    step: &ScriptStep,
    after: usize,
    event: &Event,
) -> LineOutcome
    requires drawn { core.old.lock.roll.drawn < 2 ^ 60 }
    requires lasts { LastsOn T.HasGround core.old.lock.base }
    ensures says { SaysLine T.HasGround step.now after event.now core.old core.new progress.old
        progress.new result }
    ensures lasts { LastsOn T.HasGround core.new.lock.base }
{
    let Ok(came) = core.event(progress.daemon, step.line, event) else {
        return LineOutcome::Unsaid;
    };
    let held = note(alloc, progress, step, after, &came.answer);
    if closes(&came.answer) {
        return LineOutcome::Closed;
    }
    if held {
        return LineOutcome::On;
    }
    LineOutcome::Starved
}

// The daemon leaves: its turn is its leave.
fn depart<T: Tells, J: Origin, S: Scripted>(
    core: &mut Core<T, J>,
    progress: &mut ScriptPlace,
    leave: Leave,
)
    requires drawn { core.old.lock.roll.drawn < 2 ^ 60 }
    requires few { progress.old.drawn < 2 ^ 40 }
    requires lasts { LastsOn T.HasGround core.old.lock.base }
    requires may { MayDepart core.old.lock.roll S.script progress.old leave }
    requires due { IsLeaveDue progress.old.leaving leave }
    requires comes { LeavesNext core.old.lock.roll S.script progress.old }
    ensures ends { TakesTurn T.HasGround J.begins S.script core.old core.new progress.old
        progress.new }
    ensures lasts { LastsOn T.HasGround core.new.lock.base }
{
    make_leave(core, progress.daemon, leave);
    progress.drawn += 1;
}

// The daemon passes over a line that is refused outside a transaction.
fn pass<T: Tells, J: Origin, S: Scripted>(
    alloc: Global,
    core: &Core<T, J>,
    progress: &mut ScriptPlace,
    step: &ScriptStep,
    after: usize,
)
    requires next { MaySayNext S.script core.now.lock.roll progress.old step.now after
        (event_of progress.old.names step.now) }
    requires further { progress.old.place < after }
    requires passed { is_refused_outside (event_of progress.old.names step.now) ≡ true }
    ensures ends { TakesTurn T.HasGround J.begins S.script core.now core.now progress.old
        progress.new }
{
    let refused = Answer::Reply(Reply::Refused(Refusal::NotBegun));
    note(alloc, progress, step, after, &refused);
}

// The daemon looks at a ticket. Where it waits, the line isn't done.
fn look<T: Tells, J: Origin, S: Scripted>(
    alloc: Global,
    core: &mut Core<T, J>,
    progress: &mut ScriptPlace,
    step: &ScriptStep,
    after: usize,
    event: &Event,
    ticket: u64,
)
    requires drawn { core.old.lock.roll.drawn < 2 ^ 60 }
    requires lasts { LastsOn T.HasGround core.old.lock.base }
    requires next { MaySayNext S.script core.old.lock.roll progress.old step.now after
        (Event.Look ticket) }
    requires event { event.now ≡ Event.Look ticket }
    ensures ends { TakesTurn T.HasGround J.begins S.script core.old core.new progress.old
        progress.new }
    ensures lasts { LastsOn T.HasGround core.new.lock.base }
{
    let Ok(came) = core.event(progress.daemon, step.line, event) else {
        progress.leaving = Some(Leave::Memory);
        return;
    };
    progress.drawn += 1;
    if let Answer::Waits = came.answer {
        return;
    }
    note(alloc, progress, step, after, &came.answer);
}

// The daemon begins a transaction.
fn begin<T: Tells, J: Origin, S: Scripted>(
    alloc: Global,
    core: &mut Core<T, J>,
    progress: &mut ScriptPlace,
    step: &ScriptStep,
    after: usize,
    event: &Event,
) -> LineOutcome
    requires drawn { core.old.lock.roll.drawn < 2 ^ 60 }
    requires lasts { LastsOn T.HasGround core.old.lock.base }
    requires next { MaySayNext S.script core.old.lock.roll progress.old step.now after Event.Begin }
    requires event { event.now ≡ Event.Begin }
    ensures begins { BeginComesTo result T.HasGround J.begins S.script core.old core.new
        progress.old progress.new }
    ensures lasts { LastsOn T.HasGround core.new.lock.base }
{
    let outcome = say(alloc, core, progress, step, after, event);
    if let LineOutcome::Unsaid = outcome {
        return outcome;
    }
    progress.drawn += 1;
    outcome
}

// The daemon leaves in its transaction, which is closed by that.
fn cut<T: Tells, J: Origin>(core: &mut Core<T, J>, progress: &mut ScriptPlace, leave: Leave) -> Came
    requires drawn { core.old.lock.roll.drawn < 2 ^ 60 }
    requires lasts { LastsOn T.HasGround core.old.lock.base }
    ensures makes { MakesCoreStep T.HasGround progress.old.daemon 0 (Event.Leaves leave) result
        core.old.lock core.old.log core.new.lock core.new.log }
    ensures progress { progress.new ≡ record progress.old { leaving = Some leave } }
    ensures lasts { LastsOn T.HasGround core.new.lock.base }
{
    progress.leaving = Some(leave);
    make_leave(core, progress.daemon, leave)
}

// The daemon says the next line of its transaction.
fn line<T: Tells, J: Origin>(
    alloc: Global,
    core: &mut Core<T, J>,
    progress: &mut ScriptPlace,
    step: &ScriptStep,
    after: usize,
) -> LineOutcome
    requires drawn { core.old.lock.roll.drawn < 2 ^ 60 }
    requires lasts { LastsOn T.HasGround core.old.lock.base }
    ensures says { SaysLine T.HasGround step.now after (event_of progress.old.names step.now)
        core.old core.new progress.old progress.new result }
    ensures lasts { LastsOn T.HasGround core.new.lock.base }
{
    match progress.names.event(alloc, step) {
        Ok(event) => say(alloc, core, progress, step, after, &event),
        Err(_) => LineOutcome::Unsaid,
    }
}

// The daemon takes a transaction, from its begin to its close.
fn work<T: Tells, J: Origin, S: Scripted>(
    alloc: Global,
    core: &mut Core<T, J>,
    progress: &mut ScriptPlace,
    script: &[ScriptStep],
    step: &ScriptStep,
    after: usize,
    event: &Event,
)
    requires at { MayTakeTurn T.HasGround J.begins S.script core.old progress.old }
    requires script { script.now ≡ S.script }
    requires drawn { core.old.lock.roll.drawn + 1 < 2 ^ 60 }
    requires lasts { LastsOn T.HasGround core.old.lock.base }
    requires next { MaySayNext S.script core.old.lock.roll progress.old step.now after Event.Begin }
    requires event { event.now ≡ Event.Begin }
    ensures ends { TakesTurn T.HasGround J.begins S.script core.old core.new progress.old
        progress.new }
    ensures lasts { LastsOn T.HasGround core.new.lock.base }
{
    match begin::<T, J, S>(alloc, core, progress, step, after, event) {
        LineOutcome::On => (),
        LineOutcome::Closed => return,
        LineOutcome::Starved => {
            cut(core, progress, Leave::Memory);
            return;
        }
        LineOutcome::Unsaid => {
            progress.leaving = Some(Leave::Memory);
            return;
        }
    }
    while let Some((step, after)) = next_step(script, progress.daemon, progress.place) {
        match line(alloc, core, progress, step, after) {
            LineOutcome::On => (),
            LineOutcome::Closed => return,
            LineOutcome::Starved | LineOutcome::Unsaid => {
                cut(core, progress, Leave::Memory);
                return;
            }
        }
    }
    cut(core, progress, Leave::Done);
}

/// Takes one turn of a daemon that hasn't left.
pub fn turn<T: Tells, J: Origin, S: Scripted>(
    alloc: Global,
    core: &mut Core<T, J>,
    progress: &mut ScriptPlace,
    script: &[ScriptStep],
)
    requires at { MayTakeTurn T.HasGround J.begins S.script core.old progress.old }
    requires script { script.now ≡ S.script }
    requires drawn { core.old.lock.roll.drawn + 1 < 2 ^ 60 }
    requires lasts { LastsOn T.HasGround core.old.lock.base }
    ensures ends { TakesTurn T.HasGround J.begins S.script core.old core.new progress.old
        progress.new }
    ensures lasts { LastsOn T.HasGround core.new.lock.base }
{
    if core.roll().failed().is_some() {
        return depart::<T, J, S>(core, progress, Leave::Fault);
    }
    if let Some(leave) = progress.leaving {
        return depart::<T, J, S>(core, progress, leave);
    }
    if progress.drawn >= MOST_DRAWN {
        return depart::<T, J, S>(core, progress, Leave::Spent);
    }
    let Some((step, after)) = next_step(script, progress.daemon, progress.place) else {
        return depart::<T, J, S>(core, progress, Leave::Done);
    };
    if !begins_or_looks(step) {
        return pass::<T, J, S>(alloc, core, progress, step, after);
    }
    let Ok(event) = progress.names.event(alloc, step) else {
        progress.leaving = Some(Leave::Memory);
        return;
    };
    match &event {
        Event::Begin => work::<T, J, S>(alloc, core, progress, script, step, after, &event),
        Event::Look(ticket) => {
            look::<T, J, S>(alloc, core, progress, step, after, &event, *ticket)
        }
        _ => unreachable!(),
    }
}
