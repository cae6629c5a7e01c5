// What a daemon does in its next turn.
ghost use Rattle.std.specs.Prelude.{◌≡◌, ◌≤◌, length};
ghost use Rattle.sdr_daemon.specs.Coming.{coming_of};

use crate::script_place::{MOST_DRAWN, ScriptPlace, next_step};
use sdr_machine::Roll;
use sdr_model::ScriptStep;
use sdr_words::begins_or_looks;

/// What a daemon does in its next turn, unless memory is wanting there for its line: then it does nothing in that turn, and leaves in the
/// one after.
#[derive(Clone, Copy, Debug, PartialEq, Eq)]
pub enum Coming {
    /// Nothing: it has left, or there is none.
    Gone,
    /// It passes over a line.
    Passes,
    /// It begins a transaction or looks at a ticket, by the statement on this line; or it leaves, and the line is 0.
    Comes { daemon: u8, line: u64 },
}

/// What a daemon that hasn't left does in its next turn, if memory isn't wanting there. The call takes no memory.
pub fn coming_of(roll: &Roll, progress: &ScriptPlace, script: &[ScriptStep]) -> Coming
    requires within { progress.now.place ≤ length script.now }
    ensures { result ≡ coming_of roll.now script.now progress.now }
{
    let daemon = progress.daemon;
    let leaves = Coming::Comes { daemon, line: 0 };
    if roll.failed().is_some() || progress.leaving.is_some() || progress.drawn >= MOST_DRAWN {
        return leaves;
    }
    match next_step(script, daemon, progress.place) {
        None => leaves,
        Some((step, _)) if begins_or_looks(step) => Coming::Comes {
            daemon,
            line: step.line,
        },
        Some(_) => Coming::Passes,
    }
}
