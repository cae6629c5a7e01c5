// Statements of daemons.
ghost use Rattle.std.specs.Prelude.{◌≡◌};

use crate::Verb;
use sdr_base::Bytes;
use sdr_model::{Args, ScriptStep};

/// A statement of a daemon, in no line yet.
#[derive(Drop)]
pub struct Statement {
    /// The daemon that makes it, 1 to 16.
    pub daemon: u8,
    /// The name that it binds; no byte where it binds none.
    pub name: Bytes,
    pub verb: Verb,
    pub args: Args,
}

impl Statement {
    ghost use Rattle.sdr_load.specs.Statements.{step_in};

    /// The step of the statement in a line.
    pub fn into_step(self, line: u64) -> ScriptStep
        ensures { result ≡ step_in line self }
    {
        ScriptStep {
            line,
            daemon: self.daemon,
            name: self.name,
            verb: self.verb.place(),
            args: self.args,
        }
    }
}
