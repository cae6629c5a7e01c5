// The steps of a load, made round by round.
ghost use Rattle.std.specs.Prelude.{◌≡◌, ◌≤◌, ◌∷◌, [], List, IfOk, IfSome, IsNone, OnErr, OnOk, drop};
ghost use Rattle.std.specs.Option.{option_copied};
ghost use Rattle.sdr_load.specs.Schedule.{script_for};
ghost use Rattle.sdr_model.specs.declared.script.ScriptStep.{ScriptStep as Step};

use crate::{MOST_ROUNDS, steps_of};
use sdr_base::{Items, NoMemory};
use sdr_model::ScriptStep;
use std::alloc::Global;
use std::marker::Model;

/// The steps of a load that are left. Contracts see the list of them. It holds the steps of one round.
#[derive(Drop)]
pub struct LoadSteps {
    alloc: Global,
    // The round that is held, and the last one.
    round: u64,
    last: u64,
    // The steps of the round, and how many of them are done.
    steps: Items<ScriptStep>,
    done: usize,
    // The line in which the next round begins.
    line: u64,
}

impl Model for LoadSteps {
    ghost use Rattle.std.specs.Prelude.{List, length};
    ghost use Rattle.std.specs.Coded.{coded_list};
    ghost use Rattle.sdr_load.specs.Left.{IsHeld, left_of};
    ghost use Rattle.sdr_model.specs.declared.script.ScriptStep.{ScriptStep as Step};

    ghost Value = { List Step };

    ghost view = { λ s. left_of s.steps s.done s.line s.round s.last };

    ghost invariant = { λ s. IsHeld s.round s.last (length s.steps) s.done s.line };
}

impl LoadSteps {
    /// The steps of a load of so many rounds behind round 0.
    pub fn new(alloc: Global, rounds: u64) -> Result<LoadSteps, NoMemory>
        requires few { rounds ≤ MOST_ROUNDS }
        ensures { IfOk result (λ steps. steps ≡ script_for rounds) }
    {
        let steps = steps_of(alloc, 0, 1)?;
        let line = 1 + steps.len() as u64;
        Ok(LoadSteps {
            alloc,
            round: 0,
            last: rounds,
            steps,
            done: 0,
            line,
        })
    }

    /// The next step, if one is left.
    pub fn next(&self) -> Option<&ScriptStep>
        ensures none { IsNone result → self.now ≡ [] }
        ensures some { IfSome (option_copied result) (λ step. self.now ≡ step ∷ drop 1 self.now) }
    {
        self.steps.as_slice().get(self.done)
    }

    /// Goes past the next step, if one is left. Want of memory leaves all as before.
    pub fn pass(&mut self) -> Result<(), NoMemory>
        ensures passed { OnOk result ((step : Step) (rest : List Step) → self.old ≡ step ∷ rest
            → self.new ≡ rest) }
        ensures none { OnOk result (self.old ≡ [] → self.new ≡ []) }
        ensures same { OnErr result (self.new ≡ self.old) }
    {
        let left = self.steps.len() - self.done;
        if left > 1 || self.round == self.last {
            self.done += left.min(1);
            return Ok(());
        }
        let next = steps_of(self.alloc, self.round + 1, self.line)?;
        self.line += next.len() as u64;
        self.round += 1;
        self.steps = next;
        self.done = 0;
        Ok(())
    }
}
