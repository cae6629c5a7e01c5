// Where the steps of a schedule come from.
ghost use Rattle.std.specs.Prelude.{◌≡◌, ◌≤◌, ◌∷◌, ◌==◌, [], ℕ, List, false, IfOk, IfSome, IsNone, OnOk, filter, get_or, length};
ghost use Rattle.std.specs.List.{list_any};
ghost use Rattle.std.specs.Option.{option_copied};
ghost use Rattle.sdr_model.specs.declared.script.ScriptStep.{ScriptStep as Step};
ghost use Rattle.sdr_run.specs.Steps.{StartsWith};
ghost use Rattle.sdr_words.specs.Daemons.{daemons_of};

use sdr_base::NoMemory;
use sdr_load::LoadSteps;
use sdr_model::ScriptStep;
use std::alloc::Global;
use std::marker::Model;

/// Where the steps of a schedule come from, in order. Steps may be made one at a time, so that no more than one of them is held.
pub trait Steps {
    /// The steps that are left.
    ghost left: { Self → List Step };

    /// The next step, if one is left.
    fn next(&self) -> Option<&ScriptStep>
        ensures none { IsNone result → left self.now ≡ [] }
        ensures some { IfSome (option_copied result) (StartsWith (left self.now)) };

    /// Goes past the next step.
    fn pass(&mut self) -> Result<(), NoMemory>
        ensures { OnOk result ((step : Step) (rest : List Step) → left self.old ≡ step ∷ rest
            → left self.new ≡ rest) };
}

/// The steps of a script that was read.
#[derive(Drop)]
pub struct ScriptSteps<'a> {
    rest: &'a [ScriptStep],
}

impl<'a> Model for ScriptSteps<'a> {
    ghost Value = { List Step };

    ghost view = { λ s. s.rest.now };
}

impl<'a> ScriptSteps<'a> {
    pub fn new(script: &'a [ScriptStep]) -> ScriptSteps<'a>
        ensures { result ≡ script.now }
    {
        ScriptSteps { rest: script }
    }
}

impl Steps for ScriptSteps<'_> {
    ghost left = { λ s. s };

    fn next(&self) -> Option<&ScriptStep> {
        self.rest.first()
    }

    fn pass(&mut self) -> Result<(), NoMemory> {
        match self.rest.split_first() {
            Some((_, after)) => {
                self.rest = after;
                Ok(())
            }
            None => Ok(()),
        }
    }
}

impl Steps for LoadSteps {
    ghost left = { λ s. s };

    fn next(&self) -> Option<&ScriptStep> {
        LoadSteps::next(self)
    }

    fn pass(&mut self) -> Result<(), NoMemory> {
        LoadSteps::pass(self)
    }
}

// Whether a script names each daemon, by its number.
fn named_by(script: &[ScriptStep]) -> [bool; 256]
    ensures { (daemon : ℕ) → daemon ≤ 255 →
        get_or result daemon false ≡ list_any (λ step. step.daemon == daemon) script.now }
{
    let mut named = [false; 256];
    for step in script {
        named[step.daemon as usize] = true;
    }
    named
}

/// The daemons that a script names.
pub fn daemons_of(alloc: Global, script: &[ScriptStep]) -> Result<Vec<u8>, NoMemory>
    ensures named { IfOk result (λ daemons. daemons.items ≡ daemons_of script.now) }
    ensures few { IfOk result (λ daemons. length daemons.items ≤ 16) }
{
    let named = named_by(script);
    (1..17u8)
        .filter(|daemon| named[*daemon as usize])
        .collect(alloc)
}
