// The canonical line of a step.
ghost use Rattle.std.specs.Prelude.{◌≡◌, ℕ, List, Ok, Some};
ghost use Rattle.sdr_model.specs.declared.script.ScriptStep.{ScriptStep};
ghost use Rattle.sdr_words.specs.Canonical.{IsStep, line_for};
ghost use Rattle.sdr_words.specs.Script.{line_says};

/// A law: the canonical line of each step that a script may have behind earlier ones is read as that
/// step. It does nothing.
pub fn canonical_lines_are_read()
    ensures { (earlier : List ScriptStep) (step : ScriptStep) → IsStep earlier step →
        line_says earlier step.line (line_for step) ≡ Ok (Some step) }
{}

/// A law: what a line gives behind earlier steps is a step of this line that a script may have behind
/// them. So each step of a script has its canonical line. It does nothing.
pub fn lines_give_steps()
    ensures { (earlier : List ScriptStep) (number : ℕ) (line : List ℕ) (step : ScriptStep) →
        line_says earlier number line ≡ Ok (Some step) → (step.line ≡ number) × IsStep earlier step }
{}
