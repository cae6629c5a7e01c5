// The steps of a round.
ghost use Rattle.std.specs.Prelude.{◌≡◌, ◌≤◌, ◌<◌, ◌^◌, ◌+◌, IfOk, length};
ghost use Rattle.sdr_load.specs.Rounds.{round_of};
ghost use Rattle.sdr_load.specs.Statements.{numbered};

use crate::{MOST_ROUNDS, Statement, round_of};
use sdr_base::{Items, NoMemory};
use sdr_model::ScriptStep;
use std::alloc::Global;

// The steps of statements, a line each.
fn numbered(
    alloc: Global,
    first: u64,
    statements: Vec<Statement>,
) -> Result<Items<ScriptStep>, NoMemory>
    requires room { first + length statements.items < 2 ^ 63 }
    ensures { IfOk result (λ steps. steps ≡ numbered first statements.items) }
{
    let mut steps = Vec::new(alloc);
    let mut line = first;
    for statement in statements {
        steps.push(statement.into_step(line))?;
        line += 1;
    }
    Ok(Items::of(steps))
}

/// The steps of a round, from a line on.
#[tactic(auto, using(crate::proofs::RoundLemmas::round_is_short, crate::proofs::RoundLemmas::round_has_some, crate::proofs::StatementLemmas::of_numbered))]
pub fn steps_of(alloc: Global, round: u64, line: u64) -> Result<Items<ScriptStep>, NoMemory>
    requires few { round ≤ MOST_ROUNDS }
    requires room { line < 2 ^ 32 }
    ensures steps { IfOk result (λ steps. steps ≡ numbered line (round_of round)) }
    ensures some { IfOk result (λ steps. 0 < length steps) }
    ensures few { IfOk result (λ steps. length steps ≤ 10) }
{
    let statements = round_of(alloc, round)?;
    numbered(alloc, line, statements)
}
