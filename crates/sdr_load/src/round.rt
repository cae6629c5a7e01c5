// The statements of a round.
ghost use Rattle.std.specs.Prelude.{◌≡◌, ◌≤◌, [], IfOk, if◌then◌else◌, replicate};
ghost use Rattle.sdr_load.specs.Rounds.{
  adding,
  byte_in,
  closing,
  round_daemon,
  dropping,
  drops_oldest,
  is_round_cancelled,
  later_round,
  length_in,
  opening,
  round_of,
};
ghost use Rattle.sdr_load.specs.Statements.{binds, says};
ghost use Rattle.sdr_model.specs.declared.script.Arg.TheVariants as arguments;

use crate::{Statement, Verb};
use sdr_base::{Bytes, Items, NoMemory};
use sdr_model::Arg;
use std::alloc::Global;

/// The most rounds behind round 0 that a load may have.
pub const MOST_ROUNDS: u64 = 10_000;

// Where so many rounds ended, each further one takes the oldest element out.
const KEPT: u64 = 8;

fn round_daemon(round: u64) -> u8
    ensures { result ≡ round_daemon round }
{
    (1 + round % 4) as u8
}

fn length_in(round: u64) -> u64
    requires few { round ≤ MOST_ROUNDS }
    ensures { result ≡ length_in round }
{
    1 + (37 * round) % 500
}

fn byte_in(round: u64) -> u8
    ensures { result ≡ byte_in round }
{
    (round % 256) as u8
}

fn is_round_cancelled(round: u64) -> bool
    ensures { result ≡ is_round_cancelled round }
{
    round % 3 == 0
}

// Whether the oldest element goes in a round.
#[tactic(auto, using(crate::proofs::RoundLemmas::ended_before))]
fn drops_oldest(round: u64) -> bool
    ensures { result ≡ drops_oldest round }
{
    let before = round.saturating_sub(1);
    before - before / 3 >= KEPT
}

/// Makes the statements of a daemon.
#[derive(Clone, Copy)]
pub struct Speaker {
    pub alloc: Global,
    pub daemon: u8,
}

impl Speaker {
    fn says(&self, verb: Verb, args: Vec<Arg>) -> Statement
        ensures { result ≡ says self.now.daemon verb args.items }
    {
        Statement {
            daemon: self.daemon,
            name: Bytes::new(self.alloc),
            verb,
            args: Items::of(args),
        }
    }

    fn binds(&self, name: &[u8], verb: Verb, args: Vec<Arg>) -> Result<Statement, NoMemory>
        ensures { IfOk result (λ s. s ≡ binds self.now.daemon name.now verb args.items) }
    {
        Ok(Statement {
            daemon: self.daemon,
            name: Bytes::copied(self.alloc, name)?,
            verb,
            args: Items::of(args),
        })
    }

    fn no_args(&self) -> Vec<Arg>
        ensures { result.items ≡ [] }
    {
        Vec::new(self.alloc)
    }

    fn named(&self, name: &[u8]) -> Result<Arg, NoMemory>
        ensures { IfOk result (λ arg. arg ≡ arguments.Named name.now) }
    {
        Ok(Arg::Named(Bytes::copied(self.alloc, name)?))
    }

    fn text(&self, bytes: &[u8]) -> Result<Arg, NoMemory>
        ensures { IfOk result (λ arg. arg ≡ arguments.Text bytes.now) }
    {
        Ok(Arg::Text(Bytes::copied(self.alloc, bytes)?))
    }

    // So many copies of a byte.
    fn filled(&self, bytes: u64, byte: u8) -> Result<Arg, NoMemory>
        ensures { IfOk result (λ arg. arg ≡ arguments.Text (replicate bytes byte)) }
    {
        Ok(Arg::Text(Bytes::of(vec![in self.alloc; byte; bytes as usize]?)))
    }

    // Makes the list, and gives it its name.
    fn opens(&self) -> Result<Vec<Statement>, NoMemory>
        ensures { IfOk result (λ said. said.items ≡ opening self.now.daemon) }
    {
        let list = vec![in self.alloc; Arg::Number(0)]?;
        let name = vec![in self.alloc; self.text(b"load")?, Arg::Number(1), self.named(b"l")?]?;
        Ok(vec![in self.alloc;
            self.says(Verb::Begin, self.no_args()),
            self.binds(b"l", Verb::List, list)?,
            self.says(Verb::Catlg, name),
            self.says(Verb::End, self.no_args()),
        ]?)
    }

    // Makes an object of so many copies of a byte, and puts it at the end of the list.
    fn adds(&self, bytes: u64, byte: u8) -> Result<Vec<Statement>, NoMemory>
        ensures { IfOk result (λ said. said.items ≡ adding self.now.daemon bytes byte) }
    {
        let list = vec![in self.alloc; self.text(b"load")?]?;
        let length = vec![in self.alloc; Arg::Number(bytes)]?;
        let content = vec![in self.alloc;
            self.named(b"p")?,
            Arg::Number(0),
            self.filled(bytes, byte)?,
        ]?;
        let last = vec![in self.alloc; self.named(b"l")?, self.named(b"p")?]?;
        Ok(vec![in self.alloc;
            self.says(Verb::Begin, self.no_args()),
            self.binds(b"l", Verb::Find, list)?,
            self.binds(b"p", Verb::Malloc, length)?,
            self.says(Verb::Write, content),
            self.says(Verb::InsertLast, last),
        ]?)
    }

    // Deletes the first element, and frees its object.
    fn drops(&self) -> Result<Vec<Statement>, NoMemory>
        ensures { IfOk result (λ said. said.items ≡ dropping self.now.daemon) }
    {
        let list = vec![in self.alloc; self.named(b"l")?]?;
        let first = vec![in self.alloc; self.named(b"e")?]?;
        let element = vec![in self.alloc; self.named(b"e")?]?;
        let object = vec![in self.alloc; self.named(b"x")?]?;
        Ok(vec![in self.alloc;
            self.binds(b"e", Verb::First, list)?,
            self.binds(b"x", Verb::Datum, first)?,
            self.says(Verb::Delete, element),
            self.says(Verb::Free, object),
        ]?)
    }

    // The oldest element goes, or nothing is said.
    fn drops_where(&self, drops: bool) -> Result<Vec<Statement>, NoMemory>
        ensures { IfOk result (λ said.
            said.items ≡ (if drops then dropping self.now.daemon else [])) }
    {
        if drops {
            self.drops()
        } else {
            Ok(Vec::new(self.alloc))
        }
    }

    // Cancels the round, or ends it.
    fn closes(&self, cancelled: bool) -> Statement
        ensures { result ≡ closing self.now.daemon cancelled }
    {
        let verb = if cancelled { Verb::Cancel } else { Verb::End };
        self.says(verb, self.no_args())
    }
}

// The statements of a round behind round 0.
fn later_round(alloc: Global, round: u64) -> Result<Vec<Statement>, NoMemory>
    requires few { round ≤ MOST_ROUNDS }
    ensures { IfOk result (λ said. said.items ≡ later_round round) }
{
    let by = Speaker {
        alloc,
        daemon: round_daemon(round),
    };
    let mut said = by.adds(length_in(round), byte_in(round))?;
    said.append(&mut by.drops_where(drops_oldest(round))?)?;
    said.push(by.closes(is_round_cancelled(round)))?;
    Ok(said)
}

/// The statements of a round.
#[tactic(auto, unfolding(crate::specs::Rounds::round_of))]
pub fn round_of(alloc: Global, round: u64) -> Result<Vec<Statement>, NoMemory>
    requires few { round ≤ MOST_ROUNDS }
    ensures { IfOk result (λ said. said.items ≡ round_of round) }
{
    if round == 0 {
        Speaker { alloc, daemon: 1 }.opens()
    } else {
        later_round(alloc, round)
    }
}
