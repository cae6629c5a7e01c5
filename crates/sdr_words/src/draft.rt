// A script in the making: the steps of the lines so far.
ghost use Rattle.std.specs.Prelude.{◌≡◌, ◌++◌, ◌∷◌, [], ◌+◌, ◌<◌, ◌^◌, IfOk, OnOk, OnErr, length};
ghost use Rattle.sdr_words.specs.Statements.{is_bound_by};

use sdr_base::{Items, NoMemory};
use sdr_model::{Script, ScriptStep};
use std::alloc::Global;
use std::collections::HashSet;
use std::marker::Model;

/// No step has fewer bytes than `1: end` and the end of its line.
const SHORTEST_STEP: usize = 7;

/// Who binds a name.
#[derive(Clone, Copy, PartialEq, Eq, Hash)]
pub struct Binder<'a> {
    pub daemon: u8,
    pub name: &'a [u8],
}

/// The steps of the lines so far, and who has bound which name.
#[derive(Drop)]
pub struct Draft<'a> {
    steps: Vec<ScriptStep>,
    /// The next line's number, counted from 1.
    next: u64,
    binders: HashSet<Binder<'a>>,
}

impl<'a> Model for Draft<'a> {
    ghost use Rattle.sdr_words.specs.Script.{Reading};
    ghost use Rattle.sdr_words.specs.Draft.{AreBinders};

    ghost Value = { Reading };

    ghost view = { λ d. record { steps = d.steps.items; next = d.next } };

    ghost invariant = { λ d. AreBinders d.binders.keys d.steps.items };
}

impl<'a> Draft<'a> {
    ghost use Rattle.sdr_words.specs.LineAnswers.{with_step};
    ghost use Rattle.sdr_words.specs.Script.{nothing_read};

    /// Nothing read yet, with room for the steps of so many bytes.
    pub fn new(alloc: Global, bytes: usize) -> Result<Draft<'a>, NoMemory>
        requires { bytes < 2 ^ 32 }
        ensures { IfOk result (λ draft. draft ≡ nothing_read) }
    {
        Ok(Draft {
            steps: Vec::with_capacity(alloc, bytes / SHORTEST_STEP + 1)?,
            next: 1,
            binders: HashSet::new(alloc),
        })
    }

    /// The number of the next line, counted from 1.
    pub fn next_line(&self) -> u64
        ensures { result ≡ self.now.next }
    {
        self.next
    }

    /// Passes over the next line.
    pub fn skip_line(&mut self)
        requires room { self.old.next < 2 ^ 63 }
        ensures { self.new ≡ record self.old { next = self.old.next + 1 } }
    {
        self.next += 1;
    }

    /// The steps that were read.
    pub fn into_script(self) -> Script
        ensures { result ≡ self.entry.steps }
    {
        Items::of(self.steps)
    }

    /// Adds the step of the next line. Want of memory leaves all as before.
    pub fn add(&mut self, daemon: u8, name: &'a [u8], step: ScriptStep) -> Result<(), NoMemory>
        requires daemon { step.daemon ≡ daemon }
        requires name { step.name ≡ name.now }
        requires room { self.old.next < 2 ^ 63 }
        ensures ok { OnOk result (self.new ≡ with_step self.old step) }
        ensures err { OnErr result (self.new ≡ self.old) }
    {
        self.steps.reserve(1)?;
        if !name.is_empty() {
            self.binders.insert(Binder { daemon, name })?;
        }
        self.steps.push_reserved(step);
        self.next += 1;
        Ok(())
    }

    /// Whether an earlier line of the daemon binds the name.
    pub fn is_bound(&self, daemon: u8, name: &[u8]) -> bool
        requires { 0 < length name.now }
        ensures { result ≡ is_bound_by self.now.steps daemon name.now }
    {
        self.binders.contains(&Binder { daemon, name })
    }
}
