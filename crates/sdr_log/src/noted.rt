// The records of open batches, as they are read and checked.
ghost use Rattle.std.specs.Prelude.{◌≡◌, ◌<◌, ◌↔◌, false, true, ◌∷◌, [], IfOk, IfErr, OnOk, IsTrue};
ghost use Rattle.sdr_log.specs.BackErrors.{OnBadLog, OnFault};
ghost use Rattle.sdr_log.specs.Log.{are_good, names_line};
ghost use Rattle.sdr_log.specs.Reading.{IsBad, Noted, noted};

use crate::{BackError, Record};
use sdr_base::{Items, NoMemory};
use std::alloc::Global;
use std::marker::Model;

/// Records of open batches. Each is of a line of the heap, and no line is named twice.
#[derive(Drop)]
pub struct Noted {
    records: Items<Record>,
    /// Of each line of the heap region, whether a record names it.
    marks: Vec<bool>,
}

impl Model for Noted {
    ghost use Rattle.std.specs.Prelude.{length};
    ghost use Rattle.sdr_log.specs.Reading.{IsMarked, Noted};

    ghost Value = { Noted };

    ghost view = { λ n. record { lines = length n.marks.items; records = n.records } };

    ghost invariant = { λ n. IsMarked n.records n.marks.items };
}

impl Noted {
    /// No record yet, of a heap of so many lines.
    pub fn new(alloc: Global, lines: usize) -> Result<Noted, NoMemory>
        ensures { IfOk result (λ n. n ≡ record { lines = lines; records = [] }) }
    {
        Ok(Noted {
            records: Items::new(alloc),
            marks: vec![in alloc; false; lines]?,
        })
    }

    // Whether a line is one of the heap's, and no record names it yet.
    fn is_free(&self, line: u32) -> bool
        ensures { IsTrue result
            ↔ ((line < self.now.lines) × (names_line self.now.records line ≡ false)) }
    {
        (line as usize) < self.marks.len() && !self.marks[line as usize]
    }

    /// Adds a record, unless it isn't of a line of the heap, or another names its line.
    pub fn add(&mut self, old: Record) -> Result<(), BackError>
        ensures added { OnOk result (self.new ≡ noted self.old (old ∷ [])) }
        ensures bad_log { IfErr result (λ why. OnBadLog why (IsBad self.old (old ∷ []))) }
        ensures no_fault { IfErr result (λ why. OnFault why ⊥) }
    {
        if !self.is_free(old.line) {
            return Err(BackError::BadLog);
        }
        self.records.push(old)?;
        self.marks[old.line as usize] = true;
        Ok(())
    }

    /// The records, in the order in which they were added.
    pub fn into_records(self) -> Items<Record>
        ensures records { result ≡ self.records }
        ensures good { are_good self.lines result ≡ true }
    {
        self.records
    }
}
