// Input that is read whole before it is used.
ghost use Rattle.std.specs.Prelude.{◌≡◌, ◌≤◌, ◌+◌, ◌↔◌, [], true, IfOk, IsErr, Some, length};
ghost use Rattle.std.specs.Io.KnownBytes.{ReadConsumes};
ghost use Rattle.sdr_base.specs.Causes.{HasCause, counted};
ghost use Rattle.sdr_system.specs.Held.{HoldsInput};

use sdr_base::{Bytes, NoMemory, Source, SourceFault};
use std::alloc::Global;
use std::marker::Model;

/// The most bytes that are held of an input: one more than a script may have.
pub const MOST_HELD: usize = 1_048_577;

/// So many bytes are asked of the source at once.
const PIECE: usize = 4096;

/// What was read of an input: its first bytes, and whether it failed behind them.
#[derive(Drop)]
pub struct Held {
    pub bytes: Bytes,
    pub failed: bool,
}

impl Held {
    /// The same input as a source.
    pub fn source(&self) -> HeldSource<'_>
        ensures { result ≡ record {
          left = self.now.bytes;
          failed = self.now.failed;
          faults = 0;
          reads = 0;
        } }
    {
        HeldSource {
            rest: self.bytes.as_slice(),
            failed: self.failed,
            faults: 0,
            reads: 0,
        }
    }
}

/// Reads an input to its end, to its first fault, or as far as it is held.
#[tactic(auto, using(crate::proofs::HeldLemmas::holding))]
pub fn hold<S: Source>(alloc: Global, source: &mut S) -> Result<Held, NoMemory>
    ensures held { IfOk result (HoldsInput (S.left source.old) (S.left source.new)
        (S.faults source.old) (S.faults source.new)) }
    ensures later { S.faults source.old ≤ S.faults source.new }
    ensures reads { S.reads source.new ≤ S.reads source.old + 1048577 }
{
    let mut bytes = Vec::new(alloc);
    let mut failed = false;
    let mut piece = [0u8; PIECE];
    while bytes.len() < MOST_HELD {
        let asked = &mut piece[..(MOST_HELD - bytes.len()).min(PIECE)];
        match source.read(asked) {
            Ok(0) => break,
            Ok(count) => bytes.extend_from_slice(&asked[..count as usize])?,
            Err(SourceFault) => {
                failed = true;
                break;
            }
        }
    }
    Ok(Held {
        bytes: Bytes::of(bytes),
        failed,
    })
}

/// A held input as a source: it gives the bytes in order, and then the fault, where one came.
#[derive(Drop)]
pub struct HeldSource<'a> {
    rest: &'a [u8],
    failed: bool,
    faults: u64,
    reads: u64,
}

impl<'a> Model for HeldSource<'a> {
    ghost use Rattle.sdr_system.specs.HeldFeed.{HeldFeed};

    ghost Value = { HeldFeed };

    ghost view = { λ s. record {
      left = s.rest.now;
      failed = s.failed;
      faults = s.faults;
      reads = s.reads;
    } };
}

impl Source for HeldSource<'_> {
    ghost left = { λ s. Some s.left };

    ghost faults = { λ s. s.faults };

    ghost reads = { λ s. s.reads };

    fn read(&mut self, into: &mut [u8]) -> Result<u64, SourceFault>
        ensures bound { IfOk result (λ n. n ≤ length into.new) }
        ensures bytes { ReadConsumes (Some self.old.left) (Some self.new.left) result into.new }
        ensures cause { HasCause self.old.faults self.new.faults result }
        ensures reads { self.new.reads ≡ counted self.old.reads }

        // It fails behind the last byte of an input that failed, and nowhere else.
        ensures fails { IsErr result ↔ ((self.old.failed ≡ true) × (self.old.left ≡ [])) }
        ensures failed { self.new.failed ≡ self.old.failed }
    {
        self.reads = self.reads.saturating_add(1);
        if self.failed && self.rest.is_empty() {
            self.faults = self.faults.saturating_add(1);
            return Err(SourceFault);
        }
        let (front, rest) = self.rest.split_at(self.rest.len().min(into.len()));
        into[..front.len()].copy_from_slice(front);
        self.rest = rest;
        Ok(front.len() as u64)
    }
}
