// Media in memory.
ghost use Rattle.std.specs.Prelude.{◌≡◌, ◌+◌, ◌≤◌, ◌<◌, ◌↔◌, Contains, IfOk, IsErr, OnErr, OnOk, Some, drop, length};
ghost use Rattle.sdr_base.specs.Causes.{HasCause, Rose};
ghost use Rattle.sdr_base.specs.Media.{GivesFrom, file_bytes, item_bytes};
ghost use Rattle.sdr_media.specs.MemoryMedia.{file_held, item_held};

use crate::counts::Counts;
use sdr_base::{Bytes, Media, MediaFault};
use std::marker::Model;

/// Media that tell what their files and items hold, and fail at listed calls.
#[derive(Drop)]
pub struct MemoryMedia {
    /// What each path holds. Where a path stands twice, the first counts.
    files: Vec<(Bytes, Bytes)>,
    /// What each item holds. Where a number stands twice, the first counts.
    items: Vec<(u64, Bytes)>,
    /// What was counted of the calls so far.
    counts: Counts,
    /// The numbers of the calls that fail, counted from 1.
    failing: Vec<u64>,
}

impl Model for MemoryMedia {
    ghost use Rattle.sdr_media.specs.MemoryMedia.{Stock};

    ghost Value = { Stock };

    ghost view = { λ m. record {
      files = m.files.items;
      items = m.items.items;
      counts = m.counts;
      failing = m.failing.items;
    } };
}

impl MemoryMedia {
    ghost use Rattle.sdr_media.specs.Counts.{asked, failed};
    ghost use Rattle.sdr_media.specs.MemoryMedia.{Stock, called, told_by};

    /// Media with these files and items, whose calls fail where their numbers, counted from 1, are in
    /// `failing`. Where a path or a number stands twice, the first counts.
    pub fn new(
        files: Vec<(Bytes, Bytes)>,
        items: Vec<(u64, Bytes)>,
        failing: Vec<u64>,
    ) -> MemoryMedia
        ensures told { ⟦<MemoryMedia as Media>⟧.told result
            ≡ Some (told_by files.items items.items) }
        ensures faults { ⟦<MemoryMedia as Media>⟧.faults result ≡ 0 }
        ensures short { ⟦<MemoryMedia as Media>⟧.short result ≡ 0 }
        ensures asks { ⟦<MemoryMedia as Media>⟧.asks result ≡ 0 }
        ensures fresh { result ≡ record {
          files = files.items;
          items = items.items;
          counts = record { asks = 0; faults = 0; short = 0 };
          failing = failing.items;
        } }
    {
        MemoryMedia {
            files,
            items,
            counts: Counts::new(),
            failing,
        }
    }

    // Begins a call, which fails where its number is listed.
    fn begin(&mut self) -> Result<(), MediaFault>
        ensures ok { OnOk result (self.new ≡ called self.old) }
        ensures err { OnErr result
            (self.new ≡ record self.old { counts = failed (asked self.old.counts) }) }
        ensures fails { IsErr result ↔ Contains self.old.failing self.new.counts.asks }
        ensures asks { self.new.counts.asks ≤ self.old.counts.asks + 1 }
        ensures cause { HasCause self.old.counts.faults self.new.counts.faults result }
    {
        self.counts.count_ask();
        if self.failing.contains(&self.counts.asks) {
            return Err(self.counts.count_fault());
        }
        Ok(())
    }
}

// What the first file of a path holds.
fn file_held<'a>(files: &'a [(Bytes, Bytes)], path: &[u8]) -> &'a [u8]
    ensures { result.now ≡ file_held path.now files.now }
{
    for (key, bytes) in files {
        if key.as_slice() == path {
            return bytes.as_slice();
        }
    }
    &[]
}

// What the first item of a number holds.
fn item_held(items: &[(u64, Bytes)], number: u64) -> &[u8]
    ensures { result.now ≡ item_held number items.now }
{
    for (key, bytes) in items {
        if *key == number {
            return bytes.as_slice();
        }
    }
    &[]
}

// Copies bytes from a place on into the front of a buffer, as many as it has room for.
fn copy_from(bytes: &[u8], offset: u64, into: &mut [u8]) -> usize
    ensures given { GivesFrom (Some bytes.now) offset result into.new }
    ensures rest { drop result into.new ≡ drop result into.old }
    ensures bound { result ≤ length into.new }
{
    let start = offset.min(bytes.len() as u64) as usize;
    let rest = &bytes[start..];
    let count = rest.len().min(into.len());
    into[..count].copy_from_slice(&rest[..count]);
    count
}

impl Media for MemoryMedia {
    ghost use Rattle.sdr_media.specs.MemoryMedia.{AnswersRead, told_of};

    ghost told = { told_of };

    ghost faults = { λ m. m.counts.faults };

    ghost short = { λ m. m.counts.short };

    ghost asks = { λ m. m.counts.asks };

    fn file_read(&mut self, path: &[u8], offset: u64, into: &mut [u8]) -> Result<u64, MediaFault>
        ensures bound { IfOk result (λ n. n ≤ length into.new) }
        ensures bytes { IfOk result (λ n.
            GivesFrom (file_bytes (told_of self.old) path.now) offset n into.new) }

        ensures same { told_of self.new ≡ told_of self.old }
        ensures later { self.old.counts.short ≤ self.new.counts.short }
        ensures short { IfOk result (λ n. n < length into.new →
            Rose self.old.counts.short self.new.counts.short) }
        ensures asks { self.new.counts.asks ≤ self.old.counts.asks + 1 }
        ensures cause { HasCause self.old.counts.faults self.new.counts.faults result }

        // It fails just where its number is listed, and what it doesn't give stays in the buffer.
        ensures answers { AnswersRead result self.old self.new into.old into.new }
    {
        self.begin()?;
        let count = copy_from(file_held(&self.files, path), offset, into);
        self.counts.count_answer(count, into.len());
        Ok(count as u64)
    }

    fn bulk_read(&mut self, item: u64, offset: u64, into: &mut [u8]) -> Result<u64, MediaFault>
        ensures bound { IfOk result (λ n. n ≤ length into.new) }
        ensures bytes { IfOk result (λ n.
            GivesFrom (item_bytes (told_of self.old) item) offset n into.new) }

        ensures same { told_of self.new ≡ told_of self.old }
        ensures later { self.old.counts.short ≤ self.new.counts.short }
        ensures short { IfOk result (λ n. n < length into.new →
            Rose self.old.counts.short self.new.counts.short) }
        ensures asks { self.new.counts.asks ≤ self.old.counts.asks + 1 }
        ensures cause { HasCause self.old.counts.faults self.new.counts.faults result }

        // It fails just where its number is listed, and what it doesn't give stays in the buffer.
        ensures answers { AnswersRead result self.old self.new into.old into.new }
    {
        self.begin()?;
        let count = copy_from(item_held(&self.items, item), offset, into);
        self.counts.count_answer(count, into.len());
        Ok(count as u64)
    }
}
