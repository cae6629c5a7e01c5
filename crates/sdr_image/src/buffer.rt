// The touched lines that no open batch names.
ghost use Rattle.std.specs.Prelude.{◌≡◌, ◌≤◌, ◌<◌, ◌+◌, ◌∷◌, ◌++◌, [], ℕ, length, IfOk, slice_set, get_or};
ghost use Rattle.std.specs.Prelude.{IsPermutation, vec_capacity};
ghost use Rattle.std.specs.List.Sorted.{IsNonDecreasingBy};
ghost use Rattle.sdr_log.specs.Log.{AreLines};

use sdr_base::{LINE, NoMemory, put_at};
use sdr_log::Record;
use std::alloc::Global;
use std::marker::Model;

/// How many lines a buffer holds at most.
pub const MOST_BUFFERED: usize = 64;

/// Touched lines, with their bytes at begin and now. Contracts see both, in the order in which the
/// lines were touched.
#[derive(Drop)]
pub struct Buffer {
    olds: Vec<Record>,
    news: Vec<Record>,
}

impl Model for Buffer {
    ghost use Rattle.std.specs.Prelude.{vec_capacity};
    ghost use Rattle.sdr_image.specs.Buffer.{Changes, IsBuffer};

    ghost Value = { Changes };

    ghost view = { λ s. record { olds = s.olds.items; news = s.news.items } };

    ghost invariant = { λ s.
        IsBuffer s.olds.items s.news.items (vec_capacity s.olds) (vec_capacity s.news) };
}

// Puts the records by rising number of their lines.
fn rise(records: &mut Vec<Record>)
    ensures lines { IsPermutation records.old.items records.new.items }
    ensures rising { IsNonDecreasingBy (λ r. r.line) records.new.items }
    ensures capacity { vec_capacity records.new ≡ vec_capacity records.old }
{
    records.sort_unstable_by_key(|record| record.line);
}

impl Buffer {
    ghost use Rattle.sdr_image.specs.Buffer.{Rises, with_bytes};

    /// No line yet, with memory for all.
    pub fn new(alloc: Global) -> Result<Buffer, NoMemory>
        ensures { IfOk result (λ b. b ≡ record { olds = []; news = [] }) }
    {
        Ok(Buffer {
            olds: Vec::with_capacity(alloc, MOST_BUFFERED)?,
            news: Vec::with_capacity(alloc, MOST_BUFFERED)?,
        })
    }

    /// How many lines there are.
    pub fn len(&self) -> usize
        ensures len { result ≡ length self.now.olds }
        ensures few { result ≤ MOST_BUFFERED }
        ensures long { length self.now.news ≡ length self.now.olds }
        ensures whole { AreLines self.now.olds × AreLines self.now.news }
    {
        self.olds.len()
    }

    /// The lines with their bytes at begin.
    pub fn olds(&self) -> &[Record]
        ensures { result.now ≡ self.now.olds }
    {
        self.olds.as_slice()
    }

    /// The lines with their bytes now.
    pub fn news(&self) -> &[Record]
        ensures { result.now ≡ self.now.news }
    {
        self.news.as_slice()
    }

    /// The bytes now of the line at a place.
    pub fn at(&self, place: u8) -> &[u8; 64]
        requires { place < length self.now.news }
        ensures { (d : Record) → result.now ≡ (get_or self.now.news place d).bytes }
    {
        &self.news[place as usize].bytes
    }

    /// Puts bytes into the line at a place, from a place of it on.
    pub fn put(&mut self, place: u8, at: usize, from: &[u8])
        requires below { place < length self.old.news }
        requires inside { at + length from.now ≤ LINE }
        ensures { (d : Record) → self.new ≡ record self.old {
          news = slice_set self.old.news place (with_bytes at from.now
              (get_or self.old.news place d));
        } }
    {
        put_at(&mut self.news[place as usize].bytes, at, from);
    }

    /// Adds a line, with its bytes at begin and now.
    pub fn push(&mut self, line: u32, old: [u8; 64], new: [u8; 64])
        requires room { length self.old.olds < MOST_BUFFERED }
        requires old { length old ≡ LINE }
        requires new { length new ≡ LINE }
        ensures { self.new ≡ record {
          olds = self.old.olds ++ record { line = line; bytes = old } ∷ [];
          news = self.old.news ++ record { line = line; bytes = new } ∷ [];
        } }
    {
        self.olds.push_reserved(Record { line, bytes: old });
        self.news.push_reserved(Record { line, bytes: new });
    }

    /// Puts the lines by rising number.
    pub fn rise(&mut self)
        ensures { Rises self.old self.new }
    {
        rise(&mut self.olds);
        rise(&mut self.news);
    }

    /// Forgets all lines.
    pub fn clear(&mut self)
        ensures { self.new ≡ record { olds = []; news = [] } }
    {
        self.olds.clear();
        self.news.clear();
    }
}
