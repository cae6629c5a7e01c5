// Clean lines, as the disk has them.
ghost use Rattle.std.specs.Prelude.{◌≡◌, ◌≢◌, ◌≤◌, ◌<◌, ◌%◌, [], ◌⊎◌, ℕ, length, filter, map, is_some, Contains, IfOk, IfSome};
ghost use Rattle.std.specs.List.{range_with_len};

use sdr_base::NoMemory;
use sdr_log::Record;
use std::alloc::{AllocError, Global};
use std::marker::Model;

/// How many lines a cache keeps at most.
pub const MOST_CACHED: usize = 256;

/// Lines of a heap region with the bytes that the disk has there. A line has one place in which it
/// can stand, which it shares with others. Contracts see the lines and their bytes.
#[derive(Drop)]
pub struct Cache {
    places: Vec<Option<Record>>,
}

impl Model for Cache {
    ghost use Rattle.std.specs.Prelude.{List, ℕ};
    ghost use Rattle.sdr_image.specs.Cache.{IsTable, entries_of};

    ghost Value = { List (ℕ × List ℕ) };

    ghost view = { λ s. entries_of s.places.items };

    ghost invariant = { λ s. IsTable s.places.items };
}

// The place of a line.
fn place_of(line: u32) -> usize
    ensures is { result ≡ line % MOST_CACHED }
    ensures below { result < MOST_CACHED }
{
    line as usize % MOST_CACHED
}

// As many places as lines may be kept, none of which has a line.
fn no_lines(alloc: Global) -> Result<Vec<Option<Record>>, AllocError>
    ensures { IfOk result (λ v. v.items ≡ map (λ _. None) (range_with_len 0 MOST_CACHED)) }
{
    (0..MOST_CACHED).map(|_| None).collect(alloc)
}

// How many places have a line.
fn count_lines(places: &[Option<Record>]) -> usize
    ensures { result ≡ length (filter is_some places.now) }
{
    places.iter().filter(|place| place.is_some()).count()
}

impl Cache {
    ghost use Rattle.std.specs.Prelude.{List};

    /// No line yet.
    pub fn new(alloc: Global) -> Result<Cache, NoMemory>
        ensures { IfOk result (λ c. c ≡ []) }
    {
        Ok(Cache {
            places: no_lines(alloc)?,
        })
    }

    /// How many lines there are.
    pub fn len(&self) -> usize
        ensures len { result ≡ length self.now }
        ensures few { result ≤ MOST_CACHED }
    {
        count_lines(&self.places)
    }

    /// The bytes of a line, where it is kept.
    pub fn find(&self, line: u32) -> Option<&[u8; 64]>
        ensures { IfSome result (λ bytes. Contains self.now (line, bytes.now)) }
    {
        match &self.places[place_of(line)] {
            Some(record) if record.line == line => Some(&record.bytes),
            _ => None,
        }
    }

    /// Keeps a line. Another may go.
    pub fn keep(&mut self, line: u32, bytes: [u8; 64])
        ensures { (e : ℕ × List ℕ) → Contains self.new e → Contains self.old e ⊎ (e ≡ (line, bytes)) }
    {
        self.places[place_of(line)] = Some(Record { line, bytes });
    }

    /// Forgets a line. Another may go.
    pub fn forget(&mut self, line: u32)
        ensures { (e : ℕ × List ℕ) → Contains self.new e → Contains self.old e × (e.0 ≢ line) }
    {
        self.places[place_of(line)] = None;
    }
}
