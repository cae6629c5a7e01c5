// Where each line of a heap region stands.
ghost use Rattle.std.specs.Prelude.{◌≡◌, ◌≤◌, ◌<◌, ◌-◌, ◌==◌, ℕ, true, cond, length, IfOk, filter, replicate};
ghost use Rattle.std.specs.Prelude.{slice_set};
ghost use Rattle.std.specs.List.{range_with_len};
ghost use Rattle.sdr_log.specs.Log.{names_line};
ghost use Rattle.sdr_image.specs.Marks.{IsPlaced, is_clean, stand_at, stand_of};
ghost use Rattle.sdr_image.specs.declared.marks.Stand.TheVariants.{Clean};

use crate::buffer::MOST_BUFFERED;
use sdr_base::NoMemory;
use sdr_log::Record;
use std::alloc::Global;
use std::marker::Model;

/// Where the bytes of a line stand.
#[derive(Clone, Copy, Debug, PartialEq, Eq)]
pub enum Stand {
    /// It isn't touched: the heap region has them.
    Clean,
    /// In the buffer, at this place.
    Buffered(u8),
    /// An open batch has those at begin, and the heap region those now.
    Logged,
}

const CLEAN: u8 = 0;

const LOGGED: u8 = 65;

// The byte of a line that stands there.
#[tactic(auto, unfolding(crate::specs::Marks::stand_of))]
fn byte_of(stand: Stand) -> u8
    requires { IsPlaced stand }
    ensures { stand_of result ≡ stand }
{
    match stand {
        Stand::Clean => CLEAN,
        Stand::Buffered(place) => place + 1,
        Stand::Logged => LOGGED,
    }
}

// Where the line stands that has this byte.
#[tactic(auto, unfolding(crate::specs::Marks::stand_of))]
fn stand_of(byte: u8) -> Stand
    ensures { result ≡ stand_of byte }
{
    if byte == CLEAN {
        return Stand::Clean;
    }
    if byte == LOGGED {
        return Stand::Logged;
    }
    Stand::Buffered(byte - 1)
}

/// Where each line of a heap region stands, in a byte for each.
#[derive(Drop)]
pub struct Marks {
    bytes: Vec<u8>,
}

impl Model for Marks {
    ghost use Rattle.std.specs.Prelude.{List, map};
    ghost use Rattle.sdr_image.specs.declared.marks.Stand.{Stand};
    ghost use Rattle.sdr_image.specs.Marks.{stand_of};

    ghost Value = { List Stand };

    ghost view = { λ s. map stand_of s.bytes.items };
}

// How many lines are clean.
fn count_clean(bytes: &[u8]) -> usize
    ensures { result ≡ length (filter (λ byte. byte == 0) bytes.now) }
{
    bytes.iter().filter(|byte| **byte == CLEAN).count()
}

impl Marks {
    ghost use Rattle.sdr_image.specs.declared.marks.Stand.{Stand};

    /// So many lines, each clean.
    pub fn new(alloc: Global, lines: usize) -> Result<Marks, NoMemory>
        ensures { IfOk result (λ marks. marks ≡ replicate lines Clean) }
    {
        Ok(Marks {
            bytes: vec![in alloc; CLEAN; lines]?,
        })
    }

    /// Where a line stands.
    pub fn at(&self, line: u64) -> Stand
        requires { line < length self.now }
        ensures { result ≡ stand_at self.now line }
    {
        stand_of(self.bytes[line as usize])
    }

    /// Whether a line isn't touched.
    pub fn is_clean(&self, line: u64) -> bool
        requires { line < length self.now }
        ensures { result ≡ is_clean (stand_at self.now line) }
    {
        matches!(self.at(line), Stand::Clean)
    }

    /// Puts down where a line stands.
    pub fn set(&mut self, line: u64, stand: Stand)
        requires below { line < length self.old }
        requires placed { IsPlaced stand }
        ensures { self.new ≡ slice_set self.old line stand }
    {
        self.bytes[line as usize] = byte_of(stand);
    }

    /// Puts down where these lines stand.
    pub fn set_all(&mut self, lines: &[Record], stand: Stand)
        requires below { (line : ℕ) → names_line lines.now line ≡ true → line < length self.old }
        requires placed { IsPlaced stand }
        ensures long { length self.new ≡ length self.old }
        ensures marked { (line : ℕ) → stand_at self.new line
            ≡ cond (names_line lines.now line) stand (stand_at self.old line) }
    {
        let mut rest = lines;
        while let Some((first, after)) = rest.split_first() {
            self.set(first.line as u64, stand);
            rest = after;
        }
    }

    /// Puts down that all lines are clean.
    pub fn clear(&mut self)
        ensures { self.new ≡ replicate (length self.old) Clean }
    {
        self.bytes.fill(CLEAN);
    }

    /// How many of the lines from the first to the one before the end are clean.
    pub fn untouched(&self, first: u64, end: u64) -> u64
        requires order { first ≤ end }
        requires below { end ≤ length self.now }
        ensures { result ≡ length (filter (λ line. is_clean (stand_at self.now line))
            (range_with_len first (end - first))) }
    {
        count_clean(&self.bytes[first as usize..end as usize]) as u64
    }
}
