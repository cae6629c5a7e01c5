// A line in the making.
ghost use Rattle.std.specs.Prelude.{◌≡◌, ◌≤◌, ◌+◌, ◌++◌, [], List, ℕ, length, take, decimal, codes};

use itoa::Buffer;
use std::marker::Model;

/// The bytes that a line has room for.
const ROOM: usize = 1024;

/// Puts bytes behind the first of a buffer, so many, and gives how many there are then.
#[tactic(auto, using(std::proofs::lemmas::Slice::overwrites))]
pub fn put_behind(buffer: &mut [u8], len: usize, from: &[u8]) -> usize
    requires { len + length from.now ≤ length buffer.old }
    ensures end { result ≡ len + length from.now }
    ensures text { take result buffer.new ≡ take len buffer.old ++ from.now }
{
    let end = len + from.len();
    buffer[len..end].copy_from_slice(from);
    end
}

/// The front of a line, built in place so that it goes out in one write. Contracts see the bytes.
#[derive(Drop)]
pub struct Line {
    bytes: [u8; ROOM],
    len: usize,
}

impl Model for Line {
    ghost use Rattle.std.specs.Prelude.{◌≤◌, List, ℕ, take};

    ghost Value = { List ℕ };

    ghost view = { λ s. take s.len s.bytes };

    ghost invariant = { λ s. s.len ≤ 1024 };
}

impl Line {
    pub fn new() -> Line
        ensures { result ≡ [] }
    {
        Line {
            bytes: [0; ROOM],
            len: 0,
        }
    }

    pub fn as_slice(&self) -> &[u8]
        ensures { result.now ≡ self.now }
    {
        &self.bytes[..self.len]
    }

    pub fn push(&mut self, from: &[u8])
        requires { length self.old + length from.now ≤ 1024 }
        ensures { self.new ≡ self.old ++ from.now }
    {
        self.len = put_behind(&mut self.bytes, self.len, from);
    }

    /// Adds a number in decimal digits.
    #[tactic(auto, using(crate::proofs::LineLemmas::digits))]
    pub fn number(&mut self, number: u64)
        requires { length self.old + 20 ≤ 1024 }
        ensures text { self.new ≡ self.old ++ decimal number }
        ensures len { length self.new ≤ length self.old + 20 }
    {
        let mut buffer = Buffer::new();
        let text = buffer.format(number).as_bytes();
        self.push(text);
    }

    /// Adds a space and a number.
    pub fn field(&mut self, number: u64)
        requires { length self.old + 21 ≤ 1024 }
        ensures text { self.new ≡ self.old ++ codes " " ++ decimal number }
        ensures len { length self.new ≤ length self.old + 21 }
    {
        self.push(b" ");
        self.number(number);
    }
}
