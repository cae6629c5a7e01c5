// The bytes that a call has given.
ghost use Rattle.std.specs.Prelude.{◌≡◌, ◌≤◌, [], length};

use std::marker::Model;

/// The most bytes that a call gives.
pub const PAGE: usize = 4096;

/// At most `PAGE` bytes.
#[derive(Drop)]
pub struct Page {
    bytes: [u8; PAGE],
    count: usize,
}

impl Model for Page {
    ghost use Rattle.std.specs.Prelude.{ℕ, List, take, ◌≤◌};

    ghost Value = { List ℕ };

    ghost view = { λ s. take s.count s.bytes };

    ghost invariant = { λ s. s.count ≤ 4096 };
}

impl Page {
    /// No bytes.
    pub fn new() -> Page
        ensures { result ≡ [] }
    {
        Page {
            bytes: [0; PAGE],
            count: 0,
        }
    }

    /// These bytes in place of those before.
    pub fn show(&mut self, from: &[u8])
        requires { length from.now ≤ 4096 }
        ensures { self.new ≡ from.now }
    {
        self.count = from.len();
        self.bytes[..self.count].copy_from_slice(from);
    }

    /// No bytes in place of those before.
    pub fn clear(&mut self)
        ensures { self.new ≡ [] }
    {
        self.count = 0;
    }

    /// The bytes.
    pub fn as_slice(&self) -> &[u8]
        ensures bytes { result.now ≡ self.now }
        ensures few { length result.now ≤ 4096 }
    {
        &self.bytes[..self.count]
    }
}
