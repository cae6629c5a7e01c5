// What the leader of a block tells, as it stands.
ghost use Rattle.std.specs.Prelude.{◌≡◌, ◌+◌, ◌*◌, ◌≤◌, ◌<◌, ◌^◌, cond, length, nat_le, not, ◌==◌, ◌&&◌, ◌||◌};
ghost use Rattle.sdr_base.specs.Rules.{words_for};
ghost use Rattle.sdr_base.specs.Stored.{leader_kind, leader_length, leader_words};
ghost use Rattle.sdr_base.specs.declared.line.TheConstants.{WORD};
ghost use Rattle.audit_blocks.specs.Labels.{IsLabel, fits_small, has_enough, is_led, label_empty, label_spot};

use crate::spot::Spot;
use byteorder::{BigEndian, ByteOrder};
use sdr_base::WORD;

/// The leader of a block: the number of its kind, which is 0 where it is free, its words, and its length in bytes.
#[derive(Clone, Copy)]
pub struct Label {
    pub kind: u8,
    pub words: u64,
    pub length: u64,
}

/// The leader at a place, in bytes.
pub fn read_label(heap: &[u8], place: u64) -> Label
    requires inside { place + WORD ≤ length heap.now }
    ensures given { IsLabel heap.now place result }
    ensures words { result.words < 2 ^ 32 }
    ensures length { result.length < 2 ^ 32 }
{
    let place = place as usize;
    Label {
        kind: heap[place],
        words: BigEndian::read_u24(&heap[place + 1..place + 4]) as u64,
        length: BigEndian::read_u32(&heap[place + 4..place + 8]) as u64,
    }
}

impl Label {
    /// Whether the block is in use.
    pub fn is_used(&self) -> bool
        ensures { result ≡ is_led self.now }
    {
        self.kind != 0
    }

    /// What a word is told that the block begins with.
    pub fn spot(&self) -> Spot
        ensures { result ≡ label_spot self.now }
    {
        if self.is_used() {
            Spot::Used
        } else {
            Spot::Free
        }
    }

    /// How many words its length needs.
    pub fn need(&self) -> u64
        ensures { result ≡ words_for self.now.length }
    {
        self.length.div_ceil(WORD).max(1)
    }

    /// Whether the words of a small block are those that its length needs, or more where it is free.
    pub fn fits_small(&self) -> bool
        ensures { result ≡ fits_small self.now }
    {
        self.need() <= self.words && (!self.is_used() || self.need() == self.words)
    }

    /// Whether a large block has the words that its length needs.
    pub fn fits_large(&self) -> bool
        ensures { result ≡ has_enough self.now }
    {
        self.need() <= self.words
    }

    /// Whether a free block has length 0.
    pub fn is_empty(&self) -> bool
        ensures { result ≡ label_empty self.now }
    {
        self.is_used() || self.length == 0
    }
}
