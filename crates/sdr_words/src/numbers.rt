// The numbers that arguments give.
ghost use Rattle.std.specs.Prelude.{◌≡◌, ◌<◌, ◌++◌, ◌∷◌, [], OnOk, OnErr, slice_index};

use sdr_base::{Items, NoMemory};
use std::alloc::Global;
use std::marker::Model;

/// So many numbers stand in place: no verb takes more.
const IN_PLACE: usize = 5;

/// Numbers in order. The first five take no memory. Contracts see the list of them.
#[derive(Drop)]
pub struct Numbers {
    first: [u64; IN_PLACE],
    count: usize,
    rest: Items<u64>,
}

impl Model for Numbers {
    ghost use Rattle.std.specs.Prelude.{ℕ, List, take, ◌++◌};
    ghost use Rattle.sdr_words.specs.Numbers.{StandInPlace};

    ghost Value = { List ℕ };

    ghost view = { λ s. take s.count s.first ++ s.rest };

    ghost invariant = { λ s. StandInPlace s.first s.count s.rest };
}

impl Numbers {
    /// No numbers. It takes no memory.
    #[tactic(auto, using(crate::proofs::NumbersLemmas::numbers))]
    pub fn new(alloc: Global) -> Numbers
        ensures { result ≡ [] }
    {
        Numbers {
            first: [0; IN_PLACE],
            count: 0,
            rest: Items::new(alloc),
        }
    }

    /// Adds a number at the end. Want of memory leaves the numbers as before.
    #[tactic(auto, using(crate::proofs::NumbersLemmas::numbers))]
    pub fn push(&mut self, number: u64) -> Result<(), NoMemory>
        ensures ok { OnOk result (self.new ≡ self.old ++ number ∷ []) }
        ensures err { OnErr result (self.new ≡ self.old) }
    {
        if self.count < IN_PLACE {
            self.first[self.count] = number;
            self.count += 1;
            return Ok(());
        }
        self.rest.push(number)
    }

    /// The number at a place, 0 where there are no more.
    #[tactic(auto, using(crate::proofs::NumbersLemmas::numbers))]
    pub fn at(&self, place: usize) -> u64
        requires { place < IN_PLACE }
        ensures { result ≡ slice_index self.now place }
    {
        self.first[place]
    }
}
