// What the arguments of a step give, with what its names hold.
ghost use Rattle.std.specs.Prelude.{◌≡◌, ◌∷◌, [], OnOk};
ghost use Rattle.sdr_words.specs.Events.{nothing_given, given_number};
ghost use Rattle.sdr_words.specs.Bindings.{with_arg};

use crate::Bindings;
use crate::numbers::Numbers;
use sdr_base::{Acct, Bytes, NoMemory, Space};
use sdr_model::{Arg, Keys};
use std::alloc::Global;

/// What arguments give: their numbers in order, and the last of each other kind.
#[derive(Drop)]
pub struct Given {
    pub numbers: Numbers,
    pub text: Bytes,
    pub account: Acct,
    pub space: Space,
    pub order: Keys,
}

impl Given {
    /// No arguments.
    pub fn new(alloc: Global) -> Given
        ensures { result ≡ nothing_given }
    {
        Given {
            numbers: Numbers::new(alloc),
            text: Bytes::new(alloc),
            account: Acct::Inbound,
            space: Space::File,
            order: Keys::ByBytes,
        }
    }

    /// The first five numbers, 0 where there are no more.
    pub fn first_numbers(&self) -> [u64; 5]
        ensures { result ≡ given_number self.now 0 ∷ given_number self.now 1 ∷ given_number self.now 2
            ∷ given_number self.now 3 ∷ given_number self.now 4 ∷ [] }
    {
        [
            self.numbers.at(0),
            self.numbers.at(1),
            self.numbers.at(2),
            self.numbers.at(3),
            self.numbers.at(4),
        ]
    }

    /// Adds what an argument of a daemon's step gives.
    pub fn add(
        &mut self,
        alloc: Global,
        bindings: &Bindings,
        daemon: u8,
        arg: &Arg,
    ) -> Result<(), NoMemory>
        ensures { OnOk result (self.new ≡ with_arg bindings.now daemon self.old arg.now) }
    {
        match arg {
            Arg::Number(number) => self.numbers.push(*number)?,
            Arg::Named(name) => {
                let number = bindings.value(alloc, daemon, name.as_slice())?;
                self.numbers.push(number)?;
            }
            Arg::Text(text) => self.text = Bytes::copied(alloc, text.as_slice())?,
            Arg::Account(account) => self.account = *account,
            Arg::In(space) => self.space = *space,
            Arg::By(order) => self.order = *order,
        }
        Ok(())
    }
}
