ghost use Rattle.std.specs.Prelude.{◌≡◌};

use std::marker::Model;

/// A lock number that was drawn, from 1 up. It is not `Drop`, so it has to be spent: no thread can forget its turn.
pub struct Number {
    pub(crate) value: u64,
}

impl Model for Number {
    ghost use Rattle.std.specs.Prelude.{ℕ, ◌<◌};

    ghost Value = { ℕ };

    ghost view = { λ n. n.value };

    ghost invariant = { λ n. 0 < n.value };
}

impl Number {
    /// The number.
    pub fn get(&self) -> u64
        ensures { result ≡ self.now }
    {
        self.value
    }
}
