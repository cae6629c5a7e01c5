ghost use Rattle.std.specs.Prelude.{◌≡◌};
ghost use Rattle.std.specs.Borrow.{sem};
ghost use Rattle.sdr_turn.specs.Lending.{LendsValue};

use std::marker::Model;

/// The value, out of the lock. It is not `Drop`, so it has to be given back.
pub struct Held<V> {
    pub(crate) value: V,
}

impl<V> Model for Held<V> {
    ghost use Rattle.std.specs.Prelude.{◌≡◌};

    ghost Value = { V };

    ghost coded = { V.code };

    ghost view = { λ h. h.value };
}

impl<V> Held<V> {
    /// The value. What is written through the borrow is what the holder then has.
    pub fn value(&mut self) -> &mut V
        ensures* writes_back { sem 𝓛 (LendsValue V.row self.entry result) }
        ensures value { result.now ≡ self.old }
    {
        &mut self.value
    }
}
