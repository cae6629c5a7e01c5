// The orders of keys by their bytes and by their length, and a function that is stored.
ghost use Rattle.std.specs.Prelude.{◌≡◌};
ghost use Rattle.std.specs.declared.cmp.Ordering.{Ordering};
ghost use Rattle.sdr_list.specs.Orders.{IsKey};
ghost use Rattle.sdr_list.specs.Preorders.{key_order};

use crate::collation::Collate;
use std::cmp::Ordering;

/// What of two keys is compared.
#[derive(Clone, Copy, Drop)]
pub enum ListKeys {
    /// Byte by byte, and a key before those that it begins.
    ByBytes,
    /// The shorter before the longer. Keys of one length are equal.
    ByLength,
}

impl Collate for ListKeys {
    ghost use Rattle.sdr_list.specs.Preorders.{key_order, order_total};

    ghost order = { key_order };

    fn compare(&self, a: &[u8], b: &[u8]) -> Ordering {
        match self {
            ListKeys::ByBytes => a.cmp(b),
            ListKeys::ByLength => a.len().cmp(&b.len()),
        }
    }

    ghost total = { order_total };
}

/// A function that compares two keys.
pub type Compare = fn(&[u8], &[u8]) -> Ordering;

/// A function that is stored, beside what it compares by, and the facts that it may be called on
/// any two keys and answers so.
#[derive(Drop)]
pub struct Stored {
    compare: Compare,
    keys: ListKeys,
    ghost callable: { (a b : _) → IsKey a.now → IsKey b.now → Compare.pre compare a b },
    ghost answers: { (a b : _) (r : Ordering) → IsKey a.now → IsKey b.now
        → Compare.post compare a b r → r ≡ key_order keys a.now b.now },
}

impl Stored {
    /// Stores a function that compares by `keys`.
    pub fn new(compare: Compare, keys: ListKeys) -> Stored
        requires callable { (a b : _) → IsKey a.now → IsKey b.now → Compare.pre compare a b }
        requires answers { (a b : _) (r : Ordering) → IsKey a.now → IsKey b.now
            → Compare.post compare a b r → r ≡ key_order keys a.now b.now }
        ensures { ⟦<Stored as Collate>⟧.order result ≡ key_order keys }
    {
        Stored { compare, keys }
    }
}

impl Collate for Stored {
    ghost use Rattle.sdr_list.specs.Preorders.{key_order, order_total};

    ghost order = { λ s. key_order s.keys };

    fn compare(&self, a: &[u8], b: &[u8]) -> Ordering {
        (self.compare)(a, b)
    }

    ghost total = { λ s. order_total s.keys };
}
