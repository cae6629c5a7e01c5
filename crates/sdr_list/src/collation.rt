// Comparisons that lists are kept in order by.
ghost use Rattle.std.specs.Prelude.{◌≡◌, ℕ, List};
ghost use Rattle.std.specs.declared.cmp.Ordering.{Ordering};
ghost use Rattle.sdr_list.specs.Orders.{IsKey, IsPreorder};

use std::cmp::Ordering;

/// A comparison of keys of at most 64 bytes, which is a total preorder there: keys that differ may
/// be equal by it. Any will do whose implementor proves that; `on_keys` proves it of a total order
/// of all lists of bytes.
pub trait Collate {
    /// How two keys compare.
    ghost order: { Self → List ℕ → List ℕ → Ordering };

    /// Compares two keys.
    fn compare(&self, a: &[u8], b: &[u8]) -> Ordering
        requires a { IsKey a.now }
        requires b { IsKey b.now }
        ensures { result ≡ order self.now a.now b.now };

    /// On keys the order is total.
    ghost total: { (s : Self) → IsPreorder (order s) };
}

/// A comparison, beside the fact that it is a total preorder on keys: its bound keeps that.
#[derive(Drop)]
pub struct Collation<F: Collate> {
    pub by: F,
}

impl<F: Collate> Collation<F> {
    /// Keeps a comparison.
    pub fn new(by: F) -> Collation<F>
        ensures { result.by ≡ by }
    {
        Collation { by }
    }

    /// Compares two keys.
    pub fn compare(&self, a: &[u8], b: &[u8]) -> Ordering
        requires a { IsKey a.now }
        requires b { IsKey b.now }
        ensures { result ≡ F.order self.now.by a.now b.now }
    {
        self.by.compare(a, b)
    }
}
