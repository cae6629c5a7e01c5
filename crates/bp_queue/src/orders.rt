// The orders by which items stand.
ghost use Rattle.std.specs.Prelude.{◌≡◌};
ghost use Rattle.bp_queue.specs.Keys.{ByDeadline, ByOrdinal, deadline_in, rank_in};

use byteorder::{BigEndian, ByteOrder};
use sdr_list::{Collate, Collation};
use std::cmp::Ordering;

/// The orders by which items stand: of the number in the first eight bytes of a key, which is the
/// deadline, and of the byte behind it, which is the higher the lower the ordinal is. Any two
/// comparisons will do that are so on keys of 48 bytes.
#[derive(Drop)]
pub struct Orders<F: Collate + Drop, G: Collate + Drop> {
    pub(crate) deadline: Collation<F>,
    pub(crate) ordinal: Collation<G>,
    ghost rises: { ByDeadline (F.order deadline.by) },
    ghost falls: { ByOrdinal (G.order ordinal.by) },
}

impl<F: Collate + Drop, G: Collate + Drop> Orders<F, G> {
    /// Keeps two comparisons.
    pub fn new(deadline: Collation<F>, ordinal: Collation<G>) -> Orders<F, G>
        requires rises { ByDeadline (F.order deadline.by) }
        requires falls { ByOrdinal (G.order ordinal.by) }
    {
        Orders { deadline, ordinal }
    }
}

/// The order of the numbers in the first eight bytes of keys.
#[derive(Clone, Copy, Drop)]
pub struct EarliestFirst;

/// The order of the bytes behind them.
#[derive(Clone, Copy, Drop)]
pub struct HighestFirst;

// The number in the first eight bytes of a key, 0 where it has fewer.
fn deadline_in(key: &[u8]) -> u64
    ensures { result ≡ deadline_in key.now }
{
    if key.len() < 8 {
        0
    } else {
        BigEndian::read_u64(key)
    }
}

// The byte behind them, 0 where there is none.
fn rank_in(key: &[u8]) -> u8
    ensures { result ≡ rank_in key.now }
{
    if key.len() > 8 { key[8] } else { 0 }
}

impl Collate for EarliestFirst {
    ghost use Rattle.bp_queue.specs.Keys.{deadline_order, deadline_total};

    ghost order = { λ _. deadline_order };

    fn compare(&self, a: &[u8], b: &[u8]) -> Ordering {
        deadline_in(a).cmp(&deadline_in(b))
    }

    ghost total = { λ _. deadline_total };
}

impl Collate for HighestFirst {
    ghost use Rattle.bp_queue.specs.Keys.{rank_order, rank_total};

    ghost order = { λ _. rank_order };

    fn compare(&self, a: &[u8], b: &[u8]) -> Ordering {
        rank_in(a).cmp(&rank_in(b))
    }

    ghost total = { λ _. rank_total };
}
