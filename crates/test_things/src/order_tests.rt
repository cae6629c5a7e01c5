// How keys compare by each order, by what is kept and by a function that is stored.
ghost use Rattle.std.specs.Prelude.{◌≡◌, length, slice_index};
ghost use Rattle.std.specs.Ordering.{nat_cmp};

use sdr_base::limits::LONGEST_SORT_KEY;
use sdr_list::{Collate, Collation, ListKeys, Stored};
use std::cmp::Ordering;

// Pairs of keys, and how they compare by their bytes and by their length.
const PAIRS: [(&[u8], &[u8]); 7] = [
    (b"", b""),
    (b"", b"\0"),
    (b"a", b"b"),
    (b"b", b"aa"),
    (b"a", b"a\0"),
    (b"zz", b"aaa"),
    (b"\x7f", b"\x80"),
];

const BY_BYTES: [Ordering; 7] = [
    Ordering::Equal,
    Ordering::Less,
    Ordering::Less,
    Ordering::Greater,
    Ordering::Less,
    Ordering::Greater,
    Ordering::Less,
];

const BY_LENGTH: [Ordering; 7] = [
    Ordering::Equal,
    Ordering::Less,
    Ordering::Equal,
    Ordering::Less,
    Ordering::Less,
    Ordering::Less,
    Ordering::Equal,
];

const BY_FIRST_BYTE: [Ordering; 7] = [
    Ordering::Equal,
    Ordering::Equal,
    Ordering::Less,
    Ordering::Greater,
    Ordering::Equal,
    Ordering::Greater,
    Ordering::Less,
];

// The first pair that compares otherwise.
fn wrong_pair<F: Collate>(by: &Collation<F>, wanted: &[Ordering; 7]) -> Option<usize> {
    for (place, (a, b)) in PAIRS.iter().enumerate() {
        if a.len() > LONGEST_SORT_KEY
            || b.len() > LONGEST_SORT_KEY
            || by.compare(a, b) != wanted[place]
        {
            return Some(place);
        }
    }
    None
}

// The first byte of a key, 0 where it has none.
fn first_byte(key: &[u8]) -> u8
    ensures { result ≡ slice_index key.now 0 }
{
    match key {
        [] => 0,
        [first, ..] => *first,
    }
}

/// An order of this crate's own: by the first byte.
#[derive(Drop)]
struct ByFirstByte;

impl Collate for ByFirstByte {
    ghost use Rattle.std.specs.Cmp.{nat_cmp_total, on_total};
    ghost use Rattle.std.specs.Prelude.{List, ℕ};
    ghost use Rattle.sdr_list.specs.Preorders.{on_keys};

    ghost order = { λ _ a b. nat_cmp (slice_index a 0) (slice_index b 0) };

    fn compare(&self, a: &[u8], b: &[u8]) -> Ordering {
        first_byte(a).cmp(&first_byte(b))
    }

    ghost total = { λ _. on_keys (on_total (λ (xs : List ℕ). slice_index xs 0) nat_cmp_total) };
}

fn compare_lengths(a: &[u8], b: &[u8]) -> Ordering
    ensures { result ≡ nat_cmp (length a.now) (length b.now) }
{
    a.len().cmp(&b.len())
}

#[test]
fn keys_compare_by_their_bytes(rt: HostRuntime) {
    let by = Collation::new(ListKeys::ByBytes);
    assert_eq!(rt; wrong_pair(&by, &BY_BYTES), None);
}

#[test]
fn keys_compare_by_their_length(rt: HostRuntime) {
    let by = Collation::new(ListKeys::ByLength);
    assert_eq!(rt; wrong_pair(&by, &BY_LENGTH), None);
}

#[test]
fn keys_compare_by_a_function(rt: HostRuntime) {
    let by = Collation::new(Stored::new(compare_lengths, ListKeys::ByLength));
    assert_eq!(rt; wrong_pair(&by, &BY_LENGTH), None);
}

#[test]
fn keys_compare_by_an_order_of_its_own(rt: HostRuntime) {
    let by = Collation::new(ByFirstByte);
    assert_eq!(rt; wrong_pair(&by, &BY_FIRST_BYTE), None);
}
