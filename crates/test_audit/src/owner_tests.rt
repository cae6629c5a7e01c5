// What is wrong first with the owners in a small heap, where some words are changed.
use crate::owner_regions::{Word, audited};
use std::alloc::Global;

/// Words that are changed, and the place that is told then.
type Row = (&'static [Word], u64);

// The first row that is told otherwise.
fn wrong_row(alloc: Global, words: &[Word], rows: &[Row]) -> Option<usize> {
    for (number, (changes, place)) in rows.iter().enumerate() {
        if audited(alloc, words, changes) != Some(Err(*place)) {
            return Some(number);
        }
    }
    None
}

// Lists at 2,056 and 2,096, of which the first has the element at 2,136, and the second has none.
const LISTS: [Word; 8] = [
    (16, 2168),
    // The start bits of the words 256, 261 and 266.
    (1056, 0x8420_0000_0000_0000),
    (2048, 0x0300_0004_0000_0020),
    (2064, 1),
    (2072, 2136),
    (2080, 2136),
    (2088, 0x0300_0004_0000_0020),
    (2128, 0x0400_0004_0000_0020),
];

const ELEMENT: [Word; 2] = [(2136, 2056), (2160, 5)];

const LISTS_WRONG: [Row; 14] = [
    // One element, two owners.
    (&[(2136, 2056), (2104, 1), (2112, 2136), (2120, 2136)], 2096),
    // The element names the other list, or none.
    (&[(2136, 2096)], 2136),
    (&[(2136, 0)], 2136),
    // It names another element before it.
    (&[(2136, 2056), (2144, 2056)], 2136),
    // It links to itself, to a list, and to no block.
    (&[(2136, 2056), (2152, 2136)], 2136),
    (&[(2136, 2056), (2152, 2096)], 2136),
    (&[(2136, 2056), (2152, 2144)], 2136),
    // The list tells another last element, or none.
    (&[(2136, 2056), (2080, 2144)], 2056),
    (&[(2136, 2056), (2080, 0)], 2056),
    // It begins with a list, with the element's leader, and behind the region.
    (&[(2136, 2056), (2072, 2096)], 2056),
    (&[(2136, 2056), (2072, 2128)], 2056),
    (&[(2136, 2056), (2072, u64::MAX)], 2056),
    // It has no element, so that none is reached; and a last one without a first one.
    (&[(2136, 2056), (2072, 0), (2080, 0)], 2136),
    (&[(2136, 2056), (2072, 0)], 2056),
];

#[test]
fn wrong_lists_are_told(rt: HostRuntime) {
    assert_eq!(rt; audited(rt.alloc(), &LISTS, &ELEMENT), Some(Ok(())));
    assert_eq!(rt; wrong_row(rt.alloc(), &LISTS, &LISTS_WRONG), None);
}

const ROOTS_WRONG: [Row; 7] = [
    // The catalogue begins with an element, or ends with one.
    (&[(2136, 2056), (712, 2136)], 712),
    (&[(2136, 2056), (720, 2136)], 720),
    // So does the queue of an account.
    (&[(2136, 2056), (784, 2136)], 784),
    (&[(2136, 2056), (792, 2136)], 792),
    (&[(2136, 2056), (848, 2136)], 848),
    (&[(2136, 2056), (856, 2136)], 856),
    // The catalogue is told before a list.
    (&[(2136, 0), (720, 2136)], 720),
];

#[test]
fn wrong_control_words_are_told(rt: HostRuntime) {
    assert_eq!(rt; wrong_row(rt.alloc(), &LISTS, &ROOTS_WRONG), None);
}

// A source at 2,056 of the raw object at 2,112, an outbound object at 2,136 with an extent of it at 2,216, and a ticket at 2,256 in
// the outbound queue.
const BUNDLE: [Word; 21] = [
    (16, 2352),
    (848, 2256),
    (856, 2256),
    // The start bits of the words 256, 263, 266, 276 and 281.
    (1056, 0x8120_0840_0000_0000),
    (2048, 0x0900_0006_0000_0030),
    (2056, 3),
    (2080, 1),
    (2088, 2112),
    (2096, 8),
    (2104, 0x0100_0002_0000_0010),
    (2112, 2056),
    (2128, 0x0a00_0009_0000_0048),
    (2136, 1),
    (2144, 2216),
    (2152, 2216),
    (2208, 0x0b00_0004_0000_0020),
    (2216, 2056),
    (2232, 8),
    (2248, 0x0d00_000c_0000_0060),
    (2256, 1),
    (2264, 1),
];

const BUNDLE_WRONG: [Row; 12] = [
    // The extent's source isn't there, or is a raw object.
    (&[(2216, 0)], 2216),
    (&[(2216, 2112)], 2216),
    // The source's raw object is a source, and doesn't name it.
    (&[(2088, 2056)], 2056),
    (&[(2112, 0)], 2056),
    // The raw object's source is an extent, or is one of a bulk item.
    (&[(2112, 2216)], 2112),
    (&[(2056, 2)], 2112),
    // The ticket is of the other account, or in the other queue, or in none.
    (&[(2264, 0)], 2256),
    (&[(848, 0), (856, 0), (784, 2256), (792, 2256)], 2256),
    (&[(848, 0), (856, 0)], 2256),
    // The extent isn't reached, or stands where a header is to be; and the last one is another.
    (&[(2144, 0), (2152, 0)], 2216),
    (&[(2160, 2216), (2168, 2216)], 2136),
    (&[(2152, 0)], 2136),
];

#[test]
fn wrong_bundles_are_told(rt: HostRuntime) {
    assert_eq!(rt; audited(rt.alloc(), &BUNDLE, &[]), Some(Ok(())));
    assert_eq!(rt; wrong_row(rt.alloc(), &BUNDLE, &BUNDLE_WRONG), None);
}
