// What is wrong first with the counts and queues in a small heap, where some words are changed.
use crate::owner_regions::{Word, checked};
use audit_blocks::{Check, Damage};
use std::alloc::Global;

/// Words that are changed, and the place that is told then.
type Row = (&'static [Word], u64);

// The first row that is told otherwise.
fn wrong_row(alloc: Global, words: &[Word], why: Check, rows: &[Row]) -> Option<usize> {
    for (number, (changes, place)) in rows.iter().enumerate() {
        let wanted = Damage { place: *place, why };
        if checked(alloc, words, changes) != Some(Err(wanted)) {
            return Some(number);
        }
    }
    None
}

// In a heap of version 2 a source at 2,056 of the raw object at 2,112, an outbound object at 2,136 with an extent of all its
// 8 bytes at 2,216, and in the outbound queue a granted ticket at 2,256 and a waiting one at 2,360. Of heap space
// 72 + 32 + 8 + 40 bytes of 1,000 are occupied outbound, 40 of them left of the granted ticket, and the waiting one asks 900.
pub const BUNDLE: [Word; 36] = [
    (16, 2456),
    (728, 2),
    (816, 152),
    (840, 1000),
    (848, 2256),
    (856, 2360),
    (864, 3),
    // The start bits of the words 256, 263, 266, 276, 281 and 294.
    (1056, 0x8120_0840_0200_0000),
    (2048, 0x0900_0006_0000_0030),
    (2056, 3),
    (2080, 1),
    (2088, 2112),
    (2096, 8),
    (2104, 0x0100_0002_0000_0010),
    (2112, 2056),
    (2128, 0x0a00_0009_0000_0048),
    (2136, 1),
    (2144, 2216),
    (2152, 2216),
    (2200, 8),
    (2208, 0x0b00_0004_0000_0020),
    (2216, 2056),
    (2232, 8),
    (2248, 0x0d00_000c_0000_0060),
    (2256, 1),
    (2264, 1),
    (2272, 1),
    (2304, 100),
    (2328, 40),
    (2336, 1),
    (2344, 2360),
    (2352, 0x0d00_000c_0000_0060),
    (2360, 2),
    (2368, 1),
    (2376, 1),
    (2408, 900),
];

const COUNTS_WRONG: [Row; 14] = [
    // Too high, too low, and that of the other account.
    (&[(2080, 2)], 2056),
    (&[(2080, 0)], 2056),
    (&[(2072, 1)], 2056),
    (&[(2072, 1), (2080, 0)], 2056),
    // The object is the other account's.
    (&[(2136, 0)], 2056),
    // One byte too many is occupied, and one too few; and only what the object charges, or what is left of the ticket.
    (&[(816, 153)], 816),
    (&[(816, 151)], 816),
    (&[(816, 112)], 816),
    (&[(816, 40)], 816),
    // The extent is a part of the source, and only its own bytes are occupied.
    (&[(2200, 3), (2232, 3), (816, 147)], 816),
    // So it is in another space, and in the other account, which is told first.
    (&[(808, 1)], 808),
    (&[(800, 8)], 800),
    (&[(752, 1), (800, 8)], 752),
    // A source is told before what is occupied, and before a queue.
    (&[(816, 153), (2080, 2), (2360, 1)], 2056),
];

#[test]
fn wrong_counts_are_told(rt: HostRuntime) {
    assert_eq!(rt; checked(rt.alloc(), &BUNDLE, &[]), Some(Ok(())));
    // The whole source is occupied, of which the extent is a part.
    let part = [(2200, 3), (2232, 3)];
    assert_eq!(rt; checked(rt.alloc(), &BUNDLE, &part), Some(Ok(())));
    assert_eq!(rt;
        wrong_row(rt.alloc(), &BUNDLE, Check::Count, &COUNTS_WRONG),
        None
    );
}

const ORDER_WRONG: [Row; 6] = [
    // Two equal numbers, and one that isn't below the next.
    (&[(2360, 1)], 848),
    (&[(2360, 3)], 848),
    // A waiting ticket before a granted one.
    (&[(2336, 0), (2328, 0), (2440, 1), (816, 112)], 848),
    // Of two that wait the second is of greater coarse priority, or of greater fine priority, or of a lesser number.
    (
        &[(2336, 0), (2328, 0), (816, 112), (2304, 900), (2376, 2)],
        848,
    ),
    (
        &[(2336, 0), (2328, 0), (816, 112), (2304, 900), (2384, 1)],
        848,
    ),
    (
        &[
            (2336, 0),
            (2328, 0),
            (816, 112),
            (2304, 900),
            (2256, 2),
            (2360, 1),
        ],
        848,
    ),
];

#[test]
fn queues_out_of_order_are_told(rt: HostRuntime) {
    // Two that wait in order.
    let waiting = [(2336, 0), (2328, 0), (816, 112), (2304, 900)];
    assert_eq!(rt; checked(rt.alloc(), &BUNDLE, &waiting), Some(Ok(())));
    assert_eq!(rt;
        wrong_row(rt.alloc(), &BUNDLE, Check::Queue, &ORDER_WRONG),
        None
    );
}

const QUEUES_WRONG: [Row; 7] = [
    // More is left than was asked, and something of a waiting one.
    (&[(2328, 101), (816, 213)], 848),
    (&[(2432, 5), (816, 157)], 848),
    // At the front though it fits.
    (&[(2408, 848)], 848),
    // One number in both queues; a wrong one in the inbound queue; and both queues wrong.
    (
        &[
            (784, 2256),
            (792, 2256),
            (2264, 0),
            (2344, 0),
            (848, 2360),
            (752, 40),
            (816, 112),
            (2360, 1),
        ],
        848,
    ),
    (
        &[
            (784, 2256),
            (792, 2256),
            (2264, 0),
            (2344, 0),
            (848, 2360),
            (752, 40),
            (816, 112),
            (2256, 3),
        ],
        784,
    ),
    (
        &[
            (784, 2256),
            (792, 2256),
            (2264, 0),
            (2344, 0),
            (848, 2360),
            (752, 40),
            (816, 112),
            (2256, 3),
            (2408, 1),
        ],
        784,
    ),
    (
        &[
            (784, 2256),
            (792, 2256),
            (2264, 0),
            (2344, 0),
            (848, 2360),
            (752, 40),
            (816, 112),
            (2408, 888),
        ],
        848,
    ),
];

#[test]
fn wrong_queues_are_told(rt: HostRuntime) {
    // One byte more than the room.
    assert_eq!(rt; checked(rt.alloc(), &BUNDLE, &[(2408, 849)]), Some(Ok(())));
    assert_eq!(rt;
        wrong_row(rt.alloc(), &BUNDLE, Check::Queue, &QUEUES_WRONG),
        None
    );
    // A chain is told before a count.
    let owner: [Row; 1] = [(&[(2152, 0), (2080, 2)], 2136)];
    assert_eq!(rt; wrong_row(rt.alloc(), &BUNDLE, Check::Owner, &owner), None);
}

const RULES_WRONG: [Row; 8] = [
    // The source has another length than its raw object.
    (&[(2096, 7)], 2056),
    // The extent ends behind its source, by its offset and by its length.
    (&[(2224, 1)], 2216),
    (&[(2232, 9)], 2216),
    // The part ends behind the extents.
    (&[(2192, 1)], 2136),
    (&[(2200, 9)], 2136),
    // The extent has no byte, and so has the part.
    (&[(2232, 0), (2200, 0)], 2216),
    // A source that has taken over its raw object is flagged; one of a raw object alone may be, but for its charge.
    (&[(2064, 1)], 2056),
    (&[(2056, 4), (2064, 1), (816, 153)], 816),
];

// A source of an item at 2,056, which no extent names.
const SOURCE: [Word; 5] = [
    (16, 2104),
    // The start bit of the word 256.
    (1056, 0x8000_0000_0000_0000),
    (2048, 0x0900_0006_0000_0030),
    (2056, 2),
    (2096, 8),
];

const UNUSED: [Row; 2] = [
    // It is flagged.
    (&[(2064, 1)], 2056),
    // It has taken over a raw object at 2,112.
    (
        &[
            (16, 2128),
            (1056, 0x8100_0000_0000_0000),
            (2056, 3),
            (2088, 2112),
            (2104, 0x0100_0002_0000_0010),
            (2112, 2056),
        ],
        2056,
    ),
];

#[test]
fn broken_rules_are_told(rt: HostRuntime) {
    assert_eq!(rt;
        wrong_row(rt.alloc(), &BUNDLE, Check::Count, &RULES_WRONG),
        None
    );
    assert_eq!(rt; checked(rt.alloc(), &SOURCE, &[]), Some(Ok(())));
    assert_eq!(rt; wrong_row(rt.alloc(), &SOURCE, Check::Count, &UNUSED), None);
}

// A hash at 2,056 of two buckets and keys of one byte: b at 2,136 in the first bucket, and a at 2,104 in the second.
const HASH: [Word; 12] = [
    (16, 2160),
    // The start bits of the words 256, 262 and 266.
    (1056, 0x8220_0000_0000_0000),
    (2048, 0x0600_0005_0000_0028),
    (2056, 1),
    (2064, 2),
    (2072, 2),
    (2080, 2136),
    (2088, 2104),
    (2096, 0x0700_0003_0000_0011),
    (2120, 0x6100_0000_0000_0000),
    (2128, 0x0700_0003_0000_0011),
    (2152, 0x6200_0000_0000_0000),
];

const HASH_WRONG: [Row; 5] = [
    // It tells one entry too many, and one too few.
    (&[(2072, 3)], 2056),
    (&[(2072, 1)], 2056),
    // Its keys have another length.
    (&[(2056, 2)], 2056),
    // A key is in another bucket than its own.
    (&[(2120, 0x6200_0000_0000_0000)], 2056),
    // Two equal keys in a bucket.
    (
        &[(2136, 2104), (2088, 0), (2120, 0x6200_0000_0000_0000)],
        2056,
    ),
];

// The names ab at 2,056 and ac at 2,120, in this order.
const NAMES: [Word; 9] = [
    (16, 2176),
    (712, 2056),
    (720, 2120),
    // The start bits of the words 256 and 264.
    (1056, 0x8080_0000_0000_0000),
    (2048, 0x0800_0007_0000_0038),
    (2056, 2120),
    (2080, 0x0261_6200_0000_0000),
    (2112, 0x0800_0007_0000_0038),
    (2144, 0x0261_6300_0000_0000),
];

const NAMES_WRONG: [Row; 2] = [
    // Two equal names, in this order and in the other.
    (&[(2144, 0x0261_6200_0000_0000)], 2120),
    (
        &[
            (2144, 0x0261_6200_0000_0000),
            (712, 2120),
            (720, 2056),
            (2056, 0),
            (2120, 2056),
        ],
        2056,
    ),
];

// Lists at 2,056 and 2,096, of which the first has the element at 2,136.
const LISTS: [Word; 10] = [
    (16, 2168),
    // The start bits of the words 256, 261 and 266.
    (1056, 0x8420_0000_0000_0000),
    (2048, 0x0300_0004_0000_0020),
    (2064, 1),
    (2072, 2136),
    (2080, 2136),
    (2088, 0x0300_0004_0000_0020),
    (2128, 0x0400_0004_0000_0020),
    (2136, 2056),
    (2160, 5),
];

const LISTS_WRONG: [Row; 3] = [
    // One too many and one too few, and in the other list.
    (&[(2064, 2)], 2056),
    (&[(2064, 0)], 2056),
    (&[(2104, 1)], 2096),
];

#[test]
fn wrong_keys_are_told(rt: HostRuntime) {
    assert_eq!(rt; checked(rt.alloc(), &LISTS, &[]), Some(Ok(())));
    assert_eq!(rt;
        wrong_row(rt.alloc(), &LISTS, Check::Count, &LISTS_WRONG),
        None
    );
    // Also with the keys d and b in one bucket.
    assert_eq!(rt; checked(rt.alloc(), &HASH, &[]), Some(Ok(())));
    let both = [(2136, 2104), (2088, 0), (2120, 0x6400_0000_0000_0000)];
    assert_eq!(rt; checked(rt.alloc(), &HASH, &both), Some(Ok(())));
    assert_eq!(rt;
        wrong_row(rt.alloc(), &HASH, Check::Count, &HASH_WRONG),
        None
    );
    // Also with the names ab and a.
    assert_eq!(rt; checked(rt.alloc(), &NAMES, &[]), Some(Ok(())));
    let shorter = [(2144, 0x0161_0000_0000_0000)];
    assert_eq!(rt; checked(rt.alloc(), &NAMES, &shorter), Some(Ok(())));
    assert_eq!(rt;
        wrong_row(rt.alloc(), &NAMES, Check::Count, &NAMES_WRONG),
        None
    );
}
