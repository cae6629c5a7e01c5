// The whole audit of a small heap, and the world that it tells.
use crate::count_tests::BUNDLE;
use crate::owner_regions::{Word, surveyed, told};
use sdr_audit::{AuditError, Check};
use sdr_model::{Thing, World};
use std::alloc::Global;

/// Words that are changed, and the place and the check that are told then.
type Row = (&'static [Word], u64, Check);

// The string hello at 2,056; a list at 2,072 with the element at 2,112; the list's name mail at 2,152; a source of ten bytes of a file
// at 2,216; and an outbound object at 2,280 with an extent of all of them at 2,360, and with a header of three bytes at 2,400.
const MAIL: [Word; 45] = [
    (16, 2416),
    (712, 2152),
    (720, 2152),
    // The version; the maxima of both accounts, what is occupied outbound, and the number of the next ticket.
    (728, 2),
    (760, 0x100_0000_0000),
    (768, 0x100_0000_0000),
    (776, 32768),
    (800, 10),
    (816, 120),
    (824, 0x100_0000_0000),
    (832, 0x100_0000_0000),
    (840, 32768),
    (864, 1),
    // The start bits of the words 256, 258, 263, 268, 276, 284, 294 and 299.
    (1056, 0xa108_0808_0210_0000),
    (2048, 0x0200_0001_0000_0006),
    (2056, 0x0568_656c_6c6f_0000),
    (2064, 0x0300_0004_0000_0020),
    (2072, 7),
    (2080, 1),
    (2088, 2112),
    (2096, 2112),
    (2104, 0x0400_0004_0000_0020),
    (2112, 2072),
    (2136, 2056),
    (2144, 0x0800_0007_0000_0038),
    (2160, 3),
    (2168, 2072),
    (2176, 0x046d_6169_6c00_0000),
    (2208, 0x0900_0007_0000_0038),
    (2216, 1),
    (2240, 1),
    (2256, 10),
    (2264, 0x6461_7461_2e62_696e),
    (2272, 0x0a00_0009_0000_0048),
    (2280, 1),
    (2288, 2360),
    (2296, 2360),
    (2304, 2400),
    (2312, 2400),
    (2344, 10),
    (2352, 0x0b00_0004_0000_0020),
    (2360, 2216),
    (2376, 10),
    (2392, 0x0c00_0002_0000_000b),
    (2408, 0x4831_3a00_0000_0000),
];

const WRONG: [Row; 8] = [
    (&[(0, 65535)], 0, Check::Control),
    // A heap of the first version.
    (&[(728, 0)], 728, Check::Control),
    (&[(2048, 0x0e00_0001_0000_0006)], 2048, Check::Block),
    (&[(1056, 0xa108_0808_0212_0000)], 1061, Check::Bits),
    (&[(32, 2056)], 32, Check::Free),
    (&[(2056, 0x0468_656c_6c6f_0000)], 2056, Check::Content),
    (&[(2112, 0)], 2112, Check::Owner),
    (&[(816, 121)], 816, Check::Count),
];

// The first row that is told otherwise.
fn wrong_row(alloc: Global) -> Option<usize> {
    for (number, (changes, place, why)) in WRONG.iter().enumerate() {
        let wanted = AuditError::Damaged {
            place: *place,
            why: *why,
        };
        if surveyed(alloc, &MAIL, changes) != Some(Err(wanted)) {
            return Some(number);
        }
    }
    None
}

#[test]
fn a_heap_passes_the_whole_audit_and_each_check_tells_its_place(rt: HostRuntime) {
    let census = [65536, 2416, 65536, 8, 0, 0];
    assert_eq!(rt; surveyed(rt.alloc(), &MAIL, &[]), Some(Ok(census)));
    assert_eq!(rt; wrong_row(rt.alloc()), None);
    // Two tickets of one number.
    let twice = AuditError::Damaged {
        place: 848,
        why: Check::Queue,
    };
    assert_eq!(rt;
        surveyed(rt.alloc(), &BUNDLE, &[(2360, 1)]),
        Some(Err(twice))
    );
}

// How many things and names a world has, and how many outbound tickets.
fn counts(world: &World) -> [u64; 3] {
    [
        world.things().count() as u64,
        world.names().len() as u64,
        world.accounts().outbound.tickets.len() as u64,
    ]
}

// The address and the datum of the last element of the list at an address.
fn last_element(world: &World, addr: u64) -> Option<(u64, u64)> {
    match world.thing(addr)? {
        Thing::List(list) => {
            let element = list.elements.as_slice().last()?;
            Some((element.block, element.datum))
        }
        _ => None,
    }
}

#[test]
fn the_worlds_of_heaps_are_told(rt: HostRuntime) {
    let mail = told(rt.alloc(), &MAIL, &[]);
    assert_eq!(rt; mail.as_ref().map(counts), Some([4, 1, 0]));
    let element = mail.as_ref().and_then(|world| last_element(world, 2072));
    assert_eq!(rt; element, Some((2112, 2056)));
    let bundle = told(rt.alloc(), &BUNDLE, &[]);
    assert_eq!(rt; bundle.as_ref().map(counts), Some([3, 0, 2]));
}
