// What is wrong first in a heap, and by which check, where some words are changed.
ghost use Rattle.std.specs.Prelude.{◌≤◌};
ghost use Rattle.sdr_base.specs.declared.line.TheConstants.{LEAST_LINES, MOST_LINES};

use crate::regions::{HEAP, LINES, Word, audited};
use audit_blocks::{Check, Damage};
use std::alloc::Global;

/// Words that are changed, and the place at which that is told.
type Row = (&'static [Word], u64);

// The first row that is told otherwise than by this check at its place.
fn wrong_row(alloc: Global, lines: u64, words: &[Word], why: Check, rows: &[Row]) -> Option<usize>
    requires least { LEAST_LINES ≤ lines }
    requires most { lines ≤ MOST_LINES }
{
    for (number, (changes, place)) in rows.iter().enumerate() {
        let wanted = Damage { place: *place, why };
        if audited(alloc, lines, words, changes) != Some(Err(wanted)) {
            return Some(number);
        }
    }
    None
}

#[test]
fn a_heap_with_lists_of_both_pools_passes(rt: HostRuntime) {
    assert_eq!(rt; audited(rt.alloc(), LINES, &HEAP, &[]), Some(Ok(())));
}

const CONTROL: [Row; 27] = [
    (&[(0, 2047)], 0),
    (&[(8, 1096)], 8),
    // The unassigned space begins before the first block, inside of a word, behind the region, or behind its end.
    (&[(16, 1080)], 16),
    (&[(16, 1217)], 16),
    (&[(16, 2056)], 16),
    (&[(16, 1712)], 16),
    (&[(24, 1208)], 16),
    // It ends inside of a word, or behind the region.
    (&[(24, 1705)], 24),
    (&[(24, 2056)], 24),
    // A maximum is above 2^40.
    (&[(760, 0x100_0000_0001)], 760),
    (&[(768, 0x100_0000_0001)], 768),
    (&[(776, 0x100_0000_0001)], 776),
    (&[(824, 0x100_0000_0001)], 824),
    (&[(832, 0x100_0000_0001)], 832),
    (&[(840, u64::MAX)], 840),
    // The next ticket would have the number 0, or one above 2^40.
    (&[(864, 0)], 864),
    (&[(864, 0x100_0000_0001)], 864),
    // The version is another, an older and a later one.
    (&[(728, 0)], 728),
    (&[(728, 1)], 728),
    (&[(728, 3)], 728),
    // The words that are always 0.
    (&[(872, 1)], 872),
    (&[(1016, 1)], 1016),
    // The lowest of two is told, before anything else.
    (&[(872, 1), (1016, 1)], 872),
    (&[(864, 0), (728, 0)], 728),
    (&[(24, 2056), (728, 0)], 24),
    (&[(0, 2040), (8, 1096)], 0),
    (&[(1016, 1), (1088, 0)], 1016),
];

#[test]
fn control_words_are_checked_first(rt: HostRuntime) {
    assert_eq!(rt;
        wrong_row(rt.alloc(), LINES, &HEAP, Check::Control, &CONTROL),
        None
    );
}

const BLOCK: [Row; 30] = [
    // A kind above 13; no words; 65 words; one more word, so that the next leader stands in a link.
    (&[(1088, 0x0e00_0002_0000_0010)], 1088),
    (&[(1088, 0x0100_0000_0000_0010)], 1088),
    (&[(16, 1616), (1088, 0x0100_0041_0000_0208)], 1088),
    (&[(1088, 0x0100_0003_0000_0010)], 1120),
    // The last small block ends behind the small blocks, or before their end.
    (&[(1176, 0x0300_0005_0000_0028)], 1176),
    (&[(1176, 0x0300_0003_0000_0018)], 1208),
    // Small blocks don't come up to the unassigned space, or it begins inside of one.
    (&[(16, 1224)], 1216),
    (&[(16, 1208)], 1176),
    // A large block of kind 14; one that ends behind the region; one of no words, in use and free.
    (&[(1704, 0x0e00_0001_0000_0008)], 1704),
    (&[(2008, 0x0100_0002_0000_0008)], 2008),
    (&[(2008, 0x0100_0000_0000_0008)], 2008),
    (&[(1744, 0)], 1744),
    // Large blocks begin elsewhere.
    (&[(24, 1712)], 1712),
    // The ends of a large block have other words, or another use; its last word has other bits.
    (&[(2040, 0x0100_0002_0000_0000)], 2008),
    (&[(2040, 0x0000_0001_0000_0000)], 2008),
    (&[(1832, 0x0100_0008_0000_0000)], 1744),
    (&[(1832, 0x0000_0008_0000_0001)], 1744),
    // The links of a large block in use aren't 0.
    (&[(1712, 1)], 1704),
    (&[(1728, 1)], 1704),
    // A length that needs more words; one that needs fewer, in a small block; a large one may have more.
    (&[(1088, 0x0100_0002_0000_0011)], 1088),
    (&[(1088, 0x0100_0002_0000_0008)], 1088),
    (&[(1704, 0x0100_0001_0000_0009)], 1704),
    // A free block with a length.
    (&[(1112, 0x0000_0003_0000_0008)], 1112),
    (&[(1744, 0x0000_0008_0000_0001)], 1744),
    // Two free large blocks touch: the upper one is told. The block at the end of the unassigned space is free.
    (
        &[(1840, 0x0000_0001_0000_0000), (1872, 0x0000_0001_0000_0000)],
        1840,
    ),
    (
        &[(1704, 0x0000_0001_0000_0000), (1736, 0x0000_0001_0000_0000)],
        1744,
    ),
    (&[(24, 1744)], 1744),
    // What is asked of each block is tried before what is asked of two, and whether lengths fit before whether free blocks have
    // any; of two blocks the lower one is told.
    (&[(24, 1744), (2008, 0x0100_0001_0000_0009)], 2008),
    (
        &[(1112, 0x0000_0003_0000_0008), (1176, 0x0300_0004_0000_0018)],
        1176,
    ),
    (
        &[(1088, 0x0100_0002_0000_0011), (1112, 0x0000_0003_0000_0020)],
        1088,
    ),
];

#[test]
fn blocks_are_checked_next(rt: HostRuntime) {
    assert_eq!(rt;
        wrong_row(rt.alloc(), LINES, &HEAP, Check::Block, &BLOCK),
        None
    );
}

const BITS: [Row; 8] = [
    // A bit too few; one too many; one at another word; one of a free block; one inside of it.
    (&[(1040, 0x0000_1000_0000_0000)], 1041),
    (&[(1040, 0x00c0_1000_0000_0000)], 1041),
    (&[(1040, 0x0080_0800_0000_0000)], 1042),
    (&[(1048, 0x0000_0420_0200_0010)], 1051),
    (&[(1048, 0x0000_0404_0200_0010)], 1051),
    // A bit of the first word, and bytes behind the last word's.
    (&[(1024, 0x8000_0000_0000_0000)], 1024),
    (&[(1080, 1)], 1087),
    (&[(1056, 0x0100_0000_0000_0000), (1080, 1)], 1056),
];

#[test]
fn start_bits_are_checked_then(rt: HostRuntime) {
    assert_eq!(rt;
        wrong_row(rt.alloc(), LINES, &HEAP, Check::Bits, &BITS),
        None
    );
}

const FREE: [Row; 26] = [
    // A list begins with a block in use, inside of a word, inside of a block, behind the region, or with no block at all.
    (&[(32, 1096)], 32),
    (&[(32, 1121)], 32),
    (&[(32, 1128)], 32),
    (&[(32, 0xffff_ffff_ffff_fff8)], 32),
    (&[(544, 2056)], 544),
    (&[(544, 8)], 544),
    (&[(704, 1720)], 704),
    // A free block of other words, or of another order; a block of the other pool.
    (&[(40, 1120)], 40),
    (&[(56, 1120)], 56),
    (&[(560, 1760)], 560),
    (&[(544, 1120)], 544),
    (&[(568, 1120)], 568),
    (&[(48, 1760)], 48),
    // A list goes on in a block in use, or to itself.
    (&[(1152, 1096)], 48),
    (&[(1152, 1120)], 48),
    (&[(1152, 1152)], 48),
    (&[(1752, 1896)], 568),
    // A previous link is another.
    (&[(1824, 0)], 568),
    (&[(1992, 1760)], 568),
    (&[(568, 1760)], 568),
    // A block is passed over, of both pools.
    (&[(48, 1152)], 1120),
    (&[(1120, 0)], 1152),
    (&[(1888, 0)], 1760),
    // A wrong list is told before a block that none reaches, the lower one of two lists, and the lower one of two such blocks.
    (&[(48, 0), (568, 1760)], 568),
    (&[(48, 1760), (568, 1120)], 48),
    (&[(48, 0), (568, 0)], 1120),
];

#[test]
fn lists_of_free_blocks_are_checked_after_that(rt: HostRuntime) {
    assert_eq!(rt;
        wrong_row(rt.alloc(), LINES, &HEAP, Check::Free, &FREE),
        None
    );
}

// The control words of a fresh heap of 1,024 lines.
const FRESH: [Word; 8] = [
    (728, 2),
    (760, 0x100_0000_0000),
    (768, 0x100_0000_0000),
    (776, 32_768),
    (824, 0x100_0000_0000),
    (832, 0x100_0000_0000),
    (840, 32_768),
    (864, 1),
];

#[test]
fn a_fresh_heap_passes(rt: HostRuntime) {
    assert_eq!(rt; audited(rt.alloc(), 1024, &FRESH, &[]), Some(Ok(())));
}

// One word of a fresh heap is changed.
const CROSSED: [(&[Row], Check); 4] = [
    (&[(&[(32, 2056)], 32)], Check::Free),
    (&[(&[(16, 2056)], 2048)], Check::Block),
    (&[(&[(864, 0)], 864)], Check::Control),
    (&[(&[(1024, 0x8000_0000_0000_0000)], 1024)], Check::Bits),
];

#[test]
fn crossed_words_are_told(rt: HostRuntime) {
    for (rows, why) in CROSSED {
        assert_eq!(rt; wrong_row(rt.alloc(), 1024, &FRESH, why, rows), None);
    }
}

// One large block in use at the end of a fresh heap: of no words, of a list's kind with a wrong length, and with a word more than
// its length needs.
const NO_WORDS: [Word; 3] = [
    (24, 65_504),
    (65_504, 0x0100_0000_0000_0000),
    (65_528, 0x0100_0000_0000_0000),
];

const SHORT_LIST: [Word; 4] = [
    (24, 65_496),
    (2040, 0x10),
    (65_496, 0x0300_0001_0000_0008),
    (65_528, 0x0100_0001_0000_0000),
];

const WORD_MORE: [Word; 4] = [
    (24, 65_488),
    (2040, 0x20),
    (65_488, 0x0100_0002_0000_0008),
    (65_528, 0x0100_0002_0000_0000),
];

#[test]
fn large_blocks_are_told_by_their_begin_and_by_their_address(rt: HostRuntime) {
    assert_eq!(rt;
        wrong_row(
            rt.alloc(),
            1024,
            &FRESH,
            Check::Block,
            &[(&NO_WORDS, 65_504)]
        ),
        None
    );
    assert_eq!(rt;
        wrong_row(
            rt.alloc(),
            1024,
            &FRESH,
            Check::Content,
            &[(&SHORT_LIST, 65_512)]
        ),
        None
    );
    assert_eq!(rt; audited(rt.alloc(), 1024, &FRESH, &WORD_MORE), Some(Ok(())));
}

// A heap of 64 lines with one large block in use, a raw object of 520 bytes from 3,536 to the end. It holds zeros and a small number.
const ONE_LARGE: [Word; 13] = [
    (24, 3536),
    (728, 2),
    (760, 0x100_0000_0000),
    (768, 0x100_0000_0000),
    (776, 2048),
    (824, 0x100_0000_0000),
    (832, 0x100_0000_0000),
    (840, 2048),
    (864, 1),
    (1072, 0x20),
    (3536, 0x0100_0042_0000_0210),
    (3600, 3),
    (4088, 0x0100_0042_0000_0000),
];

// Zeros where a large block should begin, behind its leader and before it; its leader and the small number in each other's place.
const NO_LEADER: [Row; 3] = [
    (&[(24, 3544)], 3544),
    (&[(24, 2536)], 2536),
    (&[(3536, 3), (3600, 0x0100_0042_0000_0210)], 3536),
];

#[test]
fn a_large_block_of_no_words_is_told_at_its_own_begin(rt: HostRuntime) {
    assert_eq!(rt; audited(rt.alloc(), 64, &ONE_LARGE, &[]), Some(Ok(())));
    assert_eq!(rt;
        wrong_row(rt.alloc(), 64, &ONE_LARGE, Check::Block, &NO_LEADER),
        None
    );
}
