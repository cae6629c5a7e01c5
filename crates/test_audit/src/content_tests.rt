// The content of the one block of a heap, by its kind.
ghost use Rattle.std.specs.Prelude.{◌≡◌, ◌≤◌, length};

use crate::regions::{LINES, Word, audited};
use audit_blocks::{Check, Damage};
use std::alloc::Global;

// A leader, and the words behind it, with which the small blocks end.
type Row = (u64, &'static [u64]);

// The words of a heap with this block alone, which has the address 1,096.
fn words_of(alloc: Global, leader: u64, words: &[u64]) -> Option<Vec<Word>>
    requires { length words.now ≤ 64 }
{
    let low = 1096 + 8 * words.len() as u64;
    let mut placed = Vec::new(alloc);
    placed.push((16, low)).ok()?;
    placed.push((728, 2)).ok()?;
    placed.push((864, 1)).ok()?;
    placed.push((1040, 0x0080_0000_0000_0000)).ok()?;
    placed.push((1088, leader)).ok()?;
    for (number, value) in words.iter().enumerate() {
        placed.push((1096 + 8 * number as u64, *value)).ok()?;
    }
    Some(placed)
}

// What an audit of such a heap comes to. `None`: there is no memory for it, or the block has more than 64 words.
fn lone(alloc: Global, leader: u64, words: &[u64]) -> Option<Result<(), Damage>> {
    if words.len() > 64 {
        return None;
    }
    let placed = words_of(alloc, leader, words)?;
    audited(alloc, LINES, placed.as_slice(), &[])
}

// The first row that comes to something else.
fn wrong_row(alloc: Global, wanted: Result<(), Damage>, rows: &[Row]) -> Option<usize> {
    for (number, (leader, words)) in rows.iter().enumerate() {
        if lone(alloc, *leader, words) != Some(wanted) {
            return Some(number);
        }
    }
    None
}

// The first bytes of a text of two letters, of a name of one, and of a path of one.
const TEXT: u64 = 0x0261_6200_0000_0000;

const NAME: u64 = 0x0161_0000_0000_0000;

const PATH: u64 = 0x6100_0000_0000_0000;

const RIGHT: [Row; 22] = [
    // Raw objects, of no bytes and of one.
    (0x0100_0001_0000_0008, &[9]),
    (0x0100_0002_0000_0009, &[0, 0]),
    // Strings, of no text and of two letters, with other bytes behind.
    (0x0200_0001_0000_0001, &[0]),
    (0x0200_0001_0000_0003, &[TEXT]),
    (0x0200_0001_0000_0003, &[TEXT + 1]),
    (0x0300_0004_0000_0020, &[7, 0, 0, 0]),
    (0x0400_0004_0000_0020, &[7, 7, 7, 7]),
    // Tables, of no rows, and of two rows of four bytes.
    (0x0500_0003_0000_0018, &[7, 4, 0]),
    (0x0500_0004_0000_0020, &[7, 4, 2, 7]),
    // A hash of one bucket, and its entry.
    (0x0600_0004_0000_0020, &[1, 1, 0, 0]),
    (0x0700_0003_0000_0011, &[0, 7, PATH]),
    // A name of one letter, of the highest type.
    (0x0800_0007_0000_0038, &[0, 0xffff_ffff, 7, NAME, 0, 0, 0]),
    // Sources: a file, an item of bulk, a raw object in the heap, and one that is named.
    (0x0900_0007_0000_0031, &[1, 1, 0, 0, 0, 9, PATH]),
    (0x0900_0006_0000_0030, &[2, 0, 7, 7, 7, 9]),
    (0x0900_0006_0000_0030, &[3, 0, 7, 7, 7, 9]),
    (0x0900_0006_0000_0030, &[4, 1, 7, 7, 7, 9]),
    // Objects of both accounts.
    (0x0a00_0009_0000_0048, &[0, 0, 0, 0, 0, 0, 0, 0, 0]),
    (0x0a00_0009_0000_0048, &[1, 7, 7, 7, 7, 7, 7, 7, 7]),
    (0x0b00_0004_0000_0020, &[7, 7, 7, 7]),
    // A capsule of one byte.
    (0x0c00_0002_0000_0009, &[0, PATH]),
    // Tickets: one that asks for nothing, and one that asks for all, with the highest priority.
    (0x0d00_000c_0000_0060, &[0, 0, 0, 0, 0, 0, 0, 0, 0, 0, 0, 0]),
    (
        0x0d00_000c_0000_0060,
        &[
            1,
            1,
            255,
            255,
            0x100_0000_0000,
            0x100_0000_0000,
            0x100_0000_0000,
            0,
            0,
            0,
            1,
            0,
        ],
    ),
];

#[test]
fn contents_by_their_layout_pass(rt: HostRuntime) {
    assert_eq!(rt; wrong_row(rt.alloc(), Ok(()), &RIGHT), None);
}

const WRONG: [Row; 43] = [
    // A raw object without its source.
    (0x0100_0001_0000_0007, &[0]),
    // A string of no bytes; of other text than its length.
    (0x0200_0001_0000_0000, &[0]),
    (0x0200_0001_0000_0002, &[TEXT]),
    (0x0200_0001_0000_0004, &[TEXT]),
    // Lists and elements of other lengths.
    (0x0300_0004_0000_001f, &[0, 0, 0, 0]),
    (0x0300_0005_0000_0021, &[0, 0, 0, 0, 0]),
    (0x0400_0004_0000_001f, &[0, 0, 0, 0]),
    (0x0400_0005_0000_0028, &[0, 0, 0, 0, 0]),
    // A table without its numbers; with fewer and more bytes than its rows have; with rows of more bytes than may be.
    (0x0500_0002_0000_0010, &[0, 0]),
    (0x0500_0004_0000_0020, &[0, 4, 3, 0]),
    (0x0500_0004_0000_0020, &[0, 4, 1, 0]),
    (0x0500_0003_0000_0018, &[0, 0xffff_ffff_ffff_ffff, 0]),
    (0x0500_0003_0000_0018, &[0, 0, 0xffff_ffff_ffff_ffff]),
    // A hash with keys of no bytes, or of 256; without buckets; with fewer fronts than buckets.
    (0x0600_0004_0000_0020, &[0, 1, 0, 0]),
    (0x0600_0004_0000_0020, &[256, 1, 0, 0]),
    (0x0600_0003_0000_0018, &[1, 0, 0]),
    (0x0600_0004_0000_0020, &[1, 2, 0, 0]),
    // An entry of a hash without a key.
    (0x0700_0002_0000_0010, &[0, 0]),
    // A name of a type that is too high; without letters; with other bytes behind them; of another length.
    (0x0800_0007_0000_0038, &[0, 0x1_0000_0000, 0, NAME, 0, 0, 0]),
    (0x0800_0007_0000_0038, &[0, 0, 0, 0, 0, 0, 0]),
    (0x0800_0007_0000_0038, &[0, 0, 0, NAME + 1, 0, 0, 0]),
    (0x0800_0007_0000_0038, &[0, 0, 0, NAME, 0, 0, 1]),
    (0x0800_0007_0000_0037, &[0, 0, 0, NAME, 0, 0, 0]),
    // A source of no medium, or of a fifth; with a flag that is neither 0 nor 1; of a length above 2^40; a file with a subject, or without a path; an item
    // with a path.
    (0x0900_0006_0000_0030, &[0, 0, 0, 0, 0, 0]),
    (0x0900_0006_0000_0030, &[5, 0, 0, 0, 0, 0]),
    (0x0900_0006_0000_0030, &[2, 2, 0, 0, 0, 0]),
    (0x0900_0006_0000_0030, &[2, 0, 0, 0, 0, 0x100_0000_0001]),
    (0x0900_0007_0000_0031, &[1, 0, 0, 0, 7, 0, PATH]),
    (0x0900_0006_0000_0030, &[1, 0, 0, 0, 0, 0]),
    (0x0900_0007_0000_0031, &[2, 0, 0, 0, 0, 0, PATH]),
    // An object of a third account; of another length.
    (0x0a00_0009_0000_0048, &[2, 0, 0, 0, 0, 0, 0, 0, 0]),
    (0x0a00_0008_0000_0040, &[0, 0, 0, 0, 0, 0, 0, 0]),
    (0x0b00_0003_0000_0018, &[0, 0, 0]),
    // A capsule without text.
    (0x0c00_0001_0000_0008, &[0]),
    // A ticket with a number above 2^40; of a third account; with priorities above 255; that asks for more than 2^40; that is neither granted nor not; of
    // another length.
    (
        0x0d00_000c_0000_0060,
        &[0x100_0000_0001, 0, 0, 0, 0, 0, 0, 0, 0, 0, 0, 0],
    ),
    (0x0d00_000c_0000_0060, &[0, 2, 0, 0, 0, 0, 0, 0, 0, 0, 0, 0]),
    (
        0x0d00_000c_0000_0060,
        &[0, 0, 256, 0, 0, 0, 0, 0, 0, 0, 0, 0],
    ),
    (
        0x0d00_000c_0000_0060,
        &[0, 0, 0, 256, 0, 0, 0, 0, 0, 0, 0, 0],
    ),
    (
        0x0d00_000c_0000_0060,
        &[0, 0, 0, 0, 0x100_0000_0001, 0, 0, 0, 0, 0, 0, 0],
    ),
    (
        0x0d00_000c_0000_0060,
        &[0, 0, 0, 0, 0, 0x100_0000_0001, 0, 0, 0, 0, 0, 0],
    ),
    (
        0x0d00_000c_0000_0060,
        &[0, 0, 0, 0, 0, 0, 0x100_0000_0001, 0, 0, 0, 0, 0],
    ),
    (0x0d00_000c_0000_0060, &[0, 0, 0, 0, 0, 0, 0, 0, 0, 0, 2, 0]),
    (0x0d00_000b_0000_0058, &[0, 0, 0, 0, 0, 0, 0, 0, 0, 0, 0]),
];

#[test]
fn other_contents_are_told(rt: HostRuntime) {
    let wanted = Err(Damage {
        place: 1096,
        why: Check::Content,
    });
    assert_eq!(rt; wrong_row(rt.alloc(), wanted, &WRONG), None);
}
