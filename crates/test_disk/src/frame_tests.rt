// Heads and rooms of some regions, as bytes and numbers.
use sdr_log::Frame;

// The head of a disk with 256 lines of log and 1,024 of heap, and one whose last byte isn't 0.
const HEAD: [u8; 64] = *b"SDRHEAP1\0\0\0\x01\0\0\x01\0\0\0\x04\0\
    \0\0\0\0\0\0\0\0\0\0\0\0\0\0\0\0\0\0\0\0\0\0\
    \0\0\0\0\0\0\0\0\0\0\0\0\0\0\0\0\0\0\0\0\0\0";

const OTHER: [u8; 64] = *b"SDRHEAP1\0\0\0\x01\0\0\x01\0\0\0\x04\0\
    \0\0\0\0\0\0\0\0\0\0\0\0\0\0\0\0\0\0\0\0\0\0\
    \0\0\0\0\0\0\0\0\0\0\0\0\0\0\0\0\0\0\0\0\0\x01";

// Regions; how many lines a transaction may touch; where the heap region begins; and the bytes of the disk.
// The shortest log region has room for one line.
const ROWS: [(Frame, [u64; 3]); 2] = [
    (
        Frame {
            log_lines: 2,
            heap_lines: 32,
        },
        [1, 192, 2240],
    ),
    (
        Frame {
            log_lines: 256,
            heap_lines: 1024,
        },
        [224, 16_448, 81_984],
    ),
];

// The first regions that have other numbers.
fn wrong_regions() -> Option<usize> {
    for (row, (frame, numbers)) in ROWS.iter().enumerate() {
        if !frame.is_in_limits()
            || [frame.room(), frame.heap_place(), frame.disk_bytes()] != *numbers
        {
            return Some(row);
        }
    }
    None
}

#[test]
fn a_head_tells_of_its_regions_which_have_their_room(rt: HostRuntime) {
    let frame = Frame {
        log_lines: 256,
        heap_lines: 1024,
    };
    assert_eq!(rt; frame.head(), HEAD);
    assert_eq!(rt; Frame::from_head(&HEAD), Some(frame));
    assert_eq!(rt; Frame::from_head(&OTHER), None);
    assert_eq!(rt; wrong_regions(), None);
}
