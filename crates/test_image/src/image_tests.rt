// An opened disk: that calls succeed with ample memory, and what they do to the disk.
ghost use Rattle.std.specs.Prelude.{◌≡◌, IfSome, false};
ghost use Rattle.sdr_log.specs.Frame.{IsInLimits};

use byteorder::{BigEndian, ByteOrder};
use sdr_base::{Cells, Refusal, Stop};
use sdr_disk::{Disk, MemoryDisk};
use sdr_image::{FormatError, Image, ImageError, format};
use sdr_log::Frame;
use std::alloc::Global;

// The answer to a call.
type Done = Result<(), Stop>;

const SMALL: Frame = Frame {
    log_lines: 2,
    heap_lines: 32,
};

const FEW: Frame = Frame {
    log_lines: 24,
    heap_lines: 32,
};

const MIDDLE: Frame = Frame {
    log_lines: 128,
    heap_lines: 64,
};

const LARGE: Frame = Frame {
    log_lines: 256,
    heap_lines: 1024,
};

// A disk of so many sevens, of whose calls the one with this number fails. `None`: there is no memory.
fn sevens(alloc: Global, bytes: usize, failing: u64) -> Option<MemoryDisk> {
    let bytes = vec![in alloc; 7; bytes].ok()?;
    Some(MemoryDisk::new(bytes, [failing].to_vec(alloc).ok()?))
}

// A disk of so many bytes, formatted and opened, of whose calls the one with this number fails. Formatting
// the smallest regions makes 8 calls, and opening 2.
fn formatted(alloc: Global, bytes: usize, frame: Frame, failing: u64) -> Option<Image<MemoryDisk>>
    requires { IsInLimits frame }
    ensures { IfSome result (λ image. image.is_open ≡ false) }
{
    let mut disk = sevens(alloc, bytes, failing)?;
    format(&mut disk, frame).ok()?;
    Image::open(alloc, disk).ok()
}

/// A call of an image: a write from a place on, a read of two bytes, a cancel, or a commit.
#[derive(Clone, Copy)]
enum Step<'a> {
    Write(u64, &'a [u8]),
    Read(u64),
    Cancel,
    Commit,
}

// Makes a call of an image. A read fills the buffer. Media play no part, and so their fault stands for a
// place that isn't in the image.
fn make<D: Disk>(image: &mut Image<D>, step: Step, piece: &mut [u8; 2]) -> Done {
    let size = image.size();
    match step {
        Step::Write(place, from) if place <= size && from.len() as u64 <= size - place => {
            image.write(place, from)
        }
        Step::Read(place) if size >= 2 && place <= size - 2 => image.read(place, piece),
        Step::Cancel => image.cancel(),
        Step::Commit => image.commit(),
        _ => Err(Stop::MediaFault),
    }
}

// What is called and answered; how many lines are touched then; by how much the disk's moment has risen
// since the transaction was begun; and what the buffer holds.
type Row<'a> = (Step<'a>, (Done, u64, u64, [u8; 2]));

// There is no room for a second line.
const FULL: [Row; 3] = [
    (Step::Write(0, &[1]), (Ok(()), 1, 0, [9, 9])),
    (Step::Write(63, &[2]), (Ok(()), 1, 0, [9, 9])),
    (
        Step::Write(64, &[3]),
        (
            Err(Stop::Refused(Refusal::LogFull { lines: 2, room: 1 })),
            1,
            0,
            [9, 9],
        ),
    ),
];

// A cancel gives the bytes at begin. A commit of a line makes eight calls, of two moments each.
const KEPT: [Row; 5] = [
    (Step::Write(2046, &[5, 6]), (Ok(()), 1, 0, [9, 9])),
    (Step::Cancel, (Ok(()), 0, 0, [9, 9])),
    (Step::Read(2046), (Ok(()), 0, 0, [0, 0])),
    (Step::Write(2046, &[7, 8]), (Ok(()), 1, 0, [0, 0])),
    (Step::Commit, (Ok(()), 0, 16, [0, 0])),
];

// What is there once the disk is opened again.
const AGAIN: [Row; 1] = [(Step::Read(2046), (Ok(()), 0, 0, [7, 8]))];

// A commit makes a write for each line and seven calls more, and none where no line was touched.
const LINES: [Row; 4] = [
    (Step::Commit, (Ok(()), 0, 0, [9, 9])),
    (Step::Write(640, &[1; 961]), (Ok(()), 16, 0, [9, 9])),
    (Step::Write(0, &[1]), (Ok(()), 17, 0, [9, 9])),
    (Step::Commit, (Ok(()), 0, 48, [9, 9])),
];

// Begins a transaction, makes the calls of some rows, and answers the first row that gets something else.
fn wrong_row<D: Disk>(image: &mut Image<D>, rows: &[Row]) -> Option<usize>
    requires { image.old.is_open ≡ false }
{
    let begun = image.now();
    let mut piece = [9; 2];
    image.begin();
    for (row, (step, want)) in rows.iter().enumerate() {
        let answer = make(image, *step, &mut piece);
        let risen = image.now().saturating_sub(begun);
        if (answer, image.touched(), risen, piece) != *want {
            return Some(row);
        }
    }
    None
}

// The first row that gets something else on a disk with these regions.
fn wrong_on(alloc: Global, bytes: usize, frame: Frame, rows: &[Row]) -> Option<Option<usize>>
    requires { IsInLimits frame }
{
    let mut image = formatted(alloc, bytes, frame, 99)?;
    Some(wrong_row(&mut image, rows))
}

// The first row that gets something else, before the disk is opened again and behind that.
fn wrong_again(alloc: Global) -> Option<[Option<usize>; 2]> {
    let mut image = formatted(alloc, 2240, SMALL, 99)?;
    let before = wrong_row(&mut image, &KEPT);
    let mut again = Image::open(alloc, image.into_disk()).ok()?;
    Some([before, wrong_row(&mut again, &AGAIN)])
}

#[test]
fn lines_are_touched_while_there_is_room_and_kept_by_a_commit_alone(rt: HostRuntime) {
    assert_eq!(rt; wrong_on(rt.alloc(), 2240, SMALL, &FULL), Some(None));
    assert_eq!(rt; wrong_on(rt.alloc(), 3648, FEW, &LINES), Some(None));
    assert_eq!(rt; wrong_again(rt.alloc()), Some([None, None]));
}

// What an image answers on whose disk the call with this number fails: to a commit and to the call
// behind it. And the byte that was written, on the disk opened again.
fn committed(alloc: Global, failing: u64) -> Option<([Done; 2], u8)> {
    let mut image = formatted(alloc, 2240, SMALL, failing)?;
    let mut piece = [9; 2];
    make(&mut image, Step::Write(100, &[1]), &mut piece).ok()?;
    let answers = [
        make(&mut image, Step::Commit, &mut piece),
        make(&mut image, Step::Read(100), &mut piece),
    ];
    let mut again = Image::open(alloc, image.into_disk()).ok()?;
    make(&mut again, Step::Read(100), &mut piece).ok()?;
    Some((answers, piece[0]))
}

const FAILED: [Done; 2] = [Err(Stop::DiskFault), Err(Stop::Failed)];

// The batch, its gate, the line and the first gate, each with its sync; and no fault.
const FAULTS: [(u64, ([Done; 2], u8)); 9] = [
    (12, (FAILED, 0)),
    (13, (FAILED, 0)),
    (14, (FAILED, 0)),
    (15, (FAILED, 0)),
    (16, (FAILED, 0)),
    (17, (FAILED, 0)),
    (18, (FAILED, 0)),
    (19, (FAILED, 1)),
    (99, ([Ok(()), Ok(())], 1)),
];

// The first fault after which something else is answered.
fn wrong_fault(alloc: Global) -> Option<u64> {
    for (failing, want) in &FAULTS {
        if committed(alloc, *failing) != Some(*want) {
            return Some(*failing);
        }
    }
    None
}

/// A disk that is opened: one of sevens, one that was formatted, or such a one with this first gate.
#[derive(Clone, Copy)]
enum Shape {
    Sevens,
    Formatted,
    Gate(u8),
}

// Gives a disk of sevens that shape.
fn prepare<D: Disk>(disk: &mut D, shape: Shape) -> Result<(), FormatError> {
    match shape {
        Shape::Sevens => Ok(()),
        Shape::Formatted => format(disk, SMALL),
        Shape::Gate(byte) => {
            format(disk, SMALL)?;
            if disk.len() > 64 {
                disk.write_at(64, &[byte])?;
            }
            Ok(())
        }
    }
}

// Why a disk of a shape isn't opened, where the call with this number fails.
fn refused(alloc: Global, wanted: Shape, failing: u64) -> Option<Option<ImageError>> {
    let mut disk = sevens(alloc, 2240, failing)?;
    prepare(&mut disk, wanted).ok()?;
    match Image::open(alloc, disk) {
        Ok(_) => Some(None),
        Err(shut) => Some(Some(shut.why)),
    }
}

const REFUSED: [(Shape, u64, Option<ImageError>); 4] = [
    (Shape::Sevens, 99, Some(ImageError::NotFormatted)),
    (Shape::Formatted, 99, None),
    (Shape::Gate(1), 99, Some(ImageError::NotFormatted)),
    (Shape::Formatted, 9, Some(ImageError::DiskFault)),
];

// The first row that is refused otherwise.
fn wrong_refusal(alloc: Global) -> Option<usize> {
    for (row, (wanted, failing, why)) in REFUSED.iter().enumerate() {
        if refused(alloc, *wanted, *failing) != Some(*why) {
            return Some(row);
        }
    }
    None
}

#[test]
fn after_a_disk_fault_an_image_answers_failed_and_a_disk_without_a_heap_is_not_opened(
    rt: HostRuntime,
) {
    assert_eq!(rt; wrong_fault(rt.alloc()), None);
    assert_eq!(rt; wrong_refusal(rt.alloc()), None);
}

// Of a disk that was formatted and opened: the bytes of its heap region, how many lines a transaction may
// touch, how many were put back, and a control word.
fn control(alloc: Global, bytes: usize, frame: Frame, number: u64) -> Option<[u64; 4]>
    requires { IsInLimits frame }
{
    let mut image = formatted(alloc, bytes, frame, 99)?;
    let mut word = [9; 8];
    if number < 128 && image.size() >= 1024 {
        image.read(8 * number, &mut word).ok()?;
    }
    let value = BigEndian::read_u64(&word);
    Some([image.size(), image.room(), image.restored(), value])
}

// Bytes and regions of a disk, and the number of a word. A heap of 64 lines has its first block at 1088.
const WORDS: [(usize, Frame, u64, [u64; 4]); 8] = [
    (2240, SMALL, 0, [2048, 1, 0, 2048]),
    (3648, FEW, 0, [2048, 21, 0, 2048]),
    (81_984, LARGE, 0, [65_536, 224, 0, 65_536]),
    (81_984, LARGE, 1, [65_536, 224, 0, 2048]),
    (81_984, LARGE, 97, [65_536, 224, 0, 32_768]),
    (81_984, LARGE, 108, [65_536, 224, 0, 1]),
    (12_352, MIDDLE, 0, [4096, 112, 0, 4096]),
    (12_352, MIDDLE, 1, [4096, 112, 0, 1088]),
];

// The first word that is another.
fn wrong_word(alloc: Global) -> Option<usize> {
    for (row, (bytes, frame, number, want)) in WORDS.iter().enumerate() {
        if !frame.is_in_limits() || control(alloc, *bytes, *frame, *number) != Some(*want) {
            return Some(row);
        }
    }
    None
}

// What formatting answers, the disk's moment then, and its first bytes.
type Formatted = (Result<(), FormatError>, u64, [u8; 24]);

// The same, of a disk of so many sevens.
fn format_sevens(alloc: Global, bytes: usize, frame: Frame, failing: u64) -> Option<Formatted>
    requires { IsInLimits frame }
{
    let mut disk = sevens(alloc, bytes, failing)?;
    let answer = format(&mut disk, frame);
    let mut head = [9; 24];
    if disk.len() >= 24 {
        disk.read_at(0, &mut head).ok()?;
    }
    Some((answer, disk.now(), head))
}

const SHORT: FormatError = FormatError::TooSmall {
    need: 81_984,
    have: 81_983,
};

const HEAD: [u8; 24] = *b"SDRHEAP1\0\0\0\x01\0\0\x01\0\0\0\x04\0\0\0\0\0";

// The head is erased, synced, and written last. A disk a byte too short stays as it is.
const FORMATS: [(usize, Frame, u64, Formatted); 3] = [
    (81_984, LARGE, 99, (Ok(()), 46, HEAD)),
    (81_983, LARGE, 99, (Err(SHORT), 0, [7; 24])),
    (2240, SMALL, 6, (Err(FormatError::DiskFault), 12, [0; 24])),
];

// The first disk that is formatted otherwise, and how.
fn wrong_format(alloc: Global) -> Option<(usize, Option<Formatted>)> {
    for (row, (bytes, frame, failing, want)) in FORMATS.iter().enumerate() {
        if !frame.is_in_limits() {
            return Some((row, None));
        }
        let got = format_sevens(alloc, *bytes, *frame, *failing);
        if got != Some(*want) {
            return Some((row, got));
        }
    }
    None
}

#[test]
fn formatting_writes_the_head_and_the_control_words(rt: HostRuntime) {
    assert_eq!(rt; wrong_word(rt.alloc()), None);
    assert_eq!(rt; wrong_format(rt.alloc()), None);
}
