// What `format` answers and leaves on a disk in memory: that it succeeds on one that is long enough, and what
// it prints, by examples from outside.
use sdr_base::{Bytes, MemorySink, MemorySource, NoMedia, NoMemory};
use sdr_disk::{Disk, MemoryDisk};
use sdr_shell::{DISK_FAULT, DONE, OUTPUT_FAULT, TOO_SMALL, USAGE, still};
use std::alloc::Global;
use std::rc::RcStr;

/// What a disk of bytes 7 holds from then on.
#[derive(Clone, Copy)]
enum Left {
    /// The head of 2 lines of log and 32 of heap, zeros up to 2,240 bytes, and the bytes behind that.
    Formatted,
    /// Its bytes.
    Same,
    /// Something of both.
    Some,
}

/// Which first call fails.
#[derive(Clone, Copy, PartialEq, Eq)]
enum Fault {
    No,
    OfDisk,
    OfOutput,
}

// The words behind `format`, the length of the disk in bytes, and what fails; the status, the text, and the disk.
type Row<'a> = ([&'a str; 2], usize, Fault, (u8, &'a [u8], Left));

const ROWS: [Row<'static>; 10] = [
    (
        ["2", "32"],
        2241,
        Fault::No,
        (DONE, b"formatted 2 32\n", Left::Formatted),
    ),
    (
        ["2", "32"],
        2239,
        Fault::No,
        (TOO_SMALL, b"too small 2240 2239\n", Left::Same),
    ),
    (
        ["2", "32"],
        2240,
        Fault::OfDisk,
        (DISK_FAULT, b"disk fault\n", Left::Some),
    ),
    (
        ["2", "32"],
        2240,
        Fault::OfOutput,
        (OUTPUT_FAULT, b"", Left::Formatted),
    ),
    // Lengths out of their limits, and words that are no numbers.
    (
        ["1", "32"],
        2240,
        Fault::No,
        (USAGE, b"usage\n", Left::Same),
    ),
    (
        ["2", "31"],
        2240,
        Fault::No,
        (USAGE, b"usage\n", Left::Same),
    ),
    (
        ["65537", "32"],
        2240,
        Fault::No,
        (USAGE, b"usage\n", Left::Same),
    ),
    (
        ["2", "262145"],
        2240,
        Fault::No,
        (USAGE, b"usage\n", Left::Same),
    ),
    (
        ["02", "32"],
        2240,
        Fault::No,
        (USAGE, b"usage\n", Left::Same),
    ),
    (
        ["x", "32"],
        2240,
        Fault::No,
        (USAGE, b"usage\n", Left::Same),
    ),
];

// The words of a form.
fn words_in(alloc: Global, lines: &[&str; 2]) -> Result<Vec<RcStr>, NoMemory> {
    let mut words = Vec::new(alloc);
    words.push(RcStr::from_str(alloc, "format")?)?;
    words.push(RcStr::from_str(alloc, lines[0])?)?;
    words.push(RcStr::from_str(alloc, lines[1])?)?;
    Ok(words)
}

// The calls that fail: the first one, or none.
fn failing(alloc: Global, first: bool) -> Result<Vec<u64>, NoMemory> {
    if first {
        [1].to_vec(alloc)
    } else {
        Ok(Vec::new(alloc))
    }
}

fn is_left(bytes: &[u8], left: Left) -> bool {
    match left {
        Left::Formatted => {
            bytes.starts_with(b"SDRHEAP1\0\0\0\x01\0\0\0\x02\0\0\0\x20")
                && bytes.get(64) == Some(&0)
                && bytes.get(2239) == Some(&0)
                && bytes.iter().skip(2240).all(|byte| *byte == 7)
        }
        Left::Same => bytes.iter().all(|byte| *byte == 7),
        Left::Some => true,
    }
}

// Whether a disk that answers again holds this.
fn holds(alloc: Global, mut disk: MemoryDisk, left: Left) -> Result<bool, NoMemory> {
    let mut bytes = vec![in alloc; 0; disk.len() as usize]?;
    Ok(disk.read_at(0, &mut bytes).is_ok() && is_left(&bytes, left))
}

// Whether a row is answered so.
fn is_answered(alloc: Global, row: &Row<'_>) -> Result<bool, NoMemory> {
    let (lines, size, fault, (status, text, left)) = row;
    let words = words_in(alloc, lines)?;
    let bytes = vec![in alloc; 7; *size]?;
    let disk = MemoryDisk::new(bytes, failing(alloc, *fault == Fault::OfDisk)?);
    let mut input = MemorySource::new(Bytes::new(alloc), Vec::new(alloc));
    let mut output = MemorySink::new(alloc, failing(alloc, *fault == Fault::OfOutput)?);
    let outcome = still(alloc, &words, disk, NoMedia::new(), &mut input, &mut output);
    let told = outcome.status == *status && output.taken() == *text;
    Ok(told && holds(alloc, outcome.disk, *left)?)
}

// The first row that is answered otherwise.
fn wrong_row(alloc: Global) -> Result<Option<usize>, NoMemory> {
    for (number, row) in ROWS.iter().enumerate() {
        if !is_answered(alloc, row)? {
            return Ok(Some(number));
        }
    }
    Ok(None)
}

#[test]
fn a_disk_is_formatted_or_stays_and_the_answer_says_which(rt: HostRuntime) {
    assert_eq!(rt; wrong_row(rt.alloc()), Ok(None));
}
