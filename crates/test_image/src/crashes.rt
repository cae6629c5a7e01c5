// What a crash leaves of a disk, and what opening makes of it.
use sdr_base::Cells;
use sdr_disk::{MemoryDisk, Torn};
use sdr_image::Image;
use std::alloc::Global;
use std::ops::Range;

/// From a moment on and up to another, which bytes are pending.
pub type Pending<'a> = (u64, u64, &'a [Range<usize>]);

/// How many lines opening puts back, and how many nines there are then before line 134.
pub type Opened = (u64, usize);

/// Up to a number, but not at it: what opening makes of each tear.
pub type Row = (u64, [Opened; 4]);

/// How much a crash leaves of what is pending: nothing, all, or one byte everywhere.
const TEARS: [Torn; 4] = [Torn::Old, Torn::New, Torn::Filled(0), Torn::Filled(255)];

/// The image of a crash so many moments after another.
pub fn image_after(disk: &MemoryDisk, begun: u64, after: u64, torn: Torn) -> Option<Vec<u8>> {
    disk.image_at(begun.checked_add(after)?, torn).ok()
}

// Whether just the bytes of these ranges are filled.
fn are_filled(image: &[u8], ranges: &[Range<usize>]) -> bool {
    image.iter().enumerate().all(|(place, byte)| {
        (*byte == 0xEE) == ranges.iter().any(|range| range.contains(&place))
    })
}

/// The first moment since another at which other bytes are pending.
pub fn wrong_moment(disk: &MemoryDisk, begun: u64, rows: &[Pending]) -> Option<Option<u64>> {
    for (first, behind, ranges) in rows {
        for after in *first..*behind {
            let image = image_after(disk, begun, after, Torn::Filled(0xEE))?;
            if !are_filled(&image, ranges) {
                return Some(Some(after));
            }
        }
    }
    Some(None)
}

// What opening makes of an image.
fn opened(alloc: Global, image: Vec<u8>) -> Option<Opened> {
    let mut image = Image::open(alloc, MemoryDisk::new(image, Vec::new(alloc))).ok()?;
    let mut heap = [0; 8576];
    if image.size() == 65_536 {
        image.read(0, &mut heap).ok()?;
    }
    let nines = heap.iter().filter(|byte| **byte == 9).count();
    Some((image.restored(), nines))
}

/// What opening makes of a crash at a moment, for each tear.
pub fn opened_torn(alloc: Global, disk: &MemoryDisk, moment: u64) -> Option<[Opened; 4]> {
    let mut all = [(0, 0); 4];
    for (got, torn) in all.iter_mut().zip(&TEARS) {
        *got = opened(alloc, disk.image_at(moment, *torn).ok()?)?;
    }
    Some(all)
}

/// What the rows say of a number.
pub fn wanted(rows: &[Row], number: u64) -> Option<[Opened; 4]> {
    for (behind, want) in rows {
        if number < *behind {
            return Some(*want);
        }
    }
    None
}
