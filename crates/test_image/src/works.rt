// What is done on a disk with a fresh heap.
use sdr_base::{Cells, Stop};
use sdr_disk::{Disk, MemoryDisk, Torn};
use sdr_image::{Image, format};
use sdr_log::Frame;
use std::alloc::Global;

const FRAME: Frame = Frame {
    log_lines: 256,
    heap_lines: 1024,
};

/// What is done on a disk once it is opened.
#[derive(Clone, Copy)]
pub enum Work {
    /// A byte of each of three lines is changed.
    Three,
    /// Seventy lines are changed, which is more than the buffer holds.
    Seventy,
    /// They are changed and taken back.
    TakenBack,
    /// Nothing.
    Nothing,
}

/// The bytes of a disk with a fresh heap.
pub fn fresh(alloc: Global) -> Option<Vec<u8>> {
    let mut disk = MemoryDisk::new(vec![in alloc; 7; 81_984].ok()?, Vec::new(alloc));
    format(&mut disk, FRAME).ok()?;
    disk.image_at(disk.now(), Torn::New).ok()
}

// Writes nines into the lines 32, 0 and 16, in this order.
fn change_three<D: Disk>(image: &mut Image<D>) -> Result<(), Stop> {
    if image.size() == 65_536 {
        image.write(2048, &[9])?;
        image.write(16, &[9])?;
        image.write(1056, &[9])?;
    }
    Ok(())
}

// Writes nines into the lines 64 to 133.
fn change_seventy<D: Disk>(image: &mut Image<D>) -> Result<(), Stop> {
    if image.size() == 65_536 {
        image.write(4096, &[9; 4480])?;
    }
    Ok(())
}

// Does it.
fn work_on<D: Disk>(image: &mut Image<D>, work: Work) -> Result<(), Stop> {
    match work {
        Work::Three => {
            change_three(image)?;
            image.commit()
        }
        Work::Seventy => {
            change_seventy(image)?;
            image.commit()
        }
        Work::TakenBack => {
            change_seventy(image)?;
            image.cancel()
        }
        Work::Nothing => Ok(()),
    }
}

/// Opens a disk and does it there. Whether no call failed, and the disk then.
pub fn done_on(alloc: Global, disk: MemoryDisk, work: Work) -> (bool, MemoryDisk) {
    match Image::open(alloc, disk) {
        Ok(mut image) => {
            let done = work_on(&mut image, work) == Ok(());
            (done, image.into_disk())
        }
        Err(shut) => (false, shut.disk),
    }
}
