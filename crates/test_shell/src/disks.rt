// Disks in memory, and what words come to on them.
use sdr_base::{Bytes, MemorySink, MemorySource, NoMedia};
use sdr_disk::{Disk, MemoryDisk, Torn};
use sdr_image::format;
use sdr_log::Frame;
use sdr_shell::{RunOutcome, still};
use std::alloc::Global;
use std::rc::RcStr;

const FRAME: Frame = Frame {
    log_lines: 256,
    heap_lines: 1024,
};

/// Where the heap region begins.
pub const HEAP: usize = 16_448;

/// The bytes of a disk now.
pub fn bytes_of(disk: &MemoryDisk) -> Option<Vec<u8>> {
    disk.image_at(disk.now(), Torn::New).ok()
}

/// The bytes of a disk with an empty heap.
pub fn formatted(alloc: Global) -> Option<Vec<u8>> {
    let bytes = vec![in alloc; 0; 81_984].ok()?;
    let mut disk = MemoryDisk::new(bytes, Vec::new(alloc));
    format(&mut disk, FRAME).ok()?;
    bytes_of(&disk)
}

/// What these words and this input come to on a disk of these bytes, whose calls with these numbers fail.
pub fn answered(
    alloc: Global,
    form: &[&str],
    bytes: Vec<u8>,
    failing: Vec<u64>,
    input: &[u8],
    output: &mut MemorySink,
) -> Option<RunOutcome<MemoryDisk, NoMedia>> {
    let mut words = Vec::new(alloc);
    for word in form {
        words.push(RcStr::from_str(alloc, word).ok()?).ok()?;
    }
    let mut source = MemorySource::new(Bytes::copied(alloc, input).ok()?, Vec::new(alloc));
    let disk = MemoryDisk::new(bytes, failing);
    Some(still(alloc, &words, disk, NoMedia::new(), &mut source, output))
}
