// What the daemons of a script come to on a disk in memory.
use sdr_base::{Bytes, Gate, MemorySink, MemorySource, NoMedia};
use sdr_disk::{Disk, MemoryDisk, Torn};
use sdr_image::format;
use sdr_log::Frame;
use sdr_shell::top;
use std::alloc::Global;
use std::rc::RcStr;
use std::sync::Wait;
use std::thread::Threads;

const FRAME: Frame = Frame {
    log_lines: 256,
    heap_lines: 1024,
};

/// The bytes of a disk with an empty heap.
fn formatted(alloc: Global) -> Option<Vec<u8>> {
    let bytes = vec![in alloc; 0; 81_984].ok()?;
    let mut disk = MemoryDisk::new(bytes, Vec::new(alloc));
    format(&mut disk, FRAME).ok()?;
    disk.image_at(disk.now(), Torn::New).ok()
}

/// The status of a run of this script on an empty heap, with totals or without, and how many calls of its disk were made, whose
/// call of this number fails, 0 for none.
pub fn status_of<R: Threads + Wait + Sync, G: Gate + Sync>(
    rt: &R,
    alloc: Global,
    totals: bool,
    script: &[u8],
    failing: u64,
    output: &mut MemorySink,
    gate: &G,
) -> Option<(u8, u64)> {
    let mut words = Vec::new(alloc);
    words.push(RcStr::from_str(alloc, "run").ok()?).ok()?;
    if totals {
        words.push(RcStr::from_str(alloc, "totals").ok()?).ok()?;
    }
    let mut source = MemorySource::new(Bytes::copied(alloc, script).ok()?, Vec::new(alloc));
    let disk = MemoryDisk::new(formatted(alloc)?, vec![in alloc; failing; 1].ok()?);
    let outcome = top(
        rt,
        alloc,
        &words,
        disk,
        NoMedia::new(),
        &mut source,
        output,
        gate,
    );
    Some((outcome.status, outcome.disk.calls()))
}

/// Whether a text has this part.
pub fn has(text: &[u8], part: &[u8]) -> bool {
    if part.is_empty() {
        return true;
    }
    text.windows(part.len()).any(|window| window == part)
}
