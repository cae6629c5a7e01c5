// What no clause and no script shows of recoveries: that they are answered with ample memory, how many lines they tell of, and that
// one that is stopped at any call of the disk and begun again puts back the same heap.
use crate::disks::{HEAP, answered, bytes_of, formatted};
use sdr_base::MemorySink;
use sdr_disk::{Disk, MemoryDisk, Torn};
use sdr_shell::DONE;
use std::alloc::Global;

// A string that is kept, by an end of ten calls of the disk.
const SCRIPT: &[u8] = b"1: begin\n1: string \"hello\"\n1: end\n";

// The bytes of a disk that loses power in the sixth of them: the second of the three lines is being written.
fn broken(alloc: Global, torn: Torn) -> Option<Vec<u8>> {
    let mut output = MemorySink::new(alloc, Vec::new(alloc));
    let bytes = formatted(alloc)?;
    let played = answered(
        alloc,
        &["replay"],
        bytes,
        Vec::new(alloc),
        SCRIPT,
        &mut output,
    )?;
    played.disk.image_at(11, torn).ok()
}

// Whether a recovery of these bytes prints this, with the disk that it leaves.
fn recovered(alloc: Global, bytes: Vec<u8>, text: &[u8]) -> Option<(bool, MemoryDisk)> {
    let mut output = MemorySink::new(alloc, Vec::new(alloc));
    let outcome = answered(
        alloc,
        &["recover"],
        bytes,
        Vec::new(alloc),
        b"",
        &mut output,
    )?;
    let told = outcome.status == DONE && output.taken() == text;
    Some((told, outcome.disk))
}

// Whether the disk has an empty heap, and no open batch.
fn is_empty(alloc: Global, disk: &MemoryDisk) -> Option<bool> {
    let bytes = bytes_of(disk)?;
    let heap = formatted(alloc)?;
    Some(bytes.get(HEAP..)? == heap.get(HEAP..)? && bytes.get(64) == Some(&0))
}

// What a disk tells that loses power so: how many lines are put back, and again, and whether the heap is empty then.
const CRASHES: [(Torn, &[u8]); 4] = [
    (Torn::Old, b"recovered 3 lines\n"),
    (Torn::New, b"recovered 3 lines\n"),
    (Torn::Filled(0), b"recovered 3 lines\n"),
    (Torn::Filled(0xEE), b"recovered 3 lines\n"),
];

// The first of them that is answered otherwise.
fn wrong_crash(alloc: Global) -> Option<Option<usize>> {
    for (number, (torn, text)) in CRASHES.iter().enumerate() {
        let (told, disk) = recovered(alloc, broken(alloc, *torn)?, text)?;
        let (again, _) = recovered(alloc, bytes_of(&disk)?, b"recovered 0 lines\n")?;
        if !told || !again || !is_empty(alloc, &disk)? {
            return Some(Some(number));
        }
    }
    Some(None)
}

#[test]
fn a_recovery_tells_how_many_lines_it_has_put_back(rt: HostRuntime) {
    assert_eq!(rt; wrong_crash(rt.alloc()), Some(None));
}

// The moments of a recovery, which makes six calls that change the disk, and what one tells that is begun again after a crash at them:
// up to the begin of the write that closes the gate three lines, then none where the crash leaves that write whole, and at last none.
const STOPPED: [(u64, Torn, &[u8]); 7] = [
    (0, Torn::Old, b"recovered 3 lines\n"),
    (3, Torn::Filled(0xEE), b"recovered 3 lines\n"),
    (5, Torn::New, b"recovered 3 lines\n"),
    (8, Torn::Old, b"recovered 3 lines\n"),
    (9, Torn::Old, b"recovered 3 lines\n"),
    (9, Torn::New, b"recovered 0 lines\n"),
    (12, Torn::Old, b"recovered 0 lines\n"),
];

// The first of them that is answered otherwise, and the moment at which the first recovery has ended.
fn wrong_stop(alloc: Global) -> Option<(Option<usize>, u64)> {
    let first = broken(alloc, Torn::New)?;
    let (_, disk) = recovered(alloc, first, b"recovered 3 lines\n")?;
    for (number, (moment, torn, text)) in STOPPED.iter().enumerate() {
        let image = disk.image_at(*moment, *torn).ok()?;
        let (told, left) = recovered(alloc, image, text)?;
        if !told || !is_empty(alloc, &left)? {
            return Some((Some(number), disk.now()));
        }
    }
    Some((None, disk.now()))
}

#[test]
fn a_recovery_that_is_stopped_and_begun_again_puts_back_the_same_heap(rt: HostRuntime) {
    assert_eq!(rt; wrong_stop(rt.alloc()), Some((None, 12)));
}
