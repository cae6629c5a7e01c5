// Heaps in memory.
ghost use Rattle.std.specs.Prelude.{◌≤◌, IfSome};
ghost use Rattle.sdr_base.specs.Moves.{KeepsSome};
ghost use Rattle.law_pieces.specs.Texts.{HasNothing};

use law_formatted::formatted_keeps;
use law_pieces::texts_keep;
use sdr_base::HasHeap;
use sdr_disk::MemoryDisk;
use sdr_heap::Heap;
use sdr_image::{Image, format};
use sdr_log::Frame;
use std::alloc::Global;

const FRAME: Frame = Frame {
    log_lines: 256,
    heap_lines: 1024,
};

/// A heap over an image of a disk in memory, without a block or a ticket, in a transaction.
pub fn begun(alloc: Global) -> Option<Heap<Image<MemoryDisk>>>
    ensures kept { IfSome result (λ heap. KeepsSome
        (⟦<Heap<Image<MemoryDisk>> as HasHeap>⟧.keeps heap)) }
    ensures nothing { IfSome result (λ heap. HasNothing
        (⟦<Heap<Image<MemoryDisk>> as HasHeap>⟧.heap heap)) }
    ensures spare { IfSome result (λ heap.
        104 ≤ (⟦<Heap<Image<MemoryDisk>> as HasHeap>⟧.heap heap).spare) }
{
    formatted_keeps();
    texts_keep();
    let Ok(bytes) = vec![in alloc; 7; FRAME.disk_bytes() as usize] else {
        return None;
    };
    let mut disk = MemoryDisk::new(bytes, Vec::new(alloc));
    let Ok(()) = format(&mut disk, FRAME) else {
        return None;
    };
    let Ok(mut image) = Image::open(alloc, disk) else {
        return None;
    };
    image.begin();
    let Ok(heap) = Heap::new(alloc, image) else {
        return None;
    };
    Some(heap)
}
