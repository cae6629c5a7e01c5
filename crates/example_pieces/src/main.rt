//! A node that takes a payload apart and puts it together again, on a heap in memory: it cuts an object by two sizes, adds pieces in
//! another order, one of them twice and some that overlap, and rebuilds the object. It prints how many pieces there are by either size,
//! how many bytes are missing behind each piece, and whether the rebuilt object has the payload's bytes.
//!
//! 1. `begun` formats a disk in memory, opens it, and begins a transaction on the heap there.
//! 2. `run` makes an object of the payload (`make_payload`), adds pieces of it to a text (`add_next`), finishes that, and sends the object
//!    (`finish_and_send`).
//!
//! Proved: each call has what it needs. The heap of a disk that was just formatted has no block and no ticket (`nothing`), and
//! from there on each call hands on what the next one needs (`text`).
//!
//! Only tested: what is printed (`stdout`).
#![tactic(auto)]

ghost use Rattle.std.specs.Prelude.{◌≤◌, IfSome};
ghost use Rattle.sdr_base.specs.Moves.{KeepsSome};
ghost use Rattle.law_pieces.specs.Texts.{HasNothing};

mod node;

use law_formatted::formatted_keeps;
use law_pieces::texts_keep;
use node::{TEXT, run};
use sdr_base::HasHeap;
use sdr_disk::MemoryDisk;
use sdr_heap::Heap;
use sdr_image::{Image, format};
use sdr_log::Frame;
use std::alloc::Global;
use std::io;

const FRAME: Frame = Frame {
    log_lines: 256,
    heap_lines: 1024,
};

// A heap in memory without a block or a ticket, in a transaction.
fn begun(alloc: Global) -> Option<Heap<Image<MemoryDisk>>>
    ensures kept { IfSome result (λ heap. KeepsSome
        (⟦<Heap<Image<MemoryDisk>> as HasHeap>⟧.keeps heap)) }
    ensures nothing { IfSome result (λ heap. HasNothing
        (⟦<Heap<Image<MemoryDisk>> as HasHeap>⟧.heap heap)) }
    ensures spare { IfSome result (λ heap.
        304 ≤ (⟦<Heap<Image<MemoryDisk>> as HasHeap>⟧.heap heap).spare) }
{
    formatted_keeps();
    texts_keep();
    let Ok(bytes) = vec![in alloc; 0; FRAME.disk_bytes() as usize] else {
        return None;
    };
    let mut disk = MemoryDisk::new(bytes, Vec::new(alloc));
    let Ok(()) = format(&mut disk, FRAME) else {
        return None;
    };
    let Ok(mut image) = Image::open(alloc, disk) else {
        return None;
    };
    image.begin();
    let Ok(heap) = Heap::new(alloc, image) else {
        return None;
    };
    Some(heap)
}

fn main(rt: HostRuntime) -> io::Result<()> {
    let Some(mut heap) = begun(rt.alloc()) else {
        println!(rt; "no memory")?;
        return Ok(());
    };
    match run(&mut heap, rt.alloc()) {
        Ok(rebuilt) => {
            println!(rt; "pieces: {} and {}", rebuilt.by_ten, rebuilt.by_seven)?;
            for missing in rebuilt.missing {
                println!(rt; "missing: {missing}")?;
            }
            println!(rt; "the same bytes: {}", rebuilt.bytes == *TEXT)?;
        }
        Err(_) => println!(rt; "stopped")?,
    }
    Ok(())
}
