//! A daemon that sends bundles from queues with deadlines, on a heap in memory: it puts three bundles, takes the first one that is to be
//! sent, and destroys those that are overdue. It prints what is taken and how many expire.
//!
//! 1. `begun` formats a disk in memory, opens it, and begins a transaction on the heap there.
//! 2. `run` makes the queues and three bundles (`make`), puts them (`put_all`), and takes one between two expiries (`send`).
//!
//! Proved: each call has what it needs. The heap of a disk that was just formatted has no block and no ticket (`nothing`), and
//! from there on each call hands on what the next one needs (`bundles`).
//!
//! Only tested: what is printed (`stdout`).
#![tactic(auto)]

ghost use Rattle.std.specs.Prelude.{◌≤◌, IfSome};
ghost use Rattle.sdr_base.specs.Moves.{KeepsSome};
ghost use Rattle.bp_queue.specs.Bundles.{HasNothing};

mod daemon;

use daemon::run;
use law_formatted::formatted_keeps;
use sdr_base::HasHeap;
use sdr_disk::MemoryDisk;
use sdr_heap::Heap;
use sdr_image::{Image, format};
use sdr_log::Frame;
use std::alloc::Global;
use std::io;

const FRAME: Frame = Frame {
    log_lines: 256,
    heap_lines: 1024,
};

// A heap in memory without a block or a ticket, in a transaction.
fn begun(alloc: Global) -> Option<Heap<Image<MemoryDisk>>>
    ensures kept { IfSome result (λ heap. KeepsSome
        (⟦<Heap<Image<MemoryDisk>> as HasHeap>⟧.keeps heap)) }
    ensures nothing { IfSome result (λ heap. HasNothing
        (⟦<Heap<Image<MemoryDisk>> as HasHeap>⟧.heap heap)) }
    ensures spare { IfSome result (λ heap.
        31 ≤ (⟦<Heap<Image<MemoryDisk>> as HasHeap>⟧.heap heap).spare) }
{
    formatted_keeps();
    let Ok(bytes) = vec![in alloc; 0; FRAME.disk_bytes() as usize] else {
        return None;
    };
    let mut disk = MemoryDisk::new(bytes, Vec::new(alloc));
    let Ok(()) = format(&mut disk, FRAME) else {
        return None;
    };
    let Ok(mut image) = Image::open(alloc, disk) else {
        return None;
    };
    image.begin();
    let Ok(heap) = Heap::new(alloc, image) else {
        return None;
    };
    Some(heap)
}

fn main(rt: HostRuntime) -> io::Result<()> {
    let Some(mut heap) = begun(rt.alloc()) else {
        println!(rt; "no memory")?;
        return Ok(());
    };
    match run(&mut heap) {
        Ok(sent) => {
            println!(rt; "expired at 29: {}", sent.early)?;
            println!(rt; "taken: {}", sent.taken)?;
            println!(rt; "expired at 50: {}", sent.late)?;
        }
        Err(_) => println!(rt; "stopped")?,
    }
    Ok(())
}
