// A small heap with one byte changed.
ghost use Rattle.std.specs.Prelude.{◌≤◌, ◌<◌};

use crate::regions::{HEAP, LINES, region, structure_of};
use audit_blocks::Damage;
use sdr_base::{Cells, Stop};
use std::alloc::Global;

// Changes the byte at a place. One that lies behind the region stays out.
fn spoil<C: Cells>(c: &mut C, place: u64, by: u8) -> Result<(), Stop> {
    if place >= c.size() {
        return Ok(());
    }
    let mut byte = [0; 1];
    c.read(place, &mut byte)?;
    c.write(place, &[byte[0] ^ by])
}

// Whether the heap with this byte changed passes an audit, or is told to be damaged inside of it.
fn is_told(alloc: Global, place: u64, by: u8) -> bool {
    let Some(mut cells) = region(alloc, LINES, &HEAP, &[]) else {
        return false;
    };
    if spoil(&mut cells, place, by).is_err() {
        return false;
    }
    match structure_of(alloc, &mut cells) {
        Some(Ok(())) => true,
        Some(Err(Damage { place, .. })) => place < 2048,
        _ => false,
    }
}

// The first byte of which a change is told otherwise.
fn wrong_byte(alloc: Global) -> Option<u64> {
    for place in 0..2048 {
        for by in [1, 128, 255] {
            if !is_told(alloc, place, by) {
                return Some(place);
            }
        }
    }
    None
}

#[test]
fn each_changed_byte_passes_or_is_told(rt: HostRuntime) {
    assert_eq!(rt; wrong_byte(rt.alloc()), None);
}
