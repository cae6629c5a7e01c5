// The start bits.
ghost use Rattle.std.specs.Prelude.{◌≡◌, ◌≤◌, ◌<◌, ◌%◌, ◌^◌, cond, length, IfErr, OnOk};
ghost use Rattle.audit_blocks.specs.Auditing.{DamagedIn};
ghost use Rattle.audit_blocks.specs.Bits.{BitsAreRight, IsWrongBits, byte_of_bits};
ghost use Rattle.audit_blocks.specs.Spots.{is_told_used};
ghost use Rattle.audit_blocks.specs.Walk.{OfBlocks};
ghost use Rattle.audit_blocks.specs.Walked.{IsSurveyed};

use crate::control::Edges;
use crate::error::{Check, Damage};
use crate::spot::{Spot, is_used};
use sdr_base::START_BITS;

// The value where a block in use begins with a word, and else 0.
fn weight(spots: &[Spot], word: u64, value: u8) -> u8
    ensures is { result ≡ cond (is_told_used spots.now word) value 0 }
    ensures most { result ≤ value }
{
    if is_used(spots, word) { value } else { 0 }
}

// The byte of the start bits of these eight words.
fn byte_of_eight(eight: &[Spot]) -> u8
    requires { length eight.now ≡ 8 }
    ensures { result ≡ byte_of_bits (is_told_used eight.now) 0 }
{
    weight(eight, 0, 128)
        + weight(eight, 1, 64)
        + weight(eight, 2, 32)
        + weight(eight, 3, 16)
        + weight(eight, 4, 8)
        + weight(eight, 5, 4)
        + weight(eight, 6, 2)
        + weight(eight, 7, 1)
}

// The byte of the start bits of eight words, 0 behind the region.
fn byte_of_bits(spots: &[Spot], byte: u64) -> u8
    requires few { byte < 2 ^ 32 }
    requires whole { length spots.now % 8 ≡ 0 }
    ensures { result ≡ byte_of_bits (is_told_used spots.now) byte }
{
    let word = 8 * byte as usize;
    if word >= spots.len() {
        return 0;
    }
    byte_of_eight(&spots[word..word + 8])
}

/// Checks the start bits of the blocks that were found: the bit of a word is 1 exactly where a block in use begins with it, and
/// behind the last word's are zeros up to the first block. What is wrong first is told by its byte. It takes no memory.
pub fn check_bits(heap: &[u8], edges: &Edges, spots: &[Spot]) -> Result<(), Damage>
    requires surveyed { IsSurveyed heap.now edges.now spots.now }
    ensures right { OnOk result (OfBlocks BitsAreRight heap.now) }
    ensures damaged { IfErr result (DamagedIn Check.Bits IsWrongBits heap.now) }
{
    for place in START_BITS..edges.start {
        if heap[place as usize] != byte_of_bits(spots, place - START_BITS) {
            return Err(Damage {
                place,
                why: Check::Bits,
            });
        }
    }
    Ok(())
}
