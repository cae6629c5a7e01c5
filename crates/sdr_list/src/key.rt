// The keys that elements are compared by.
ghost use Rattle.std.specs.Prelude.{◌≡◌, ◌≤◌, length, IfOk, IfErr};
ghost use Rattle.sdr_base.specs.Blocks.{UsesRange};
ghost use Rattle.sdr_base.specs.Moves.{KeepsSome};
ghost use Rattle.sdr_base.specs.Objects.{OnlyFault};
ghost use Rattle.sdr_base.specs.Works.{Looks};
ghost use Rattle.sdr_base.specs.declared.limits.TheConstants.{LONGEST_SORT_KEY};
ghost use Rattle.sdr_list.specs.Orders.{Compares, IsKey, ReadsKey, key_in};

use crate::collation::{Collate, Collation};
use sdr_base::layout::{element as words, raw};
use sdr_base::limits::LONGEST_SORT_KEY;
use sdr_base::{Addr, Kind, Objects, Stop, word};
use std::cmp::Ordering;

// How many bytes the key of a datum has: the first ones of the raw object that it names.
fn key_length<O: Objects>(o: &mut O, datum: u64) -> Result<usize, Stop>
    requires kept { KeepsSome (O.keeps o.old) }
    ensures given { IfOk result
        (λ count. count ≡ length (key_in ((O.heap o.old).blocks datum))) }
    ensures short { IfOk result (λ count. count ≤ LONGEST_SORT_KEY) }
    ensures refused { IfErr result OnlyFault }
    ensures looks { Looks O.HasHeap o.old o.new result }
{
    Ok(match o.kind(datum)? {
        Some((Kind::Raw, bytes)) => bytes
            .saturating_sub(raw::BYTES)
            .min(LONGEST_SORT_KEY as u64) as usize,
        _ => 0,
    })
}

// Puts the key of a datum into the first bytes of a buffer, and answers how many they are.
pub fn read_key<O: Objects>(
    o: &mut O,
    datum: u64,
    into: &mut [u8; LONGEST_SORT_KEY],
) -> Result<usize, Stop>
    requires kept { KeepsSome (O.keeps o.old) }
    ensures given { IfOk result
        (λ count. ReadsKey ((O.heap o.old).blocks datum) count into.new) }
    ensures refused { IfErr result OnlyFault }
    ensures looks { Looks O.HasHeap o.old o.new result }
{
    let count = key_length(o, datum)?;
    if count > 0 {
        o.get(datum, raw::BYTES, &mut into[..count])?;
    }
    Ok(count)
}

// Compares the key of an element with another key.
pub fn compare_element<O: Objects, F: Collate>(
    o: &mut O,
    element: Addr,
    key: &[u8],
    by: &Collation<F>,
) -> Result<Ordering, Stop>
    requires kept { KeepsSome (O.keeps o.old) }
    requires element { UsesRange (O.heap o.old).blocks element 0 32 }
    requires key { IsKey key.now }
    ensures compared { IfOk result (λ answer. Compares
        (F.order by.now.by) (O.heap o.old).blocks element key.now answer) }
    ensures refused { IfErr result OnlyFault }
    ensures looks { Looks O.HasHeap o.old o.new result }
{
    let datum = word(o, element, words::DATUM)?;
    let mut buffer = [0; LONGEST_SORT_KEY];
    let count = read_key(o, datum, &mut buffer)?;
    Ok(by.compare(&buffer[..count], key))
}
