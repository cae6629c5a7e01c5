// What objects and the sources that they name charge.
ghost use Rattle.std.specs.Prelude.{◌≡◌, ◌≤◌, ◌^◌, sum_by};
ghost use Rattle.sdr_model.specs.Amounts.{amounts_by, in_space};
ghost use Rattle.sdr_model.specs.BondSteps.{bond_rise};
ghost use Rattle.sdr_model.specs.Charges.{bytes_charge, capsule_bytes, capsule_charge, object_charge};
ghost use Rattle.mem_parts.specs.Capped.{capped, capped_by};

use crate::capsules::capsule_bytes;
use sdr_base::{Amounts, Space};
use sdr_model::{Capsule, ZcoObject};

/// So many bytes of heap space.
pub fn heap_charge(bytes: u64) -> Amounts
    ensures { result ≡ amounts_by (in_space Space.Heap bytes) }
{
    Amounts {
        file: 0,
        bulk: 0,
        heap: bytes,
    }
}

/// So many bytes of a space.
pub fn space_charge(of: Space, bytes: u64) -> Amounts
    ensures { result ≡ capped_by (in_space of bytes) }
{
    let mut charge = heap_charge(0);
    match of {
        Space::File => charge.file = bytes,
        Space::Bulk => charge.bulk = bytes,
        Space::Heap => charge.heap = bytes,
    }
    charge
}

/// What an extent charges that is the first of an account's to name a source of so many bytes, which are in this space.
pub fn bytes_charge(of: Space, bytes: u64) -> Amounts
    requires small { bytes ≤ 2 ^ 40 }
    ensures { result ≡ amounts_by (bytes_charge of bytes) }
{
    let mut charge = heap_charge(32);
    match of {
        Space::File => charge.file = bytes,
        Space::Bulk => charge.bulk = bytes,
        Space::Heap => charge.heap = bytes + 32,
    }
    charge
}

/// What a header or trailer of so many bytes charges of heap space, as far as a word holds it.
pub fn text_charge(bytes: u64) -> u64
    ensures { result ≡ capped (capsule_bytes bytes) }
{
    let words = (u128::from(bytes) + 15) / 8;
    u64::try_from(8 * words).unwrap_or(u64::MAX)
}

/// What these headers or trailers charge of heap space, as far as a word holds it.
pub fn capsules_charge(capsules: &[Capsule]) -> u64
    ensures { result ≡ capped (sum_by (capsule_charge Space.Heap) capsules.now) }
{
    let mut bytes: u64 = 0;
    for capsule in capsules {
        bytes = bytes.saturating_add(text_charge(capsule.text.as_slice().len() as u64));
    }
    bytes
}

/// What an object charges for itself, its extents, its headers and its trailers, as far as words hold it. It is linear in
/// the headers and trailers.
pub fn object_charge(object: &ZcoObject) -> Amounts
    ensures { result ≡ capped_by (λ space. object_charge space object.now) }
{
    let extents = object.extents.len() as u64;
    heap_charge(
        extents
            .saturating_mul(32)
            .saturating_add(72)
            .saturating_add(capsules_charge(object.headers.as_slice()))
            .saturating_add(capsules_charge(object.trailers.as_slice())),
    )
}

/// What these headers or trailers charge more of heap space as extents.
pub fn rise(capsules: &[Capsule]) -> u64
    requires small { sum_by (capsule_charge Space.Heap) capsules.now ≤ 2 ^ 41 }
    ensures { result ≡ sum_by (bond_rise Space.Heap) capsules.now }
{
    let mut bytes = 0;
    for capsule in capsules {
        let text = capsule.text.as_slice().len() as u64;
        bytes += text + 32 - capsule_bytes(text);
    }
    bytes
}
