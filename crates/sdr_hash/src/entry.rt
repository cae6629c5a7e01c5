// New entries.
ghost use Rattle.std.specs.Prelude.{◌≡◌, ◌≤◌, ◌+◌, ◌/◌, [], ◌∷◌, length, IfOk, IfErr};
ghost use Rattle.sdr_base.specs.Moves.{KeepsSome};
ghost use Rattle.sdr_base.specs.Objects.{OnlyShort};
ghost use Rattle.sdr_base.specs.Words.{TakesBytes, layout};
ghost use Rattle.sdr_base.specs.Works.{Spends};
ghost use Rattle.sdr_base.specs.declared.kind.Kind.TheVariants as kinds;

use byteorder::{BigEndian, ByteOrder};
use sdr_base::limits::LONGEST_KEY;
use sdr_base::{Addr, Kind, Objects, Stop, take_bytes};

// Where the key begins in an entry, in bytes.
pub const KEY_FROM: usize = 16;

// Takes a block for an entry before another.
pub fn take_entry<O: Objects>(o: &mut O, next: Addr, value: u64, key: &[u8]) -> Result<Addr, Stop>
    requires kept { KeepsSome (O.keeps o.old) }
    requires spare { 1 ≤ (O.heap o.old).spare }
    requires short { length key.now ≤ LONGEST_KEY }
    ensures taken { IfOk result (λ addr. TakesBytes kinds.HashEntry
        (layout (next ∷ value ∷ []) key.now) addr (O.heap o.old) (O.heap o.new)) }
    ensures refused { IfErr result
        (OnlyShort (KEY_FROM + length key.now) (O.heap o.old) (O.heap o.new)) }
    ensures works { Spends O.HasHeap
        (26 + (KEY_FROM + length key.now) / 32) o.old o.new result }
{
    let mut buffer = [0; KEY_FROM + LONGEST_KEY as usize];
    let bytes = &mut buffer[..KEY_FROM + key.len()];
    fill(next, value, key, bytes);
    take_bytes(o, Kind::HashEntry, bytes)
}

// Fills a buffer with the bytes of an entry.
fn fill(next: Addr, value: u64, key: &[u8], into: &mut [u8])
    requires long { length into.old ≡ KEY_FROM + length key.now }
    ensures { into.new ≡ layout (next ∷ value ∷ []) key.now }
{
    BigEndian::write_u64_into(&[next, value], &mut into[..KEY_FROM]);
    into[KEY_FROM..].copy_from_slice(key);
}
