// The numbers in a heap region.
ghost use Rattle.std.specs.Prelude.{◌≡◌, ◌≤◌, ◌+◌, length};
ghost use Rattle.sdr_base.specs.Stored.{number_at};
ghost use Rattle.sdr_base.specs.declared.line.TheConstants.{WORD};

use byteorder::{BigEndian, ByteOrder};

/// The number in the word at a place, in bytes.
pub fn number_at(heap: &[u8], place: u64) -> u64
    requires { place + WORD ≤ length heap.now }
    ensures { result ≡ number_at place heap.now }
{
    let place = place as usize;
    BigEndian::read_u64(&heap[place..place + 8])
}
