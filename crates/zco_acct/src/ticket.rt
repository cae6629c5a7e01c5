// A ticket in its block.
ghost use Rattle.std.specs.Prelude.{◌≡◌, ◌*◌, ◌<◌, [], ◌∷◌, ◌++◌, IfOk, IfErr, OnOk};
ghost use Rattle.sdr_base.specs.Blocks.{UsesRange};
ghost use Rattle.sdr_base.specs.Cells.{TouchesWithin};
ghost use Rattle.sdr_base.specs.Moves.{KeepsSome};
ghost use Rattle.sdr_base.specs.Objects.{OnlyFault, OnlyUnmoved};
ghost use Rattle.sdr_base.specs.Stored.{number_at};
ghost use Rattle.sdr_base.specs.Works.{Looks, Spends};
ghost use Rattle.zco_acct.specs.Kept.{SomeTicket};
ghost use Rattle.zco_acct.specs.Tickets.{TellsTicket, amounts_at, grant_lines, queued_at, with_grant};

use byteorder::{BigEndian, ByteOrder};
use sdr_base::layout::ticket as words;
use sdr_base::{Addr, Amounts, Objects, Stop, WORD};
use sdr_model::Ticket;

/// The bytes of a ticket's block.
pub const TICKET_BYTES: usize = 96;

/// A ticket in a queue, and the address of the next one, 0 for none.
#[derive(Clone, Copy)]
pub struct Queued {
    pub ticket: Ticket,
    pub next: Addr,
}

// The number in a word of a ticket's bytes.
fn number(bytes: &[u8; 96], field: u64) -> u64
    requires within { field < 12 }
    ensures { result ≡ number_at (8 * field) bytes.now }
{
    BigEndian::read_u64(&bytes[8 * field as usize..])
}

// The amounts in three words of a ticket's bytes.
fn amounts(bytes: &[u8; 96], field: u64) -> Amounts
    requires within { field < 10 }
    ensures { result ≡ amounts_at field bytes.now }
{
    Amounts {
        file: number(bytes, field),
        bulk: number(bytes, field + 1),
        heap: number(bytes, field + 2),
    }
}

// A ticket from its bytes.
fn decoded(addr: Addr, bytes: &[u8; 96]) -> Queued
    requires coarse { number_at 16 bytes.now < 256 }
    requires fine { number_at 24 bytes.now < 256 }
    ensures { result ≡ queued_at addr bytes.now }
{
    let ticket = Ticket {
        block: addr,
        number: number(bytes, words::NUMBER),
        coarse: number(bytes, words::COARSE) as u8,
        fine: number(bytes, words::FINE) as u8,
        asked: amounts(bytes, words::ASKED_FILE),
        left: amounts(bytes, words::LEFT_FILE),
        granted: number(bytes, words::GRANTED) == 1,
    };
    let next = number(bytes, words::NEXT);
    Queued { ticket, next }
}

/// The ticket at an address, and the next one's address.
pub fn read_ticket<O: Objects>(o: &mut O, addr: Addr) -> Result<Queued, Stop>
    requires kept { KeepsSome (O.keeps o.old) }
    requires ticket { SomeTicket ((O.heap o.old).blocks addr) }
    ensures told { IfOk result (TellsTicket ((O.heap o.old).blocks addr) addr) }
    ensures refused { IfErr result OnlyFault }
    ensures looks { Looks O.HasHeap o.old o.new result }
{
    let mut bytes = [0; TICKET_BYTES];
    o.get(addr, 0, &mut bytes)?;
    Ok(decoded(addr, &bytes))
}

/// Grants a ticket, of which so much is left, in bytes of each space.
pub fn put_grant<O: Objects>(o: &mut O, addr: Addr, left: &Amounts) -> Result<(), Stop>
    requires kept { KeepsSome (O.keeps o.old) }
    requires inside { UsesRange (O.heap o.old).blocks addr 56 32 }
    ensures granted { OnOk result (O.heap o.new ≡ with_grant (O.heap o.old) addr left.now) }
    ensures refused { IfErr result (OnlyUnmoved (O.heap o.old) (O.heap o.new)) }
    ensures works { Spends O.HasHeap 2 o.old o.new result }
    ensures lines { TouchesWithin (grant_lines addr) (O.transaction o.old) (O.transaction o.new)
        result }
{
    let mut bytes = [0; 32];
    BigEndian::write_u64_into(&[left.file, left.bulk, left.heap, 1], &mut bytes);
    o.put(addr, WORD * words::LEFT_FILE, &bytes)
}
