// Giving a block back to the small pool.
ghost use Rattle.std.specs.Prelude.{◌≡◌, ◌+◌, ◌*◌, ◌/◌, ◌-◌, ◌≤◌, ◌<◌, length, OnOk, IfErr};
ghost use Rattle.sdr_base.specs.Objects.{OnlyFull};
ghost use Rattle.sdr_base.specs.declared.line.TheConstants.{START_BITS};
ghost use Rattle.sdr_base.specs.Transaction.{HasReason, TouchesAtMost};
ghost use Rattle.sdr_base.specs.KeptPools.{KeepsSomeSmall};
ghost use Rattle.sdr_small.specs.Calls.{PutsFront, KeepsUsedSmall, GivesSmall};

use sdr_base::control::{MOST_SMALL, SMALL_LISTS};
use sdr_base::{
    Addr, Cells, Stop, WORD, clear_start_bit, read_leader_words, read_number, write_bare_leader,
    write_number,
};

/// Gives back the block at an address, which is in use: it becomes the front of the list of its
/// words. It costs 3 reads and 4 writes.
pub fn give<C: Cells>(c: &mut C, addr: Addr) -> Result<(), Stop>
    requires used { KeepsUsedSmall addr (C.bytes c.old) }
    ensures given { OnOk result (GivesSmall addr (C.bytes c.old) (C.bytes c.new)) }
    ensures kept { OnOk result (KeepsSomeSmall (C.bytes c.new)) }
    ensures refused { IfErr result OnlyFull }
    ensures size { length (C.bytes c.new) ≡ length (C.bytes c.old) }
    ensures room { TouchesAtMost 20 (C.transaction c.old) (C.transaction c.new) result }
    ensures cause { HasReason (C.transaction c.old) (C.transaction c.new) result }
    ensures quiet { C.quiet c.old c.new }
{
    let words = read_leader_words(c, addr - WORD)?;
    put_front(c, words, addr)
}

// Makes a block the front of a list: the old front becomes its next.
fn put_front<C: Cells>(c: &mut C, words: u64, addr: Addr) -> Result<(), Stop>
    requires words { words ≤ MOST_SMALL }
    requires least { WORD ≤ addr }
    requires control { START_BITS ≤ length (C.bytes c.old) }
    requires inside { addr + WORD ≤ length (C.bytes c.old) }
    requires bit { START_BITS + (addr - WORD) / WORD / 8 < length (C.bytes c.old) }
    ensures front { OnOk result (PutsFront words addr (C.bytes c.old) (C.bytes c.new)) }
    ensures refused { IfErr result OnlyFull }
    ensures size { length (C.bytes c.new) ≡ length (C.bytes c.old) }
    ensures room { TouchesAtMost 8 (C.transaction c.old) (C.transaction c.new) result }
    ensures cause { HasReason (C.transaction c.old) (C.transaction c.new) result }
    ensures quiet { C.quiet c.old c.new }
{
    let front = read_number(c, WORD * (SMALL_LISTS + words))?;
    write_number(c, addr, front)?;
    write_bare_leader(c, addr - WORD, words)?;
    write_number(c, WORD * (SMALL_LISTS + words), addr)?;
    clear_start_bit(c, (addr - WORD) / WORD)
}
