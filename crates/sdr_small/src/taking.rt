// Taking a block from the small pool.
ghost use Rattle.std.specs.Prelude.{◌≡◌, ◌+◌, ◌*◌, ◌/◌, ◌-◌, ◌≤◌, ◌<◌, ◌^◌, length, IfOk, OnOk, IfErr};
ghost use Rattle.sdr_base.specs.Objects.{OnlyFull};
ghost use Rattle.sdr_base.specs.Stored.{number_at};
ghost use Rattle.sdr_base.specs.declared.line.TheConstants.{START_BITS};
ghost use Rattle.sdr_base.specs.Transaction.{HasReason, NoneLeaves, TouchesAtMost};
ghost use Rattle.sdr_base.specs.KeptPools.{KeepsSomeSmall};
ghost use Rattle.sdr_small.specs.Calls.{TakesListed, TakesNew, TakesSmall, IsGiveable};

use sdr_base::control::{HIGH, LOW, MOST_SMALL, SMALL_LISTS};
use sdr_base::{
    Addr, Cells, Stop, WORD, read_number, set_start_bit, write_bare_leader, write_number,
};

/// Takes the block of so many words that the small pool gives, and answers its address, or `None`
/// where the pool gives none. The block's leader has kind 0 and length 0, and its words hold what
/// they held. It costs at most 4 reads and 3 writes; `None` writes nothing.
pub fn take<C: Cells>(c: &mut C, words: u64) -> Result<Option<Addr>, Stop>
    requires some { 1 ≤ words }
    requires pools { KeepsSomeSmall (C.bytes c.old) }
    ensures taken { IfOk result (λ found. TakesSmall words found (C.bytes c.old) (C.bytes c.new)) }
    ensures used { IfOk result (λ found. IsGiveable found (C.bytes c.new)) }
    ensures kept { OnOk result (KeepsSomeSmall (C.bytes c.new)) }
    ensures refused { IfErr result OnlyFull }
    ensures size { length (C.bytes c.new) ≡ length (C.bytes c.old) }
    ensures room { TouchesAtMost 6 (C.transaction c.old) (C.transaction c.new) result }
    ensures none { NoneLeaves (C.transaction c.old) (C.transaction c.new) result }
    ensures cause { HasReason (C.transaction c.old) (C.transaction c.new) result }
    ensures quiet { C.quiet c.old c.new }
{
    let low = read_number(c, WORD * LOW)?;
    if words > MOST_SMALL {
        return Ok(None);
    }
    let front = read_number(c, WORD * (SMALL_LISTS + words))?;
    if front == 0 {
        return take_new(c, words, low);
    }
    take_listed(c, words, front)?;
    Ok(Some(front))
}

// Takes the block at the front of its list: the next one becomes the front.
fn take_listed<C: Cells>(c: &mut C, words: u64, front: Addr) -> Result<(), Stop>
    requires words { words ≤ MOST_SMALL }
    requires least { WORD ≤ front }
    requires control { START_BITS ≤ length (C.bytes c.old) }
    requires inside { front + WORD ≤ length (C.bytes c.old) }
    requires bit { START_BITS + (front - WORD) / WORD / 8 < length (C.bytes c.old) }
    ensures taken { OnOk result (TakesListed words front (C.bytes c.old) (C.bytes c.new)) }
    ensures refused { IfErr result OnlyFull }
    ensures size { length (C.bytes c.new) ≡ length (C.bytes c.old) }
    ensures room { TouchesAtMost 4 (C.transaction c.old) (C.transaction c.new) result }
    ensures cause { HasReason (C.transaction c.old) (C.transaction c.new) result }
    ensures quiet { C.quiet c.old c.new }
{
    let next = read_number(c, front)?;
    write_number(c, WORD * (SMALL_LISTS + words), next)?;
    set_start_bit(c, (front - WORD) / WORD)
}

// Cuts a new block at `low`, where it ends at `high` or below.
fn take_new<C: Cells>(c: &mut C, words: u64, low: u64) -> Result<Option<Addr>, Stop>
    requires some { 1 ≤ words }
    requires words { words ≤ MOST_SMALL }
    requires control { START_BITS ≤ length (C.bytes c.old) }
    requires inside { number_at (WORD * HIGH) (C.bytes c.old) ≤ length (C.bytes c.old) }
    requires low { low < 2 ^ 32 }
    requires bit { START_BITS + low / WORD / 8 < length (C.bytes c.old) }
    ensures taken { IfOk result (λ found.
        TakesNew words low found (C.bytes c.old) (C.bytes c.new)) }
    ensures refused { IfErr result OnlyFull }
    ensures size { length (C.bytes c.new) ≡ length (C.bytes c.old) }
    ensures room { TouchesAtMost 6 (C.transaction c.old) (C.transaction c.new) result }
    ensures none { NoneLeaves (C.transaction c.old) (C.transaction c.new) result }
    ensures cause { HasReason (C.transaction c.old) (C.transaction c.new) result }
    ensures quiet { C.quiet c.old c.new }
{
    let high = read_number(c, WORD * HIGH)?;
    let end = low + WORD * (1 + words);
    if end > high {
        return Ok(None);
    }
    write_bare_leader(c, low, words)?;
    write_number(c, WORD * LOW, end)?;
    set_start_bit(c, low / WORD)?;
    Ok(Some(low + WORD))
}
