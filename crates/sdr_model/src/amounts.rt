// Amounts of the spaces that an account has.
ghost use Rattle.std.specs.Prelude.{◌≡◌, ◌<◌, ◌≤◌, ◌+◌, ◌^◌, true};
ghost use Rattle.sdr_model.specs.AccountSteps.{with_amount};
ghost use Rattle.sdr_model.specs.Amounts.{amount, are_within, first_above, is_nothing, minus, no_amounts, plus};

use sdr_base::{Amounts, Space};

/// Nothing of any space.
pub const NOTHING: Amounts = Amounts {
    file: 0,
    bulk: 0,
    heap: 0,
};

/// The amount of a space.
pub fn amount(of: &Amounts, space: Space) -> u64
    ensures { result ≡ amount of.now space }
{
    match space {
        Space::File => of.file,
        Space::Bulk => of.bulk,
        Space::Heap => of.heap,
    }
}

/// Space by space, the sum of two amounts.
pub fn plus(a: &Amounts, b: &Amounts) -> Amounts
    requires file { a.now.file + b.now.file < 2 ^ 64 }
    requires bulk { a.now.bulk + b.now.bulk < 2 ^ 64 }
    requires heap { a.now.heap + b.now.heap < 2 ^ 64 }
    ensures { result ≡ plus a.now b.now }
{
    Amounts {
        file: a.file + b.file,
        bulk: a.bulk + b.bulk,
        heap: a.heap + b.heap,
    }
}

/// Space by space, what of an amount another doesn't cover.
pub fn minus(a: &Amounts, b: &Amounts) -> Amounts
    ensures { result ≡ minus a.now b.now }
{
    Amounts {
        file: a.file.saturating_sub(b.file),
        bulk: a.bulk.saturating_sub(b.bulk),
        heap: a.heap.saturating_sub(b.heap),
    }
}

/// Whether it is nothing of any space.
pub fn is_nothing(a: &Amounts) -> bool
    ensures { result ≡ is_nothing a.now }
{
    a.file == 0 && a.bulk == 0 && a.heap == 0
}

/// Whether the amount is at most another in each space.
pub fn are_within(a: &Amounts, b: &Amounts) -> bool
    ensures value { result ≡ are_within a.now b.now }
    ensures file { result ≡ true → a.now.file ≤ b.now.file }
    ensures bulk { result ≡ true → a.now.bulk ≤ b.now.bulk }
    ensures heap { result ≡ true → a.now.heap ≤ b.now.heap }
{
    a.file <= b.file && a.bulk <= b.bulk && a.heap <= b.heap
}

/// The first space, of file, bulk and heap, in which the amount is above another.
pub fn first_above(a: &Amounts, b: &Amounts) -> Option<Space>
    ensures { result ≡ first_above a.now b.now }
{
    if a.file > b.file {
        return Some(Space::File);
    }
    if a.bulk > b.bulk {
        return Some(Space::Bulk);
    }
    if a.heap > b.heap {
        return Some(Space::Heap);
    }
    None
}

/// These amounts, but this one of a space.
pub fn with_amount(amounts: &Amounts, space: Space, value: u64) -> Amounts
    ensures { result ≡ with_amount amounts.now space value }
{
    let mut with = *amounts;
    match space {
        Space::File => with.file = value,
        Space::Bulk => with.bulk = value,
        Space::Heap => with.heap = value,
    }
    with
}
