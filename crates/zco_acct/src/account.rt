// The control words of an account: what is occupied, and the maxima.
ghost use Rattle.std.specs.Prelude.{◌≡◌, ◌≤◌, ◌<◌, IfOk, IfErr, OnOk};
ghost use Rattle.sdr_base.specs.Cells.{TouchesWithin};
ghost use Rattle.sdr_base.specs.Moves.{KeepsSome};
ghost use Rattle.sdr_base.specs.Objects.{OnlyFault, OnlyUnmoved};
ghost use Rattle.sdr_base.specs.Transaction.{LeavesTouched};
ghost use Rattle.sdr_base.specs.Works.{Looks, Spends};
ghost use Rattle.sdr_model.specs.Amounts.{amount, minus};
ghost use Rattle.zco_acct.specs.Changes.{MaximumStops, SetsMaximum};
ghost use Rattle.zco_acct.specs.Words.{begin_of, first_word, last_word, maxima_in, maximum_word};
ghost use Rattle.zco_acct.specs.Words.{occupancy_word, occupied_in, occupied_lines};
ghost use Rattle.zco_acct.specs.Words.{space_place, with_occupied};

use sdr_base::control::{
    CONTROL_WORDS, FILE_MAXIMUM, FILE_OCCUPANCY, FIRST_NAME, FIRST_TICKET, INBOUND, LAST_TICKET,
    OUTBOUND,
};
use sdr_base::{Acct, Amounts, Objects, Refusal, Space, Stop, check_failed};
use sdr_model::MOST_AMOUNT;
use sdr_model::amounts::minus;

// Where the control words of an account begin.
fn begin_of(acct: Acct) -> u64
    ensures word { result ≡ begin_of acct }
    ensures least { INBOUND ≤ result }
    ensures most { result ≤ OUTBOUND }
{
    match acct {
        Acct::Inbound => INBOUND,
        Acct::Outbound => OUTBOUND,
    }
}

// The place of a space among three words, from 0.
fn space_place(space: Space) -> u64
    ensures place { result ≡ space_place space }
    ensures most { result ≤ 2 }
{
    match space {
        Space::File => 0,
        Space::Bulk => 1,
        Space::Heap => 2,
    }
}

// The control word of what is occupied of a space.
fn occupancy_word(acct: Acct, space: Space) -> u64
    ensures word { result ≡ occupancy_word acct space }
    ensures least { FIRST_NAME ≤ result }
    ensures most { result < CONTROL_WORDS }
{
    begin_of(acct) + FILE_OCCUPANCY + space_place(space)
}

// The control word of the maximum of a space.
fn maximum_word(acct: Acct, space: Space) -> u64
    ensures word { result ≡ maximum_word acct space }
    ensures least { FIRST_NAME ≤ result }
    ensures most { result < CONTROL_WORDS }
{
    begin_of(acct) + FILE_MAXIMUM + space_place(space)
}

/// The control word of the first ticket of an account.
pub fn first_word(acct: Acct) -> u64
    ensures word { result ≡ first_word acct }
    ensures least { FIRST_NAME ≤ result }
    ensures most { result < CONTROL_WORDS }
{
    begin_of(acct) + FIRST_TICKET
}

/// The control word of the last ticket of an account.
pub fn last_word(acct: Acct) -> u64
    ensures word { result ≡ last_word acct }
    ensures least { FIRST_NAME ≤ result }
    ensures most { result < CONTROL_WORDS }
{
    begin_of(acct) + LAST_TICKET
}

/// How many bytes of a space are occupied in an account.
pub fn occupancy<O: Objects>(o: &mut O, acct: Acct, space: Space) -> Result<u64, Stop>
    requires kept { KeepsSome (O.keeps o.old) }
    ensures given { IfOk result (λ value.
        value ≡ amount (occupied_in (O.heap o.old) acct) space) }
    ensures refused { IfErr result OnlyFault }
    ensures looks { Looks O.HasHeap o.old o.new result }
{
    o.root(occupancy_word(acct, space))
}

/// How many bytes of a space may be occupied at most in an account.
pub fn maximum<O: Objects>(o: &mut O, acct: Acct, space: Space) -> Result<u64, Stop>
    requires kept { KeepsSome (O.keeps o.old) }
    ensures given { IfOk result (λ value. value ≡ amount (maxima_in (O.heap o.old) acct) space) }
    ensures refused { IfErr result OnlyFault }
    ensures looks { Looks O.HasHeap o.old o.new result }
{
    o.root(maximum_word(acct, space))
}

/// What is occupied in an account, in bytes of each space.
pub fn occupied<O: Objects>(o: &mut O, acct: Acct) -> Result<Amounts, Stop>
    requires kept { KeepsSome (O.keeps o.old) }
    ensures given { IfOk result (λ amounts. amounts ≡ occupied_in (O.heap o.old) acct) }
    ensures refused { IfErr result OnlyFault }
    ensures looks { Looks O.HasHeap o.old o.new result }
{
    let file = occupancy(o, acct, Space::File)?;
    let bulk = occupancy(o, acct, Space::Bulk)?;
    let heap = occupancy(o, acct, Space::Heap)?;
    Ok(Amounts { file, bulk, heap })
}

/// The maxima of an account, in bytes of each space.
pub fn maxima<O: Objects>(o: &mut O, acct: Acct) -> Result<Amounts, Stop>
    requires kept { KeepsSome (O.keeps o.old) }
    ensures given { IfOk result (λ amounts. amounts ≡ maxima_in (O.heap o.old) acct) }
    ensures refused { IfErr result OnlyFault }
    ensures looks { Looks O.HasHeap o.old o.new result }
{
    let file = maximum(o, acct, Space::File)?;
    let bulk = maximum(o, acct, Space::Bulk)?;
    let heap = maximum(o, acct, Space::Heap)?;
    Ok(Amounts { file, bulk, heap })
}

/// Sets the maximum of a space in an account, in bytes, of which 2^40 are the most. It doesn't
/// serve the account's queue.
#[tactic(auto, using(sdr_base::proofs::LeavingLemmas::leaving))]
pub fn set_maximum<O: Objects>(o: &mut O, acct: Acct, space: Space, value: u64) -> Result<(), Stop>
    requires kept { KeepsSome (O.keeps o.old) }
    ensures set { OnOk result (SetsMaximum acct space value (O.heap o.old) (O.heap o.new)) }
    ensures refused { IfErr result (MaximumStops space value (O.heap o.old) (O.heap o.new)) }
    ensures untouched { IfErr result (LeavesTouched (O.transaction o.old) (O.transaction o.new)) }
    ensures works { Spends O.HasHeap 1 o.old o.new result }
{
    check_failed(o)?;
    if value > MOST_AMOUNT {
        return Err(Stop::Refused(Refusal::TooLarge {
            space,
            asked: value,
            most: MOST_AMOUNT,
        }));
    }
    o.set_root(maximum_word(acct, space), value)
}

/// Sets what is occupied in an account, in bytes of each space.
pub fn set_occupied<O: Objects>(o: &mut O, acct: Acct, amounts: &Amounts) -> Result<(), Stop>
    requires kept { KeepsSome (O.keeps o.old) }
    ensures set { OnOk result (O.heap o.new ≡ with_occupied (O.heap o.old) acct amounts.now) }
    ensures refused { IfErr result (OnlyUnmoved (O.heap o.old) (O.heap o.new)) }
    ensures works { Spends O.HasHeap 3 o.old o.new result }
    ensures lines { TouchesWithin (occupied_lines acct) (O.transaction o.old) (O.transaction o.new)
        result }
{
    o.set_root(occupancy_word(acct, Space::File), amounts.file)?;
    o.set_root(occupancy_word(acct, Space::Bulk), amounts.bulk)?;
    o.set_root(occupancy_word(acct, Space::Heap), amounts.heap)
}

/// Gives space of an account back, in bytes of each space: what isn't occupied can't be given back,
/// and nothing is left of that space then. It doesn't serve the account's queue.
pub fn release<O: Objects>(o: &mut O, acct: Acct, amounts: &Amounts) -> Result<(), Stop>
    requires kept { KeepsSome (O.keeps o.old) }
    ensures released { OnOk result (O.heap o.new
        ≡ with_occupied (O.heap o.old) acct (minus (occupied_in (O.heap o.old) acct) amounts.now)) }
    ensures refused { IfErr result (OnlyUnmoved (O.heap o.old) (O.heap o.new)) }
    ensures works { Spends O.HasHeap 3 o.old o.new result }
{
    let before = occupied(o, acct)?;
    set_occupied(o, acct, &minus(&before, amounts))
}
