// What an element says, and its datum.
ghost use Rattle.std.specs.Prelude.{◌+◌, set, IfOk, IfErr, OnOk};
ghost use Rattle.sdr_base.specs.Moves.{KeepsSome};
ghost use Rattle.sdr_base.specs.Objects.{Misses};
ghost use Rattle.sdr_base.specs.Transaction.{LeavesTouched};
ghost use Rattle.sdr_base.specs.Works.{Looks, Spends};
ghost use Rattle.sdr_base.specs.declared.kind.Kind.TheVariants as kinds;
ghost use Rattle.sdr_list.specs.Calls.{ChangeStops, SetsInElement, TellsOfElement};
ghost use Rattle.sdr_list.specs.Kept.{IsElement, addr_before, addr_from, with_datum};

use crate::reading::element_word;
use sdr_base::layout::element as words;
use sdr_base::{Addr, Kind, Objects, Stop, expect_kind, set_word};

/// The element behind another in its list, 0 where that is the last.
pub fn next<O: Objects>(o: &mut O, element: Addr) -> Result<Addr, Stop>
    requires kept { KeepsSome (O.keeps o.old) }
    requires element { IsElement (O.heap o.old).blocks element }
    ensures given { IfOk result (TellsOfElement element
        (λ spot. addr_from spot.row (spot.place + 1)) (O.heap o.old).blocks) }
    ensures refused { IfErr result
        (Misses ((O.heap o.old).blocks element) element kinds.Element) }
    ensures looks { Looks O.HasHeap o.old o.new result }
{
    element_word(o, element, words::NEXT)
}

/// The element before another in its list, 0 where that is the first.
pub fn prev<O: Objects>(o: &mut O, element: Addr) -> Result<Addr, Stop>
    requires kept { KeepsSome (O.keeps o.old) }
    requires element { IsElement (O.heap o.old).blocks element }
    ensures given { IfOk result (TellsOfElement element
        (λ spot. addr_before spot.row spot.place) (O.heap o.old).blocks) }
    ensures refused { IfErr result
        (Misses ((O.heap o.old).blocks element) element kinds.Element) }
    ensures looks { Looks O.HasHeap o.old o.new result }
{
    element_word(o, element, words::PREVIOUS)
}

/// The datum of an element.
pub fn datum<O: Objects>(o: &mut O, element: Addr) -> Result<u64, Stop>
    requires kept { KeepsSome (O.keeps o.old) }
    requires element { IsElement (O.heap o.old).blocks element }
    ensures given { IfOk result
        (TellsOfElement element (λ spot. spot.datum) (O.heap o.old).blocks) }
    ensures refused { IfErr result
        (Misses ((O.heap o.old).blocks element) element kinds.Element) }
    ensures looks { Looks O.HasHeap o.old o.new result }
{
    element_word(o, element, words::DATUM)
}

/// Sets the datum of an element.
#[tactic(auto, using(sdr_base::proofs::LeavingLemmas::leaving))]
pub fn set_datum<O: Objects>(o: &mut O, element: Addr, datum: u64) -> Result<(), Stop>
    requires kept { KeepsSome (O.keeps o.old) }
    requires element { IsElement (O.heap o.old).blocks element }
    ensures set { OnOk result (SetsInElement element
        (λ spot. with_datum spot.row spot.place element datum) (O.heap o.old) (O.heap o.new)) }
    ensures refused { IfErr result
        (ChangeStops kinds.Element element (O.heap o.old) (O.heap o.new)) }
    ensures untouched { IfErr result (LeavesTouched (O.transaction o.old) (O.transaction o.new)) }
    ensures works { Spends O.HasHeap 2 o.old o.new result }
{
    expect_kind(o, element, Kind::Element)?;
    set_word(o, element, words::DATUM, datum)
}
