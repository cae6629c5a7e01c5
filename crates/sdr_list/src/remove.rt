// Deletion of an element.
ghost use Rattle.std.specs.Prelude.{◌≤◌, [], ◌∷◌, OnOk, IfErr};
ghost use Rattle.sdr_base.specs.Making.{Made};
ghost use Rattle.sdr_base.specs.Moves.{KeepsSome};
ghost use Rattle.sdr_base.specs.Objects.{OnlyUnmoved};
ghost use Rattle.sdr_base.specs.Transaction.{LeavesTouched};
ghost use Rattle.sdr_base.specs.Works.{Spends};
ghost use Rattle.sdr_base.specs.declared.kind.Kind.TheVariants as kinds;
ghost use Rattle.sdr_base.specs.declared.moves.Move.TheVariants.{Gave};
ghost use Rattle.sdr_list.specs.Calls.{ChangeStops, DeletesElement};
ghost use Rattle.sdr_list.specs.Gaps.{SomeBetween, Unlinks};
ghost use Rattle.sdr_list.specs.Kept.{IsElement};

use crate::link::{link_next, link_prev};
use crate::reading::element_word;
use sdr_base::layout::{element as words, list as list_words};
use sdr_base::{Addr, Objects, Stop, set_word, word};

/// Takes an element out of its list, and gives it back. What its datum names stays.
#[tactic(auto, using(sdr_base::proofs::LeavingLemmas::leaving))]
pub fn delete<O: Objects>(o: &mut O, element: Addr) -> Result<(), Stop>
    requires kept { KeepsSome (O.keeps o.old) }
    requires spare { 1 ≤ (O.heap o.old).spare }
    requires element { IsElement (O.heap o.old).blocks element }
    ensures deleted { OnOk result (DeletesElement element (O.heap o.old) (O.heap o.new)) }
    ensures refused { IfErr result
        (ChangeStops kinds.Element element (O.heap o.old) (O.heap o.new)) }
    ensures untouched { IfErr result (LeavesTouched (O.transaction o.old) (O.transaction o.new)) }
    ensures works { Spends O.HasHeap 30 o.old o.new result }
{
    let list = element_word(o, element, words::LIST)?;
    let prev = word(o, element, words::PREVIOUS)?;
    let next = word(o, element, words::NEXT)?;
    unlink(o, list, prev, next, element)
}

// Takes the element between `prev` and `next` out of its list, and gives it back.
fn unlink<O: Objects>(
    o: &mut O,
    list: Addr,
    prev: Addr,
    next: Addr,
    element: Addr,
) -> Result<(), Stop>
    requires kept { KeepsSome (O.keeps o.old) }
    requires spare { 1 ≤ (O.heap o.old).spare }
    requires between { SomeBetween (O.heap o.old).blocks list prev next element }
    ensures unlinked { OnOk result
        (Unlinks (O.heap o.old).blocks (O.heap o.new).blocks list prev next element) }
    ensures made { OnOk result (Made (Gave element ∷ []) (O.heap o.old) (O.heap o.new)) }
    ensures refused { IfErr result (OnlyUnmoved (O.heap o.old) (O.heap o.new)) }
    ensures works { Spends O.HasHeap 30 o.old o.new result }
{
    let length = word(o, list, list_words::LENGTH)?;
    link_next(o, list, prev, next)?;
    link_prev(o, list, next, prev)?;
    set_word(o, list, list_words::LENGTH, length - 1)?;
    o.give(element)
}
