// The end of a list.
ghost use Rattle.std.specs.Prelude.{◌≡◌, ◌≤◌, ◌*◌, ◌+◌, IfOk, OnOk, IfErr};
ghost use Rattle.sdr_base.specs.Blocks.{UsesRange};
ghost use Rattle.sdr_base.specs.Moves.{KeepsSome};
ghost use Rattle.sdr_base.specs.Objects.{OnlyUnmoved, with_given};
ghost use Rattle.sdr_base.specs.Words.{HasWord};
ghost use Rattle.sdr_base.specs.Transaction.{LeavesTouched};
ghost use Rattle.sdr_base.specs.Wanting.{OnlyWanting};
ghost use Rattle.sdr_base.specs.Works.{Spends};
ghost use Rattle.sdr_list.specs.Destroying.{DestroysList, DestroyStops};
ghost use Rattle.sdr_list.specs.Giving.{GivesChain, GiveStops, SomeChain};
ghost use Rattle.sdr_list.specs.Kept.{IsList, elements_in};

use crate::reading::list_word;
use sdr_base::layout::{element as element_words, list as words};
use sdr_base::{Addr, Objects, Stop, check_failed, word};

/// Gives the elements of a list back, the first one first, and then the list. What the data name
/// stays.
#[tactic(auto, using(sdr_base::proofs::LeavingLemmas::leaving))]
pub fn destroy<O: Objects>(o: &mut O, list: Addr) -> Result<(), Stop>
    requires kept { KeepsSome (O.keeps o.old) }
    requires spare { elements_in ((O.heap o.old).blocks list) + 1 ≤ (O.heap o.old).spare }
    requires list { IsList (O.heap o.old).blocks list }
    ensures destroyed { OnOk result (DestroysList list (O.heap o.old) (O.heap o.new)) }
    ensures refused { IfErr result (DestroyStops list (O.heap o.old) (O.heap o.new)) }
    ensures untouched { IfErr result (LeavesTouched (O.transaction o.old) (O.transaction o.new)) }
    ensures works { Spends O.HasHeap
        (24 * (elements_in ((O.heap o.old).blocks list) + 1)) o.old o.new result }
{
    let length = list_word(o, list, words::LENGTH)?;
    let first = word(o, list, words::FIRST)?;
    give_chain(o, first, length)?;
    o.give(list)
}

// Gives an element back, and answers the next one's address.
fn give_one<O: Objects>(o: &mut O, element: Addr) -> Result<Addr, Stop>
    requires kept { KeepsSome (O.keeps o.old) }
    requires spare { 1 ≤ (O.heap o.old).spare }
    requires inside { UsesRange (O.heap o.old).blocks element 0 32 }
    ensures next { IfOk result (λ next. HasWord ((O.heap o.old).blocks element) 2 next) }
    ensures given { OnOk result (O.heap o.new ≡ with_given (O.heap o.old) element) }
    ensures refused { IfErr result (OnlyUnmoved (O.heap o.old) (O.heap o.new)) }
    ensures works { Spends O.HasHeap 24 o.old o.new result }
{
    let next = word(o, element, element_words::NEXT)?;
    o.give(element)?;
    Ok(next)
}

// Gives so many elements of a chain back, the first one first.
#[tactic(auto, using(sdr_base::proofs::LeavingLemmas::wanting))]
fn give_chain<O: Objects>(o: &mut O, first: Addr, count: u64) -> Result<(), Stop>
    requires kept { KeepsSome (O.keeps o.old) }
    requires spare { count ≤ (O.heap o.old).spare }
    requires chain { SomeChain (O.heap o.old).blocks first count }
    ensures given { OnOk result (GivesChain (O.heap o.old) (O.heap o.new) first count) }
    ensures refused { IfErr result (GiveStops first count (O.heap o.old) (O.heap o.new)) }
    ensures wants { IfErr result OnlyWanting }
    ensures works { Spends O.HasHeap (24 * count) o.old o.new result }
{
    check_failed(o)?;
    let mut element = first;
    for i in 0..count {
        element = give_one(o, element)?;
    }
    Ok(())
}
