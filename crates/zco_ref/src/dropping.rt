// The end of a source.
ghost use Rattle.std.specs.Prelude.{◌≡◌, ◌+◌, ◌*◌, ◌≤◌, IfErr, OnOk};
ghost use Rattle.sdr_base.specs.Moves.{KeepsSome};
ghost use Rattle.sdr_base.specs.Transaction.{LeavesTouched};
ghost use Rattle.sdr_base.specs.Wanting.{OnlyWanting};
ghost use Rattle.sdr_base.specs.Works.{Spends};
ghost use Rattle.zco_ref.specs.Dropping.{DestroysSource, DestroyStops};
ghost use Rattle.zco_ref.specs.Going.{Vanishes, VanishStops, blocks_with};
ghost use Rattle.zco_ref.specs.Kept.{IsTied, SomeTied};
ghost use Rattle.zco_ref.specs.Seeing.{SeesSource};

use crate::seeing::{Seen, see};
use sdr_base::layout::{raw as raw_words, source as words};
use sdr_base::{Addr, Kind, Medium, Objects, Refusal, Stop, expect_kind, set_word};

/// Gives a source back where no extent names it, and else flags it: it goes with its last extent. A
/// source that has taken over a raw object is refused as of the wrong kind, and a flagged one as not
/// found.
#[tactic(auto, using(sdr_base::proofs::LeavingLemmas::leaving))]
pub fn destroy_ref<O: Objects>(o: &mut O, source: Addr) -> Result<(), Stop>
    requires kept { KeepsSome (O.keeps o.old) }
    requires spare { 1 ≤ (O.heap o.old).spare }
    requires source { IsTied (O.heap o.old).blocks source }
    ensures destroyed { OnOk result (DestroysSource source (O.heap o.old) (O.heap o.new)) }
    ensures refused { IfErr result (DestroyStops source (O.heap o.old) (O.heap o.new)) }
    ensures untouched { IfErr result (LeavesTouched (O.transaction o.old) (O.transaction o.new)) }
    ensures works { Spends O.HasHeap 28 o.old o.new result }
{
    expect_kind(o, source, Kind::Source)?;
    let seen = see(o, source)?;
    if seen.is_owner() {
        return Err(Stop::Refused(Refusal::WrongKind {
            addr: source,
            kind: Kind::Source.number(),
        }));
    }
    if seen.flagged {
        return Err(Stop::Refused(Refusal::NotFound));
    }
    if seen.uses() == 0 {
        return vanish(o, source, seen);
    }
    set_word(o, source, words::FLAG, 1)
}

// Gives a source back, and before it the raw object that it has taken over. One that stays with its
// owner is named by no source from then on.
#[tactic(auto, using(sdr_base::proofs::LeavingLemmas::wanting))]
pub fn vanish<O: Objects>(o: &mut O, source: Addr, seen: Seen) -> Result<(), Stop>
    requires kept { KeepsSome (O.keeps o.old) }
    requires spare { blocks_with seen.medium ≤ (O.heap o.old).spare }
    requires source { SomeTied (O.heap o.old).blocks source }
    requires seen { SeesSource ((O.heap o.old).blocks source) seen }
    ensures gone { OnOk result (Vanishes source (O.heap o.old) (O.heap o.new)) }
    ensures refused { IfErr result
        (VanishStops seen.medium seen.subject (O.heap o.old) (O.heap o.new)) }
    ensures wants { IfErr result OnlyWanting }
    ensures works { Spends O.HasHeap (4 + 24 * blocks_with seen.medium) o.old o.new result }
{
    match seen.medium {
        Medium::Heap => {
            o.give(seen.subject)?;
            o.give(source)
        }
        Medium::Obj => {
            set_word(o, seen.subject, raw_words::SOURCE, 0)?;
            o.give(source)
        }
        Medium::File | Medium::Bulk => o.give(source),
    }
}
