// How many extents name a source.
ghost use Rattle.std.specs.Prelude.{◌≡◌, ◌+◌, ◌*◌, ◌≤◌, IfOk, IfErr, OnOk};
ghost use Rattle.sdr_base.specs.Moves.{KeepsSome};
ghost use Rattle.sdr_base.specs.Objects.{Misses, OnlyFault, OnlyUnmoved};
ghost use Rattle.sdr_base.specs.Wanting.{OnlyWanting};
ghost use Rattle.sdr_base.specs.Works.{Looks, Spends};
ghost use Rattle.sdr_base.specs.declared.kind.Kind.TheVariants as kinds;
ghost use Rattle.zco_ref.specs.Counting.{Attaches, CountsIn, CountsUses, Detaches, DetachStops, TellsUses, count_field};
ghost use Rattle.zco_ref.specs.Going.{going};
ghost use Rattle.zco_ref.specs.Kept.{IsFew, IsSource, SomeAttached, SomeBelow, SomeFew};

use crate::dropping::vanish;
use crate::seeing::see;
use sdr_base::layout::source as words;
use sdr_base::{Acct, Addr, Kind, Objects, Stop, expect_kind, set_word, word};

/// How many extents of both accounts name a source.
pub fn count<O: Objects>(o: &mut O, source: Addr) -> Result<u64, Stop>
    requires kept { KeepsSome (O.keeps o.old) }
    requires source { IsFew ((O.heap o.old).blocks source) }
    ensures given { IfOk result (CountsUses ((O.heap o.old).blocks source)) }
    ensures refused { IfErr result (Misses ((O.heap o.old).blocks source) source kinds.Source) }
    ensures looks { Looks O.HasHeap o.old o.new result }
{
    expect_kind(o, source, Kind::Source)?;
    uses_of(o, source)
}

// How many extents of both accounts name a source that is there.
pub fn uses_of<O: Objects>(o: &mut O, source: Addr) -> Result<u64, Stop>
    requires kept { KeepsSome (O.keeps o.old) }
    requires source { SomeFew ((O.heap o.old).blocks source) }
    ensures given { IfOk result (TellsUses ((O.heap o.old).blocks source)) }
    ensures refused { IfErr result OnlyFault }
    ensures looks { Looks O.HasHeap o.old o.new result }
{
    let inbound = word(o, source, words::INBOUND)?;
    let outbound = word(o, source, words::OUTBOUND)?;
    Ok(inbound + outbound)
}

/// How many extents of an account's objects name a source.
pub fn count_in<O: Objects>(o: &mut O, source: Addr, acct: Acct) -> Result<u64, Stop>
    requires kept { KeepsSome (O.keeps o.old) }
    requires source { IsSource ((O.heap o.old).blocks source) }
    ensures given { IfOk result (CountsIn acct ((O.heap o.old).blocks source)) }
    ensures refused { IfErr result (Misses ((O.heap o.old).blocks source) source kinds.Source) }
    ensures looks { Looks O.HasHeap o.old o.new result }
{
    expect_kind(o, source, Kind::Source)?;
    word(o, source, count_field(acct))
}

/// Counts an extent more of an account that names a source.
pub fn attach<O: Objects>(o: &mut O, source: Addr, acct: Acct) -> Result<(), Stop>
    requires kept { KeepsSome (O.keeps o.old) }
    requires source { SomeBelow acct ((O.heap o.old).blocks source) }
    ensures attached { OnOk result (Attaches source acct (O.heap o.old) (O.heap o.new)) }
    ensures refused { IfErr result (OnlyUnmoved (O.heap o.old) (O.heap o.new)) }
    ensures works { Spends O.HasHeap 2 o.old o.new result }
{
    let field = count_field(acct);
    let count = word(o, source, field)?;
    set_word(o, source, field, count + 1)
}

/// Counts an extent less of an account that names a source, and answers whether the source went with
/// it: it was the last one, and the source is flagged or has taken over a raw object, which went too.
#[tactic(auto, using(sdr_base::proofs::LeavingLemmas::wanting))]
pub fn detach<O: Objects>(o: &mut O, source: Addr, acct: Acct) -> Result<bool, Stop>
    requires kept { KeepsSome (O.keeps o.old) }
    requires spare { going ((O.heap o.old).blocks source) ≤ (O.heap o.old).spare }
    requires source { SomeAttached acct (O.heap o.old).blocks source }
    ensures detached { IfOk result (Detaches source acct (O.heap o.old) (O.heap o.new)) }
    ensures refused { IfErr result (DetachStops source (O.heap o.old) (O.heap o.new)) }
    ensures wants { IfErr result OnlyWanting }
    ensures works { Spends O.HasHeap
        (4 + 24 * going ((O.heap o.old).blocks source)) o.old o.new result }
{
    let seen = see(o, source)?;
    if seen.goes_next() {
        vanish(o, source, seen)?;
        return Ok(true);
    }
    let field = count_field(acct);
    let count = word(o, source, field)?;
    set_word(o, source, field, count - 1)?;
    Ok(false)
}

// The word field with the count of an account's extents.
fn count_field(acct: Acct) -> u64
    ensures { result ≡ count_field acct }
{
    match acct {
        Acct::Inbound => words::INBOUND,
        Acct::Outbound => words::OUTBOUND,
    }
}
