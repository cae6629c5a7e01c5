// Sources of raw objects.
ghost use Rattle.std.specs.Prelude.{◌≡◌, ◌≤◌, IfOk, IfErr};
ghost use Rattle.sdr_base.specs.Moves.{KeepsSome};
ghost use Rattle.sdr_base.specs.Transaction.{LeavesTouched};
ghost use Rattle.sdr_base.specs.Works.{Looks, Spends};
ghost use Rattle.sdr_base.specs.declared.medium.Medium.TheVariants as media;
ghost use Rattle.zco_ref.specs.Kept.{IsRaw};
ghost use Rattle.zco_ref.specs.Naming.{HasUnnamed, IsNamed, MakesRawSource, NamingStops, RawStops};

use crate::counting::uses_of;
use crate::making::take_plain;
use sdr_base::layout::raw as words;
use sdr_base::{Addr, Kind, Medium, Objects, Refusal, Stop, expect_kind, set_word, word};

/// Makes a source of a raw object, which stays with its owner.
#[tactic(auto, using(sdr_base::proofs::LeavingLemmas::leaving))]
pub fn obj_ref<O: Objects>(o: &mut O, raw: Addr) -> Result<Addr, Stop>
    requires kept { KeepsSome (O.keeps o.old) }
    requires spare { 1 ≤ (O.heap o.old).spare }
    requires raw { IsRaw (O.heap o.old).blocks raw }
    ensures made { IfOk result (λ source.
        MakesRawSource media.Obj raw source (O.heap o.old) (O.heap o.new)) }
    ensures refused { IfErr result (NamingStops raw (O.heap o.old) (O.heap o.new)) }
    ensures untouched { IfErr result (LeavesTouched (O.transaction o.old) (O.transaction o.new)) }
    ensures works { Spends O.HasHeap 31 o.old o.new result }
{
    raw_source(o, raw, Medium::Obj)
}

/// Makes a source of a raw object, which takes it over: the raw object goes with the source, before
/// it, once no extent names the source any more.
#[tactic(auto, using(sdr_base::proofs::LeavingLemmas::leaving))]
pub fn heap_source<O: Objects>(o: &mut O, raw: Addr) -> Result<Addr, Stop>
    requires kept { KeepsSome (O.keeps o.old) }
    requires spare { 1 ≤ (O.heap o.old).spare }
    requires raw { IsRaw (O.heap o.old).blocks raw }
    ensures made { IfOk result (λ source.
        MakesRawSource media.Heap raw source (O.heap o.old) (O.heap o.new)) }
    ensures refused { IfErr result (NamingStops raw (O.heap o.old) (O.heap o.new)) }
    ensures untouched { IfErr result (LeavesTouched (O.transaction o.old) (O.transaction o.new)) }
    ensures works { Spends O.HasHeap 31 o.old o.new result }
{
    raw_source(o, raw, Medium::Heap)
}

// Makes a source of a raw object, and names it there.
#[tactic(auto, using(sdr_base::proofs::LeavingLemmas::leaving))]
fn raw_source<O: Objects>(o: &mut O, raw: Addr, medium: Medium) -> Result<Addr, Stop>
    requires kept { KeepsSome (O.keeps o.old) }
    requires spare { 1 ≤ (O.heap o.old).spare }
    requires raw { IsRaw (O.heap o.old).blocks raw }
    ensures made { IfOk result (λ source.
        MakesRawSource medium raw source (O.heap o.old) (O.heap o.new)) }
    ensures refused { IfErr result (NamingStops raw (O.heap o.old) (O.heap o.new)) }
    ensures untouched { IfErr result (LeavesTouched (O.transaction o.old) (O.transaction o.new)) }
    ensures works { Spends O.HasHeap 31 o.old o.new result }
{
    let bytes = expect_unnamed(o, raw)?;
    let source = take_plain(o, medium, raw, bytes)?;
    set_word(o, raw, words::SOURCE, source)?;
    Ok(source)
}

/// How many bytes a raw object has, where no source names it. It is refused `InUse` where one does,
/// with how many extents of both accounts name that.
pub fn expect_unnamed<O: Objects>(o: &mut O, raw: Addr) -> Result<u64, Stop>
    requires kept { KeepsSome (O.keeps o.old) }
    requires raw { IsRaw (O.heap o.old).blocks raw }
    ensures found { IfOk result (HasUnnamed ((O.heap o.old).blocks raw)) }
    ensures refused { IfErr result (RawStops (O.heap o.old).blocks raw) }
    ensures looks { Looks O.HasHeap o.old o.new result }
{
    let bytes = expect_kind(o, raw, Kind::Raw)?;
    let named_by = word(o, raw, words::SOURCE)?;
    if named_by == 0 {
        return Ok(bytes - words::BYTES);
    }
    let count = uses_of(o, named_by)?;
    Err(Stop::Refused(Refusal::InUse { addr: raw, count }))
}
