// The end of a hash.
ghost use Rattle.std.specs.Prelude.{◌≡◌, ◌≤◌, ◌*◌, ◌+◌, IfOk, OnOk, IfErr};
ghost use Rattle.sdr_base.specs.Blocks.{UsesRange};
ghost use Rattle.sdr_base.specs.Moves.{KeepsSome};
ghost use Rattle.sdr_base.specs.Objects.{OnlyUnmoved, with_given};
ghost use Rattle.sdr_base.specs.Words.{HasWord};
ghost use Rattle.sdr_base.specs.Transaction.{LeavesTouched};
ghost use Rattle.sdr_base.specs.Wanting.{OnlyWanting};
ghost use Rattle.sdr_base.specs.Works.{Spends};
ghost use Rattle.sdr_hash.specs.Destroying.{DestroysHash, DestroyStops, entries_in};
ghost use Rattle.sdr_hash.specs.Giving.{GivesBucket, GiveStops, SomeOpened, given};
ghost use Rattle.sdr_hash.specs.Kept.{IsHash};

use crate::bucket::Link;
use crate::hash::hash_word;
use sdr_base::layout::{hash as words, hash_entry as entry_words};
use sdr_base::{Addr, Objects, Stop, word};

/// Gives the entries of a hash back, bucket by bucket, the newest of a bucket first, and then the
/// hash. What the values name stays.
#[tactic(auto, using(sdr_base::proofs::LeavingLemmas::leaving))]
pub fn destroy<O: Objects>(o: &mut O, hash: Addr) -> Result<(), Stop>
    requires kept { KeepsSome (O.keeps o.old) }
    requires spare { entries_in ((O.heap o.old).blocks hash) + 1 ≤ (O.heap o.old).spare }
    requires hash { IsHash (O.heap o.old).blocks hash }
    ensures destroyed { OnOk result (DestroysHash hash (O.heap o.old) (O.heap o.new)) }
    ensures refused { IfErr result (DestroyStops hash (O.heap o.old) (O.heap o.new)) }
    ensures untouched { IfErr result (LeavesTouched (O.transaction o.old) (O.transaction o.new)) }
    ensures works { Spends O.HasHeap
        (24 * (entries_in ((O.heap o.old).blocks hash) + 1)) o.old o.new result }
{
    let buckets = hash_word(o, hash, words::BUCKETS)?;
    let mut left = word(o, hash, words::ENTRIES)?;
    for bucket in 0..buckets {
        let front = Link {
            addr: hash,
            field: words::WORDS + bucket,
        };
        left = give_bucket(o, front, left)?;
    }
    o.give(hash)
}

// Gives the entries of a bucket back, the first one first. There are so many at most, and it answers
// how many fewer there were.
#[tactic(auto, using(sdr_base::proofs::LeavingLemmas::wanting))]
fn give_bucket<O: Objects>(o: &mut O, front: Link, most: u64) -> Result<u64, Stop>
    requires kept { KeepsSome (O.keeps o.old) }
    requires spare { most ≤ (O.heap o.old).spare }
    requires bucket { SomeOpened (O.heap o.old).blocks front most }
    ensures given { IfOk result (GivesBucket (O.heap o.old) (O.heap o.new) front most) }
    ensures refused { IfErr result (GiveStops front most (O.heap o.old) (O.heap o.new)) }
    ensures wants { IfErr result OnlyWanting }
    ensures works { Spends O.HasHeap (24 * given most result) o.old o.new result }
{
    let mut entry = word(o, front.addr, front.field)?;
    for i in 0..most {
        if entry == 0 {
            return Ok(most - i);
        }
        entry = give_one(o, entry)?;
    }
    Ok(0)
}

// Gives an entry back, and answers the next one's address.
fn give_one<O: Objects>(o: &mut O, entry: Addr) -> Result<Addr, Stop>
    requires kept { KeepsSome (O.keeps o.old) }
    requires spare { 1 ≤ (O.heap o.old).spare }
    requires inside { UsesRange (O.heap o.old).blocks entry 0 16 }
    ensures next { IfOk result (λ next. HasWord ((O.heap o.old).blocks entry) 0 next) }
    ensures given { OnOk result (O.heap o.new ≡ with_given (O.heap o.old) entry) }
    ensures refused { IfErr result (OnlyUnmoved (O.heap o.old) (O.heap o.new)) }
    ensures works { Spends O.HasHeap 24 o.old o.new result }
{
    let next = word(o, entry, entry_words::NEXT)?;
    o.give(entry)?;
    Ok(next)
}
