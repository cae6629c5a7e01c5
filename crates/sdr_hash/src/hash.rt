// A hash as a whole.
ghost use Rattle.std.specs.Prelude.{◌≡◌, ◌+◌, ◌*◌, ◌/◌, ◌≤◌, ◌<◌, IfOk, IfErr, OnOk};
ghost use Rattle.sdr_base.specs.Blocks.{IsKind};
ghost use Rattle.sdr_base.specs.Moves.{KeepsSome};
ghost use Rattle.sdr_base.specs.Objects.{Misses};
ghost use Rattle.sdr_base.specs.Words.{HasWord};
ghost use Rattle.sdr_base.specs.Transaction.{LeavesTouched};
ghost use Rattle.sdr_base.specs.Works.{Looks, Spends};
ghost use Rattle.sdr_base.specs.declared.kind.Kind.TheVariants as kinds;
ghost use Rattle.sdr_hash.specs.Calls.{CountsEntries, CreateStops, MakesHash};
ghost use Rattle.sdr_hash.specs.Kept.{IsHash, IsShape, IsNoShape};

use byteorder::{BigEndian, ByteOrder};
use sdr_base::layout::hash as words;
use sdr_base::limits::{LONGEST_KEY, MOST_BUCKETS};
use sdr_base::{Addr, Kind, Objects, Refusal, Stop, WORD, check_failed, expect_kind, word};

/// Where the first entries of the buckets begin in a hash's block, in bytes.
pub const FRONTS_FROM: u64 = 24;

/// Makes a hash without entries, for keys of so many bytes.
#[tactic(auto, using(sdr_base::proofs::LeavingLemmas::leaving))]
pub fn create<O: Objects>(o: &mut O, key_length: u64, buckets: u64) -> Result<Addr, Stop>
    requires kept { KeepsSome (O.keeps o.old) }
    requires spare { 1 ≤ (O.heap o.old).spare }
    ensures made { IfOk result (λ hash.
        MakesHash key_length buckets hash (O.heap o.old) (O.heap o.new)) }
    ensures refused { IfErr result
        (CreateStops key_length buckets (O.heap o.old) (O.heap o.new)) }
    ensures untouched { IfErr result (LeavesTouched (O.transaction o.old) (O.transaction o.new)) }
    ensures works { Spends O.HasHeap
        (26 + (FRONTS_FROM + WORD * buckets) / 64) o.old o.new result }
{
    check_failed(o)?;
    check_shape(key_length, buckets)?;
    let hash = o.take(Kind::Hash, FRONTS_FROM + WORD * buckets)?;
    let mut head = [0; 24];
    BigEndian::write_u64_into(&[key_length, buckets, 0], &mut head);
    o.put(hash, 0, &head)?;
    Ok(hash)
}

// Refuses keys of no byte or of too many, and then a count of buckets that is 0 or too high.
fn check_shape(key_length: u64, buckets: u64) -> Result<(), Stop>
    ensures fits { OnOk result (IsShape key_length buckets) }
    ensures refused { IfErr result (IsNoShape key_length buckets) }
{
    if key_length == 0 || key_length > LONGEST_KEY {
        return Err(Stop::Refused(Refusal::BadKeyLength {
            length: key_length,
            want: LONGEST_KEY,
        }));
    }
    if buckets == 0 || buckets > MOST_BUCKETS {
        return Err(Stop::Refused(Refusal::BadRow {
            row: buckets,
            rows: MOST_BUCKETS,
        }));
    }
    Ok(())
}

/// How many entries a hash has.
pub fn count<O: Objects>(o: &mut O, hash: Addr) -> Result<u64, Stop>
    requires kept { KeepsSome (O.keeps o.old) }
    requires hash { IsHash (O.heap o.old).blocks hash }
    ensures given { IfOk result (CountsEntries (O.heap o.old).blocks hash) }
    ensures refused { IfErr result (Misses ((O.heap o.old).blocks hash) hash kinds.Hash) }
    ensures looks { Looks O.HasHeap o.old o.new result }
{
    hash_word(o, hash, words::ENTRIES)
}

// The number in a word field of a hash, before its buckets.
pub fn hash_word<O: Objects>(o: &mut O, hash: Addr, field: u64) -> Result<u64, Stop>
    requires kept { KeepsSome (O.keeps o.old) }
    requires hash { IsHash (O.heap o.old).blocks hash }
    requires field { field < 3 }
    ensures found { OnOk result (IsKind ((O.heap o.old).blocks hash) kinds.Hash) }
    ensures given { IfOk result (HasWord ((O.heap o.old).blocks hash) field) }
    ensures refused { IfErr result (Misses ((O.heap o.old).blocks hash) hash kinds.Hash) }
    ensures looks { Looks O.HasHeap o.old o.new result }
{
    expect_kind(o, hash, Kind::Hash)?;
    word(o, hash, field)
}
