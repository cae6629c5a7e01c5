// The bucket of a key.
ghost use Rattle.std.specs.Prelude.{◌≡◌, ◌≤◌, ◌<◌, IfOk, IfErr};
ghost use Rattle.sdr_base.specs.Moves.{KeepsSome};
ghost use Rattle.sdr_base.specs.Works.{Looks};
ghost use Rattle.sdr_hash.specs.Buckets.{bucket_of};
ghost use Rattle.sdr_hash.specs.Calls.{LacksBucket};
ghost use Rattle.sdr_hash.specs.Kept.{IsHash};
ghost use Rattle.sdr_hash.specs.Opened.{FrontsBucket};

use crate::hash::hash_word;
use sdr_base::layout::hash as words;
use sdr_base::{Addr, Objects, Refusal, Stop, word};

// A word field that has the address of an entry: in the hash's block, or in that of the entry before.
#[derive(Clone, Copy)]
pub struct Link {
    pub addr: Addr,
    pub field: u64,
}

// The link to the first entry of a key's bucket, where the key is as long as the hash's keys are.
pub fn front_of<O: Objects>(o: &mut O, hash: Addr, key: &[u8]) -> Result<Link, Stop>
    requires kept { KeepsSome (O.keeps o.old) }
    requires hash { IsHash (O.heap o.old).blocks hash }
    ensures found { IfOk result (FrontsBucket (O.heap o.old).blocks hash key.now) }
    ensures refused { IfErr result (LacksBucket (O.heap o.old).blocks hash key.now) }
    ensures looks { Looks O.HasHeap o.old o.new result }
{
    let want = hash_word(o, hash, words::KEY_LENGTH)?;
    if key.len() as u64 != want {
        return Err(Stop::Refused(Refusal::BadKeyLength {
            length: key.len() as u64,
            want,
        }));
    }
    let buckets = word(o, hash, words::BUCKETS)?;
    Ok(Link {
        addr: hash,
        field: words::WORDS + bucket_of(key, buckets),
    })
}

// The bucket of a key, among so many.
fn bucket_of(key: &[u8], buckets: u64) -> u64
    requires some { 1 ≤ buckets }
    requires few { buckets ≤ 256 }
    ensures value { result ≡ bucket_of buckets key.now }
    ensures below { result < buckets }
{
    let mut bucket = 0;
    for byte in key {
        bucket = (bucket + u64::from(*byte)) % buckets;
    }
    bucket
}
