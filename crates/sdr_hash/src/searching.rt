// The search for a key.
ghost use Rattle.std.specs.Prelude.{◌≡◌, ◌≤◌, length, IfOk, IfErr};
ghost use Rattle.sdr_base.specs.Blocks.{UsesRange};
ghost use Rattle.sdr_base.specs.Moves.{KeepsSome};
ghost use Rattle.sdr_base.specs.Objects.{OnlyFault};
ghost use Rattle.sdr_base.specs.Works.{Looks};
ghost use Rattle.sdr_hash.specs.Calls.{FindsKey, FindStops};
ghost use Rattle.sdr_hash.specs.Kept.{IsHash};
ghost use Rattle.sdr_hash.specs.Opened.{SomeBucket};
ghost use Rattle.sdr_hash.specs.Walks.{Compares, Locates, Searches};

use crate::bucket::{Link, front_of};
use crate::entry::KEY_FROM;
use sdr_base::layout::hash_entry as words;
use sdr_base::limits::LONGEST_KEY;
use sdr_base::{Addr, Objects, Refusal, Stop, word};

// As many blocks in use as the largest heap may have, one for 16 bytes.
const MOST_ENTRIES: u64 = 1_048_576;

// An entry of a hash, and the link to it.
#[derive(Clone, Copy)]
pub struct Place {
    pub addr: Addr,
    pub link: Link,
}

/// The value of a key.
pub fn retrieve<O: Objects>(o: &mut O, hash: Addr, key: &[u8]) -> Result<u64, Stop>
    requires kept { KeepsSome (O.keeps o.old) }
    requires hash { IsHash (O.heap o.old).blocks hash }
    ensures found { IfOk result (FindsKey (O.heap o.old).blocks hash key.now) }
    ensures refused { IfErr result (FindStops (O.heap o.old).blocks hash key.now) }
    ensures looks { Looks O.HasHeap o.old o.new result }
{
    let (_, place) = locate(o, hash, key)?;
    word(o, place.addr, words::VALUE)
}

// Where the bucket of a key begins, and where in it the key's entry is.
pub fn locate<O: Objects>(o: &mut O, hash: Addr, key: &[u8]) -> Result<(Link, Place), Stop>
    requires kept { KeepsSome (O.keeps o.old) }
    requires hash { IsHash (O.heap o.old).blocks hash }
    ensures located { IfOk result (Locates (O.heap o.old).blocks hash key.now) }
    ensures refused { IfErr result (FindStops (O.heap o.old).blocks hash key.now) }
    ensures looks { Looks O.HasHeap o.old o.new result }
{
    let front = front_of(o, hash, key)?;
    match search(o, front, key)? {
        None => Err(Stop::Refused(Refusal::NotFound)),
        Some(place) => Ok((front, place)),
    }
}

// The newest entry of a key in the bucket that begins at this link, where there is one.
pub fn search<O: Objects>(o: &mut O, front: Link, key: &[u8]) -> Result<Option<Place>, Stop>
    requires kept { KeepsSome (O.keeps o.old) }
    requires bucket { SomeBucket (O.heap o.old).blocks front (length key.now) }
    ensures found { IfOk result (Searches (O.heap o.old).blocks front key.now) }
    ensures refused { IfErr result OnlyFault }
    ensures looks { Looks O.HasHeap o.old o.new result }
{
    let mut link = front;
    let mut addr = word(o, front.addr, front.field)?;
    for i in 0..MOST_ENTRIES {
        if addr == 0 {
            return Ok(None);
        }
        if has_key(o, addr, key)? {
            return Ok(Some(Place { addr, link }));
        }
        link = Link {
            addr,
            field: words::NEXT,
        };
        addr = word(o, addr, words::NEXT)?;
    }
    Ok(None)
}

// Whether an entry has this key.
fn has_key<O: Objects>(o: &mut O, addr: Addr, key: &[u8]) -> Result<bool, Stop>
    requires kept { KeepsSome (O.keeps o.old) }
    requires short { length key.now ≤ LONGEST_KEY }
    requires inside { UsesRange (O.heap o.old).blocks addr KEY_FROM (length key.now) }
    ensures compared { IfOk result (Compares ((O.heap o.old).blocks addr) key.now) }
    ensures refused { IfErr result OnlyFault }
    ensures looks { Looks O.HasHeap o.old o.new result }
{
    let mut buffer = [0; LONGEST_KEY as usize];
    let bytes = &mut buffer[..key.len()];
    o.get(addr, KEY_FROM as u64, bytes)?;
    Ok(&*bytes == key)
}
