// The search for a name.
ghost use Rattle.std.specs.Prelude.{◌≡◌, ◌≤◌, length, IfOk, IfErr};
ghost use Rattle.sdr_base.specs.Blocks.{UsesRange};
ghost use Rattle.sdr_base.specs.Moves.{KeepsSome};
ghost use Rattle.sdr_base.specs.Objects.{OnlyFault};
ghost use Rattle.sdr_base.specs.Works.{Looks};
ghost use Rattle.sdr_cat.specs.Kept.{SomeNames};
ghost use Rattle.sdr_cat.specs.Walks.{Compares, Searches};

use crate::name::stored;
use sdr_base::control::FIRST_NAME;
use sdr_base::layout::name as words;
use sdr_base::limits::LONGEST_NAME;
use sdr_base::{Addr, Objects, Stop, word};

// As many blocks in use as the largest heap may have, one for 16 bytes.
pub const MOST_ENTRIES: u64 = 1_048_576;

// Where the length and the bytes of a name begin in an entry, in bytes.
pub const NAME_FROM: u64 = 24;

// An entry of the catalogue, and the one before it, 0 where it is the first.
#[derive(Clone, Copy)]
pub struct Place {
    pub addr: Addr,
    pub previous: Addr,
}

// The first entry of a name, where there is one.
pub fn search<O: Objects>(o: &mut O, name: &[u8]) -> Result<Option<Place>, Stop>
    requires kept { KeepsSome (O.keeps o.old) }
    requires names { SomeNames (O.heap o.old) }
    requires short { length name.now ≤ LONGEST_NAME }
    ensures found { IfOk result (Searches (O.heap o.old) name.now) }
    ensures refused { IfErr result OnlyFault }
    ensures looks { Looks O.HasHeap o.old o.new result }
{
    let wanted = stored(name);
    let mut previous = 0;
    let mut addr = o.root(FIRST_NAME)?;
    for i in 0..MOST_ENTRIES {
        if addr == 0 {
            return Ok(None);
        }
        if has_name(o, addr, &wanted)? {
            return Ok(Some(Place { addr, previous }));
        }
        previous = addr;
        addr = word(o, addr, words::NEXT)?;
    }
    Ok(None)
}

// Whether an entry is of this name.
fn has_name<O: Objects>(o: &mut O, addr: Addr, name: &[u8; 32]) -> Result<bool, Stop>
    requires kept { KeepsSome (O.keeps o.old) }
    requires inside { UsesRange (O.heap o.old).blocks addr NAME_FROM 32 }
    ensures compared { IfOk result (Compares ((O.heap o.old).blocks addr) name.now) }
    ensures refused { IfErr result OnlyFault }
    ensures looks { Looks O.HasHeap o.old o.new result }
{
    let mut bytes = [0; 32];
    o.get(addr, NAME_FROM, &mut bytes)?;
    Ok(bytes == *name)
}
