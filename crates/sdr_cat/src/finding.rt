// What the catalogue says.
ghost use Rattle.std.specs.Prelude.{◌≡◌, ◌≤◌, get_or, take, drop, IfOk, IfErr};
ghost use Rattle.sdr_base.specs.Moves.{KeepsSome};
ghost use Rattle.sdr_base.specs.Objects.{OnlyFault};
ghost use Rattle.sdr_base.specs.Works.{Looks};
ghost use Rattle.sdr_cat.specs.Calls.{EntryStops, FindsName, FindStops, ReadsEntry};
ghost use Rattle.sdr_cat.specs.Kept.{SomeEntry, SomeNames};
ghost use Rattle.sdr_cat.specs.Walks.{Counts, TellsEntry};

use crate::name::check_name;
use crate::searching::{NAME_FROM, search};
use sdr_base::control::FIRST_NAME;
use sdr_base::layout::name as words;
use sdr_base::limits::LONGEST_NAME;
use sdr_base::{Addr, Objects, Refusal, Stop, check_failed, word};

/// The type and the object of a name.
pub fn find<O: Objects>(o: &mut O, name: &[u8]) -> Result<(u32, u64), Stop>
    requires kept { KeepsSome (O.keeps o.old) }
    requires names { SomeNames (O.heap o.old) }
    ensures found { IfOk result (FindsName name.now (O.heap o.old)) }
    ensures refused { IfErr result (FindStops name.now (O.heap o.old)) }
    ensures looks { Looks O.HasHeap o.old o.new result }
{
    check_failed(o)?;
    check_name(name)?;
    match search(o, name)? {
        None => Err(Stop::Refused(Refusal::NotFound)),
        Some(place) => told(o, place.addr),
    }
}

/// The entry at a place, counted from 0: puts its name into the first bytes of a buffer, and answers
/// how many they are, its type and its object.
pub fn entry<O: Objects>(
    o: &mut O,
    place: u64,
    into: &mut [u8; 255],
) -> Result<(u64, u32, u64), Stop>
    requires kept { KeepsSome (O.keeps o.old) }
    requires names { SomeNames (O.heap o.old) }
    ensures given { IfOk result (λ value. ReadsEntry place (O.heap o.old) value into.new) }
    ensures refused { IfErr result (EntryStops place (O.heap o.old)) }
    ensures looks { Looks O.HasHeap o.old o.new result }
{
    let addr = entry_at(o, place)?;
    if addr == 0 {
        return Err(Stop::Refused(Refusal::NotFound));
    }
    let mut bytes = [0; 32];
    o.get(addr, NAME_FROM, &mut bytes)?;
    let (kind, object) = told(o, addr)?;
    let length = put_name(&bytes, into);
    Ok((length, kind, object))
}

// Puts a name as it stands in an entry into the first bytes of a buffer, and answers how many they are.
fn put_name(bytes: &[u8; 32], into: &mut [u8; 255]) -> u64
    requires short { get_or bytes.now 0 0 ≤ LONGEST_NAME }
    ensures length { result ≡ get_or bytes.now 0 0 }
    ensures copied { take result into.new ≡ take result (drop 1 bytes.now) }
{
    let length = bytes[0] as usize;
    into[..length].copy_from_slice(&bytes[1..1 + length]);
    length as u64
}

// The address of the entry at a place, 0 where there is none.
fn entry_at<O: Objects>(o: &mut O, place: u64) -> Result<Addr, Stop>
    requires kept { KeepsSome (O.keeps o.old) }
    requires names { SomeNames (O.heap o.old) }
    ensures given { IfOk result (Counts (O.heap o.old) place) }
    ensures refused { IfErr result OnlyFault }
    ensures looks { Looks O.HasHeap o.old o.new result }
{
    let mut addr = o.root(FIRST_NAME)?;
    for i in 0..place {
        if addr == 0 {
            return Ok(0);
        }
        addr = word(o, addr, words::NEXT)?;
    }
    Ok(addr)
}

// The type and the object of an entry.
fn told<O: Objects>(o: &mut O, addr: Addr) -> Result<(u32, u64), Stop>
    requires kept { KeepsSome (O.keeps o.old) }
    requires entry { SomeEntry ((O.heap o.old).blocks addr) }
    ensures told { IfOk result (TellsEntry ((O.heap o.old).blocks addr)) }
    ensures refused { IfErr result OnlyFault }
    ensures looks { Looks O.HasHeap o.old o.new result }
{
    let kind = word(o, addr, words::TYPE)?;
    let object = word(o, addr, words::OBJECT)?;
    Ok((kind as u32, object))
}
