// Items.
ghost use Rattle.std.specs.Prelude.{◌≡◌, ◌≤◌, IfOk, IfErr};
ghost use Rattle.sdr_base.specs.Moves.{KeepsSome};
ghost use Rattle.sdr_base.specs.Objects.{OnlyFault};
ghost use Rattle.sdr_base.specs.Works.{Looks, Spends};
ghost use Rattle.bp_queue.specs.Removing.{RemovesItem, RemoveStops, SomeItem};
ghost use Rattle.bp_queue.specs.Calls.{TellsFirst};
ghost use Rattle.sdr_list.specs.Kept.{SomeList};

use sdr_base::{Addr, Objects, Stop, word};

// The word fields of an item's block. The first is that of a raw object's source, and no source
// names an item.
pub mod words {
    pub const DEADLINE: u64 = 1;

    pub const OBJECT: u64 = 4;
    // Its elements, in the list of its class and in the line.
    pub const IN_CLASS: u64 = 5;

    pub const IN_LINE: u64 = 6;
}

// The item that stands first in a list, where one does.
pub fn first_item<O: Objects>(o: &mut O, list: Addr) -> Result<Option<Addr>, Stop>
    requires kept { KeepsSome (O.keeps o.old) }
    requires list { SomeList (O.heap o.old).blocks list }
    ensures told { IfOk result (TellsFirst list (O.heap o.old).blocks) }
    ensures refused { IfErr result OnlyFault }
    ensures looks { Looks O.HasHeap o.old o.new result }
{
    let first = sdr_list::first(o, list)?;
    if first == 0 {
        return Ok(None);
    }
    let item = sdr_list::datum(o, first)?;
    Ok(Some(item))
}

// Takes an item out of its lists and gives it back. It answers the object that the item names,
// which stays.
pub fn remove_item<O: Objects>(o: &mut O, item: Addr) -> Result<Addr, Stop>
    requires kept { KeepsSome (O.keeps o.old) }
    requires spare { 3 ≤ (O.heap o.old).spare }
    requires item { SomeItem (O.heap o.old).blocks item }
    ensures removed { IfOk result (RemovesItem item (O.heap o.old) (O.heap o.new)) }
    ensures refused { IfErr result (RemoveStops item (O.heap o.old) (O.heap o.new)) }
    ensures works { Spends O.HasHeap 84 o.old o.new result }
{
    let object = word(o, item, words::OBJECT)?;
    let in_class = word(o, item, words::IN_CLASS)?;
    let in_line = word(o, item, words::IN_LINE)?;
    sdr_list::delete(o, in_class)?;
    sdr_list::delete(o, in_line)?;
    o.give(item)?;
    Ok(object)
}
