// The word fields of lists and of elements.
ghost use Rattle.std.specs.Prelude.{◌<◌, IfOk, IfErr, OnOk};
ghost use Rattle.sdr_base.specs.Blocks.{IsKind};
ghost use Rattle.sdr_base.specs.Moves.{KeepsSome};
ghost use Rattle.sdr_base.specs.Objects.{Misses};
ghost use Rattle.sdr_base.specs.Words.{HasWord};
ghost use Rattle.sdr_base.specs.Works.{Looks};
ghost use Rattle.sdr_base.specs.declared.kind.Kind.TheVariants as kinds;
ghost use Rattle.sdr_list.specs.Kept.{IsElement, IsList};

use sdr_base::{Addr, Kind, Objects, Stop, expect_kind, word};

// The number in a word field of a list.
pub fn list_word<O: Objects>(o: &mut O, list: Addr, field: u64) -> Result<u64, Stop>
    requires kept { KeepsSome (O.keeps o.old) }
    requires list { IsList (O.heap o.old).blocks list }
    requires field { field < 4 }
    ensures found { OnOk result (IsKind ((O.heap o.old).blocks list) kinds.List) }
    ensures given { IfOk result (HasWord ((O.heap o.old).blocks list) field) }
    ensures refused { IfErr result (Misses ((O.heap o.old).blocks list) list kinds.List) }
    ensures looks { Looks O.HasHeap o.old o.new result }
{
    expect_kind(o, list, Kind::List)?;
    word(o, list, field)
}

// The number in a word field of an element.
pub fn element_word<O: Objects>(o: &mut O, element: Addr, field: u64) -> Result<u64, Stop>
    requires kept { KeepsSome (O.keeps o.old) }
    requires element { IsElement (O.heap o.old).blocks element }
    requires field { field < 4 }
    ensures found { OnOk result (IsKind ((O.heap o.old).blocks element) kinds.Element) }
    ensures given { IfOk result (HasWord ((O.heap o.old).blocks element) field) }
    ensures refused { IfErr result
        (Misses ((O.heap o.old).blocks element) element kinds.Element) }
    ensures looks { Looks O.HasHeap o.old o.new result }
{
    expect_kind(o, element, Kind::Element)?;
    word(o, element, field)
}
