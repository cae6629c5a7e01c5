// Extents that come.
ghost use Rattle.std.specs.Prelude.{◌≡◌, ◌≢◌, ◌+◌, ◌<◌, ◌≤◌, ◌^◌, IfErr, OnOk};
ghost use Rattle.sdr_base.specs.Blocks.{UsesRange};
ghost use Rattle.sdr_base.specs.Moves.{KeepsSome};
ghost use Rattle.sdr_base.specs.Objects.{OnlyShort, OnlyUnmoved};
ghost use Rattle.sdr_base.specs.Works.{Spends};
ghost use Rattle.sdr_model.specs.Limits.{longest_source};
ghost use Rattle.zco_obj.specs.Extents.{AddsExtent, LinksExtent, SetsPart, grown};
ghost use Rattle.zco_obj.specs.Kept.{SomeObject};

use crate::summing::extents_length;
use sdr_base::layout::{extent as extent_words, object as words};
use sdr_base::{Addr, Kind, Objects, Stop, check_failed, set_word, take_words, word};

/// A part of a source, or of a raw object that a source is to take over.
#[derive(Clone, Copy)]
pub struct ExtentPiece {
    pub of: Addr,
    /// The first of its bytes there, and how many they are.
    pub offset: u64,
    pub bytes: u64,
}

// Makes an object's part longer by so many bytes that are to come, where it reaches the end of what
// is there.
fn grow<O: Objects>(o: &mut O, object: Addr, bytes: u64) -> Result<(), Stop>
    requires kept { KeepsSome (O.keeps o.old) }
    requires object { SomeObject (O.heap o.old).blocks object }
    requires short { bytes ≤ longest_source }
    ensures grown { OnOk result (SetsPart object (λ row. grown row bytes) (O.heap o.old) (O.heap o.new)) }
    ensures refused { IfErr result (OnlyUnmoved (O.heap o.old) (O.heap o.new)) }
    ensures works { Spends O.HasHeap 2 o.old o.new result }
{
    let first = word(o, object, words::FIRST_EXTENT)?;
    let offset = word(o, object, words::PART_OFFSET)?;
    let part = word(o, object, words::PART_LENGTH)?;
    let end = extents_length(o, first)?;
    let reached = offset + part;
    if reached == end {
        set_word(o, object, words::PART_LENGTH, part + bytes)
    } else {
        check_failed(o)
    }
}

/// Links an extent behind an object's last one, or as its first where that is 0.
pub fn link_extent<O: Objects>(o: &mut O, object: Addr, last: Addr, added: Addr) -> Result<(), Stop>
    requires kept { KeepsSome (O.keeps o.old) }
    requires object { UsesRange (O.heap o.old).blocks object 0 72 }
    requires last { last ≢ 0 → UsesRange (O.heap o.old).blocks last 0 32 }
    ensures linked { OnOk result (LinksExtent object last added (O.heap o.old) (O.heap o.new)) }
    ensures refused { IfErr result (OnlyUnmoved (O.heap o.old) (O.heap o.new)) }
    ensures works { Spends O.HasHeap 4 o.old o.new result }
{
    set_word(o, object, words::LAST_EXTENT, added)?;
    if last == 0 {
        set_word(o, object, words::FIRST_EXTENT, added)
    } else {
        set_word(o, last, extent_words::NEXT, added)
    }
}

// Makes an extent behind an object's others.
pub fn add_extent<O: Objects>(o: &mut O, object: Addr, piece: ExtentPiece) -> Result<(), Stop>
    requires kept { KeepsSome (O.keeps o.old) }
    requires spare { 1 ≤ (O.heap o.old).spare }
    requires object { SomeObject (O.heap o.old).blocks object }
    requires short { piece.bytes ≤ longest_source }
    ensures added { OnOk result (AddsExtent object piece (O.heap o.old) (O.heap o.new)) }
    ensures refused { IfErr result (OnlyShort 32 (O.heap o.old) (O.heap o.new)) }
    ensures works { Spends O.HasHeap 35 o.old o.new result }
{
    let last = word(o, object, words::LAST_EXTENT)?;
    let words = [piece.of, piece.offset, piece.bytes, 0];
    let added = take_words(o, Kind::Extent, &words)?;
    grow(o, object, piece.bytes)?;
    link_extent(o, object, last, added)
}
