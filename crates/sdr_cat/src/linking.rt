// The links of the catalogue.
ghost use Rattle.std.specs.Prelude.{◌≡◌, ◌≢◌, ◌≤◌, [], ◌∷◌, length, IfOk, IfErr, OnOk};
ghost use Rattle.sdr_base.specs.Blocks.{UsesRange};
ghost use Rattle.sdr_base.specs.Catalogue.{name_bytes};
ghost use Rattle.sdr_base.specs.Moves.{KeepsSome};
ghost use Rattle.sdr_base.specs.Objects.{OnlyShort, OnlyUnmoved};
ghost use Rattle.sdr_base.specs.Words.{TakesBytes, layout};
ghost use Rattle.sdr_base.specs.Works.{Spends};
ghost use Rattle.sdr_base.specs.declared.kind.Kind.TheVariants as kinds;
ghost use Rattle.sdr_cat.specs.Links.{LinksNext};

use crate::name::stored;
use byteorder::{BigEndian, ByteOrder};
use sdr_base::control::FIRST_NAME;
use sdr_base::layout::name as words;
use sdr_base::limits::LONGEST_NAME;
use sdr_base::{Addr, Kind, Objects, Stop, set_word, take_bytes};

// Links `next` behind the entry `prev`, or as the first where that is 0.
pub fn link_next<O: Objects>(o: &mut O, prev: Addr, next: Addr) -> Result<(), Stop>
    requires kept { KeepsSome (O.keeps o.old) }
    requires prev { prev ≢ 0 → UsesRange (O.heap o.old).blocks prev 0 56 }
    ensures linked { OnOk result (LinksNext prev next (O.heap o.old) (O.heap o.new)) }
    ensures refused { IfErr result (OnlyUnmoved (O.heap o.old) (O.heap o.new)) }
    ensures works { Spends O.HasHeap 2 o.old o.new result }
{
    if prev == 0 {
        o.set_root(FIRST_NAME, next)
    } else {
        set_word(o, prev, words::NEXT, next)
    }
}

// Takes a block for an entry, which nothing follows.
pub fn take_entry<O: Objects>(o: &mut O, kind: u32, object: u64, name: &[u8]) -> Result<Addr, Stop>
    requires kept { KeepsSome (O.keeps o.old) }
    requires spare { 1 ≤ (O.heap o.old).spare }
    requires short { length name.now ≤ LONGEST_NAME }
    ensures taken { IfOk result (λ addr. TakesBytes kinds.Name
        (layout (0 ∷ kind ∷ object ∷ []) (name_bytes name.now)) addr
        (O.heap o.old) (O.heap o.new)) }
    ensures refused { IfErr result (OnlyShort 56 (O.heap o.old) (O.heap o.new)) }
    ensures works { Spends O.HasHeap 27 o.old o.new result }
{
    take_bytes(o, Kind::Name, &entry_bytes(kind, object, name))
}

// The bytes of an entry that nothing follows.
fn entry_bytes(kind: u32, object: u64, name: &[u8]) -> [u8; 56]
    requires short { length name.now ≤ LONGEST_NAME }
    ensures { result ≡ layout (0 ∷ kind ∷ object ∷ []) (name_bytes name.now) }
{
    let mut bytes = [0; 56];
    BigEndian::write_u64_into(&[0, kind as u64, object], &mut bytes[..24]);
    bytes[24..].copy_from_slice(&stored(name));
    bytes
}
