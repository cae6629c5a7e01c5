// Readers of objects.
ghost use Rattle.std.specs.Prelude.{◌≡◌, ◌≢◌, ◌+◌, ◌<◌, ◌^◌, IfErr, IfOk, OnOk};
ghost use Rattle.sdr_base.specs.Blocks.{IsKind};
ghost use Rattle.sdr_base.specs.Moves.{KeepsSome};
ghost use Rattle.sdr_base.specs.Objects.{Misses};
ghost use Rattle.sdr_base.specs.Works.{Looks};
ghost use Rattle.sdr_base.specs.declared.kind.Kind.TheVariants as kinds;
ghost use Rattle.zco_wire.specs.Reading.{moved_by};

use sdr_base::{Addr, Kind, Objects, Stop, expect_kind};

/// Where a reader of an object stands: how many bytes of what it reads lie before. Of an object that
/// is sent these are the bytes on the wire, and of one that is received its extents' bytes.
#[derive(Clone, Copy)]
pub struct Reader {
    pub object: Addr,
    pub place: u64,
}

/// A reader at the begin of an object that is to be sent.
pub fn start_sending<O: Objects>(o: &mut O, object: Addr) -> Result<Reader, Stop>
    requires kept { KeepsSome (O.keeps o.old) }
    ensures object { OnOk result (IsKind ((O.heap o.old).blocks object) kinds.Object) }
    ensures begins { IfOk result (λ reader. reader ≡ record { object = object; place = 0 }) }
    ensures refused { IfErr result (Misses ((O.heap o.old).blocks object) object kinds.Object) }
    ensures looks { Looks O.HasHeap o.old o.new result }
{
    expect_kind(o, object, Kind::Object)?;
    Ok(Reader { object, place: 0 })
}

/// A reader at the begin of an object that was received.
pub fn start_receiving<O: Objects>(o: &mut O, object: Addr) -> Result<Reader, Stop>
    requires kept { KeepsSome (O.keeps o.old) }
    ensures object { OnOk result (IsKind ((O.heap o.old).blocks object) kinds.Object) }
    ensures begins { IfOk result (λ reader. reader ≡ record { object = object; place = 0 }) }
    ensures refused { IfErr result (Misses ((O.heap o.old).blocks object) object kinds.Object) }
    ensures looks { Looks O.HasHeap o.old o.new result }
{
    start_sending(o, object)
}

// The reader behind so many bytes from a place on; where there is none, it stays.
pub fn moved_by(from: u64, given: u64, reader: Reader) -> Reader
    requires fits { given ≢ 0 → from + given < 2 ^ 64 }
    ensures { result ≡ moved_by from given reader }
{
    if given == 0 {
        return reader;
    }
    Reader {
        object: reader.object,
        place: from + given,
    }
}
