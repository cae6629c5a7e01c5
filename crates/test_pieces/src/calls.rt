// Calls that the tests of pieces share.
ghost use Rattle.std.specs.Prelude.{◌≡◌, ◌≤◌, ◌∷◌, [], ℕ, IfOk, OnOk};
ghost use Rattle.sdr_base.specs.Moves.{KeepsSome};
ghost use Rattle.sdr_base.specs.Objects.{Heap};
ghost use Rattle.sdr_base.specs.declared.account.Acct.TheVariants as accts;
ghost use Rattle.zco_join.specs.Joining.{Joins, SomeToJoin};
ghost use Rattle.zco_wire.specs.Naming.{IsWire};
ghost use Rattle.law_pieces.specs.Texts.{HasNothing, SomeText};

use law_pieces::texts_keep;
use sdr_base::{Acct, Addr, Kind, NoMedia, Objects, Stop, take_bytes};
use zco_obj::append_extent;
use zco_pieces::Rebuild;
use zco_wire::{start_sending, transmit};

/// The addresses of a raw object of six bytes, and of an object of it.
#[derive(Clone, Copy, Drop)]
pub struct Payload {
    pub raw: Addr,
    pub object: Addr,
}

/// Makes an object of six bytes, in a heap that has nothing.
pub fn make_payload<O: Objects>(o: &mut O) -> Result<Payload, Stop>
    requires kept { KeepsSome (O.keeps o.old) }
    requires nothing { HasNothing (O.heap o.old) }
    requires spare { 104 ≤ (O.heap o.old).spare }
    ensures kept { OnOk result (KeepsSome (O.keeps o.new)) }
    ensures text { IfOk result (λ p. SomeText (O.heap o.new) [] (p.object ∷ []) 1 100) }
{
    texts_keep();
    let bytes = [0, 0, 0, 0, 0, 0, 0, 0, b'A', b'B', b'C', b'D', b'E', b'F'];
    let raw = take_bytes(o, Kind::Raw, &bytes)?;
    let object = zco_obj::create(o, Acct::Inbound, 0)?;
    append_extent(o, object, 0, raw, 0, 6)?;
    Ok(Payload { raw, object })
}

/// What an object sends, of nine bytes that are asked.
#[derive(Clone, Copy, Debug, PartialEq, Eq, Drop)]
pub struct Sent {
    pub given: u64,
    pub bytes: [u8; 9],
}

/// Finishes a text, and sends the object.
pub fn finish_and_send<O: Objects>(o: &mut O, text: &mut Rebuild) -> Result<Sent, Stop>
    requires kept { KeepsSome (O.keeps o.old) }
    requires clones { SomeToJoin (O.heap o.old) accts.Outbound text.old.parts }
    requires wire { (object : ℕ) (new : Heap) →
        Joins accts.Outbound 0 text.old.parts (O.heap o.old) new object
        → IsWire new.blocks object }
{
    let object = text.finish(o, Acct::Outbound, 0)?;
    let mut media = NoMedia::new();
    let mut reader = start_sending(o, object)?;
    let mut bytes = [0; 9];
    let given = transmit(o, &mut media, &mut reader, &mut bytes)?;
    Ok(Sent { given, bytes })
}
