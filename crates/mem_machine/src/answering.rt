// A call on a world in memory, whose media are asked for the bytes that lie with them.
ghost use Rattle.std.specs.Prelude.{◌≡◌, ◌≤◌, ◌+◌, true, IfOk, IfSome, None, OnErr, Ok};
ghost use Rattle.mem_world.specs.Calling.{MayCall};
ghost use Rattle.mem_machine.specs.Answering.{Answers, HasPieces, lapses_of};
ghost use Rattle.sdr_machine.specs.Asked.{outside_needed};
ghost use Rattle.sdr_machine.specs.Lapses.{HasLapseCause};
ghost use Rattle.sdr_model.specs.Pieces.{AsksBytes};
ghost use Rattle.sdr_model.specs.Reading.{reads_media};

use crate::apply;
use mem_world::DraftWorld;
use mem_zco_calls::object_calls::object;
use mem_zco_calls::wire_calls::{asked, parts};
use sdr_base::limits::LONGEST_READ;
use sdr_base::{Bytes, Items, Media, NoMemory, Refusal};
use sdr_gather::{Gap, gather};
use sdr_model::{Answer, Call, Piece, Reply};
use std::alloc::Global;

// The pieces of the bytes by which a call is answered, where it asks bytes of an object that is there, and
// nothing where it doesn't.
fn pieces_of(
    alloc: Global,
    world: &DraftWorld,
    call: &Call,
) -> Result<Option<Items<Piece>>, NoMemory>
    requires may { MayCall world.now.now }
    ensures some { IfOk result (λ asked. IfSome asked (HasPieces world.now.now call.now)) }
    ensures none { result ≡ Ok None → reads_media call.now ≡ true →
        ¬ AsksBytes world.now.now call.now }
{
    if !call.reads_media() {
        return Ok(None);
    }
    let (addr, count) = asked(call);
    if object(world, addr).is_none() || count > LONGEST_READ {
        return Ok(None);
    }
    Ok(Some(parts(alloc, world, call)?))
}

// Answers a call that asks these pieces: it shows the bytes that they are, or media stop it. All memory is taken before media
// are asked.
fn read<M: Media>(
    alloc: Global,
    world: &mut DraftWorld,
    media: &mut M,
    call: &Call,
    pieces: &[Piece],
) -> Result<Reply, NoMemory>
    requires has { HasPieces world.old.now call.now pieces.now }
    ensures answers { IfOk result (
        Answers (M.told media.old) call.now world.old.now world.new.now) }
    ensures gap { IfOk result (λ reply. HasLapseCause (Answer.Reply reply)
        (lapses_of M.Media media.old) (lapses_of M.Media media.new)) }
    ensures begun { world.new.begun ≡ world.old.begun }
    ensures needs { M.asks media.new ≤ M.asks media.old + outside_needed world.old.now call.now }
    ensures told { M.told media.new ≡ M.told media.old }
    ensures faults { M.faults media.old ≤ M.faults media.new }
    ensures short { M.short media.old ≤ M.short media.new }
    ensures same { OnErr result ((world.new.now ≡ world.old.now) × (media.new ≡ media.old)) }
{
    let mut bytes = Vec::with_capacity(alloc, LONGEST_READ as usize)?;
    match gather(media, pieces, &mut bytes) {
        Ok(()) => {
            let given = Bytes::of(bytes);
            let count = given.len() as u64;
            world.show(given);
            Ok(Reply::Bytes { count })
        }
        Err(Gap::Fault) => Ok(Reply::MediaFault),
        Err(Gap::Short { have, want }) => Ok(Reply::Refused(Refusal::SourceShort { have, want })),
    }
}

/// Makes a call on a world in memory. Where it asks bytes of an object that lie with media, these are asked for them within the call: at
/// most once for each extent of which it needs bytes, in order, until the first that fails or gives too few. Want of
/// memory leaves the world and media as before.
pub fn answer<M: Media>(
    alloc: Global,
    world: &mut DraftWorld,
    media: &mut M,
    call: &Call,
) -> Result<Reply, NoMemory>
    requires may { MayCall world.old.now }
    ensures answers { IfOk result (
        Answers (M.told media.old) call.now world.old.now world.new.now) }
    ensures gap { IfOk result (λ reply. HasLapseCause (Answer.Reply reply)
        (lapses_of M.Media media.old) (lapses_of M.Media media.new)) }
    ensures begun { world.new.begun ≡ world.old.begun }
    ensures needs { M.asks media.new ≤ M.asks media.old + outside_needed world.old.now call.now }
    ensures told { M.told media.new ≡ M.told media.old }
    ensures faults { M.faults media.old ≤ M.faults media.new }
    ensures short { M.short media.old ≤ M.short media.new }
    ensures same { OnErr result ((world.new.now ≡ world.old.now) × (media.new ≡ media.old)) }
{
    match pieces_of(alloc, world, call)? {
        Some(pieces) => read(alloc, world, media, call, pieces.as_slice()),
        None => apply(alloc, world, call),
    }
}
