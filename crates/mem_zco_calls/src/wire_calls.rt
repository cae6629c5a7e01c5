// What calls that ask bytes of objects do to a world.
ghost use Rattle.std.specs.Prelude.{◌≡◌, ◌++◌, true, IfOk, OnOk};
ghost use Rattle.mem_calls.specs.Answers.{CallsMemory};
ghost use Rattle.mem_world.specs.Calling.{MayCall};
ghost use Rattle.sdr_model.specs.Pieces.{AsksBytes, asked_addr, asked_count, filled, piece_told, pieces_asked, pieces_told};
ghost use Rattle.sdr_model.specs.Reading.{reads_media};

use crate::object_calls::object;
use crate::wire::object_pieces;
use mem_calls::raw_calls::{bad_length, misnamed};
use mem_world::DraftWorld;
use sdr_base::limits::LONGEST_READ;
use sdr_base::{Addr, Bytes, Items, NoMemory};
use sdr_model::{Call, Piece, Reply};
use std::alloc::Global;

/// The address of the object of which a call asks bytes, and how many it asks at most.
pub fn asked(call: &Call) -> (Addr, u64)
    requires reads { reads_media call.now ≡ true }
    ensures addr { result.0 ≡ asked_addr call.now }
    ensures count { result.1 ≡ asked_count call.now }
{
    match call {
        Call::Transmit(addr, _, count)
        | Call::ReceiveHeaders(addr, _, count)
        | Call::ReceiveSource(addr, _, count)
        | Call::ReceiveTrailers(addr, _, count) => (*addr, *count),
        _ => unreachable!(),
    }
}

/// The pieces of the bytes that a call asks of an object: one for each header, extent or trailer of which it
/// asks any byte. Known bytes are copied, and no others. It is linear in what is in the object and in the
/// bytes that are copied.
pub fn parts(alloc: Global, world: &DraftWorld, call: &Call) -> Result<Items<Piece>, NoMemory>
    requires may { MayCall world.now.now }
    requires asks { AsksBytes world.now.now call.now }
    ensures { IfOk result (λ pieces. pieces ≡ pieces_asked world.now.now call.now) }
{
    match object(world, asked(call).0) {
        Some(object) => object_pieces(alloc, world, object, call),
        None => unreachable!(),
    }
}

// Adds the bytes of a piece, zeros where media would tell them.
fn add_piece(alloc: Global, bytes: &mut Vec<u8>, piece: &Piece) -> Result<(), NoMemory>
    ensures { OnOk result (bytes.new.items ≡ bytes.old.items ++ filled (piece_told piece.now)) }
{
    match piece {
        Piece::Known(known) => bytes.extend_from_slice(known.as_slice()),
        Piece::File { length, .. } | Piece::Bulk { length, .. } => {
            let zeros = Bytes::zeros(alloc, *length as usize)?;
            bytes.extend_from_slice(zeros.as_slice())
        }
    }
}

// The bytes of these pieces, zeros where media would tell them.
fn filled(alloc: Global, pieces: &[Piece]) -> Result<Bytes, NoMemory>
    ensures { IfOk result (λ bytes. bytes ≡ filled (pieces_told pieces.now)) }
{
    let mut bytes = Vec::new(alloc);
    for piece in pieces {
        add_piece(alloc, &mut bytes, piece)?;
    }
    Ok(Bytes::of(bytes))
}

/// Shows the bytes that a call asks of an object, with zeros in the place of those that media would tell.
pub fn give(alloc: Global, world: &mut DraftWorld, call: &Call) -> Result<Reply, NoMemory>
    requires may { MayCall world.old.now }
    requires reads { reads_media call.now ≡ true }
    ensures { CallsMemory call.now world.old world.new result }
{
    let (addr, count) = asked(call);
    let Some(object) = object(world, addr) else {
        return Ok(misnamed(world, addr));
    };
    if count > LONGEST_READ {
        return Ok(bad_length(count, LONGEST_READ));
    }
    let pieces = object_pieces(alloc, world, object, call)?;
    let shown = filled(alloc, pieces.as_slice())?;
    let count = shown.len() as u64;
    world.show(shown);
    Ok(Reply::Bytes { count })
}
