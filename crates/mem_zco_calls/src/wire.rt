// The bytes of objects, in pieces.
ghost use Rattle.std.specs.List.{All};
ghost use Rattle.std.specs.Prelude.{◌≡◌, true, ◌≢◌, ◌≤◌, ◌<◌, ◌+◌, ◌-◌, ◌^◌, [], ◌∷◌, length, min, OnOk, IfOk};
ghost use Rattle.sdr_model.specs.Pieces.{capsule_pieces, cut_pieces, extent_piece, extent_pieces, missing_piece, part_pieces, piece_length, raw_piece, wire_pieces};
ghost use Rattle.sdr_model.specs.Reading.{reads_media};
ghost use Rattle.sdr_model.specs.World.{as_raw, thing_at};
ghost use Rattle.mem_parts.specs.Bounds.{IsBounded, EndsInTime};
ghost use Rattle.mem_zco_calls.specs.Gathers.{Gathers};

use mem_parts::object::part_end;
use mem_world::DraftWorld;
use sdr_base::{Addr, Bytes, Items, NoMemory};
use sdr_model::{Call, Capsule, Extent, Part, Piece, Subject, Thing, ZcoObject};
use std::alloc::Global;

/// Pieces, gathered one after another.
#[derive(Drop)]
pub struct Gathering {
    alloc: Global,
    /// How many bytes to pass over before the next piece.
    skip: u64,
    /// How many bytes to gather then.
    count: u64,
    pieces: Items<Piece>,
}

impl Gathering {
    fn new(alloc: Global, skip: u64, count: u64) -> Gathering
        ensures skip { result.skip ≡ skip }
        ensures count { result.count ≡ count }
        ensures pieces { result.pieces ≡ [] }
    {
        Gathering {
            alloc,
            skip,
            count,
            pieces: Items::new(alloc),
        }
    }

    // Goes over so many bytes, and tells which of them to gather.
    fn pass(&mut self, bytes: u64) -> Part
        ensures from { result.length ≢ 0 → result.offset ≡ self.old.skip }
        ensures many { result.length ≡ min self.old.count (bytes - self.old.skip) }
        ensures within { result.offset + result.length ≤ bytes }
        ensures skip { self.new.skip ≡ self.old.skip - bytes }
        ensures count { self.new.count ≡ self.old.count - result.length }
        ensures pieces { self.new.pieces ≡ self.old.pieces }
    {
        let offset = self.skip.min(bytes);
        let length = self.count.min(bytes - offset);
        self.skip -= offset;
        self.count -= length;
        Part { offset, length }
    }

    // Gathers of known bytes.
    fn add_known(&mut self, bytes: &[u8]) -> Result<(), NoMemory>
        ensures { OnOk result (Gathers (Piece.Known bytes.now ∷ []) self.old self.new) }
    {
        let part = self.pass(bytes.len() as u64);
        if part.length > 0 {
            let from = part.offset as usize;
            let copy = Bytes::copied(self.alloc, &bytes[from..from + part.length as usize])?;
            self.pieces.push(Piece::Known(copy))?;
        }
        Ok(())
    }

    // Gathers of so many bytes of a file from a place on.
    fn add_file(&mut self, path: &Bytes, offset: u64, bytes: u64) -> Result<(), NoMemory>
        requires small { offset + bytes < 2 ^ 64 }
        ensures { OnOk result (Gathers (Piece.File path.now offset bytes ∷ []) self.old self.new) }
    {
        let part = self.pass(bytes);
        if part.length > 0 {
            let piece = Piece::File {
                path: Bytes::copied(self.alloc, path.as_slice())?,
                offset: offset + part.offset,
                length: part.length,
            };
            self.pieces.push(piece)?;
        }
        Ok(())
    }

    // Gathers of so many bytes of an item from a place on.
    fn add_bulk(&mut self, item: u64, offset: u64, bytes: u64) -> Result<(), NoMemory>
        requires small { offset + bytes < 2 ^ 64 }
        ensures { OnOk result (Gathers (Piece.Bulk item offset bytes ∷ []) self.old self.new) }
    {
        let part = self.pass(bytes);
        if part.length > 0 {
            let piece = Piece::Bulk {
                item,
                offset: offset + part.offset,
                length: part.length,
            };
            self.pieces.push(piece)?;
        }
        Ok(())
    }

    // Gathers of bytes that aren't anywhere.
    fn add_missing(&mut self, extent: &Extent) -> Result<(), NoMemory>
        requires ends { EndsInTime extent.now }
        ensures { OnOk result
            (Gathers (missing_piece extent.now.offset extent.now.length ∷ []) self.old self.new) }
    {
        let path = Bytes::new(self.alloc);
        self.add_file(&path, extent.offset, extent.length)
    }

    // Gathers of an extent's bytes in a raw object.
    fn add_raw(&mut self, world: &DraftWorld, raw: Addr, extent: &Extent) -> Result<(), NoMemory>
        requires ends { EndsInTime extent.now }
        ensures { OnOk result (Gathers
            (raw_piece extent.now.offset extent.now.length (as_raw (thing_at world.now.now raw)) ∷ [])
            self.old self.new) }
    {
        let Some(bytes) = world.raw(raw) else {
            return self.add_missing(extent);
        };
        let behind = &bytes.as_slice()[bytes.len().min(extent.offset as usize)..];
        self.add_known(&behind[..behind.len().min(extent.length as usize)])
    }

    // Gathers of an extent.
    fn add_extent(&mut self, world: &DraftWorld, extent: &Extent) -> Result<(), NoMemory>
        requires ends { EndsInTime extent.now }
        ensures { OnOk result (Gathers (extent_piece world.now.now extent.now ∷ []) self.old
            self.new) }
    {
        match world.thing(extent.source) {
            Some(Thing::Source(source)) => match &source.subject {
                Subject::File(path) => self.add_file(path, extent.offset, extent.length),
                Subject::Bulk(item) => self.add_bulk(*item, extent.offset, extent.length),
                Subject::Heap(raw) | Subject::Obj(raw) => self.add_raw(world, *raw, extent),
            },
            _ => self.add_missing(extent),
        }
    }

    // Gathers of these extents.
    fn add_extents(&mut self, world: &DraftWorld, extents: &[Extent]) -> Result<(), NoMemory>
        requires ends { All EndsInTime extents.now }
        ensures { OnOk result (Gathers (extent_pieces world.now.now extents.now) self.old
            self.new) }
    {
        for extent in extents {
            if self.count == 0 {
                return Ok(());
            }
            self.add_extent(world, extent)?;
        }
        Ok(())
    }

    // Gathers of these headers or trailers.
    fn add_capsules(&mut self, capsules: &[Capsule]) -> Result<(), NoMemory>
        ensures { OnOk result (Gathers (capsule_pieces capsules.now) self.old self.new) }
    {
        for capsule in capsules {
            self.add_known(capsule.text.as_slice())?;
        }
        Ok(())
    }
}

// Of the bytes of these extents, so many behind the first ones.
fn extent_pieces(
    alloc: Global,
    world: &DraftWorld,
    extents: &[Extent],
    skip: u64,
    count: u64,
) -> Result<Items<Piece>, NoMemory>
    requires ends { All EndsInTime extents.now }
    ensures { IfOk result (λ pieces.
        pieces ≡ cut_pieces skip count (extent_pieces world.now.now extents.now)) }
{
    let mut gathering = Gathering::new(alloc, skip, count);
    gathering.add_extents(world, extents)?;
    Ok(gathering.pieces)
}

// Of the bytes of an object on the wire, so many behind the first ones.
fn wire_pieces(
    alloc: Global,
    world: &DraftWorld,
    object: &ZcoObject,
    skip: u64,
    count: u64,
) -> Result<Items<Piece>, NoMemory>
    requires ends { All EndsInTime object.now.extents }
    ensures { IfOk result (λ pieces.
        pieces ≡ cut_pieces skip count (wire_pieces world.now.now object.now)) }
{
    let mut gathering = Gathering::new(alloc, skip, count);
    gathering.add_capsules(object.headers.as_slice())?;
    gathering.add_extents(world, object.extents.as_slice())?;
    gathering.add_capsules(object.trailers.as_slice())?;
    Ok(gathering.pieces)
}

/// The pieces of the bytes that a call asks of an object.
pub fn object_pieces(
    alloc: Global,
    world: &DraftWorld,
    object: &ZcoObject,
    call: &Call,
) -> Result<Items<Piece>, NoMemory>
    requires bounded { IsBounded object.now }
    requires reads { reads_media call.now ≡ true }
    ensures { IfOk result (λ pieces. pieces ≡ part_pieces world.now.now call.now object.now) }
{
    let extents = object.extents.as_slice();
    let begin = object.part.offset;
    let end = part_end(object);
    match call {
        Call::Transmit(_, place, count) => wire_pieces(alloc, world, object, *place, *count),
        Call::ReceiveHeaders(_, place, count) => {
            let count = (*count).min(begin.saturating_sub(*place));
            extent_pieces(alloc, world, extents, *place, count)
        }
        Call::ReceiveSource(_, place, count) => {
            let from = (*place).max(begin);
            let count = (*count).min(end.saturating_sub(from));
            extent_pieces(alloc, world, extents, from, count)
        }
        Call::ReceiveTrailers(_, place, count) => {
            extent_pieces(alloc, world, extents, (*place).max(end), *count)
        }
        _ => unreachable!(),
    }
}
