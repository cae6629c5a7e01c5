// What a call reads of media.
ghost use Rattle.std.specs.Prelude.{◌≡◌, ◌≤◌, ◌+◌, ◌∷◌, [], IfErr, IfOk, OnErr, OnOk, length, vec_capacity};
ghost use Rattle.std.specs.List.{list_any};
ghost use Rattle.sdr_base.specs.Causes.{Rose};
ghost use Rattle.sdr_machine.specs.Ground.{lies_with_media};
ghost use Rattle.sdr_model.specs.Pieces.{piece_length, pieces_told};
ghost use Rattle.sdr_gather.specs.Gathering.{AddsPiece, AreGathered, GivesPiece, HasGiven, IsGapIn, IsGapOf, OfMedia};
ghost use Rattle.sdr_machine.specs.Asked.{count_outside};

use sdr_base::{Media, MediaFault};
use sdr_model::Piece;
use thiserror::Error;

/// Why the bytes of some pieces weren't gathered.
#[derive(Clone, Copy, Debug, PartialEq, Eq, Error)]
pub enum Gap {
    #[error("media fault")]
    Fault,
    /// Media gave fewer bytes than were asked for.
    #[error("{have} of {want} bytes")]
    Short { have: u64, want: u64 },
}

impl From<MediaFault> for Gap {
    ghost use Rattle.sdr_gather.specs.declared.gathering.Gap.TheVariants as gaps;

    ghost from_gives = { λ _ e. e ≡ gaps.Fault };

    fn from(_: MediaFault) -> Gap {
        Gap::Fault
    }
}

// Reads a piece into a buffer of its length, and tells how many bytes it had. Media are asked once, for all of it.
fn ask<M: Media>(media: &mut M, piece: &Piece, into: &mut [u8]) -> Result<u64, MediaFault>
    requires whole { length into.old ≡ piece_length piece.now }
    ensures had { IfOk result (λ have. HasGiven (M.told media.old) piece.now into.new have
        (OfMedia (lies_with_media piece.now) (Rose (M.short media.old) (M.short media.new)))) }
    ensures failed { OnErr result (OfMedia (lies_with_media piece.now)
        (Rose (M.faults media.old) (M.faults media.new))) }
    ensures same { length into.new ≡ length into.old }
    ensures told { M.told media.new ≡ M.told media.old }
    ensures faults { M.faults media.old ≤ M.faults media.new }
    ensures short { M.short media.old ≤ M.short media.new }
    ensures asks { M.asks media.new ≤ M.asks media.old + count_outside (piece.now ∷ []) }
{
    match piece {
        Piece::Known(bytes) => {
            into.copy_from_slice(bytes.as_slice());
            Ok(into.len() as u64)
        }
        Piece::File { path, offset, .. } => media.file_read(path.as_slice(), *offset, into),
        Piece::Bulk { item, offset, .. } => media.bulk_read(*item, *offset, into),
    }
}

// Reads a piece into a buffer of its length.
fn read_piece<M: Media>(media: &mut M, piece: &Piece, into: &mut [u8]) -> Result<(), Gap>
    requires whole { length into.old ≡ piece_length piece.now }
    ensures gives { OnOk result (GivesPiece (M.told media.old) piece.now into.new) }
    ensures gap { IfErr result (IsGapOf (M.told media.old) piece.now
        (OfMedia (lies_with_media piece.now) (Rose (M.faults media.old) (M.faults media.new)))
        (OfMedia (lies_with_media piece.now) (Rose (M.short media.old) (M.short media.new)))) }
    ensures told { M.told media.new ≡ M.told media.old }
    ensures faults { M.faults media.old ≤ M.faults media.new }
    ensures short { M.short media.old ≤ M.short media.new }
    ensures asks { M.asks media.new ≤ M.asks media.old + count_outside (piece.now ∷ []) }
{
    let have = ask(media, piece, into)?;
    let want = into.len() as u64;
    if have < want {
        return Err(Gap::Short { have, want });
    }
    Ok(())
}

// Reads a piece into a page, and adds its bytes to those gathered, for which there is room.
fn add_piece<M: Media>(
    media: &mut M,
    piece: &Piece,
    page: &mut [u8],
    bytes: &mut Vec<u8>,
) -> Result<(), Gap>
    requires page { length page.old ≡ 4096 }
    requires fits { piece_length piece.now ≤ 4096 }
    requires room { length bytes.old.items + piece_length piece.now ≤ vec_capacity bytes.old }
    ensures adds { OnOk result (
        AddsPiece (M.told media.old) piece.now bytes.old.items bytes.new.items) }
    ensures gap { IfErr result (IsGapOf (M.told media.old) piece.now
        (OfMedia (lies_with_media piece.now) (Rose (M.faults media.old) (M.faults media.new)))
        (OfMedia (lies_with_media piece.now) (Rose (M.short media.old) (M.short media.new)))) }
    ensures reserved { vec_capacity bytes.old ≤ vec_capacity bytes.new }
    ensures page { length page.new ≡ length page.old }
    ensures told { M.told media.new ≡ M.told media.old }
    ensures faults { M.faults media.old ≤ M.faults media.new }
    ensures short { M.short media.old ≤ M.short media.new }
    ensures asks { M.asks media.new ≤ M.asks media.old + count_outside (piece.now ∷ []) }
{
    let into = &mut page[..piece.len()];
    read_piece(media, piece, into)?;
    let Ok(()) = bytes.extend_from_slice(into) else {
        unreachable!();
    };
    Ok(())
}

/// Gathers the bytes of pieces, of at most a page together, for which there is room. It takes no memory. Media are asked once
/// for each piece that lies with them, in order, until the first that fails or gives too few bytes. Each byte is read into
/// a page, and copied once, to the end of those gathered.
pub fn gather<M: Media>(media: &mut M, pieces: &[Piece], bytes: &mut Vec<u8>) -> Result<(), Gap>
    requires page { length (pieces_told pieces.now) ≤ 4096 }
    requires blank { bytes.old.items ≡ [] }
    requires room { 4096 ≤ vec_capacity bytes.old }
    ensures gathered { OnOk result (
        AreGathered (M.told media.old) pieces.now bytes.new.items) }
    ensures gap { IfErr result (IsGapIn (M.told media.old) pieces.now
        (OfMedia (list_any lies_with_media pieces.now) (Rose (M.faults media.old) (M.faults media.new)))
        (OfMedia (list_any lies_with_media pieces.now) (Rose (M.short media.old) (M.short media.new)))) }
    ensures told { M.told media.new ≡ M.told media.old }
    ensures faults { M.faults media.old ≤ M.faults media.new }
    ensures short { M.short media.old ≤ M.short media.new }
    ensures asks { M.asks media.new ≤ M.asks media.old + count_outside pieces.now }
{
    let mut page = [0u8; 4096];
    let mut rest = pieces;
    while let Some((piece, after)) = rest.split_first() {
        add_piece(media, piece, &mut page, bytes)?;
        rest = after;
    }
    Ok(())
}
