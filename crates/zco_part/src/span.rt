// Extents, cut to a part of their bytes.
ghost use Rattle.std.specs.Prelude.{◌≡◌, ◌+◌, ◌-◌, ◌≤◌};
ghost use Rattle.sdr_model.specs.Limits.{longest_source};
ghost use Rattle.zco_part.specs.Pieces.{cut};

use zco_obj::ExtentPiece;

// Places among the bytes of some extents: those from one on and before another.
#[derive(Clone, Copy)]
pub struct Span {
    pub from: u64,
    pub to: u64,
}

// A piece, cut to those of its bytes that are in a span, which begins to count at the first of them.
pub fn cut(span: Span, piece: ExtentPiece) -> ExtentPiece
    requires ends { piece.offset + piece.bytes ≤ longest_source }
    ensures cut { result ≡ cut span.from span.to piece }
    ensures short { result.bytes ≤ longest_source }
{
    let first = span.from.min(piece.bytes);
    ExtentPiece {
        of: piece.of,
        offset: piece.offset + first,
        bytes: span.to.min(piece.bytes).saturating_sub(first),
    }
}

// The span, as it counts from so many bytes later on.
pub fn later(span: Span, bytes: u64) -> Span
    ensures from { result.from ≡ span.from - bytes }
    ensures to { result.to ≡ span.to - bytes }
{
    Span {
        from: span.from.saturating_sub(bytes),
        to: span.to.saturating_sub(bytes),
    }
}
