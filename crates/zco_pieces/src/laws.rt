// A text that is rebuilt from pieces has its bytes.
ghost use Rattle.std.specs.Prelude.{◌≡◌, ◌≤◌, ◌<◌, ◌*◌, ◌/◌, ℕ, true, List, [], All, flat_map, length, map};
ghost use Rattle.sdr_base.specs.ZcoObjects.{ObjectRow};
ghost use Rattle.zco_obj.specs.Kept.{ObjectFits};
ghost use Rattle.zco_obj.specs.Links.{piece_of};
ghost use Rattle.zco_pieces.specs.Bytes.{FitsText, bytes_named, part_bytes};
ghost use Rattle.zco_pieces.specs.Cutting.{HasPiece};
ghost use Rattle.zco_pieces.specs.Places.{Rebuilt, cut_length, lies_in, missing_of, uncovered};
ghost use Rattle.zco_pieces.specs.Runs.{Added, IsCloneOf, Rebuilds, range_of};
ghost use Rattle.zco_pieces.specs.declared.piece.Piece.{Piece};

/// A law: pieces of a text are added in any order, with repeats and overlaps. It does nothing.
pub fn pieces_rebuild()
    // As many bytes are missing as places of the text that no piece covers.
    ensures missing { (clone_at : ℕ → ObjectRow) (held : ℕ → ℕ → ℕ) (total : ℕ)
        (added : List Added) (r : Rebuilt) →
        Rebuilds clone_at held (record { total = total; parts = [] }) added r →
        missing_of r ≡ uncovered total (map range_of added) }

    // Where none is missing, what the clones' extents name, in order, has the bytes of the text: of whichever
    // text all pieces fit, and as long as the clones have the bytes that they had as they were made.
    ensures text { (clone_at : ℕ → ObjectRow) (held : ℕ → ℕ → ℕ) (text : List ℕ)
        (added : List Added) (r : Rebuilt) →
        All (λ a. FitsText a.held text a.piece a.row) added →
        Rebuilds clone_at held (record { total = length text; parts = [] }) added r →
        missing_of r ≡ 0 →
        bytes_named held (flat_map (λ p. map piece_of (clone_at p.object).extents) r.parts)
        ≡ text }

    // The pieces that an object is cut into fit its bytes, and cover them.
    ensures fits { (held : ℕ → ℕ → ℕ) (row clone : ObjectRow) (most k : ℕ) (piece : Piece) →
        ObjectFits row → HasPiece row.part_length most k →
        IsCloneOf row (k * most) (cut_length row.part_length most k) clone →
        piece.offset ≡ k * most → piece.total ≡ row.part_length →
        FitsText held (part_bytes held row) piece clone }
    ensures covers { (total most place : ℕ) → 1 ≤ most → place < total →
        HasPiece total most (place / most)
        × (lies_in (place / most * most) (cut_length total most (place / most)) place ≡ true) }
{}
