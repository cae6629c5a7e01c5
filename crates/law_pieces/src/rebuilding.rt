// What calls on pieces do to blocks, and the bytes of the object that they make.
ghost use Rattle.std.specs.Prelude.{◌≡◌, ◌+◌, ◌*◌, ◌≤◌, ◌<◌, ◌^◌, ◌++◌, ◌∷◌, [], ℕ, List, All, length, map};
ghost use Rattle.sdr_base.specs.Objects.{Heap};
ghost use Rattle.sdr_base.specs.ZcoObjects.{ObjectRow};
ghost use Rattle.sdr_base.specs.declared.account.Acct.{Acct};
ghost use Rattle.sdr_model.specs.Limits.{longest_source};
ghost use Rattle.zco_join.specs.Joining.{Joins};
ghost use Rattle.zco_join.specs.Stocks.{Standing};
ghost use Rattle.zco_obj.specs.Appending.{AppendsPiece};
ghost use Rattle.zco_obj.specs.Kept.{KeepsObject};
ghost use Rattle.zco_obj.specs.declared.extent.ExtentPiece.{ExtentPiece};
ghost use Rattle.zco_pieces.specs.Adding.{AddsPiece};
ghost use Rattle.zco_pieces.specs.Bytes.{FitsText, part_bytes};
ghost use Rattle.zco_pieces.specs.Cutting.{CutsPiece};
ghost use Rattle.zco_pieces.specs.Places.{Rebuilt, cut_length, missing_of, uncovered};
ghost use Rattle.zco_pieces.specs.declared.piece.Piece.{Piece};
ghost use Rattle.law_pieces.specs.Rebuilding.{HasPayload, HoldsRebuilt, PieceRow, covers};
ghost use Rattle.law_pieces.specs.Texts.{HasEmpty, SomeText, room_to_add, room_to_join};

/// A law: what each call on pieces does to blocks is what the law of rebuilding speaks of, so that the object
/// that a text becomes has the text's bytes. It does nothing.
pub fn pieces_add_up()
    // A text of which no byte is filled: beside an object that has just got bytes of a raw object, or beside
    // whichever objects stand there.
    ensures begun { (acct : Acct) (object number total : ℕ) (bytes : List ℕ) (room : ℕ)
        (piece : ExtentPiece) (old new : Heap) → HasEmpty old acct object piece.of bytes (room + 2)
        → length bytes ≤ longest_source → room < 2 ^ 60 → AppendsPiece object number piece old new
        → (row : ObjectRow) × HasPayload piece.offset piece.bytes row
        × HoldsRebuilt new total [] (record { total = total; parts = [] })
        (record { addr = object; row = row } ∷ []) 1 room }
    ensures empty { (loose : List ℕ) (most room total : ℕ) (heap : Heap)
        → SomeText heap [] loose most room
        → (others : List Standing) × (map (λ z. z.addr) others ≡ loose)
        × HoldsRebuilt heap total [] (record { total = total; parts = [] }) others most room }

    // A piece that is cut has as many bytes as its number says, and fits the bytes of its object.
    ensures cut { (total : ℕ) (added : List PieceRow) (r : Rebuilt) (before behind : List Standing)
        (z : Standing) (most room number n k : ℕ) (piece : Piece) (old new : Heap)
        → HoldsRebuilt old total added r (before ++ (z ∷ behind)) most (room + (1 + most))
        → CutsPiece z.addr number n k old new piece
        → (row : ObjectRow) × (row.part_length ≡ cut_length z.row.part_length n k)
        × ((held : ℕ → ℕ → ℕ) → FitsText held (part_bytes held z.row) piece row)
        × HoldsRebuilt new total added r
        (record { addr = piece.object; row = row } ∷ (z ∷ (before ++ behind))) most room }

    // What a call of `add` does is a step of the law.
    ensures step { (total : ℕ) (added : List PieceRow) (r r' : Rebuilt) (before behind : List Standing)
        (z : Standing) (most room number n : ℕ) (piece : Piece) (old new : Heap)
        → HoldsRebuilt old total added r (before ++ (z ∷ behind)) most (room + room_to_add most n)
        → piece.object ≡ z.addr → length r.parts ≤ n → AddsPiece number piece r r' old new
        → HoldsRebuilt new total (added ++ (record { piece = piece; row = z.row } ∷ [])) r'
        (z ∷ (before ++ behind)) most room }

    // As many bytes are missing as places of the text that no piece covers.
    ensures missing { (total : ℕ) (added : List PieceRow) (r : Rebuilt) (others : List Standing)
        (most room : ℕ) (heap : Heap) → HoldsRebuilt heap total added r others most room
        → missing_of r ≡ uncovered total (map covers added) }

    // Where none is missing, the object that `finish` makes has the bytes of whichever text all pieces fit,
    // by what the sources hold then.
    ensures finished { (acct : Acct) (total next : ℕ) (added : List PieceRow) (r : Rebuilt)
        (others : List Standing) (most room number n object : ℕ) (old new : Heap)
        → HoldsRebuilt old total added r others most (room + room_to_join most n)
        → length r.parts ≤ n → n * most < 2 ^ 22 → Joins acct number r.parts old new object
        → (row : ObjectRow)
        × ((held : ℕ → ℕ → ℕ) (text : List ℕ) → length text ≡ total
        → All (λ p. FitsText held text p.piece p.row) added → missing_of r ≡ 0
        → (part_bytes held row ≡ text) × (row.part_length ≡ length text))
        × HoldsRebuilt new next [] (record { total = next; parts = [] })
        (record { addr = object; row = row } ∷ others) (most + n * most) room }

    // What each call needs is there, as `texts_keep` says, and each object beside the text is kept with its row.
    ensures text { (total : ℕ) (added : List PieceRow) (r : Rebuilt) (others : List Standing)
        (most room : ℕ) (heap : Heap) → HoldsRebuilt heap total added r others most room
        → SomeText heap r.parts (map (λ z. z.addr) others) most room }
    ensures kept { (total : ℕ) (added : List PieceRow) (r : Rebuilt) (before behind : List Standing)
        (z : Standing) (most room : ℕ) (heap : Heap)
        → HoldsRebuilt heap total added r (before ++ (z ∷ behind)) most room
        → KeepsObject heap.blocks z.addr z.row }
{}
