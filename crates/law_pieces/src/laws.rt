// What calls on pieces hand on.
ghost use Rattle.std.specs.Prelude.{◌≡◌, ◌+◌, ◌*◌, ◌≤◌, ◌<◌, ◌^◌, ◌++◌, ◌∷◌, [], ℕ, List, length};
ghost use Rattle.sdr_base.specs.Entries.{BlocksAre};
ghost use Rattle.sdr_base.specs.Objects.{Heap};
ghost use Rattle.sdr_base.specs.Words.{TakesBytes};
ghost use Rattle.sdr_base.specs.declared.account.Acct.{Acct};
ghost use Rattle.sdr_base.specs.declared.kind.Kind.TheVariants as kinds;
ghost use Rattle.sdr_model.specs.Limits.{longest_source};
ghost use Rattle.zco_acct.specs.Kept.{SomeQueue};
ghost use Rattle.zco_join.specs.Joining.{Joins, SomeToJoin};
ghost use Rattle.zco_join.specs.Stocks.{TellsQueue};
ghost use Rattle.zco_join.specs.declared.filled.Filled.{Filled};
ghost use Rattle.zco_obj.specs.Appending.{AppendsPiece};
ghost use Rattle.zco_obj.specs.Beside.{IsWithRaw, IsWithSource};
ghost use Rattle.zco_obj.specs.Kept.{IsObject};
ghost use Rattle.zco_obj.specs.Making.{CreatesObject};
ghost use Rattle.zco_obj.specs.declared.extent.ExtentPiece.{ExtentPiece};
ghost use Rattle.zco_pieces.specs.Adding.{AddsPiece, IsToAdd};
ghost use Rattle.zco_pieces.specs.Cutting.{CutsPiece, IsToCut};
ghost use Rattle.zco_pieces.specs.Places.{Rebuilt};
ghost use Rattle.zco_pieces.specs.declared.piece.Piece.{Piece};
ghost use Rattle.zco_wire.specs.Naming.{IsWire};
ghost use Rattle.law_pieces.specs.Texts.{HasEmpty, HasNothing, HasRaw, SomeText, room_to_add, room_to_join};

/// A law: from a heap on that has nothing, the calls that make an object of a raw object, cut it, add its
/// pieces to a text and finish that hand on what the next one needs. It does nothing.
pub fn texts_keep()
    // A heap that has nothing.
    ensures nothing { (heap : Heap) → BlocksAre heap.blocks []
        → ((acct : Acct) → TellsQueue heap (record { acct = acct; tickets = [] }))
        → HasNothing heap }

    // What each call leaves.
    ensures taken { (raw : ℕ) (bytes : List ℕ) (room : ℕ) (old new : Heap) → HasNothing old
        → room + 1 ≤ old.spare
        → TakesBytes kinds.Raw (0 ∷ 0 ∷ 0 ∷ 0 ∷ 0 ∷ 0 ∷ 0 ∷ 0 ∷ bytes) raw old new
        → HasRaw new raw bytes room }
    ensures made { (acct : Acct) (number object raw : ℕ) (bytes : List ℕ) (room : ℕ)
        (old new : Heap) → HasRaw old raw bytes (room + 1)
        → CreatesObject acct number object old new → HasEmpty new acct object raw bytes room }
    ensures begun { (acct : Acct) (object number : ℕ) (bytes : List ℕ) (room : ℕ)
        (piece : ExtentPiece) (old new : Heap) → HasEmpty old acct object piece.of bytes (room + 2)
        → length bytes ≤ longest_source → room < 2 ^ 60 → AppendsPiece object number piece old new
        → SomeText new [] (object ∷ []) 1 room }
    ensures cut { (parts : List Filled) (object : ℕ) (before behind : List ℕ)
        (most room number n k : ℕ) (piece : Piece) (old new : Heap)
        → SomeText old parts (before ++ (object ∷ behind)) most (room + (1 + most))
        → CutsPiece object number n k old new piece
        → SomeText new parts (piece.object ∷ (object ∷ (before ++ behind))) most room }
    ensures added { (r r' : Rebuilt) (before behind : List ℕ) (most room number n : ℕ)
        (piece : Piece) (old new : Heap)
        → SomeText old r.parts (before ++ (piece.object ∷ behind)) most (room + room_to_add most n)
        → length r.parts ≤ n → AddsPiece number piece r r' old new
        → SomeText new r'.parts (piece.object ∷ (before ++ behind)) most room }
    ensures longer { (r r' : Rebuilt) (number n : ℕ) (piece : Piece) (old new : Heap)
        → length r.parts ≤ n → AddsPiece number piece r r' old new
        → length r'.parts ≤ 2 * n + 1 }
    ensures finished { (acct : Acct) (parts : List Filled) (loose : List ℕ)
        (most room number n object : ℕ) (old new : Heap)
        → SomeText old parts loose most (room + room_to_join most n) → length parts ≤ n
        → n * most < 2 ^ 22 → Joins acct number parts old new object
        → SomeText new [] (object ∷ loose) (most + n * most) room }
    ensures less { (parts : List Filled) (loose : List ℕ) (most room room' : ℕ) (heap : Heap)
        → room' ≤ room → SomeText heap parts loose most room → SomeText heap parts loose most room' }

    // What each call needs.
    ensures raw_queue { (acct : Acct) (raw : ℕ) (bytes : List ℕ) (room : ℕ) (heap : Heap)
        → HasRaw heap raw bytes room → SomeQueue heap acct }
    ensures raw_spare { (raw : ℕ) (bytes : List ℕ) (room : ℕ) (heap : Heap)
        → HasRaw heap raw bytes room → room ≤ heap.spare }
    ensures with_source { (acct : Acct) (object raw : ℕ) (bytes : List ℕ) (room : ℕ) (heap : Heap)
        → HasEmpty heap acct object raw bytes room → length bytes ≤ longest_source
        → IsWithSource heap object raw }
    ensures with_raw { (acct : Acct) (object raw : ℕ) (bytes : List ℕ) (room : ℕ) (heap : Heap)
        → HasEmpty heap acct object raw bytes room → length bytes ≤ longest_source
        → IsWithRaw heap object raw }
    ensures empty_spare { (acct : Acct) (object raw : ℕ) (bytes : List ℕ) (room : ℕ) (heap : Heap)
        → HasEmpty heap acct object raw bytes room → room ≤ heap.spare }
    ensures object { (parts : List Filled) (object : ℕ) (before behind : List ℕ) (most room : ℕ)
        (heap : Heap) → SomeText heap parts (before ++ (object ∷ behind)) most room
        → IsObject heap.blocks object }
    ensures to_cut { (parts : List Filled) (object : ℕ) (before behind : List ℕ)
        (most room n k : ℕ) (heap : Heap)
        → SomeText heap parts (before ++ (object ∷ behind)) most room → 1 + most ≤ room
        → IsToCut heap object n k }
    ensures to_add { (r : Rebuilt) (before behind : List ℕ) (most room n : ℕ) (piece : Piece)
        (heap : Heap) → SomeText heap r.parts (before ++ (piece.object ∷ behind)) most room
        → length r.parts ≤ n → room_to_add most n ≤ room → IsToAdd heap r piece }
    ensures to_join { (acct : Acct) (parts : List Filled) (loose : List ℕ) (most room n : ℕ)
        (heap : Heap) → SomeText heap parts loose most room → length parts ≤ n → n * most < 2 ^ 22
        → room_to_join most n ≤ room → SomeToJoin heap acct parts }
    ensures tickets { (acct : Acct) (parts : List Filled) (loose : List ℕ) (most room : ℕ)
        (heap : Heap) → SomeText heap parts loose most room → SomeQueue heap acct }
    ensures wire { (parts : List Filled) (object : ℕ) (before behind : List ℕ) (most room : ℕ)
        (heap : Heap) → SomeText heap parts (before ++ (object ∷ behind)) most room
        → IsWire heap.blocks object }
{}
