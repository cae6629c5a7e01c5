// A small world, on which the laws are tried.
ghost use Rattle.std.specs.Prelude.{◌≡◌, ℕ, [], ◌∷◌};
ghost use Rattle.sdr_base.specs.declared.moves.Move.TheVariants.{Gave, Short, Took};
ghost use Rattle.sdr_base.specs.declared.refusal.Refusal.TheVariants as refusals;
ghost use Rattle.law_steps.specs.Example.{example, example_blocks, example_longer};
ghost use Rattle.law_steps.specs.Fresh.{AreFresh};
ghost use Rattle.sdr_model.specs.Blocks.{addresses_of, blocks_of};
ghost use Rattle.sdr_model.specs.Fields.{FitsFields};
ghost use Rattle.sdr_model.specs.RowMoves.{row_moves};
ghost use Rattle.sdr_model.specs.Step.{Step};
ghost use Rattle.sdr_model.specs.Valid.{FitTogether, IsValid};
ghost use Rattle.sdr_model.specs.World.{empty_world};
ghost use Rattle.sdr_model.specs.declared.answer.Reply.TheVariants as replies;
ghost use Rattle.sdr_model.specs.declared.call.Call.TheVariants as calls;

/// What the laws ask for is met: a world without things is valid, and so is one with a list, a hash, a name, a
/// source that has taken over a raw object, an object and a ticket, in which the list gains an element by a
/// fresh block, or stops for want of one. A list goes behind its elements; an object goes behind its header, and
/// behind its extent, before which the raw object and the source go. It does nothing.
pub fn example_meets_the_laws()
    ensures empty { IsValid empty_world }
    ensures valid { IsValid example }
    ensures fit { FitTogether example }
    ensures fits { FitsFields example }
    ensures blocks { blocks_of example ≡ example_blocks }
    ensures list_goes { (at : ℕ → ℕ) →
        row_moves example (calls.ListDestroy 8) at ≡ Gave 16 ∷ Gave 24 ∷ Gave 8 ∷ [] }
    ensures object_goes { (at : ℕ → ℕ) →
        row_moves example (calls.Destroy 72) at ≡ Gave 80 ∷ Gave 56 ∷ Gave 64 ∷ Gave 88 ∷ Gave 72 ∷ [] }
    ensures fresh { AreFresh (addresses_of (blocks_of example)) (Took 32 104 ∷ []) }
    ensures gains { Step example (calls.InsertLast 8 9) (Took 32 104 ∷ []) example_longer
        (replies.At 104) }
    ensures stops { Step example (calls.InsertLast 8 9) (Short 32 ∷ []) example
        (replies.Refused (refusals.NoBlock 32)) }
{}
