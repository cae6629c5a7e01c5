// Changes of a heap in a transaction.
ghost use Rattle.std.specs.Prelude.{◌≡◌, ℕ, List, [], ◌∷◌, Some};
ghost use Rattle.sdr_stands.specs.Standing.{HeapStandsFor, entries_of, roots_of, thing_entries, with_taken_marked};
ghost use Rattle.sdr_stands.specs.Ties.{IsUntied, ties_of};
ghost use Rattle.sdr_base.specs.Entries.{Changes, Entries, Swaps};
ghost use Rattle.sdr_base.specs.Making.{Made, MakesThing, marked_by};
ghost use Rattle.sdr_base.specs.Objects.{Heap};
ghost use Rattle.sdr_base.specs.declared.moves.Move.{Move};
ghost use Rattle.sdr_base.specs.declared.moves.Move.TheVariants.{Took};
ghost use Rattle.sdr_model.specs.Steps.{with_thing, without_thing};
ghost use Rattle.sdr_model.specs.World.{World, thing_at};
ghost use Rattle.sdr_model.specs.declared.things.Thing.{Thing};

/// A law: where a heap stands for a world, a part of its blocks becomes another, its control words are those of
/// another world that has the other part there, and these moves made its marks, the heap stands for that one. It does
/// nothing.
pub fn a_part_changes()
    ensures { (old new : Heap) (w w' : World) (part part' : Entries) (moves : List Move) →
        HeapStandsFor old w → Swaps (entries_of w) (entries_of w') part part' →
        Changes old.blocks new.blocks part part' →
        new.marks ≡ marked_by old.marks moves → new.roots ≡ roots_of w' → w'.marks ≡ w.marks →
        HeapStandsFor new (with_taken_marked w' moves) }
{}

/// A law: where a heap stands for a world, and a thing that is neither a source nor a zero-copy object was made in it,
/// the heap stands for the world with that thing. It does nothing.
pub fn a_thing_comes()
    ensures { (need addr : ℕ) (old new : Heap) (w : World) (thing : Thing) →
        IsUntied thing → HeapStandsFor old w →
        MakesThing need addr (thing_entries (ties_of w) addr thing) old new →
        HeapStandsFor new (with_taken_marked (with_thing w addr thing) (Took need addr ∷ [])) }
{}

/// A law: where a heap stands for a world, and the blocks of such a thing became those of another such one, by
/// these moves, the heap stands for the world with the other in its place. It does nothing.
pub fn a_thing_changes()
    ensures { (addr : ℕ) (old new : Heap) (w : World) (thing other : Thing) (moves : List Move) →
        thing_at w addr ≡ Some thing → IsUntied thing → IsUntied other → HeapStandsFor old w →
        Changes old.blocks new.blocks (thing_entries (ties_of w) addr thing)
        (thing_entries (ties_of w) addr other) →
        Made moves old new →
        HeapStandsFor new (with_taken_marked (with_thing w addr other) moves) }
{}

/// A law: where a heap stands for a world, and the blocks of such a thing were given back, by these moves, the
/// heap stands for the world without it. It does nothing.
pub fn a_thing_goes()
    ensures { (addr : ℕ) (old new : Heap) (w : World) (thing : Thing) (moves : List Move) →
        thing_at w addr ≡ Some thing → IsUntied thing → HeapStandsFor old w →
        Changes old.blocks new.blocks (thing_entries (ties_of w) addr thing) [] →
        Made moves old new →
        HeapStandsFor new (with_taken_marked (without_thing w addr) moves) }
{}
