// What follows from who owns each block.
ghost use Rattle.std.specs.Prelude.{◌≡◌, ℕ};
ghost use Rattle.audit_owners.specs.Owned.{IsOwned, IsWrongOwner};
ghost use Rattle.audit_owners.specs.View.{View};

/// A law: a heap in which each block has its owner isn't wrong anywhere. It does nothing.
pub fn owned_heaps_are_not_wrong()
    ensures { (heap : View) (words place : ℕ) →
        IsOwned heap words → IsWrongOwner heap words place → ⊥ }
{}

/// A law: a heap is wrong first at one place alone. It does nothing.
pub fn one_place_is_wrong_first()
    ensures { (heap : View) (words place other : ℕ) →
        IsWrongOwner heap words place → IsWrongOwner heap words other → place ≡ other }
{}
