// What follows from a right region.
ghost use Rattle.std.specs.Prelude.{List, ℕ};
ghost use Rattle.sdr_audit.specs.Checked.{IsRight, IsWrongFirst};
ghost use Rattle.audit_blocks.specs.declared.error.Check.{Check};

/// A law: a region that passes each check isn't wrong by any. It does nothing.
pub fn right_regions_are_not_wrong()
    ensures { (bytes : List ℕ) (why : Check) (place : ℕ) →
        IsRight bytes → IsWrongFirst bytes why place → ⊥ }
{}
