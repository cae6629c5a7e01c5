// What follows from right owners, counts and queues.
ghost use Rattle.std.specs.Prelude.{◌≡◌, ◌/◌, List, ℕ, length};
ghost use Rattle.sdr_base.specs.Cells.{IsRegionSize};
ghost use Rattle.sdr_base.specs.declared.line.TheConstants.{WORD};
ghost use Rattle.audit_counts.specs.Checked.{IsRightRegion, CountsAreWrongFirst};
ghost use Rattle.audit_owners.specs.Members.{AreMembers};
ghost use Rattle.audit_blocks.specs.declared.error.Check.{Check};
ghost use Rattle.audit_owners.specs.Chains.{ChainsReach};
ghost use Rattle.audit_owners.specs.View.{view_in};
ghost use Rattle.audit_owners.specs.declared.owner.Owner.{Owner};

/// A law: a region whose owners, counts and queues are right isn't wrong anywhere. It does nothing.
pub fn right_regions_are_not_wrong()
    ensures { (bytes : List ℕ) (why : Check) (place : ℕ) →
        IsRightRegion bytes → CountsAreWrongFirst bytes why place → ⊥ }
{}

/// A law: a region is wrong first at one place alone, by one check. It does nothing.
pub fn one_place_is_wrong_first()
    ensures { (bytes : List ℕ) (why other : Check) (place elsewhere : ℕ) →
        CountsAreWrongFirst bytes why place → CountsAreWrongFirst bytes other elsewhere →
        (why ≡ other) × (place ≡ elsewhere) }
{}
