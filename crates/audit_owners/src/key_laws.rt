// What the blocks of chains are.
ghost use Rattle.std.specs.Prelude.{◌≡◌, ◌/◌, List, ℕ, length, None};
ghost use Rattle.sdr_base.specs.Cells.{IsRegionSize};
ghost use Rattle.sdr_base.specs.declared.line.TheConstants.{WORD};
ghost use Rattle.audit_owners.specs.Keyed.{IsKeyed, wrong_key};
ghost use Rattle.audit_owners.specs.Members.{AreMembers};
ghost use Rattle.audit_owners.specs.Chains.{ChainsReach};
ghost use Rattle.audit_owners.specs.View.{view_in};
ghost use Rattle.audit_owners.specs.declared.owner.Owner.{Owner};

/// A law: where chains of a heap region are right, each goes over just the blocks to which the links of its owner lead. So counts,
/// occupancies and queues are said of the chains' blocks. It does nothing.
pub fn chains_are_members()
    ensures { (bytes : List ℕ) (owners : List Owner) (reached : List ℕ) →
        IsRegionSize (length bytes) → (right : ChainsReach (view_in bytes) owners reached) →
        AreMembers (view_in bytes) (length bytes / WORD) right.chains }
{}

/// A law: no list, hash or name of a heap region is found wrong exactly where all are right. It does nothing.
pub fn keyed_regions_are_not_wrong()
    ensures right { (bytes : List ℕ) → IsRegionSize (length bytes) →
        wrong_key (view_in bytes) (length bytes / WORD) ≡ None →
        IsKeyed (view_in bytes) (length bytes / WORD) }
    ensures not_wrong { (bytes : List ℕ) → IsKeyed (view_in bytes) (length bytes / WORD) →
        wrong_key (view_in bytes) (length bytes / WORD) ≡ None }
{}
