// A small heap with a bundle in it, and what its blocks tell.
ghost use Rattle.std.specs.Prelude.{◌≡◌, ℕ, [], ◌∷◌};
ghost use Rattle.sdr_base.specs.declared.account.Acct.TheVariants as accts;
ghost use Rattle.sdr_base.specs.declared.kind.Space.TheVariants as spaces;
ghost use Rattle.audit_counts.specs.Counts.{named_count};
ghost use Rattle.audit_counts.specs.Examples.{bundle_heap};
ghost use Rattle.audit_owners.specs.Members.{members};
ghost use Rattle.audit_counts.specs.Occupied.{occupancy_in};
ghost use Rattle.audit_owners.specs.declared.owner.Owner.TheVariants as owners;

/// A law: in a heap with one outbound object, of 30 of the 50 bytes of an item in two extents, a header of 3 bytes and a trailer of 9,
/// and a ticket with 40 bytes of heap space left, the source is named twice by outbound extents and by no inbound one; its 50 bytes
/// of bulk space are occupied, once, and 72 + 32 + 32 + 16 + 24 + 40 of heap space. It does nothing.
pub fn a_bundle_is_counted()
    ensures chain { members bundle_heap 64 (owners.Extents 64) ≡ 168 ∷ 208 ∷ [] }
    ensures outbound { named_count bundle_heap 64 accts.Outbound 8 ≡ 2 }
    ensures inbound { named_count bundle_heap 64 accts.Inbound 8 ≡ 0 }
    ensures file { occupancy_in bundle_heap 64 accts.Outbound spaces.File ≡ 0 }
    ensures bulk { occupancy_in bundle_heap 64 accts.Outbound spaces.Bulk ≡ 50 }
    ensures heap { occupancy_in bundle_heap 64 accts.Outbound spaces.Heap ≡ 216 }
    ensures other { occupancy_in bundle_heap 64 accts.Inbound spaces.Heap ≡ 0 }
    ensures elsewhere { occupancy_in bundle_heap 64 accts.Inbound spaces.Bulk ≡ 0 }
{}
