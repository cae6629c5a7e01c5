// Small heaps with one thing wrong in each.
ghost use Rattle.audit_owners.specs.Examples.{looping_list, lost_element, shared_element, unlinked_element, wrong_last};
ghost use Rattle.audit_owners.specs.Owned.{IsWrongOwner};

/// A law: of two lists that name one element, the one at the higher address is wrong; a list whose last element links to its first
/// is wrong at the last; an element that doesn't name the one before it is wrong; and so are a list that tells another element as
/// its last, and an element that no link reaches. It does nothing.
pub fn small_heaps_are_wrong_so()
    ensures shared { IsWrongOwner shared_element 272 2096 }
    ensures looping { IsWrongOwner looping_list 272 2136 }
    ensures unlinked { IsWrongOwner unlinked_element 272 2136 }
    ensures last { IsWrongOwner wrong_last 272 2056 }
    ensures lost { IsWrongOwner lost_element 272 2096 }
{}
