// Rows of things, as their blocks are linked.
ghost use Rattle.std.specs.Prelude.{◌<◌, ◌^◌, ℕ, List};
ghost use Rattle.sdr_base.specs.Catalogue.{NameRow, catalogue_entries, name_addr, name_block};
ghost use Rattle.sdr_base.specs.Hashes.{HashItem, bucket_entries, item_addr, item_block};
ghost use Rattle.sdr_base.specs.Lists.{ListElement, addr_of, element_block, elements_between};
ghost use Rattle.sdr_base.specs.Tickets.{TicketRow, ticket_addr, ticket_block, ticket_entries};
ghost use Rattle.sdr_base.specs.ZcoObjects.{CapsuleRow, ExtentRow, capsule_addr, capsule_block, capsule_entries, extent_addr, extent_block, extent_entries};
ghost use Rattle.sdr_base.specs.declared.account.Acct.{Acct};
ghost use Rattle.audit_owners.specs.Linking.{AreSmall, ChainsAreRows, GoesOver, ReadsBack, AllStandAt};
ghost use Rattle.audit_owners.specs.Reading.{IsReadable, capsule_read, element_read, extent_read, item_read, name_read, ticket_read};
ghost use Rattle.audit_owners.specs.View.{View};

use crate::owner::Owner;

/// A law: where the blocks that keep a row of things stand in a heap, each linked to the next as its layout says, the chain of their
/// owner goes over them in order. It does nothing.
pub fn linked_rows_make_chains()
    ensures names { (heap : View) (rows : List NameRow) → AreSmall name_addr rows →
        AllStandAt heap (catalogue_entries rows) → GoesOver heap Owner.Catalogue name_addr rows }
    ensures tickets { (heap : View) (account : Acct) (rows : List TicketRow) →
        AreSmall ticket_addr rows → AllStandAt heap (ticket_entries account rows) →
        GoesOver heap (Owner.Queue account) ticket_addr rows }
    ensures elements { (heap : View) (list : ℕ) (rows : List ListElement) → list < 2 ^ 64 →
        AreSmall addr_of rows → AllStandAt heap (elements_between list 0 0 rows) →
        GoesOver heap (Owner.List list) addr_of rows }
    ensures items { (heap : View) (hash front : ℕ) (rows : List HashItem) →
        AreSmall item_addr rows → AllStandAt heap (bucket_entries rows) →
        GoesOver heap (Owner.Bucket hash front) item_addr rows }
    ensures headers { (heap : View) (object : ℕ) (rows : List CapsuleRow) →
        AreSmall capsule_addr rows → AllStandAt heap (capsule_entries rows) →
        GoesOver heap (Owner.Headers object) capsule_addr rows }
    ensures extents { (heap : View) (object : ℕ) (rows : List ExtentRow) →
        AreSmall extent_addr rows → AllStandAt heap (extent_entries rows) →
        GoesOver heap (Owner.Extents object) extent_addr rows }
    ensures trailers { (heap : View) (object : ℕ) (rows : List CapsuleRow) →
        AreSmall capsule_addr rows → AllStandAt heap (capsule_entries rows) →
        GoesOver heap (Owner.Trailers object) capsule_addr rows }
{}

/// A law: where each block of a right chain is that of what is read of it, the chain's blocks are just those of the rows that are read,
/// each linked to the next as its layout says. It does nothing.
pub fn chains_are_linked_rows()
    ensures names { ChainsAreRows Owner.Catalogue name_addr name_block }
    ensures tickets { (account : Acct) →
        ChainsAreRows (Owner.Queue account) ticket_addr (ticket_block account) }
    ensures elements { (list : ℕ) → ChainsAreRows (Owner.List list) addr_of (element_block list) }
    ensures items { (hash front : ℕ) →
        ChainsAreRows (Owner.Bucket hash front) item_addr item_block }
    ensures headers { (object : ℕ) →
        ChainsAreRows (Owner.Headers object) capsule_addr capsule_block }
    ensures extents { (object : ℕ) →
        ChainsAreRows (Owner.Extents object) extent_addr extent_block }
    ensures trailers { (object : ℕ) →
        ChainsAreRows (Owner.Trailers object) capsule_addr capsule_block }
{}

/// A law: where each block has the form that its kind's layout asks, a block of a chain is that of what is read of it. It does nothing.
pub fn chained_blocks_read_back()
    ensures names { (heap : View) → IsReadable heap →
        ReadsBack heap Owner.Catalogue name_addr name_block (name_read heap) }
    ensures tickets { (heap : View) (account : Acct) → IsReadable heap →
        ReadsBack heap (Owner.Queue account) ticket_addr (ticket_block account) (ticket_read heap) }
    ensures elements { (heap : View) (list : ℕ) → IsReadable heap →
        ReadsBack heap (Owner.List list) addr_of (element_block list) (element_read heap) }
    ensures items { (heap : View) (hash front : ℕ) → IsReadable heap →
        ReadsBack heap (Owner.Bucket hash front) item_addr item_block (item_read heap) }
    ensures headers { (heap : View) (object : ℕ) → IsReadable heap →
        ReadsBack heap (Owner.Headers object) capsule_addr capsule_block (capsule_read heap) }
    ensures extents { (heap : View) (object : ℕ) → IsReadable heap →
        ReadsBack heap (Owner.Extents object) extent_addr extent_block (extent_read heap) }
    ensures trailers { (heap : View) (object : ℕ) → IsReadable heap →
        ReadsBack heap (Owner.Trailers object) capsule_addr capsule_block (capsule_read heap) }
{}
