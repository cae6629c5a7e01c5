// The chains of all owners.
ghost use Rattle.std.specs.Prelude.{◌≡◌, ◌*◌, ◌/◌, ◌-◌, ◌+◌, ◌++◌, [], List, ℕ, false, get_or, length, IfErr, OnOk};
ghost use Rattle.sdr_base.specs.Cells.{IsRegionSize};
ghost use Rattle.sdr_base.specs.declared.layout.hash.TheConstants as hash_words;
ghost use Rattle.sdr_base.specs.declared.line.TheConstants.{WORD};
ghost use Rattle.audit_owners.specs.Chains.{IsWrongChain};
ghost use Rattle.audit_owners.specs.Owners.{owned_at, owned_by, owners_of};
ghost use Rattle.audit_owners.specs.View.{view_in};
ghost use Rattle.audit_owners.specs.Walking.{HasWalked};
ghost use Rattle.audit_owners.specs.declared.owner.Owner.{Owner};

use crate::chain::check_chain;
use crate::error::Wrong;
use crate::owner::Owner;
use crate::region::find;
use crate::scan::next_of;
use sdr_base::layout::hash;
use sdr_base::{Acct, Addr, Kind, WORD};

// Checks the chains of these owners one after another.
fn check_each(heap: &[u8], marks: &mut [bool], owners: &[Owner]) -> Result<(), Wrong>
    requires region { IsRegionSize (length heap.now) }
    requires long { length marks.old * WORD ≡ length heap.now }
    ensures walked { (earlier : List Owner) → HasWalked (view_in heap.now) earlier marks.old →
        OnOk result (HasWalked (view_in heap.now) (earlier ++ owners.now) marks.new) }
    ensures wrong { (earlier : List Owner) → HasWalked (view_in heap.now) earlier marks.old →
        IfErr result (λ wrong. IsWrongChain (view_in heap.now) (earlier ++ owners.now)
        wrong.place) }
{
    for i in 0..owners.len() {
        check_chain(heap, marks, owners[i])?;
    }
    Ok(())
}

// Checks the chains of the buckets of a hash with so many bytes.
fn check_buckets(heap: &[u8], marks: &mut [bool], addr: Addr, bytes: u64) -> Result<(), Wrong>
    requires region { IsRegionSize (length heap.now) }
    requires long { length marks.old * WORD ≡ length heap.now }
    ensures walked { (earlier : List Owner) → HasWalked (view_in heap.now) earlier marks.old →
        OnOk result (HasWalked (view_in heap.now) (earlier ++ owned_by addr Kind.Hash bytes)
        marks.new) }
    ensures wrong { (earlier : List Owner) → HasWalked (view_in heap.now) earlier marks.old →
        IfErr result (λ wrong. IsWrongChain (view_in heap.now)
        (earlier ++ owned_by addr Kind.Hash bytes) wrong.place) }
{
    for number in 0..(bytes / WORD).saturating_sub(hash::WORDS) {
        let bucket = Owner::Bucket {
            hash: addr,
            front: hash::WORDS + number,
        };
        check_chain(heap, marks, bucket)?;
    }
    Ok(())
}

// Checks the chains of a block of this kind, with so many bytes.
fn check_owner(
    heap: &[u8],
    marks: &mut [bool],
    addr: Addr,
    kind: Kind,
    bytes: u64,
) -> Result<(), Wrong>
    requires region { IsRegionSize (length heap.now) }
    requires long { length marks.old * WORD ≡ length heap.now }
    ensures walked { (earlier : List Owner) → HasWalked (view_in heap.now) earlier marks.old →
        OnOk result (HasWalked (view_in heap.now) (earlier ++ owned_by addr kind bytes) marks.new) }
    ensures wrong { (earlier : List Owner) → HasWalked (view_in heap.now) earlier marks.old →
        IfErr result (λ wrong. IsWrongChain (view_in heap.now)
        (earlier ++ owned_by addr kind bytes) wrong.place) }
{
    match kind {
        Kind::List => check_each(heap, marks, &[Owner::List(addr)]),
        Kind::Hash => check_buckets(heap, marks, addr, bytes),
        Kind::Object => {
            let chains = [
                Owner::Headers(addr),
                Owner::Extents(addr),
                Owner::Trailers(addr),
            ];
            check_each(heap, marks, &chains)
        }
        _ => Ok(()),
    }
}

// Checks the chains of the block at an address, if one is in use there.
fn check_block(heap: &[u8], marks: &mut [bool], addr: Addr) -> Result<(), Wrong>
    requires region { IsRegionSize (length heap.now) }
    requires long { length marks.old * WORD ≡ length heap.now }
    ensures walked { (earlier : List Owner) → HasWalked (view_in heap.now) earlier marks.old →
        OnOk result (HasWalked (view_in heap.now) (earlier ++ owned_at (view_in heap.now) addr)
        marks.new) }
    ensures wrong { (earlier : List Owner) → HasWalked (view_in heap.now) earlier marks.old →
        IfErr result (λ wrong. IsWrongChain (view_in heap.now)
        (earlier ++ owned_at (view_in heap.now) addr) wrong.place) }
{
    match find(heap, addr) {
        None => Ok(()),
        Some((kind, bytes)) => check_owner(heap, marks, addr, kind, bytes),
    }
}

/// Checks all chains: that of the catalogue, those of the inbound and the outbound tickets, and then those of the blocks by rising
/// address. It marks the words with which the blocks begin that they reach; before, none may be marked. It is linear in the region,
/// for each block is reached once.
pub fn check_chains(heap: &[u8], marks: &mut [bool]) -> Result<(), Wrong>
    requires region { IsRegionSize (length heap.now) }
    requires long { length marks.old * WORD ≡ length heap.now }
    requires clear { (word : ℕ) → get_or marks.old word false ≡ false }
    ensures walked { OnOk result (HasWalked (view_in heap.now)
        (owners_of (view_in heap.now) (length marks.old)) marks.new) }
    ensures wrong { IfErr result (λ wrong. IsWrongChain (view_in heap.now)
        (owners_of (view_in heap.now) (length marks.old)) wrong.place) }
{
    let roots = [
        Owner::Catalogue,
        Owner::Queue(Acct::Inbound),
        Owner::Queue(Acct::Outbound),
    ];
    check_each(heap, marks, &roots)?;
    let mut from = 0;
    while let Some(number) = next_of(heap, from, &[Kind::List, Kind::Hash, Kind::Object]) {
        check_block(heap, marks, WORD * number)?;
        from = number + 1;
    }
    Ok(())
}
