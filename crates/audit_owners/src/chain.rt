// The walk over a chain of blocks.
ghost use Rattle.std.specs.Prelude.{◌≡◌, ◌≢◌, ◌<◌, ◌*◌, ◌++◌, ◌∷◌, [], List, length, true, IfErr, IfOk, OnOk};
ghost use Rattle.sdr_base.specs.Cells.{IsRegionSize};
ghost use Rattle.sdr_base.specs.declared.line.TheConstants.{WORD};
ghost use Rattle.audit_owners.specs.Chains.{EndsElsewhere, IsWrongChain, has_last, holder};
ghost use Rattle.audit_owners.specs.Marks.{unmarked};
ghost use Rattle.audit_owners.specs.View.{view_in};
ghost use Rattle.audit_owners.specs.Walking.{HasWalked, IsWalking};
ghost use Rattle.audit_owners.specs.declared.owner.Owner.{Owner};

use crate::error::Wrong;
use crate::owner::Owner;
use crate::region::{is_kind, word};
use sdr_base::{Addr, WORD};

/// How far a walk over a chain has come.
#[derive(Clone, Copy)]
pub struct Step {
    /// Whose chain it is.
    pub owner: Owner,
    /// The address of the block in which the link stands, 0 for the first link.
    pub before: Addr,
    /// The address of the block to which it leads, 0 where the chain ends.
    pub link: Addr,
}

// Where the link stands to which a walk has come.
fn holder(step: Step) -> u64
    ensures { result ≡ holder step.owner step.before }
{
    if step.before == 0 {
        step.owner.first().place()
    } else {
        step.before
    }
}

// Marks the block to which a link leads, and goes on to the link that stands in it.
fn follow(heap: &[u8], marks: &mut [bool], step: Step) -> Result<Step, Wrong>
    requires region { IsRegionSize (length heap.now) }
    requires long { length marks.old * WORD ≡ length heap.now }
    requires some { step.link ≢ 0 }
    ensures walking { (owners : List Owner) → IsWalking (view_in heap.now) owners step marks.old →
        IfOk result (λ next. IsWalking (view_in heap.now) owners next marks.new) }
    ensures owner { IfOk result (λ next. next.owner ≡ step.owner) }
    ensures wrong { (owners : List Owner) → IsWalking (view_in heap.now) owners step marks.old →
        IfErr result (λ wrong. IsWrongChain (view_in heap.now) (owners ++ step.owner ∷ [])
        wrong.place) }
    ensures fewer { OnOk result (unmarked marks.new < unmarked marks.old) }
{
    if !is_kind(heap, step.link, step.owner.kind()) {
        return Err(Wrong {
            place: holder(step),
        });
    }
    let number = (step.link / WORD) as usize;
    if marks[number] {
        return Err(Wrong {
            place: holder(step),
        });
    }
    if !step.owner.is_named(heap, step.before, step.link) {
        return Err(Wrong { place: step.link });
    }
    marks[number] = true;
    Ok(Step {
        owner: step.owner,
        before: step.link,
        link: word(heap, step.link, step.owner.next_field()),
    })
}

// Checks that the word for the last block of a chain, if it has one, has this address.
fn check_last(heap: &[u8], owner: Owner, addr: Addr) -> Result<(), Wrong>
    requires region { IsRegionSize (length heap.now) }
    ensures right { OnOk result (has_last (view_in heap.now) owner addr ≡ true) }
    ensures wrong { IfErr result (λ wrong. EndsElsewhere (view_in heap.now) owner addr 0
        wrong.place) }
{
    match owner.last() {
        None => Ok(()),
        Some(site) => {
            if site.read(heap) == addr {
                Ok(())
            } else {
                Err(Wrong {
                    place: site.place(),
                })
            }
        }
    }
}

/// Walks over the chain of an owner, and marks the words with which its blocks begin. A block that is reached again ends the walk, so
/// that it takes no more steps than the region has words. What is wrong is told by its place: a link that leads to no block of the
/// chain's kind, or to one that is marked, by the word in which it stands; a block that names another owner, or another block before
/// it, by its address; and the word for the last block by itself.
pub fn check_chain(heap: &[u8], marks: &mut [bool], owner: Owner) -> Result<(), Wrong>
    requires region { IsRegionSize (length heap.now) }
    requires long { length marks.old * WORD ≡ length heap.now }
    ensures walked { (owners : List Owner) → HasWalked (view_in heap.now) owners marks.old →
        OnOk result (HasWalked (view_in heap.now) (owners ++ owner ∷ []) marks.new) }
    ensures wrong { (owners : List Owner) → HasWalked (view_in heap.now) owners marks.old →
        IfErr result (λ wrong. IsWrongChain (view_in heap.now) (owners ++ owner ∷ []) wrong.place) }
{
    let mut step = Step {
        owner,
        before: 0,
        link: owner.first().read(heap),
    };
    while step.link != 0 {
        step = follow(heap, marks, step)?;
    }
    check_last(heap, owner, step.before)
}
