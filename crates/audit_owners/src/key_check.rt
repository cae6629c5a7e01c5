// The audit of lists, hashes and names.
ghost use Rattle.std.specs.Prelude.{◌≡◌, ◌/◌, length, IfOk};
ghost use Rattle.sdr_base.specs.Cells.{IsRegionSize};
ghost use Rattle.sdr_base.specs.declared.line.TheConstants.{WORD};
ghost use Rattle.audit_owners.specs.Keyed.{wrong_key};
ghost use Rattle.audit_owners.specs.View.{view_in};

use crate::Owner;
use crate::key_chain::members;
use crate::key_rules::{KeyRule, first_broken};
use crate::texts::{EntryText, first_repeated};
use sdr_base::{Addr, NoMemory};
use std::alloc::Global;

/// The first place that is wrong with lists, hashes and names of a heap region, whose owners are right: the address of a list that tells
/// another length than it has; else that of a hash that tells another number of entries than it has, or has one whose key isn't of its
/// length or stands in another bucket, or two with the same key; else that of the first entry of the catalogue, in its order, with the
/// name of an earlier one. `None` where nothing is.
///
/// It is linear in the region, as long as each block is in one chain, but for keys and names, which are put into hash sets.
pub fn wrong_key(alloc: Global, heap: &[u8]) -> Result<Option<Addr>, NoMemory>
    requires region { IsRegionSize (length heap.now) }
    ensures { IfOk result (λ addr. addr ≡ wrong_key (view_in heap.now) (length heap.now / WORD)) }
{
    if let Some(addr) = first_broken(alloc, heap, KeyRule::Length)? {
        return Ok(Some(addr));
    }
    if let Some(addr) = first_broken(alloc, heap, KeyRule::Entries)? {
        return Ok(Some(addr));
    }
    let names = members(alloc, heap, Owner::Catalogue)?;
    first_repeated(alloc, heap, EntryText::Name, &names)
}
