// What lists and hashes have to keep.
ghost use Rattle.std.specs.Prelude.{◌≡◌, ◌/◌, length, IfOk};
ghost use Rattle.sdr_base.specs.Cells.{IsRegionSize};
ghost use Rattle.sdr_base.specs.declared.line.TheConstants.{WORD};
ghost use Rattle.audit_owners.specs.Keyed.{keeps_key_rule, key_kinds};
ghost use Rattle.audit_owners.specs.Places.{first_failing};
ghost use Rattle.audit_owners.specs.View.{view_in};

use crate::entries::{keeps_entries, keeps_length};
use crate::scan::next_of;
use sdr_base::{Addr, Kind, NoMemory, WORD};
use std::alloc::Global;

/// What each block has to keep, if the rule speaks of its kind.
#[derive(Clone, Copy)]
pub enum KeyRule {
    /// A list tells how many elements it has.
    Length,
    /// A hash tells how many entries it has, each has a key of its length, in its bucket, and no two have the same.
    Entries,
}

impl KeyRule {
    // The kinds of blocks that the rule speaks of.
    fn kinds(self) -> &'static [Kind]
        ensures { result.now ≡ key_kinds self }
    {
        match self {
            KeyRule::Length => &[Kind::List],
            KeyRule::Entries => &[Kind::Hash],
        }
    }
}

// Whether the block at an address keeps a rule.
fn keeps(alloc: Global, heap: &[u8], rule: KeyRule, addr: Addr) -> Result<bool, NoMemory>
    requires region { IsRegionSize (length heap.now) }
    ensures { IfOk result (λ yes. yes ≡ keeps_key_rule (view_in heap.now)
        (length heap.now / WORD) rule addr) }
{
    match rule {
        KeyRule::Length => keeps_length(alloc, heap, addr),
        KeyRule::Entries => keeps_entries(alloc, heap, addr),
    }
}

/// The address of the first block that doesn't keep a rule, `None` where each does.
pub fn first_broken(alloc: Global, heap: &[u8], rule: KeyRule) -> Result<Option<Addr>, NoMemory>
    requires region { IsRegionSize (length heap.now) }
    ensures { IfOk result (λ addr. addr ≡ first_failing
        (keeps_key_rule (view_in heap.now) (length heap.now / WORD) rule) (length heap.now / WORD)) }
{
    let mut from = 0;
    while let Some(number) = next_of(heap, from, rule.kinds()) {
        let addr = WORD * number;
        if !keeps(alloc, heap, rule, addr)? {
            return Ok(Some(addr));
        }
        from = number + 1;
    }
    Ok(None)
}
