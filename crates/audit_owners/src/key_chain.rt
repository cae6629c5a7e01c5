// The blocks in the chain of an owner.
ghost use Rattle.std.specs.Prelude.{◌≡◌, ◌/◌, length, IfOk};
ghost use Rattle.sdr_base.specs.Cells.{IsRegionSize};
ghost use Rattle.sdr_base.specs.declared.line.TheConstants.{WORD};
ghost use Rattle.audit_owners.specs.Members.{members};
ghost use Rattle.audit_owners.specs.View.{view_in};

use crate::{Owner, word};
use sdr_base::{Addr, NoMemory, WORD};
use std::alloc::Global;

/// The addresses of the blocks in the chain of an owner, in order. Where the chain doesn't end, as many as the region has words.
pub fn members(alloc: Global, heap: &[u8], owner: Owner) -> Result<Vec<Addr>, NoMemory>
    requires region { IsRegionSize (length heap.now) }
    ensures { IfOk result (λ addrs. addrs.items
        ≡ members (view_in heap.now) (length heap.now / WORD) owner) }
{
    let mut addrs = Vec::new(alloc);
    let mut link = owner.first().read(heap);
    let mut most = heap.len() as u64 / WORD;
    while link != 0 && most > 0 {
        addrs.push(link)?;
        link = word(heap, link, owner.next_field());
        most -= 1;
    }
    Ok(addrs)
}
