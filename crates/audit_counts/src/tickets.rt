// Tickets in their blocks.
ghost use Rattle.std.specs.Prelude.{◌≡◌, ◌≤◌, length};
ghost use Rattle.sdr_base.specs.Cells.{IsRegionSize};
ghost use Rattle.audit_counts.specs.Queues.{amounts_at, goes_before, is_left_rightly, ticket_in};
ghost use Rattle.sdr_model.specs.Valid.{may_precede};
ghost use Rattle.audit_owners.specs.View.{view_in};

use audit_owners::word;
use sdr_base::layout::ticket;
use sdr_base::{Addr, Amounts};
use sdr_model::amounts::{are_within, is_nothing};

/// The amounts of file, bulk and heap space in three words of the block at an address, from one on.
pub fn amounts_at(heap: &[u8], addr: Addr, field: u64) -> Amounts
    requires region { IsRegionSize (length heap.now) }
    requires field { field ≤ 100 }
    ensures { result ≡ amounts_at (view_in heap.now) addr field }
{
    Amounts {
        file: word(heap, addr, field),
        bulk: word(heap, addr, field + 1),
        heap: word(heap, addr, field + 2),
    }
}

/// Whether the ticket at an address is granted.
pub fn is_granted(heap: &[u8], addr: Addr) -> bool
    requires region { IsRegionSize (length heap.now) }
    ensures { result ≡ (ticket_in (view_in heap.now) addr).granted }
{
    word(heap, addr, ticket::GRANTED) == 1
}

/// Whether what is left of the ticket at an address is at most what it asks, and nothing while it waits.
pub fn is_left_rightly(heap: &[u8], addr: Addr) -> bool
    requires region { IsRegionSize (length heap.now) }
    ensures { result ≡ is_left_rightly (ticket_in (view_in heap.now) addr) }
{
    let asked = amounts_at(heap, addr, ticket::ASKED_FILE);
    let left = amounts_at(heap, addr, ticket::LEFT_FILE);
    are_within(&left, &asked) && (is_granted(heap, addr) || is_nothing(&left))
}

// Whether a waiting ticket goes before another, by coarse priority, by fine priority and by number.
fn goes_before(heap: &[u8], first: Addr, then: Addr) -> bool
    requires region { IsRegionSize (length heap.now) }
    ensures { result ≡ goes_before (ticket_in (view_in heap.now) first)
        (ticket_in (view_in heap.now) then) }
{
    let coarse = word(heap, first, ticket::COARSE);
    let other_coarse = word(heap, then, ticket::COARSE);
    let fine = word(heap, first, ticket::FINE);
    let other_fine = word(heap, then, ticket::FINE);
    other_coarse < coarse
        || (coarse == other_coarse
            && (other_fine < fine
                || (fine == other_fine
                    && word(heap, first, ticket::NUMBER) < word(heap, then, ticket::NUMBER))))
}

/// Whether the first of two tickets may stand before the other: granted ones are first, and those that wait go by coarse priority,
/// by fine priority and by number.
pub fn may_precede(heap: &[u8], first: Addr, then: Addr) -> bool
    requires region { IsRegionSize (length heap.now) }
    ensures { result ≡ may_precede (ticket_in (view_in heap.now) first)
        (ticket_in (view_in heap.now) then) }
{
    is_granted(heap, first) || (!is_granted(heap, then) && goes_before(heap, first, then))
}
