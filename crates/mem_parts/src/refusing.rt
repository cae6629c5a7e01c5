// Why an account refuses a charge.
ghost use Rattle.std.specs.Prelude.{◌≡◌};
ghost use Rattle.mem_parts.specs.Refusals.{refusal_in};

use crate::queue::barrier;
use sdr_base::{Amounts, Refusal};
use sdr_model::Account;
use sdr_model::amounts::{amount, first_above, minus};

/// Why an account of which so much is occupied refuses amounts that no grant covers.
pub fn refusal(account: &Account, occupied: &Amounts, uncovered: &Amounts) -> Option<Refusal>
    ensures { result ≡ refusal_in account.now occupied.now uncovered.now }
{
    if let Some(ticket) = barrier(uncovered, account.tickets.as_slice()) {
        let ticket = ticket.number;
        return Some(Refusal::Queue { ticket });
    }
    let room = minus(&account.maxima, occupied);
    let space = first_above(uncovered, &room)?;
    Some(Refusal::NoSpace {
        space,
        occupied: amount(occupied, space),
        asked: amount(uncovered, space),
        most: amount(&account.maxima, space),
    })
}
