// A ticket by its number, in the queue of either account.
ghost use Rattle.std.specs.Prelude.{◌≡◌, IfErr, IfOk, OnOk};
ghost use Rattle.sdr_base.specs.Moves.{KeepsSome};
ghost use Rattle.sdr_base.specs.Objects.{OnlyFault};
ghost use Rattle.sdr_base.specs.Works.{Looks};
ghost use Rattle.sdr_base.specs.declared.account.Acct.TheVariants as accts;
ghost use Rattle.zco_acct.specs.Kept.{SomeQueue};
ghost use Rattle.zco_space.specs.Located.{AwardStops, IsAwarded, Locates};

use sdr_base::{Acct, Objects, Refusal, Stop};
use zco_acct::{Found, Sought, search};

/// A ticket, and the account in whose queue it stands.
#[derive(Clone, Copy)]
pub struct Standing {
    pub acct: Acct,
    pub found: Found,
}

/// The ticket of a number, in the queue of either account. It is linear in both.
pub fn find_ticket<O: Objects>(o: &mut O, number: u64) -> Result<Option<Standing>, Stop>
    requires kept { KeepsSome (O.keeps o.old) }
    requires inbound { SomeQueue (O.heap o.old) accts.Inbound }
    requires outbound { SomeQueue (O.heap o.old) accts.Outbound }
    ensures found { IfOk result (Locates (O.heap o.old) number) }
    ensures refused { IfErr result OnlyFault }
    ensures looks { Looks O.HasHeap o.old o.new result }
{
    if let Some(found) = search(o, Acct::Inbound, &Sought::Number(number))? {
        let acct = Acct::Inbound;
        return Ok(Some(Standing { acct, found }));
    }
    match search(o, Acct::Outbound, &Sought::Number(number))? {
        None => Ok(None),
        Some(found) => {
            let acct = Acct::Outbound;
            Ok(Some(Standing { acct, found }))
        }
    }
}

/// Goes on where the ticket of this number, of either account, is granted.
pub fn awarded<O: Objects>(o: &mut O, ticket: u64) -> Result<(), Stop>
    requires kept { KeepsSome (O.keeps o.old) }
    requires inbound { SomeQueue (O.heap o.old) accts.Inbound }
    requires outbound { SomeQueue (O.heap o.old) accts.Outbound }
    ensures awarded { OnOk result (IsAwarded (O.heap o.old) ticket) }
    ensures refused { IfErr result (AwardStops (O.heap o.old) ticket) }
    ensures looks { Looks O.HasHeap o.old o.new result }
{
    match find_ticket(o, ticket)? {
        None => Err(Stop::Refused(Refusal::BadTicket { ticket })),
        Some(standing) if standing.found.ticket.granted => Ok(()),
        Some(_) => Err(Stop::Refused(Refusal::NotAwarded { ticket })),
    }
}
