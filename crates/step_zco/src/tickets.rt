// The calls on tickets, as steps of the machine.
ghost use Rattle.std.specs.Prelude.{[], ◌≡◌, ◌≤◌, ◌+◌, ◌*◌, IfErr, IfOk};
ghost use Rattle.step_things.specs.Answering.{ComesInEach, HeapStands, IsReady};
ghost use Rattle.sdr_stands.specs.Standing.{HeapStandsFor};
ghost use Rattle.sdr_base.specs.Moves.{KeepsSome};
ghost use Rattle.sdr_base.specs.Objects.{OnlyFault};
ghost use Rattle.sdr_base.specs.Works.{Looks, Spends};
ghost use Rattle.sdr_base.specs.declared.account.Acct.{Acct};
ghost use Rattle.sdr_model.specs.World.{World};
ghost use Rattle.sdr_model.specs.declared.call.Call.TheVariants as calls;
ghost use Rattle.zco_acct.specs.Kept.{SomeQueue};
ghost use Rattle.step_zco.specs.AccountAnswering.{Sees, grants_of};

use sdr_base::{Acct, Amounts, Objects, Stop};
use sdr_model::Reply;
use step_things::Page;
use zco_acct::{Notice, Notify};
use zco_space::find_ticket;

/// What a request asks: so many bytes of each space of an account, with these priorities.
#[derive(Clone, Copy)]
pub struct Asking {
    pub acct: Acct,
    pub asked: Amounts,
    pub coarse: u8,
    pub fine: u8,
}

/// Asks an account for space.
pub fn request<O: Objects, F: Notify>(
    o: &mut O,
    asking: &Asking,
    notice: &Notice<F>,
    page: &mut Page,
) -> Result<Reply, Stop>
    requires kept { KeepsSome (O.keeps o.old) }
    requires spare { 1 ≤ (O.heap o.old).spare }
    requires queue { SomeQueue (O.heap o.old) asking.now.acct }
    requires unmoved { (O.heap o.old).moves ≡ [] }
    ensures comes { ComesInEach (calls.Request asking.now.acct asking.now.asked.file asking.now.asked.bulk
        asking.now.asked.heap asking.now.coarse asking.now.fine)
        (O.heap o.old) (O.heap o.new) page.old page.new result }
    ensures works { (w : World) → HeapStandsFor (O.heap o.old) w → IsReady w →
        Spends O.HasHeap (33 + 32 * grants_of w (calls.Request asking.now.acct asking.now.asked.file
        asking.now.asked.bulk asking.now.asked.heap asking.now.coarse asking.now.fine))
        o.old o.new result }
{
    let Asking {
        acct,
        asked,
        coarse,
        fine,
    } = *asking;
    let (number, granted) = zco_space::request(o, acct, &asked, coarse, fine, notice)?;
    page.clear();
    Ok(Reply::Ticket { number, granted })
}

/// Whether a ticket is granted.
pub fn awarded<O: Objects>(o: &mut O, ticket: u64, page: &mut Page) -> Result<Reply, Stop>
    requires kept { KeepsSome (O.keeps o.old) }
    requires queues { (acct : Acct) → SomeQueue (O.heap o.old) acct }
    requires unmoved { (O.heap o.old).moves ≡ [] }
    ensures comes { ComesInEach (calls.Awarded ticket)
        (O.heap o.old) (O.heap o.new) page.old page.new result }
    ensures works { Spends O.HasHeap 0 o.old o.new result }
    ensures touched { (O.transaction o.new).touched ≡ (O.transaction o.old).touched }
{
    zco_space::awarded(o, ticket)?;
    page.clear();
    Ok(Reply::Done)
}

/// Ends a ticket.
pub fn shred<O: Objects, F: Notify>(
    o: &mut O,
    ticket: u64,
    notice: &Notice<F>,
    page: &mut Page,
) -> Result<Reply, Stop>
    requires kept { KeepsSome (O.keeps o.old) }
    requires spare { 1 ≤ (O.heap o.old).spare }
    requires queues { (acct : Acct) → SomeQueue (O.heap o.old) acct }
    requires unmoved { (O.heap o.old).moves ≡ [] }
    ensures comes { ComesInEach (calls.Shred ticket)
        (O.heap o.old) (O.heap o.new) page.old page.new result }
    ensures works { (w : World) → HeapStandsFor (O.heap o.old) w → IsReady w →
        Spends O.HasHeap (30 + 32 * grants_of w (calls.Shred ticket)) o.old o.new result }
{
    zco_space::shred(o, ticket, notice)?;
    page.clear();
    Ok(Reply::Done)
}

/// Whether the ticket of this number, of either account, is there, and granted.
pub fn look<O: Objects>(o: &mut O, ticket: u64) -> Result<Option<bool>, Stop>
    requires kept { KeepsSome (O.keeps o.old) }
    requires stands { HeapStands (O.heap o.old) }
    ensures seen { IfOk result (Sees ticket (O.heap o.old)) }
    ensures refused { IfErr result OnlyFault }
    ensures looks { Looks O.HasHeap o.old o.new result }
{
    match find_ticket(o, ticket)? {
        None => Ok(None),
        Some(standing) => Ok(Some(standing.found.ticket.granted)),
    }
}
