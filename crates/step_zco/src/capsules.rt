// The calls on headers and trailers, as steps of the machine.
ghost use Rattle.std.specs.Prelude.{[], length, ◌*◌, ◌+◌, ◌/◌, ◌≡◌, ◌≤◌};
ghost use Rattle.step_things.specs.Answering.{ComesInEach, IsReady};
ghost use Rattle.sdr_stands.specs.Standing.{HeapStandsFor};
ghost use Rattle.sdr_base.specs.Moves.{KeepsSome};
ghost use Rattle.sdr_base.specs.Works.{Spends};
ghost use Rattle.sdr_model.specs.Fields.{AreBytes};
ghost use Rattle.sdr_model.specs.World.{World};
ghost use Rattle.sdr_model.specs.declared.call.Call.TheVariants as calls;
ghost use Rattle.step_zco.specs.ObjectAnswering.{grants_of};
ghost use Rattle.zco_obj.specs.Kept.{IsWithQueue};

use crate::serve;
use sdr_base::{Addr, Objects, Stop};
use sdr_model::Reply;
use step_things::Page;
use zco_acct::{Notice, Notify};

/// Puts a header in front of an object's others.
pub fn prepend_header<O: Objects>(
    o: &mut O,
    object: Addr,
    ticket: u64,
    text: &[u8],
    page: &mut Page,
) -> Result<Reply, Stop>
    requires kept { KeepsSome (O.keeps o.old) }
    requires spare { 1 ≤ (O.heap o.old).spare }
    requires object { IsWithQueue (O.heap o.old) object }
    requires unmoved { (O.heap o.old).moves ≡ [] }
    ensures comes { ComesInEach (calls.PrependHeader object ticket text.now)
        (O.heap o.old) (O.heap o.new) page.old page.new result }
    ensures works { Spends O.HasHeap (35 + (8 + length text.now) / 32) o.old o.new result }
    ensures bytes { AreBytes text.now }
{
    zco_obj::prepend_header(o, object, ticket, text)?;
    page.clear();
    Ok(Reply::Done)
}

/// Puts a trailer behind an object's others.
pub fn append_trailer<O: Objects>(
    o: &mut O,
    object: Addr,
    ticket: u64,
    text: &[u8],
    page: &mut Page,
) -> Result<Reply, Stop>
    requires kept { KeepsSome (O.keeps o.old) }
    requires spare { 1 ≤ (O.heap o.old).spare }
    requires object { IsWithQueue (O.heap o.old) object }
    requires unmoved { (O.heap o.old).moves ≡ [] }
    ensures comes { ComesInEach (calls.AppendTrailer object ticket text.now)
        (O.heap o.old) (O.heap o.new) page.old page.new result }
    ensures works { Spends O.HasHeap (35 + (8 + length text.now) / 32) o.old o.new result }
    ensures bytes { AreBytes text.now }
{
    zco_obj::append_trailer(o, object, ticket, text)?;
    page.clear();
    Ok(Reply::Done)
}

/// Gives the first header of an object back, and serves the queue of its account.
pub fn discard_first_header<O: Objects, F: Notify>(
    o: &mut O,
    object: Addr,
    notice: &Notice<F>,
    page: &mut Page,
) -> Result<Reply, Stop>
    requires kept { KeepsSome (O.keeps o.old) }
    requires spare { 1 ≤ (O.heap o.old).spare }
    requires object { IsWithQueue (O.heap o.old) object }
    requires unmoved { (O.heap o.old).moves ≡ [] }
    ensures comes { ComesInEach (calls.DiscardFirstHeader object)
        (O.heap o.old) (O.heap o.new) page.old page.new result }
    ensures works { (w : World) → HeapStandsFor (O.heap o.old) w → IsReady w →
        Spends O.HasHeap (31 + 32 * grants_of w (calls.DiscardFirstHeader object)) o.old o.new result }
{
    zco_obj::discard_first_header(o, object)?;
    let acct = zco_obj::account(o, object)?;
    serve(o, acct, notice)?;
    page.clear();
    Ok(Reply::Done)
}

/// Gives the last trailer of an object back, and serves the queue of its account.
pub fn discard_last_trailer<O: Objects, F: Notify>(
    o: &mut O,
    object: Addr,
    notice: &Notice<F>,
    page: &mut Page,
) -> Result<Reply, Stop>
    requires kept { KeepsSome (O.keeps o.old) }
    requires spare { 1 ≤ (O.heap o.old).spare }
    requires object { IsWithQueue (O.heap o.old) object }
    requires unmoved { (O.heap o.old).moves ≡ [] }
    ensures comes { ComesInEach (calls.DiscardLastTrailer object)
        (O.heap o.old) (O.heap o.new) page.old page.new result }
    ensures works { (w : World) → HeapStandsFor (O.heap o.old) w → IsReady w →
        Spends O.HasHeap (31 + 32 * grants_of w (calls.DiscardLastTrailer object)) o.old o.new result }
{
    zco_obj::discard_last_trailer(o, object)?;
    let acct = zco_obj::account(o, object)?;
    serve(o, acct, notice)?;
    page.clear();
    Ok(Reply::Done)
}
