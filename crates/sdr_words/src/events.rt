// The events that verbs make of their arguments.
ghost use Rattle.std.specs.Prelude.{◌≡◌, IfSome, IsNone, List, false, min};
ghost use Rattle.sdr_model.specs.declared.event.Event.TheVariants as events;
ghost use Rattle.sdr_words.specs.Bindings.{Binding, event_of};
ghost use Rattle.sdr_words.specs.Events.{event_by, is_begin_or_look, takes_objects, takes_things};
ghost use Rattle.sdr_words.specs.declared.given.Given.{Given};

use crate::given::Given;
use crate::{Verb, verb_at};
use sdr_model::{Call, Event, ScriptStep};

// A number as the type of a name.
fn as_type(number: u64) -> u32
    ensures { result ≡ min number 4294967295 }
{
    u32::try_from(number).unwrap_or(u32::MAX)
}

// A number as a priority.
fn as_priority(number: u64) -> u8
    ensures { result ≡ min number 255 }
{
    u8::try_from(number).unwrap_or(u8::MAX)
}

// The call of a verb on raw objects and on what is made of blocks, where it takes numbers alone, and an order.
fn call_on_things(verb: Verb, given: &Given) -> Option<Call>
    ensures call { IfSome result (λ call. events.Say call ≡ event_by verb given.now) }
    ensures none { IsNone result → takes_things verb ≡ false }
{
    let [a, b, c, ..] = given.first_numbers();
    let order = given.order;
    Some(match verb {
        Verb::Malloc => Call::Malloc(a),
        Verb::Free => Call::Free(a),
        Verb::Length => Call::Length(a),
        Verb::Read => Call::Read(a, b, c),
        Verb::Stage => Call::Stage(a, b),
        Verb::StringLength => Call::StringLength(a),
        Verb::StringRead => Call::StringRead(a),
        Verb::StringDup => Call::StringDup(a),
        Verb::List => Call::List(a),
        Verb::ListDestroy => Call::ListDestroy(a),
        Verb::ListLength => Call::ListLength(a),
        Verb::ListUser => Call::ListUser(a),
        Verb::SetListUser => Call::SetListUser(a, b),
        Verb::InsertFirst => Call::InsertFirst(a, b),
        Verb::InsertLast => Call::InsertLast(a, b),
        Verb::InsertBefore => Call::InsertBefore(a, b),
        Verb::InsertAfter => Call::InsertAfter(a, b),
        Verb::InsertOrdered => Call::InsertOrdered(a, b, order),
        Verb::Search => Call::Search(a, b, order),
        Verb::Delete => Call::Delete(a),
        Verb::First => Call::First(a),
        Verb::Last => Call::Last(a),
        Verb::Next => Call::Next(a),
        Verb::Prev => Call::Prev(a),
        Verb::Datum => Call::Datum(a),
        Verb::SetDatum => Call::SetDatum(a, b),
        Verb::Table => Call::Table(a, b, c),
        Verb::Row => Call::Row(a, b),
        Verb::Dimensions => Call::Dimensions(a),
        Verb::TableUser => Call::TableUser(a),
        Verb::TableDestroy => Call::TableDestroy(a),
        Verb::Hash => Call::Hash(a, b),
        Verb::HashCount => Call::HashCount(a),
        Verb::HashDestroy => Call::HashDestroy(a),
        Verb::Entry => Call::Entry(a),
        _ => return None,
    })
}

// The call of a verb on sources, accounts, tickets and zero-copy objects, where it takes no text.
fn call_on_objects(verb: Verb, given: &Given) -> Option<Call>
    ensures call { IfSome result (λ call. events.Say call ≡ event_by verb given.now) }
    ensures none { IsNone result → takes_objects verb ≡ false }
{
    let [a, b, c, d, e] = given.first_numbers();
    let (account, space) = (given.account, given.space);
    Some(match verb {
        Verb::BulkRef => Call::BulkRef(a, b),
        Verb::ObjRef => Call::ObjRef(a),
        Verb::DestroyRef => Call::DestroyRef(a),
        Verb::Count => Call::Count(a),
        Verb::Occupancy => Call::Occupancy(account, space),
        Verb::Maximum => Call::Maximum(account, space),
        Verb::SetMaximum => Call::SetMaximum(account, space, a),
        Verb::Create => Call::Create(account, a),
        Verb::AppendExtent => Call::AppendExtent(a, b, c, d, e),
        Verb::DiscardFirstHeader => Call::DiscardFirstHeader(a),
        Verb::DiscardLastTrailer => Call::DiscardLastTrailer(a),
        Verb::Bond => Call::Bond(a, b),
        Verb::ClonePart => Call::ClonePart(a, b, c, d),
        Verb::Delimit => Call::Delimit(a, b, c),
        Verb::Strip => Call::Strip(a),
        Verb::ZcoLength => Call::ZcoLength(a),
        Verb::SourceLength => Call::SourceLength(a),
        Verb::Destroy => Call::Destroy(a),
        Verb::Transmit => Call::Transmit(a, b, c),
        Verb::ReceiveHeaders => Call::ReceiveHeaders(a, b, c),
        Verb::ReceiveSource => Call::ReceiveSource(a, b, c),
        Verb::ReceiveTrailers => Call::ReceiveTrailers(a, b, c),
        Verb::Request => Call::Request(account, a, b, c, as_priority(d), as_priority(e)),
        Verb::Awarded => Call::Awarded(a),
        Verb::Shred => Call::Shred(a),
        _ => return None,
    })
}

/// The event of a verb with these arguments.
pub fn event_by(verb: Verb, given: Given) -> Event
    ensures { result ≡ event_by verb given }
{
    if let Some(call) = call_on_things(verb, &given) {
        return Event::Say(call);
    }
    if let Some(call) = call_on_objects(verb, &given) {
        return Event::Say(call);
    }
    let [a, b, ..] = given.first_numbers();
    let text = given.text;
    match verb {
        Verb::Begin => Event::Begin,
        Verb::End => Event::End,
        Verb::Cancel => Event::Cancel,
        Verb::Exit => Event::Exit,
        Verb::Await => Event::Look(a),
        Verb::Write => Event::Say(Call::Write(a, b, text)),
        Verb::String => Event::Say(Call::String(text)),
        Verb::SetRow => Event::Say(Call::SetRow(a, b, text)),
        Verb::HashInsert => Event::Say(Call::HashInsert(a, text, b)),
        Verb::HashRetrieve => Event::Say(Call::HashRetrieve(a, text)),
        Verb::HashRevise => Event::Say(Call::HashRevise(a, text, b)),
        Verb::HashRemove => Event::Say(Call::HashRemove(a, text)),
        Verb::Catlg => Event::Say(Call::Catlg(text, as_type(a), b)),
        Verb::Find => Event::Say(Call::Find(text)),
        Verb::Uncatlg => Event::Say(Call::Uncatlg(text)),
        Verb::FileRef => Event::Say(Call::FileRef(text, a)),
        Verb::PrependHeader => Event::Say(Call::PrependHeader(a, b, text)),
        Verb::AppendTrailer => Event::Say(Call::AppendTrailer(a, b, text)),
        _ => unreachable!(),
    }
}

// Whether the verb is `begin` or `await`.
#[tactic(auto, using(crate::proofs::EventLemmas::other_verbs))]
fn is_begin_or_await(verb: Verb) -> bool
    ensures { (given : Given) → result ≡ is_begin_or_look (event_by verb given) }
{
    matches!(verb, Verb::Begin | Verb::Await)
}

/// Whether the event of a step is a begin or a look at a ticket, whatever its names hold. It takes no memory.
pub fn begins_or_looks(step: &ScriptStep) -> bool
    ensures { (names : List Binding) → result ≡ is_begin_or_look (event_of names step.now) }
{
    is_begin_or_await(verb_at(step.verb as usize))
}
