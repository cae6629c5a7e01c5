// What is asked of a heap that was run on, by reading calls.
ghost use Rattle.std.specs.Prelude.{◌≡◌, ◌≤◌, ◌+◌, ◌^◌, ℕ, List, IfOk, IfSome, OnErr, OnOk, Some, is_some, length};
ghost use Rattle.std.specs.Option.{option_map};
ghost use Rattle.run_load.specs.Asking.{AnswersByRow, AsksOnly, FailsAsked, IsAskable, IsQuestion};
ghost use Rattle.run_load.specs.Asking.{addr_in, object_in, tells_bytes, value_in};
ghost use Rattle.run_load.specs.Listed.{list_at, load_name, load_object, raw_bytes_at};
ghost use Rattle.sdr_machine.specs.Standing.{GroundState};
ghost use Rattle.sdr_model.specs.Limits.{longest_raw};
ghost use Rattle.sdr_model.specs.ListSteps.{datum_at, element_addr};
ghost use Rattle.sdr_model.specs.Things.{Spot};
ghost use Rattle.sdr_model.specs.World.{as_raw, spot_of, thing_at};
ghost use Rattle.sdr_model.specs.declared.things.SdrList.{SdrList};
ghost use Rattle.sdr_station.specs.Grounded.{StandsInMemory};

use sdr_base::Media;
use sdr_disk::Disk;
use sdr_machine::Fault;
use sdr_model::{Call, Reply};
use sdr_run::{HandedGround, HandedIn};

// The address in a reply, if it is one.
fn addr_in(reply: Reply) -> Option<u64>
    ensures { result ≡ addr_in reply }
{
    match reply {
        Reply::At { addr } => Some(addr),
        _ => None,
    }
}

// The value in a reply, if it is one.
fn value_in(reply: Reply) -> Option<u64>
    ensures { result ≡ value_in reply }
{
    match reply {
        Reply::Value { value } => Some(value),
        _ => None,
    }
}

// The object in a reply that tells what a name finds, if it does.
fn object_in(reply: Reply) -> Option<u64>
    ensures { result ≡ object_in reply }
{
    match reply {
        Reply::Pair { second, .. } => Some(second),
        _ => None,
    }
}

// Whether a reply tells of bytes.
fn tells_bytes(reply: Reply) -> bool
    ensures { result ≡ tells_bytes reply }
{
    matches!(reply, Reply::Bytes { .. })
}

// Asks a question of a heap.
fn ask<D: Disk, M: Media, J: HandedIn>(
    base: &mut HandedGround<D, M, J>,
    question: &Call,
) -> Result<Reply, Fault>
    requires question { IsQuestion question.now }
    requires ready { IsAskable base.old }
    ensures answers { IfOk result (λ reply. (v : GroundState) → StandsInMemory base.old v →
        AnswersByRow v.now.world question.now reply) }
    ensures asks { OnOk result (AsksOnly D.Disk base.old base.new) }
    ensures fails { OnErr result (FailsAsked D.Disk base.old base.new) }
{
    base.read(question)
}

/// The object that the name of a load finds, if it finds one.
pub fn find<D: Disk, M: Media, J: HandedIn>(
    base: &mut HandedGround<D, M, J>,
    question: &Call,
) -> Result<Option<u64>, Fault>
    requires finds { question.now ≡ Call.Find load_name }
    requires ready { IsAskable base.old }
    ensures found { IfOk result (λ found. (v : GroundState) → StandsInMemory base.old v →
        found ≡ load_object v.now.world) }
    ensures asks { OnOk result (AsksOnly D.Disk base.old base.new) }
    ensures fails { OnErr result (FailsAsked D.Disk base.old base.new) }
{
    let reply = ask(base, question)?;
    Ok(object_in(reply))
}

/// How many elements the list at an address has, if there is one.
pub fn count<D: Disk, M: Media, J: HandedIn>(
    base: &mut HandedGround<D, M, J>,
    list: u64,
) -> Result<Option<u64>, Fault>
    requires ready { IsAskable base.old }
    ensures counted { IfOk result (λ counted. (v : GroundState) → StandsInMemory base.old v →
        counted ≡ option_map (λ (row : SdrList). length row.elements)
        (list_at v.now.world list)) }
    ensures few { IfOk result (λ counted. IfSome counted (λ count. count ≤ 2 ^ 32)) }
    ensures asks { OnOk result (AsksOnly D.Disk base.old base.new) }
    ensures fails { OnErr result (FailsAsked D.Disk base.old base.new) }
{
    let reply = ask(base, &Call::ListLength(list))?;
    Ok(value_in(reply))
}

/// The address of the first element of a list, 0 where it has none.
pub fn first<D: Disk, M: Media, J: HandedIn>(
    base: &mut HandedGround<D, M, J>,
    list: u64,
) -> Result<u64, Fault>
    requires ready { IsAskable base.old }
    ensures first { IfOk result (λ first. (v : GroundState) (row : SdrList) →
        StandsInMemory base.old v → list_at v.now.world list ≡ Some row →
        first ≡ element_addr row.elements 0) }
    ensures asks { OnOk result (AsksOnly D.Disk base.old base.new) }
    ensures fails { OnErr result (FailsAsked D.Disk base.old base.new) }
{
    let reply = ask(base, &Call::First(list))?;
    Ok(addr_in(reply).unwrap_or(0))
}

/// The address of the element behind another, 0 where that is the last one.
pub fn next<D: Disk, M: Media, J: HandedIn>(
    base: &mut HandedGround<D, M, J>,
    element: u64,
) -> Result<u64, Fault>
    requires ready { IsAskable base.old }
    ensures next { IfOk result (λ next. (v : GroundState) (spot : Spot) →
        StandsInMemory base.old v → spot_of v.now.world element ≡ Some spot →
        next ≡ element_addr spot.row.elements (spot.place + 1)) }
    ensures asks { OnOk result (AsksOnly D.Disk base.old base.new) }
    ensures fails { OnErr result (FailsAsked D.Disk base.old base.new) }
{
    let reply = ask(base, &Call::Next(element))?;
    Ok(addr_in(reply).unwrap_or(0))
}

/// The data of an element.
pub fn datum<D: Disk, M: Media, J: HandedIn>(
    base: &mut HandedGround<D, M, J>,
    element: u64,
) -> Result<u64, Fault>
    requires ready { IsAskable base.old }
    ensures datum { IfOk result (λ datum. (v : GroundState) (spot : Spot) →
        StandsInMemory base.old v → spot_of v.now.world element ≡ Some spot →
        datum ≡ datum_at spot.row.elements spot.place) }
    ensures asks { OnOk result (AsksOnly D.Disk base.old base.new) }
    ensures fails { OnErr result (FailsAsked D.Disk base.old base.new) }
{
    let reply = ask(base, &Call::Datum(element))?;
    Ok(value_in(reply).unwrap_or(0))
}

// Whether a raw object is at an address. Of all things a raw object alone answers a call that reads bytes from a place on.
fn is_raw<D: Disk, M: Media, J: HandedIn>(
    base: &mut HandedGround<D, M, J>,
    addr: u64,
) -> Result<bool, Fault>
    requires ready { IsAskable base.old }
    ensures raw { IfOk result (λ raw. (v : GroundState) → StandsInMemory base.old v →
        raw ≡ is_some (as_raw (thing_at v.now.world addr))) }
    ensures asks { OnOk result (AsksOnly D.Disk base.old base.new) }
    ensures fails { OnErr result (FailsAsked D.Disk base.old base.new) }
{
    let reply = ask(base, &Call::Read(addr, 0, 0))?;
    Ok(tells_bytes(reply))
}

// How many bytes the raw object at an address has.
fn raw_length<D: Disk, M: Media, J: HandedIn>(
    base: &mut HandedGround<D, M, J>,
    addr: u64,
) -> Result<u64, Fault>
    requires ready { IsAskable base.old }
    ensures long { IfOk result (λ long. (v : GroundState) (bytes : List ℕ) →
        StandsInMemory base.old v → as_raw (thing_at v.now.world addr) ≡ Some bytes →
        long ≡ length bytes) }
    ensures asks { OnOk result (AsksOnly D.Disk base.old base.new) }
    ensures fails { OnErr result (FailsAsked D.Disk base.old base.new) }
{
    let reply = ask(base, &Call::Length(addr))?;
    Ok(value_in(reply).unwrap_or(0))
}

/// How many bytes the raw object at an address has, 0 where there is none.
pub fn raw_bytes<D: Disk, M: Media, J: HandedIn>(
    base: &mut HandedGround<D, M, J>,
    addr: u64,
) -> Result<u64, Fault>
    requires ready { IsAskable base.old }
    ensures bytes { IfOk result (λ bytes. (v : GroundState) → StandsInMemory base.old v →
        bytes ≡ raw_bytes_at v.now.world addr) }
    ensures few { IfOk result (λ bytes. bytes ≤ longest_raw) }
    ensures asks { OnOk result (AsksOnly D.Disk base.old base.new) }
    ensures fails { OnErr result (FailsAsked D.Disk base.old base.new) }
{
    let raw = is_raw(base, addr)?;
    if raw { raw_length(base, addr) } else { Ok(0) }
}
