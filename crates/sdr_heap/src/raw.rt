// The calls on raw objects, over any `Objects`.
ghost use Rattle.std.specs.Prelude.{◌≡◌, ◌+◌, ◌/◌, ◌≤◌, ◌<◌, length, IfOk, IfErr, OnErr, OnOk};
ghost use Rattle.sdr_base.specs.Blocks.{IsKind};
ghost use Rattle.sdr_base.specs.Moves.{KeepsSome};
ghost use Rattle.sdr_base.specs.Objects.{with_mark};
ghost use Rattle.sdr_base.specs.Transaction.{LeavesTouched};
ghost use Rattle.sdr_base.specs.Works.{Looks, Spends};
ghost use Rattle.sdr_base.specs.declared.layout.raw.TheConstants.{BYTES};
ghost use Rattle.sdr_heap.specs.Raw.{HasTold, IsMissing, HasSourceWord};
ghost use Rattle.sdr_heap.specs.Raw.{MakesRaw, MallocStops, Frees, FreeStops};
ghost use Rattle.sdr_heap.specs.Raw.{ReadsRaw, ReadStops, Stages, WritesRaw, WriteStops};
ghost use Rattle.zco_ref.specs.Kept.{IsRaw};

use sdr_base::layout::raw::BYTES;
use sdr_base::limits::{LONGEST_RAW, LONGEST_READ};
use sdr_base::{Addr, Kind, Objects, Refusal, Stop, check_failed, expect_kind};
use zco_ref::expect_unnamed;

/// Makes a raw object of so many zero bytes, which no source names.
#[tactic(auto, using(sdr_base::proofs::LeavingLemmas::leaving))]
pub fn malloc<O: Objects>(o: &mut O, bytes: u64) -> Result<Addr, Stop>
    requires kept { KeepsSome (O.keeps o.old) }
    requires spare { 1 ≤ (O.heap o.old).spare }
    ensures made { IfOk result (λ addr. MakesRaw bytes addr (O.heap o.old) (O.heap o.new)) }
    ensures refused { IfErr result (MallocStops bytes (O.heap o.old) (O.heap o.new)) }
    ensures untouched { IfErr result (LeavesTouched (O.transaction o.old) (O.transaction o.new)) }
    ensures works { Spends O.HasHeap (24 + (BYTES + bytes) / 64) o.old o.new result }
{
    check_failed(o)?;
    if bytes > LONGEST_RAW {
        return Err(Stop::Refused(Refusal::BadLength {
            length: bytes,
            most: LONGEST_RAW,
        }));
    }
    o.take(Kind::Raw, BYTES + bytes)
}

/// Gives a raw object or a string back. It is refused `InUse` where a source names the raw object,
/// with how many extents of both accounts name that.
#[tactic(auto, using(sdr_base::proofs::LeavingLemmas::leaving, crate::proofs::RawLemmas::freeing))]
pub fn free<O: Objects>(o: &mut O, addr: Addr) -> Result<(), Stop>
    requires kept { KeepsSome (O.keeps o.old) }
    requires spare { 1 ≤ (O.heap o.old).spare }
    requires raw { IsRaw (O.heap o.old).blocks addr }
    ensures given { OnOk result (Frees addr (O.heap o.old) (O.heap o.new)) }
    ensures refused { IfErr result (FreeStops addr (O.heap o.old) (O.heap o.new)) }
    ensures untouched { IfErr result (LeavesTouched (O.transaction o.old) (O.transaction o.new)) }
    ensures works { Spends O.HasHeap 24 o.old o.new result }
{
    match o.kind(addr)? {
        None => Err(Stop::Refused(Refusal::BadAddress { addr })),
        Some((Kind::Raw, _)) => free_raw(o, addr),
        Some((Kind::Text, _)) => o.give(addr),
        Some((kind, _)) => Err(Stop::Refused(Refusal::WrongKind {
            addr,
            kind: kind.number(),
        })),
    }
}

// Gives a raw object back, unless a source names it.
#[tactic(auto, using(sdr_base::proofs::LeavingLemmas::leaving))]
fn free_raw<O: Objects>(o: &mut O, addr: Addr) -> Result<(), Stop>
    requires kept { KeepsSome (O.keeps o.old) }
    requires spare { 1 ≤ (O.heap o.old).spare }
    requires raw { IsRaw (O.heap o.old).blocks addr }
    requires kind { IsKind ((O.heap o.old).blocks addr) Kind.Raw }
    ensures given { OnOk result (Frees addr (O.heap o.old) (O.heap o.new)) }
    ensures refused { IfErr result (FreeStops addr (O.heap o.old) (O.heap o.new)) }
    ensures untouched { IfErr result (LeavesTouched (O.transaction o.old) (O.transaction o.new)) }
    ensures works { Spends O.HasHeap 24 o.old o.new result }
{
    expect_unnamed(o, addr)?;
    o.give(addr)
}

/// The length of a block in bytes: of a raw object those that it was made with, of any other all
/// that it has.
pub fn length<O: Objects>(o: &mut O, addr: Addr) -> Result<u64, Stop>
    requires kept { KeepsSome (O.keeps o.old) }
    ensures given { IfOk result (λ value. HasTold ((O.heap o.old).blocks addr) value) }
    ensures refused { IfErr result (IsMissing ((O.heap o.old).blocks addr) addr) }
    ensures looks { Looks O.HasHeap o.old o.new result }
{
    match o.kind(addr)? {
        None => Err(Stop::Refused(Refusal::BadAddress { addr })),
        Some((Kind::Raw, bytes)) => Ok(bytes.saturating_sub(BYTES)),
        Some((_, bytes)) => Ok(bytes),
    }
}

// Refuses a range that exceeds an object of so many bytes, its source word among them.
fn check_range(addr: Addr, place: u64, length: u64, bytes: u64) -> Result<(), Stop>
    requires whole { BYTES ≤ bytes }
    ensures inside { OnOk result (BYTES + (place + length) ≤ bytes) }
    ensures outside { IfErr result (λ stop.
        (stop ≡ Stop.Refused (Refusal.OutOfBounds addr place length))
        × (bytes < BYTES + (place + length))) }
{
    match place.checked_add(length) {
        Some(end) if end <= bytes - BYTES => Ok(()),
        _ => Err(Stop::Refused(Refusal::OutOfBounds {
            addr,
            place,
            length,
        })),
    }
}

// Refuses a read of more bytes than one read gives.
fn check_count(count: u64) -> Result<(), Stop>
    ensures few { OnOk result (count ≤ LONGEST_READ) }
    ensures many { IfErr result (λ stop. (stop
        ≡ Stop.Refused (Refusal.BadLength count LONGEST_READ)) × (LONGEST_READ < count)) }
{
    if count > LONGEST_READ {
        return Err(Stop::Refused(Refusal::BadLength {
            length: count,
            most: LONGEST_READ,
        }));
    }
    Ok(())
}

/// Fills a buffer, of 4,096 bytes at most, with the bytes of a raw object from a place on.
pub fn read<O: Objects>(o: &mut O, addr: Addr, place: u64, into: &mut [u8]) -> Result<(), Stop>
    requires kept { KeepsSome (O.keeps o.old) }
    requires whole { HasSourceWord ((O.heap o.old).blocks addr) }
    ensures given { OnOk result
        (ReadsRaw ((O.heap o.old).blocks addr) place (length into.old) into.new) }
    ensures refused { IfErr result
        (ReadStops ((O.heap o.old).blocks addr) addr place (length into.old)) }
    ensures looks { Looks O.HasHeap o.old o.new result }
{
    let bytes = expect_kind(o, addr, Kind::Raw)?;
    check_count(into.len() as u64)?;
    check_range(addr, place, into.len() as u64, bytes)?;
    o.get(addr, BYTES + place, into)
}

/// Writes bytes into a raw object from a place on, where it was taken or staged in this transaction.
#[tactic(auto, using(sdr_base::proofs::LeavingLemmas::leaving))]
pub fn write<O: Objects>(o: &mut O, addr: Addr, place: u64, from: &[u8]) -> Result<(), Stop>
    requires kept { KeepsSome (O.keeps o.old) }
    requires whole { HasSourceWord ((O.heap o.old).blocks addr) }
    ensures written { OnOk result
        (WritesRaw addr place from.now (O.heap o.old) (O.heap o.new)) }
    ensures refused { IfErr result (WriteStops ((O.heap o.old).blocks addr) addr place
        (length from.now) (O.heap o.old) (O.heap o.new)) }
    ensures untouched { IfErr result (LeavesTouched (O.transaction o.old) (O.transaction o.new)) }
    ensures works { Spends O.HasHeap (2 + length from.now / 64) o.old o.new result }
{
    let have = expect_kind(o, addr, Kind::Raw)?;
    check_range(addr, place, from.len() as u64, have)?;
    if !o.marked(addr) {
        return Err(Stop::Refused(Refusal::NotStaged { addr }));
    }
    o.put(addr, BYTES + place, from)
}

/// Fills a buffer, of 4,096 bytes at most, with the first bytes of a raw object, which may be written
/// in this transaction from now on.
pub fn stage<O: Objects>(o: &mut O, addr: Addr, into: &mut [u8]) -> Result<(), Stop>
    requires kept { KeepsSome (O.keeps o.old) }
    requires whole { HasSourceWord ((O.heap o.old).blocks addr) }
    ensures given { OnOk result
        (ReadsRaw ((O.heap o.old).blocks addr) 0 (length into.old) into.new) }
    ensures marked { OnOk result (O.heap o.new ≡ with_mark (O.heap o.old) addr) }
    ensures refused { IfErr result
        (ReadStops ((O.heap o.old).blocks addr) addr 0 (length into.old)) }
    ensures same { OnErr result (O.heap o.new ≡ O.heap o.old) }
    ensures stages { Stages O.HasHeap o.old o.new result }
{
    read(o, addr, 0, into)?;
    o.mark(addr);
    Ok(())
}
