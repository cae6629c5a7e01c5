// The open batches of a log region, read and checked.
ghost use Rattle.std.specs.Prelude.{◌≡◌, ◌≤◌, ◌<◌, ◌*◌, length, take, IfOk, IfErr, OnOk, Some, None};
ghost use Rattle.sdr_base.specs.Parts.{part};
ghost use Rattle.sdr_log.specs.BackErrors.{OnBadLog, OnFault};
ghost use Rattle.sdr_log.specs.Frame.{first_number};
ghost use Rattle.sdr_log.specs.Log.{records_of};
ghost use Rattle.sdr_log.specs.Reading.{IsBad, IsWrong, ReadsBatch, good_records, noted};

use crate::noted::Noted;
use crate::{BackError, Record};
use byteorder::{BigEndian, ByteOrder};
use sdr_base::Items;
use std::alloc::Global;

// The record at the front.
#[tactic(auto, unfolding(crate::specs::Frame::first_number))]
fn first_record(bytes: &[u8]) -> Record
    requires { 68 ≤ length bytes.now }
    ensures { result ≡ record { line = first_number (take 4 bytes.now); bytes = part 4 64 bytes.now } }
{
    let mut old = [0; 64];
    old.copy_from_slice(&bytes[4..68]);
    Record {
        line: BigEndian::read_u32(&bytes[..4]),
        bytes: old,
    }
}

// Adds so many records from the front.
fn add_records(found: &mut Noted, count: usize, bytes: &[u8]) -> Result<(), BackError>
    requires { 68 * count ≤ length bytes.now }
    ensures added { OnOk result (found.new ≡ noted found.old (records_of count bytes.now)) }
    ensures bad_log { IfErr result (λ why. OnBadLog why
        (IsBad found.old (records_of count bytes.now))) }
    ensures no_fault { IfErr result (λ why. OnFault why ⊥) }
{
    let mut rest = bytes;
    for _ in 0..count {
        found.add(first_record(rest))?;
        rest = &rest[68..];
    }
    Ok(())
}

// Adds the records of a batch whose gate is open, and gives what stands behind it, from the next
// gate on.
fn read_batch<'b>(found: &mut Noted, bytes: &'b [u8]) -> Result<&'b [u8], BackError>
    ensures read { IfOk result (λ rest. ReadsBatch bytes.now rest.now found.old found.new) }
    ensures bad_log { IfErr result (λ why. OnBadLog why (IsWrong found.old bytes.now)) }
    ensures no_fault { IfErr result (λ why. OnFault why ⊥) }
{
    if bytes.len() < 4 {
        return Err(BackError::BadLog);
    }
    let count = BigEndian::read_u32(&bytes[..4]) as usize;
    if count == 0 || bytes.len() <= 4 + 68 * count {
        return Err(BackError::BadLog);
    }
    add_records(found, count, &bytes[4..])?;
    Ok(&bytes[4 + 68 * count..])
}

/// The records of the open batches of a log region, of a heap of so many lines. Unless memory is
/// wanting, the log is bad exactly where there are no good records.
pub fn read_batches(alloc: Global, lines: usize, log: &[u8]) -> Result<Items<Record>, BackError>
    requires { 0 < length log.now }
    ensures read { IfOk result (λ records. good_records lines log.now ≡ Some records) }
    ensures bad_log { IfErr result (λ why. OnBadLog why (good_records lines log.now ≡ None)) }
    ensures no_fault { IfErr result (λ why. OnFault why ⊥) }
{
    let mut found = Noted::new(alloc, lines)?;
    let mut rest = log;
    while rest[0] != 0 {
        rest = read_batch(&mut found, &rest[1..])?;
    }
    Ok(found.into_records())
}
