// What the first bytes of a disk tell.
ghost use Rattle.std.specs.Prelude.{◌≡◌, ◌≤◌, ◌+◌, ◌==◌, IfOk, length, take};
ghost use Rattle.std.specs.List.{list_all};
ghost use Rattle.sdr_base.specs.Causes.{HasCause};
ghost use Rattle.sdr_base.specs.Parts.{part};
ghost use Rattle.sdr_disk.specs.Moments.{Reads};
ghost use Rattle.sdr_log.specs.Frame.{IsInLimits};
ghost use Rattle.sdr_system.specs.Heads.{OnWhole, Tells, TellsIn};

use sdr_disk::{Disk, DiskFault};
use sdr_log::Frame;

/// The first bytes of every heap.
const MAGIC: &[u8] = b"SDRHEAP1";

/// So many bytes has a head.
const HEAD: usize = 64;

/// So many bytes are read at once.
const PIECE: usize = 4096;

/// What stands where a heap has its head.
#[derive(Clone, Copy, Debug, PartialEq, Eq)]
pub enum Head {
    /// Something else.
    None,
    /// What begins as a head, and isn't one: it ends before, or its version or a length is wrong.
    Wrong,
    /// A head, which names these regions. The disk may be too short for them.
    Whole { frame: Frame },
}

// What a whole line is as a head.
fn head_in(line: &[u8; HEAD]) -> Head
    ensures tells { TellsIn line.now result }
    ensures limits { OnWhole result IsInLimits }
{
    match Frame::from_head(line) {
        Some(frame) => Head::Whole { frame },
        None if line.starts_with(MAGIC) => Head::Wrong,
        None => Head::None,
    }
}

// What the bytes of a disk are that is shorter than a head, all of which are read into a buffer.
#[tactic(auto, using(crate::proofs::HeadsLemmas::looking))]
fn cut_head<D: Disk>(disk: &mut D, all: &mut [u8]) -> Result<Head, DiskFault>
    requires short { length (D.bytes disk.old) ≤ 63 }
    requires all { length all.old ≡ length (D.bytes disk.old) }
    ensures told { IfOk result (λ head. Tells (D.bytes disk.old) head) }
    ensures limits { IfOk result (λ head. OnWhole head IsInLimits) }
    ensures cause { HasCause (D.faults disk.old) (D.faults disk.new) result }
    ensures reads { Reads D.bytes D.tells_crashes D.moment D.may_hold_after disk.old disk.new }
{
    disk.read_at(0, all)?;
    if all.starts_with(MAGIC) {
        Ok(Head::Wrong)
    } else {
        Ok(Head::None)
    }
}

/// What stands where a heap has its head.
#[tactic(auto, using(crate::proofs::HeadsLemmas::looking))]
pub fn head_of<D: Disk>(disk: &mut D) -> Result<Head, DiskFault>
    ensures told { IfOk result (λ head. Tells (D.bytes disk.old) head) }
    ensures limits { IfOk result (λ head. OnWhole head IsInLimits) }
    ensures cause { HasCause (D.faults disk.old) (D.faults disk.new) result }
    ensures reads { Reads D.bytes D.tells_crashes D.moment D.may_hold_after disk.old disk.new }
{
    let mut line = [0; HEAD];
    let have = disk.len();
    if have < HEAD as u64 {
        return cut_head(disk, &mut line[..have as usize]);
    }
    disk.read_at(0, &mut line)?;
    Ok(head_in(&line))
}

fn are_zero(bytes: &[u8]) -> bool
    ensures { result ≡ list_all (λ b. b == 0) bytes.now }
{
    bytes.iter().all(|byte| *byte == 0)
}

// Whether bytes of a disk from a place on, so many, which are read into a buffer, are zero.
#[tactic(auto, using(crate::proofs::HeadsLemmas::looking))]
fn is_zero_part<D: Disk>(
    disk: &mut D,
    place: u64,
    count: u64,
    bytes: &mut [u8],
) -> Result<bool, DiskFault>
    requires inside { place + count ≤ length (D.bytes disk.old) }
    requires room { length bytes.old ≡ count }
    ensures zero { IfOk result (λ zero. zero ≡ list_all (λ b. b == 0) (part place count
        (D.bytes disk.old))) }
    ensures cause { HasCause (D.faults disk.old) (D.faults disk.new) result }
    ensures reads { Reads D.bytes D.tells_crashes D.moment D.may_hold_after disk.old disk.new }
{
    disk.read_at(place, bytes)?;
    Ok(are_zero(bytes))
}

/// Whether the first bytes of a disk, so many, are zero.
#[tactic(auto, using(crate::proofs::HeadsLemmas::looking))]
pub fn is_zero<D: Disk>(disk: &mut D, count: u64) -> Result<bool, DiskFault>
    requires { count ≤ length (D.bytes disk.old) }
    ensures zero { IfOk result (λ zero. zero ≡ list_all (λ b. b == 0) (take count
        (D.bytes disk.old))) }
    ensures cause { HasCause (D.faults disk.old) (D.faults disk.new) result }
    ensures reads { Reads D.bytes D.tells_crashes D.moment D.may_hold_after disk.old disk.new }
{
    let mut piece = [0; PIECE];
    let mut place = 0;
    while place < count {
        let next = (count - place).min(PIECE as u64);
        if !is_zero_part(disk, place, next, &mut piece[..next as usize])? {
            return Ok(false);
        }
        place += next;
    }
    Ok(true)
}
