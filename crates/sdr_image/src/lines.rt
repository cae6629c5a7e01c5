// The lines of an opened disk: those that a transaction has touched, and a cache of clean ones.
ghost use Rattle.std.specs.Prelude.{◌≡◌, ◌≤◌, ◌<◌, ◌+◌, ◌*◌, ◌⊎◌, ◌∷◌, [], ℕ, true, length, Contains};
ghost use Rattle.std.specs.Prelude.{IfOk, List, OnOk, IsPermutation, replicate};
ghost use Rattle.sdr_base.specs.Causes.{HasCause};
ghost use Rattle.sdr_base.specs.Cells.{with_lines};
ghost use Rattle.sdr_base.specs.Parts.{overwrite, part};
ghost use Rattle.sdr_disk.specs.Moments.{Reads};
ghost use Rattle.sdr_log.specs.Frame.{LieInside, room_of};
ghost use Rattle.sdr_log.specs.Log.{heap_of};
ghost use Rattle.sdr_image.specs.Lines.{AreClean, IsLineOf, IsLines, Leaves, Stands, Steps, begun_of, now_of};
ghost use Rattle.sdr_image.specs.Marks.{is_clean, is_logged, stand_at, touched_in};
ghost use Rattle.sdr_image.specs.declared.marks.Stand.TheVariants.{Clean, Logged};

use crate::buffer::Buffer;
use crate::cache::Cache;
use crate::marks::{Marks, Stand};
use sdr_base::LINE;
use sdr_disk::{Disk, DiskFault};
use sdr_log::Frame;

/// Where the lines of an opened disk stand.
#[derive(Drop)]
pub struct Lines {
    /// Where the next batch goes in the log region.
    pub place: u64,
    /// How many lines open batches name.
    pub logged: u64,
    pub buffer: Buffer,
    pub marks: Marks,
    /// Memory for a batch.
    pub batch: Vec<u8>,
    pub cache: Cache,
}

/// The bytes of a line of the heap region.
pub fn read_line<D: Disk>(disk: &mut D, frame: Frame, line: u64) -> Result<[u8; 64], DiskFault>
    requires regions { LieInside frame (length (D.bytes disk.old)) }
    requires below { line < frame.heap_lines }
    ensures given { IfOk result (λ bytes. bytes
        ≡ part (LINE * line) LINE (heap_of frame (D.bytes disk.old))) }
    ensures cause { HasCause (D.faults disk.old) (D.faults disk.new) result }
    ensures reads { Reads D.bytes D.tells_crashes D.moment D.may_hold_after disk.old disk.new }
{
    let mut bytes = [0; 64];
    disk.read_at(frame.heap_place() + LINE * line, &mut bytes)?;
    Ok(bytes)
}

/// The bytes of a clean line. Where it is cached, the disk isn't reached; else it is cached then.
pub fn clean_line<D: Disk>(
    disk: &mut D,
    frame: Frame,
    cache: &mut Cache,
    line: u64,
) -> Result<[u8; 64], DiskFault>
    requires regions { LieInside frame (length (D.bytes disk.old)) }
    requires below { line < frame.heap_lines }
    requires clean { (e : ℕ × List ℕ) → Contains cache.old e
        → IsLineOf frame (D.bytes disk.old) e }
    ensures given { IfOk result (λ bytes. bytes
        ≡ part (LINE * line) LINE (heap_of frame (D.bytes disk.old))) }
    ensures kept { (e : ℕ × List ℕ) → Contains cache.new e
        → Contains cache.old e ⊎ ((e.0 ≡ line) × IsLineOf frame (D.bytes disk.old) e) }
    ensures cause { HasCause (D.faults disk.old) (D.faults disk.new) result }
    ensures reads { Reads D.bytes D.tells_crashes D.moment D.may_hold_after disk.old disk.new }
{
    if let Some(bytes) = cache.find(line as u32) {
        return Ok(*bytes);
    }
    let bytes = read_line(disk, frame, line)?;
    cache.keep(line as u32, bytes);
    Ok(bytes)
}

// Copies bytes of a line, from a place of it on.
fn copy(line: &[u8], at: usize, into: &mut [u8])
    requires { at + length into.old ≤ length line.now }
    ensures { into.new ≡ part at (length into.old) line.now }
{
    into.copy_from_slice(&line[at..at + into.len()]);
}

// Fills a buffer with bytes of a clean line, from a place of it on.
fn copy_clean<D: Disk>(
    disk: &mut D,
    frame: Frame,
    cache: &mut Cache,
    line: u64,
    at: usize,
    into: &mut [u8],
) -> Result<(), DiskFault>
    requires regions { LieInside frame (length (D.bytes disk.old)) }
    requires below { line < frame.heap_lines }
    requires inside { at + length into.old ≤ LINE }
    requires clean { (e : ℕ × List ℕ) → Contains cache.old e
        → IsLineOf frame (D.bytes disk.old) e }
    ensures given { OnOk result (into.new ≡ part (LINE * line + at) (length into.old)
        (heap_of frame (D.bytes disk.old))) }
    ensures kept { (e : ℕ × List ℕ) → Contains cache.new e
        → Contains cache.old e ⊎ ((e.0 ≡ line) × IsLineOf frame (D.bytes disk.old) e) }
    ensures cause { HasCause (D.faults disk.old) (D.faults disk.new) result }
    ensures reads { Reads D.bytes D.tells_crashes D.moment D.may_hold_after disk.old disk.new }
{
    if let Some(bytes) = cache.find(line as u32) {
        copy(bytes, at, into);
        return Ok(());
    }
    let bytes = clean_line(disk, frame, cache, line)?;
    copy(&bytes, at, into);
    Ok(())
}

/// Fills a buffer with bytes of a line as they are now, from a place of it on.
pub fn copy_now<D: Disk>(
    disk: &mut D,
    frame: Frame,
    lines: &mut Lines,
    line: u64,
    at: usize,
    into: &mut [u8],
) -> Result<(), DiskFault>
    requires regions { LieInside frame (length (D.bytes disk.old)) }
    requires below { line < frame.heap_lines }
    requires inside { at + length into.old ≤ LINE }
    requires kept { IsLines frame lines.old }
    requires stands { Stands frame (begun_of (D.bytes disk.old)) lines.old (D.bytes disk.old) }
    ensures given { OnOk result (into.new ≡ part (LINE * line + at) (length into.old)
        (now_of frame lines.old (D.bytes disk.old))) }
    ensures same { lines.new ≡ record lines.old { cache = lines.new.cache } }
    ensures clean { AreClean frame (D.bytes disk.old) lines.old.marks lines.new.cache }
    ensures cause { HasCause (D.faults disk.old) (D.faults disk.new) result }
    ensures reads { Reads D.bytes D.tells_crashes D.moment D.may_hold_after disk.old disk.new }
{
    match lines.marks.at(line) {
        Stand::Buffered(place) => {
            copy(lines.buffer.at(place), at, into);
            Ok(())
        }
        Stand::Clean => copy_clean(disk, frame, &mut lines.cache, line, at, into),
        Stand::Logged => {
            let bytes = read_line(disk, frame, line)?;
            copy(&bytes, at, into);
            Ok(())
        }
    }
}
