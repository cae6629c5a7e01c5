// Bytes of a line, written within a transaction.
ghost use Rattle.std.specs.Prelude.{◌≡◌, ◌≢◌, ◌≤◌, ◌<◌, ◌+◌, ◌*◌, ◌^◌, ◌∷◌, ◌++◌, [], ℕ, List, true, length};
ghost use Rattle.std.specs.Prelude.{Contains, OnOk, IsPermutation, slice_set, get_or};
ghost use Rattle.sdr_base.specs.Causes.{HasCause};
ghost use Rattle.sdr_base.specs.Cells.{with_lines};
ghost use Rattle.sdr_base.specs.Parts.{overwrite};
ghost use Rattle.sdr_log.specs.Frame.{LieInside, room_of};
ghost use Rattle.sdr_image.specs.Buffer.{with_bytes};
ghost use Rattle.sdr_image.specs.Lines.{IsLines, Leaves, Stands, Steps, begun_of, now_of};
ghost use Rattle.sdr_image.specs.Marks.{is_clean, stand_at, touched_in};
ghost use Rattle.sdr_image.specs.declared.marks.Stand.TheVariants.{Buffered, Logged};

use crate::buffer::MOST_BUFFERED;
use crate::lines::{Lines, clean_line, read_line};
use crate::marks::Stand;
use crate::spilling::make_room;
use sdr_base::{LINE, put_at};
use sdr_disk::{Disk, DiskFault};
use sdr_log::{Frame, Record, put_through};

// Puts a clean line into the buffer.
fn enter(lines: &mut Lines, line: u64, old: [u8; 64], new: [u8; 64])
    requires room { length lines.old.buffer.olds < MOST_BUFFERED }
    requires below { line < length lines.old.marks }
    requires small { line < 2 ^ 32 }
    requires old { length old ≡ LINE }
    requires new { length new ≡ LINE }
    ensures entered { lines.new ≡ record lines.old {
      buffer = record {
        olds = lines.old.buffer.olds ++ record { line = line; bytes = old } ∷ [];
        news = lines.old.buffer.news ++ record { line = line; bytes = new } ∷ [];
      };
      marks = slice_set lines.old.marks line (Buffered (length lines.old.buffer.olds));
      cache = lines.new.cache;
    } }
    ensures cache { (e : ℕ × List ℕ) → Contains lines.new.cache e
        → Contains lines.old.cache e × (e.0 ≢ line) }
{
    let place = lines.buffer.len() as u8;
    lines.buffer.push(line as u32, old, new);
    lines.marks.set(line, Stand::Buffered(place));
    lines.cache.forget(line as u32);
}

// Writes bytes of a clean line, which enters the buffer.
fn write_clean<D: Disk>(
    disk: &mut D,
    frame: Frame,
    lines: &mut Lines,
    line: u64,
    at: usize,
    from: &[u8],
) -> Result<(), DiskFault>
    requires regions { LieInside frame (length (D.bytes disk.old)) }
    requires below { line < frame.heap_lines }
    requires inside { at + length from.now ≤ LINE }
    requires kept { IsLines frame lines.old }
    requires stands { Stands frame (begun_of (D.bytes disk.old)) lines.old (D.bytes disk.old) }
    requires clean { is_clean (stand_at lines.old.marks line) ≡ true }
    requires room { length (touched_in lines.old.marks) < room_of frame }

    ensures touched { OnOk result (IsPermutation (touched_in lines.old.marks ++ line ∷ [])
        (touched_in lines.new.marks)) }
    ensures leaves { OnOk result (Leaves D.bytes D.tells_crashes D.moment D.may_hold_after frame
        disk.old disk.new lines.new (overwrite (LINE * line + at) from.now
        (now_of frame lines.old (D.bytes disk.old)))) }
    ensures cause { HasCause (D.faults disk.old) (D.faults disk.new) result }

    ensures few { length (touched_in lines.new.marks) ≤ length (touched_in lines.old.marks) + 1 }
    ensures steps { Steps D.bytes D.tells_crashes D.moment D.may_hold_after frame disk.old disk.new
        lines.old lines.new }
    ensures calls { D.moment disk.new ≤ D.moment disk.old + 2 * 68 }
{
    let old = clean_line(disk, frame, &mut lines.cache, line)?;
    make_room(disk, frame, lines)?;
    let mut new = old;
    put_at(&mut new, at, from);
    enter(lines, line, old, new);
    Ok(())
}

// Writes bytes of a line that an open batch names.
fn write_logged<D: Disk>(
    disk: &mut D,
    frame: Frame,
    lines: &mut Lines,
    line: u64,
    at: usize,
    from: &[u8],
) -> Result<(), DiskFault>
    requires regions { LieInside frame (length (D.bytes disk.old)) }
    requires below { line < frame.heap_lines }
    requires inside { at + length from.now ≤ LINE }
    requires kept { IsLines frame lines.old }
    requires stands { Stands frame (begun_of (D.bytes disk.old)) lines.old (D.bytes disk.old) }
    requires logged { stand_at lines.old.marks line ≡ Logged }

    ensures same { lines.new ≡ lines.old }
    ensures leaves { OnOk result (Leaves D.bytes D.tells_crashes D.moment D.may_hold_after frame
        disk.old disk.new lines.new (overwrite (LINE * line + at) from.now
        (now_of frame lines.old (D.bytes disk.old)))) }
    ensures cause { HasCause (D.faults disk.old) (D.faults disk.new) result }

    ensures steps { Steps D.bytes D.tells_crashes D.moment D.may_hold_after frame disk.old disk.new
        lines.old lines.new }
    ensures calls { D.moment disk.new ≤ D.moment disk.old + 2 }
{
    let mut bytes = read_line(disk, frame, line)?;
    put_at(&mut bytes, at, from);
    let record = Record {
        line: line as u32,
        bytes,
    };
    put_through(disk, frame, record)?;
    Ok(())
}

/// Writes bytes of a line from a place of it on, where there is room for the line.
pub fn write_line<D: Disk>(
    disk: &mut D,
    frame: Frame,
    lines: &mut Lines,
    line: u64,
    at: usize,
    from: &[u8],
) -> Result<(), DiskFault>
    requires regions { LieInside frame (length (D.bytes disk.old)) }
    requires below { line < frame.heap_lines }
    requires inside { at + length from.now ≤ LINE }
    requires kept { IsLines frame lines.old }
    requires stands { Stands frame (begun_of (D.bytes disk.old)) lines.old (D.bytes disk.old) }
    requires room { is_clean (stand_at lines.old.marks line) ≡ true
        → length (touched_in lines.old.marks) < room_of frame }

    ensures touched { OnOk result (IsPermutation (with_lines (touched_in lines.old.marks)
        (line ∷ [])) (touched_in lines.new.marks)) }
    ensures leaves { OnOk result (Leaves D.bytes D.tells_crashes D.moment D.may_hold_after frame
        disk.old disk.new lines.new (overwrite (LINE * line + at) from.now
        (now_of frame lines.old (D.bytes disk.old)))) }
    ensures cause { HasCause (D.faults disk.old) (D.faults disk.new) result }

    ensures few { length (touched_in lines.new.marks) ≤ length (touched_in lines.old.marks) + 1 }
    ensures steps { Steps D.bytes D.tells_crashes D.moment D.may_hold_after frame disk.old disk.new
        lines.old lines.new }
    ensures calls { D.moment disk.new ≤ D.moment disk.old + 2 * 68 }
{
    match lines.marks.at(line) {
        Stand::Clean => write_clean(disk, frame, lines, line, at, from),
        Stand::Logged => write_logged(disk, frame, lines, line, at, from),
        Stand::Buffered(place) => {
            lines.buffer.put(place, at, from);
            Ok(())
        }
    }
}
