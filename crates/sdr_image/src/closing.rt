// How the lines of a transaction come to rest.
ghost use Rattle.std.specs.Prelude.{◌≡◌, ◌≤◌, ◌<◌, ◌+◌, ◌*◌, [], ℕ, List, length, replicate, Contains, OnErr, OnOk};
ghost use Rattle.sdr_base.specs.Causes.{HasCause};
ghost use Rattle.sdr_disk.specs.Moments.{AtEach};
ghost use Rattle.sdr_disk.specs.Pending.{IsSynced};
ghost use Rattle.sdr_disk.specs.Tells.{IfTells};
ghost use Rattle.sdr_log.specs.Calls.{AreBelow, HoldLines, KeepsDisk, KeepsOutside};
ghost use Rattle.sdr_log.specs.Frame.{LieInside};
ghost use Rattle.sdr_log.specs.Log.{first_gate, heap_of};
ghost use Rattle.sdr_log.specs.Logged.{GivesHeap};
ghost use Rattle.sdr_log.specs.Spilled.{Ends, GivesEither, Just};
ghost use Rattle.sdr_image.specs.Buffer.{Rises};
ghost use Rattle.sdr_image.specs.Changed.{HasChanged};
ghost use Rattle.sdr_image.specs.Lines.{AreAllMarked, IsLineOf, IsLines, IsRested, IsUntouched, Keeps, Stands, begun_of, now_of};
ghost use Rattle.sdr_image.specs.Marks.{touched_in};
ghost use Rattle.sdr_image.specs.declared.marks.Stand.TheVariants.{Clean};

use crate::cache::Cache;
use crate::lines::Lines;
use crate::marks::Stand;
use sdr_disk::{Disk, DiskFault};
use sdr_log::{Frame, Record, end_spilled, end_with, undo};

// Keeps these lines in a cache. Others may go.
fn keep_all(cache: &mut Cache, lines: &[Record])
    ensures { (f : Frame) (x : List ℕ) → HoldLines (heap_of f x) lines.now
        → AreBelow f.heap_lines lines.now
        → ((e : ℕ × List ℕ) → Contains cache.old e → IsLineOf f x e)
        → (e : ℕ × List ℕ) → Contains cache.new e → IsLineOf f x e }
{
    let mut rest = lines;
    while let Some((first, after)) = rest.split_first() {
        cache.keep(first.line, first.bytes);
        rest = after;
    }
}

// Puts down that all lines are clean.
fn clear_marks(lines: &mut Lines)
    requires { AreAllMarked lines.old }
    ensures { lines.new ≡ record lines.old { marks = replicate (length lines.old.marks) Clean } }
{
    if lines.logged != 0 {
        lines.marks.clear();
        return;
    }
    lines.marks.set_all(lines.buffer.olds(), Stand::Clean);
}

// No line is touched any more.
fn untouch(lines: &mut Lines)
    requires { AreAllMarked lines.old }
    ensures { IsUntouched lines.old lines.new }
{
    clear_marks(lines);
    lines.place = 0;
    lines.logged = 0;
    lines.buffer.clear();
}

// Closes all batches, with one of the buffer's lines, where there are any, opened first.
fn close_all<D: Disk>(disk: &mut D, frame: Frame, lines: &mut Lines) -> Result<(), DiskFault>
    requires regions { LieInside frame (length (D.bytes disk.old)) }
    requires kept { IsLines frame lines.old }
    requires stands { Stands frame (begun_of (D.bytes disk.old)) lines.old (D.bytes disk.old) }
    requires some { 0 < length (touched_in lines.old.marks) }

    ensures ends { OnOk result (Ends frame (now_of frame lines.old (D.bytes disk.old))
        (D.bytes disk.new) (Just (D.bytes disk.new))) }
    ensures synced { OnOk result (IsSynced D.bytes D.tells_crashes D.moment D.may_hold_after
        disk.new) }
    // Where no batch is open yet, there is one alone.
    ensures written { OnOk result (first_gate (D.bytes disk.old) ≡ 0
        → HasChanged frame (begun_of (D.bytes disk.old)) (now_of frame lines.old (D.bytes disk.old))
        (touched_in lines.old.marks) (D.bytes disk.old) (D.bytes disk.new)) }
    ensures cause { HasCause (D.faults disk.old) (D.faults disk.new) result }

    ensures lines { IsLines frame lines.new }
    ensures risen { Rises lines.old.buffer lines.new.buffer }
    ensures logged { lines.new.logged ≡ lines.old.logged }
    ensures marks { lines.new.marks ≡ lines.old.marks }
    ensures cache { lines.new.cache ≡ lines.old.cache }
    ensures disk { KeepsDisk D.bytes D.tells_crashes disk.old disk.new }
    ensures inside { KeepsOutside frame (D.bytes disk.old) (D.bytes disk.new) }
    ensures forward { D.moment disk.old ≤ D.moment disk.new }
    ensures calls { D.moment disk.new
        ≤ D.moment disk.old + 2 * (length (touched_in lines.old.marks) + 7) }
    ensures any_moment { IfTells (D.tells_crashes disk.old)
        (Keeps frame (begun_of (D.bytes disk.old)) (D.bytes disk.old)
        (D.may_hold_after disk.old (D.moment disk.old))
        → AtEach D.moment D.may_hold_after disk.old disk.new (GivesEither
        (begun_of (D.bytes disk.old)) (now_of frame lines.old (D.bytes disk.old)))) }
{
    lines.buffer.rise();
    let count = lines.buffer.len();
    if count == 0 {
        end_spilled(disk, frame)?;
        return Ok(());
    }
    end_with(
        disk,
        frame,
        lines.place,
        lines.buffer.olds(),
        lines.buffer.news(),
        &mut lines.batch,
    )?;
    Ok(())
}

/// Ends the transaction: its lines are on the disk, and none is touched. Those of the buffer are
/// cached.
pub fn end<D: Disk>(disk: &mut D, frame: Frame, lines: &mut Lines) -> Result<(), DiskFault>
    requires regions { LieInside frame (length (D.bytes disk.old)) }
    requires kept { IsLines frame lines.old }
    requires stands { Stands frame (begun_of (D.bytes disk.old)) lines.old (D.bytes disk.old) }
    requires some { 0 < length (touched_in lines.old.marks) }

    ensures rests { OnOk result (IsRested frame (now_of frame lines.old (D.bytes disk.old))
        lines.new (D.bytes disk.new)) }
    ensures synced { OnOk result (IsSynced D.bytes D.tells_crashes D.moment D.may_hold_after
        disk.new) }
    // Where no batch is open yet, there is one alone.
    ensures written { OnOk result (first_gate (D.bytes disk.old) ≡ 0
        → HasChanged frame (begun_of (D.bytes disk.old)) (now_of frame lines.old (D.bytes disk.old))
        (touched_in lines.old.marks) (D.bytes disk.old) (D.bytes disk.new)) }
    ensures cause { HasCause (D.faults disk.old) (D.faults disk.new) result }

    ensures lines { IsLines frame lines.new }
    ensures failed { OnErr result (lines.new.marks ≡ lines.old.marks) }
    ensures disk { KeepsDisk D.bytes D.tells_crashes disk.old disk.new }
    ensures inside { KeepsOutside frame (D.bytes disk.old) (D.bytes disk.new) }
    ensures forward { D.moment disk.old ≤ D.moment disk.new }
    ensures calls { D.moment disk.new
        ≤ D.moment disk.old + 2 * (length (touched_in lines.old.marks) + 7) }
    ensures any_moment { IfTells (D.tells_crashes disk.old)
        (Keeps frame (begun_of (D.bytes disk.old)) (D.bytes disk.old)
        (D.may_hold_after disk.old (D.moment disk.old))
        → AtEach D.moment D.may_hold_after disk.old disk.new (GivesEither
        (begun_of (D.bytes disk.old)) (now_of frame lines.old (D.bytes disk.old)))) }
{
    close_all(disk, frame, lines)?;
    keep_all(&mut lines.cache, lines.buffer.news());
    untouch(lines);
    Ok(())
}

// Puts back the lines that open batches name, where there are any.
fn undo_all<D: Disk>(disk: &mut D, frame: Frame, lines: &Lines) -> Result<(), DiskFault>
    requires regions { LieInside frame (length (D.bytes disk.old)) }
    requires kept { IsLines frame lines.now }
    requires stands { Stands frame (begun_of (D.bytes disk.old)) lines.now (D.bytes disk.old) }

    ensures ends { OnOk result (Ends frame (begun_of (D.bytes disk.old)) (D.bytes disk.new)
        (Just (D.bytes disk.new))) }
    ensures rests { OnOk result (IfTells (D.tells_crashes disk.old)
        (Keeps frame (begun_of (D.bytes disk.old)) (D.bytes disk.old)
        (D.may_hold_after disk.old (D.moment disk.old))
        → Ends frame (begun_of (D.bytes disk.old)) (D.bytes disk.new)
        (D.may_hold_after disk.new (D.moment disk.new)))) }
    ensures cause { HasCause (D.faults disk.old) (D.faults disk.new) result }

    ensures same { lines.now.logged ≡ 0 → disk.new ≡ disk.old }
    ensures some { OnErr result (0 < lines.now.logged) }
    ensures disk { KeepsDisk D.bytes D.tells_crashes disk.old disk.new }
    ensures inside { KeepsOutside frame (D.bytes disk.old) (D.bytes disk.new) }
    ensures forward { D.moment disk.old ≤ D.moment disk.new }
    ensures calls { D.moment disk.new ≤ D.moment disk.old + 2 * (lines.now.logged + 3) }
    ensures any_moment { IfTells (D.tells_crashes disk.old)
        (Keeps frame (begun_of (D.bytes disk.old)) (D.bytes disk.old)
        (D.may_hold_after disk.old (D.moment disk.old))
        → AtEach D.moment D.may_hold_after disk.old disk.new
        (GivesHeap (begun_of (D.bytes disk.old)))) }
{
    if lines.logged == 0 {
        return Ok(());
    }
    undo(disk, frame, lines.place)?;
    Ok(())
}

/// Ends the transaction with the bytes at begin: the lines that open batches name are put back on
/// the disk, and none is touched. Where there are none, no call of the disk is made.
pub fn take_back<D: Disk>(disk: &mut D, frame: Frame, lines: &mut Lines) -> Result<(), DiskFault>
    requires regions { LieInside frame (length (D.bytes disk.old)) }
    requires kept { IsLines frame lines.old }
    requires stands { Stands frame (begun_of (D.bytes disk.old)) lines.old (D.bytes disk.old) }

    ensures rests { OnOk result (IsRested frame (begun_of (D.bytes disk.old)) lines.new
        (D.bytes disk.new)) }
    ensures kept { OnOk result (IfTells (D.tells_crashes disk.old)
        (Keeps frame (begun_of (D.bytes disk.old)) (D.bytes disk.old)
        (D.may_hold_after disk.old (D.moment disk.old))
        → Keeps frame (begun_of (D.bytes disk.old)) (D.bytes disk.new)
        (D.may_hold_after disk.new (D.moment disk.new)))) }
    ensures cause { HasCause (D.faults disk.old) (D.faults disk.new) result }

    ensures lines { IsLines frame lines.new }
    ensures failed { OnErr result (lines.new ≡ lines.old) }
    ensures same { lines.old.logged ≡ 0 → disk.new ≡ disk.old }
    ensures some { OnErr result (0 < lines.old.logged) }
    ensures disk { KeepsDisk D.bytes D.tells_crashes disk.old disk.new }
    ensures inside { KeepsOutside frame (D.bytes disk.old) (D.bytes disk.new) }
    ensures forward { D.moment disk.old ≤ D.moment disk.new }
    ensures calls { D.moment disk.new ≤ D.moment disk.old + 2 * (lines.old.logged + 3) }
    ensures any_moment { IfTells (D.tells_crashes disk.old)
        (Keeps frame (begun_of (D.bytes disk.old)) (D.bytes disk.old)
        (D.may_hold_after disk.old (D.moment disk.old))
        → AtEach D.moment D.may_hold_after disk.old disk.new
        (GivesHeap (begun_of (D.bytes disk.old)))) }
{
    undo_all(disk, frame, lines)?;
    untouch(lines);
    Ok(())
}
