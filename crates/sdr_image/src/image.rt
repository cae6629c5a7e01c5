// An opened disk.
ghost use Rattle.std.specs.Prelude.{◌≡◌, ◌≤◌, ◌<◌, ◌+◌, ◌-◌, ◌*◌, ◌/◌, ◌%◌, ◌^◌, ◌∷◌, [], ℕ, true, false, length, min};
ghost use Rattle.std.specs.Prelude.{IfOk, IfErr, IsErrOf, IsPermutation, OnErr, OnOk, None};
ghost use Rattle.std.specs.List.{range_with_len};
ghost use Rattle.sdr_base.specs.Cells.{is_among, with_lines, lines_of, TouchesLines, TouchesSome};
ghost use Rattle.sdr_base.specs.Parts.{overwrite, part};
ghost use Rattle.sdr_base.specs.Transaction.{HasReason, IfRefused, TouchesNone};
ghost use Rattle.sdr_disk.specs.Moments.{AtEach, Only, Reads};
ghost use Rattle.sdr_disk.specs.Tells.{IfTells};
ghost use Rattle.sdr_log.specs.Calls.{KeepsDisk, KeepsOutside, KeepsRest};
ghost use Rattle.sdr_log.specs.Frame.{room_of};
ghost use Rattle.sdr_log.specs.Left.{IsLeftFrom};
ghost use Rattle.sdr_log.specs.Log.{first_gate, put_back_of};
ghost use Rattle.sdr_log.specs.Logged.{GivesHeap, GivesSame};
ghost use Rattle.sdr_log.specs.Spilled.{GivesEither};
ghost use Rattle.sdr_image.specs.Lines.{IsSpan};
ghost use Rattle.sdr_image.specs.Opened.{Holds, IsQuiet, KeepsBegun, LeavesHeap, Rests, StaysAt};
ghost use Rattle.sdr_image.specs.Opened.{transaction_of};
ghost use Rattle.sdr_image.specs.Opening.{MayBeOpened, OnNotFormatted, UnlessFault};
ghost use Rattle.sdr_image.specs.Saved.{Saves, calls_of};

use crate::closing::{end, take_back};
use crate::lines::{Lines, copy_now};
use crate::opening::load;
use crate::span::span;
use crate::writing::write_line;
use crate::{ImageError, ImageShut};
use sdr_base::{Cells, LINE, Refusal, Stop};
use sdr_disk::Disk;
use sdr_log::Frame;
use std::alloc::Global;
use std::marker::Model;

/// A disk with a heap on it, opened. A transaction reaches the disk whole or not at all: up to its
/// commit a crash leaves the bytes at begin, also where some of its lines are on the disk already.
/// At most 64 touched lines and 256 clean ones stand in memory, and a byte for each line. After a disk
/// fault no call reaches the disk any more. No call after `open` needs memory.
#[derive(Drop)]
pub struct Image<D: Disk> {
    disk: D,
    frame: Frame,
    lines: Lines,
    is_open: bool,
    /// Whether a call has answered `DiskFault`.
    failed: bool,
    /// How many lines opening has put back.
    restored: u64,
}

impl<D: Disk> Model for Image<D> {
    ghost use Rattle.sdr_image.specs.Opened.{Opened, IsImage, image_of};

    ghost Value = { Opened D };

    ghost view = { λ s. image_of D.bytes s.disk s.frame s.lines s.is_open s.failed s.restored };

    ghost invariant = { λ s. IsImage (D.bytes s.disk) s.frame s.lines s.is_open s.failed };
}

// How many bytes of a line a call covers that goes from a place on over so many bytes: from which of
// them, counted from the line's first, and up to which, counted from the call's first.
fn piece(place: u64, count: usize, line: u64) -> (usize, usize, usize)
    requires small { place + count < 2 ^ 60 }
    requires first { place < LINE * line + LINE }
    requires last { LINE * line < place + count }
    ensures at { result.0 ≡ place + result.1 - LINE * line }
    ensures from { result.1 ≡ LINE * line - place }
    ensures to { result.2 ≡ min (LINE * line + LINE - place) count }
{
    let from = (LINE * line).saturating_sub(place);
    let to = (LINE * line + LINE - place).min(count as u64);
    (
        (place + from - LINE * line) as usize,
        from as usize,
        to as usize,
    )
}

impl<D: Disk> Image<D> {
    ghost use Rattle.sdr_image.specs.Opened.{Opened};
    ghost use Rattle.sdr_image.specs.Opening.{FailsOpening, IsOpened, Returns, disk_in};

    /// Opens a disk that has a heap. Where batches are open, their lines are put back: by a write
    /// for each, a sync, a write and a sync; else it is only read. All memory is taken here, before the
    /// first write. A crash on the way leaves the same heap as one before, where nothing is pending
    /// on the disk that is handed in, or a recovery of it was stopped.
    pub fn open(alloc: Global, mut disk: D) -> Result<Image<D>, ImageShut<D>>
        ensures opened { IfOk result (IsOpened D.bytes D.tells_crashes D.moment D.may_hold_after
            disk) }
        ensures not_formatted { IfErr result (λ shut. OnNotFormatted shut.why (put_back_of
            (D.bytes disk) ≡ None)) }
        ensures disk { Returns D.bytes D.tells_crashes D.faults disk result }
        ensures inside { KeepsRest (D.bytes disk) (D.bytes (disk_in result)) }
        // Where it isn't opened and hasn't failed, the disk was only read.
        ensures same { IfErr result (λ shut. UnlessFault shut.why (Reads D.bytes D.tells_crashes
            D.moment D.may_hold_after disk shut.disk)) }
        // After a fault it may be opened again, or it failed as the first gate was being closed.
        ensures faulted { IfErr result (λ shut. FailsOpening D.bytes D.tells_crashes D.moment
            D.may_hold_after disk shut.disk) }
        ensures quiet { first_gate (D.bytes disk) ≡ 0
            → Reads D.bytes D.tells_crashes D.moment D.may_hold_after disk (disk_in result) }
        ensures forward { D.moment disk ≤ D.moment (disk_in result) }
        ensures calls { IfOk result (λ i.
            D.moment i.disk ≤ D.moment disk + 2 * (i.restored + 3)) }
        // Where nothing was pending, a crash leaves what a recovery that was stopped may leave.
        ensures left { IfTells (D.tells_crashes disk)
            (Only (D.bytes disk) (D.may_hold_after disk (D.moment disk))
            → AtEach D.moment D.may_hold_after disk (disk_in result) (IsLeftFrom (D.bytes disk))) }
        ensures any_moment { IfTells (D.tells_crashes disk)
            (MayBeOpened (D.bytes disk) (D.may_hold_after disk (D.moment disk))
            → AtEach D.moment D.may_hold_after disk (disk_in result) (GivesSame (D.bytes disk))) }
    {
        match load(alloc, &mut disk) {
            Ok(loaded) => Ok(Image {
                disk,
                frame: loaded.frame,
                lines: loaded.lines,
                is_open: false,
                failed: false,
                restored: loaded.restored,
            }),
            Err(why) => Err(ImageShut { why, disk }),
        }
    }

    /// Begins a transaction.
    pub fn begin(&mut self)
        requires { self.old.is_open ≡ false }
        ensures begun { self.new ≡ record self.old { is_open = true } }
        ensures bytes { self.new.begun ≡ self.new.bytes }
        ensures touched { self.new.touched ≡ [] }
    {
        self.is_open = true;
    }

    /// How many lines the transaction has touched.
    pub fn touched(&self) -> u64
        ensures { result ≡ length self.now.touched }
    {
        self.lines.logged + self.lines.buffer.len() as u64
    }

    /// How many lines stand in memory: those of the buffer and of the cache.
    pub fn kept(&self) -> usize
        ensures { result ≤ 320 }
    {
        self.lines.buffer.len() + self.lines.cache.len()
    }

    /// How many lines a transaction may touch.
    pub fn room(&self) -> u64
        ensures { result ≡ room_of self.now.frame }
    {
        self.frame.room()
    }

    /// How many lines opening has put back.
    pub fn restored(&self) -> u64
        ensures { result ≡ self.now.restored }
    {
        self.restored
    }

    /// The disk's moment. Where the disk rests, a crash at it leaves the bytes at begin, and so does
    /// one at each moment since any state before it in the transaction.
    pub fn now(&self) -> u64
        ensures moment { result ≡ D.moment self.now.disk }
        ensures holds { Holds D.bytes self.now }
        ensures leaves { self.now.failed ≡ false
            → Rests D.bytes D.tells_crashes D.moment D.may_hold_after self.now
            → LeavesHeap D.tells_crashes D.moment D.may_hold_after self.now.begun self.now.disk }
        ensures any_moment { (before : Opened D)
            → ⟦<Image<D> as Cells>⟧.quiet before self.now
            → KeepsBegun D.bytes D.tells_crashes D.moment D.may_hold_after before self.now }
    {
        self.disk.now()
    }

    // Fills a buffer with bytes of a line, from a place of it on.
    fn get(&mut self, line: u64, at: usize, into: &mut [u8]) -> Result<(), Stop>
        requires sound { self.old.failed ≡ false }
        requires below { line < self.old.frame.heap_lines }
        requires inside { at + length into.old ≤ LINE }
        ensures given { OnOk result
            (into.new ≡ part (LINE * line + at) (length into.old) self.old.bytes) }
        ensures same { OnOk result (self.new ≡ record self.old { disk = self.new.disk }) }
        ensures failed { OnErr result (self.new ≡ record self.old {
          disk = self.new.disk;
          failed = true;
        }) }
        ensures reads { Reads D.bytes D.tells_crashes D.moment D.may_hold_after self.old.disk
            self.new.disk }
        ensures answered { IfRefused result (λ _. ⊥) }
        ensures cause { HasReason (transaction_of D.faults self.old)
            (transaction_of D.faults self.new) result }
    {
        let Ok(()) = copy_now(&mut self.disk, self.frame, &mut self.lines, line, at, into) else {
            self.failed = true;
            return Err(Stop::DiskFault);
        };
        Ok(())
    }

    // Fills a buffer with the bytes from a place on, which lie in one line.
    fn get_one(&mut self, place: u64, into: &mut [u8]) -> Result<(), Stop>
        requires sound { self.old.failed ≡ false }
        requires one { place % LINE + length into.old ≤ LINE }
        requires below { place / LINE < self.old.frame.heap_lines }

        ensures given { OnOk result (into.new ≡ part place (length into.old) self.old.bytes) }

        ensures same { self.new.bytes ≡ self.old.bytes }
        ensures room { TouchesNone (transaction_of D.faults self.old)
            (transaction_of D.faults self.new) result }
        ensures cause { HasReason (transaction_of D.faults self.old)
            (transaction_of D.faults self.new) result }
        ensures quiet { IsQuiet D.bytes D.tells_crashes D.moment D.may_hold_after self.old
            self.new }

        ensures still_open { self.new.is_open ≡ self.old.is_open }
        ensures reads { Reads D.bytes D.tells_crashes D.moment D.may_hold_after self.old.disk
            self.new.disk }
    {
        self.get(place / LINE, (place % LINE) as usize, into)?;
        Ok(())
    }

    // Fills a buffer with the bytes from a place on.
    fn get_all(&mut self, place: u64, into: &mut [u8], first: u64, end: u64) -> Result<(), Stop>
        requires sound { self.old.failed ≡ false }
        requires inside { place + length into.old ≤ length self.old.bytes }
        requires small { place + length into.old < 2 ^ 60 }
        requires span { IsSpan place (length into.old) first end }
        requires below { end ≤ self.old.frame.heap_lines }

        ensures given { OnOk result (into.new ≡ part place (length into.old) self.old.bytes) }

        ensures same { self.new.bytes ≡ self.old.bytes }
        ensures room { TouchesNone (transaction_of D.faults self.old)
            (transaction_of D.faults self.new) result }
        ensures cause { HasReason (transaction_of D.faults self.old)
            (transaction_of D.faults self.new) result }
        ensures quiet { IsQuiet D.bytes D.tells_crashes D.moment D.may_hold_after self.old
            self.new }

        ensures still_open { self.new.is_open ≡ self.old.is_open }
        ensures reads { Reads D.bytes D.tells_crashes D.moment D.may_hold_after self.old.disk
            self.new.disk }
    {
        for line in first..end {
            let (at, start, stop) = piece(place, into.len(), line);
            self.get(line, at, &mut into[start..stop])?;
        }
        Ok(())
    }

    // How many lines are touched with those from the first to the one before the end.
    fn touched_with(&self, first: u64, end: u64) -> u64
        requires order { first ≤ end }
        requires below { end ≤ self.now.frame.heap_lines }
        ensures { result
            ≡ length (with_lines self.now.touched (range_with_len first (end - first))) }
    {
        self.touched() + self.lines.marks.untouched(first, end)
    }

    // How many lines are touched with this one.
    fn touched_with_one(&self, line: u64) -> u64
        requires { line < self.now.frame.heap_lines }
        ensures { result ≡ length (with_lines self.now.touched (line ∷ [])) }
    {
        let touched = self.touched();
        if self.lines.marks.is_clean(line) {
            return touched + 1;
        }
        touched
    }

    /// Ends the transaction with the bytes as they were at its begin, which a crash leaves up to
    /// the return and after it. Where some of its lines are on the disk already, it makes a write for
    /// each of them and three writes and syncs more, and no call of the disk else. Where none was
    /// begun, it is as if one had been.
    pub fn cancel(&mut self) -> Result<(), Stop>
        ensures ended { OnOk result (self.new ≡ record self.old {
          disk = self.new.disk;
          bytes = self.old.begun;
          touched = [];
          is_open = false;
        }) }
        ensures back { OnOk result (GivesHeap self.old.begun (D.bytes self.new.disk)) }
        ensures rests { Rests D.bytes D.tells_crashes D.moment D.may_hold_after self.old
            → Rests D.bytes D.tells_crashes D.moment D.may_hold_after self.new }

        ensures answered { IfRefused result (λ _. ⊥) }
        ensures cause { HasReason (transaction_of D.faults self.old)
            (transaction_of D.faults self.new) result }
        ensures stays { StaysAt result self.old self.new }

        ensures disk { KeepsDisk D.bytes D.tells_crashes self.old.disk self.new.disk }
        ensures inside { KeepsOutside self.old.frame (D.bytes self.old.disk)
            (D.bytes self.new.disk) }
        // Where no batch is open, no call of the disk is made.
        ensures same { first_gate (D.bytes self.old.disk) ≡ 0
            → self.new.disk ≡ self.old.disk }
        ensures idle { self.old.touched ≡ [] → self.new.disk ≡ self.old.disk }
        ensures some { IsErrOf result Stop.DiskFault → 0 < length self.old.touched }
        ensures forward { D.moment self.old.disk ≤ D.moment self.new.disk }
        ensures calls { D.moment self.new.disk
            ≤ D.moment self.old.disk + 2 * calls_of (length self.old.touched) }
        ensures any_moment { self.old.failed ≡ false
            → Rests D.bytes D.tells_crashes D.moment D.may_hold_after self.old
            → IfTells (D.tells_crashes self.old.disk) (AtEach D.moment D.may_hold_after
            self.old.disk self.new.disk (GivesHeap self.old.begun)) }
    {
        if self.failed {
            return Err(Stop::Failed);
        }
        let Ok(()) = take_back(&mut self.disk, self.frame, &mut self.lines) else {
            self.failed = true;
            return Err(Stop::DiskFault);
        };
        self.is_open = false;
        Ok(())
    }

    /// Ends the transaction with its bytes on the disk, all or none: a crash up to the return leaves
    /// the bytes at begin or those now, and after `Ok` those now. Where it touched no line, no call
    /// of the disk is made, else a write for each line in memory, and seven writes and syncs more.
    /// Where none was begun, it is as if one had been.
    pub fn commit(&mut self) -> Result<(), Stop>
        ensures ended { OnOk result (self.new ≡ record self.old {
          disk = self.new.disk;
          begun = self.old.bytes;
          touched = [];
          is_open = false;
        }) }
        ensures saved { OnOk result (Saves D.bytes D.tells_crashes D.moment D.may_hold_after
            self.old self.new) }
        ensures rests { Rests D.bytes D.tells_crashes D.moment D.may_hold_after self.old
            → Rests D.bytes D.tells_crashes D.moment D.may_hold_after self.new }

        ensures answered { IfRefused result (λ _. ⊥) }
        ensures cause { HasReason (transaction_of D.faults self.old)
            (transaction_of D.faults self.new) result }
        ensures stays { StaysAt result self.old self.new }

        ensures disk { KeepsDisk D.bytes D.tells_crashes self.old.disk self.new.disk }
        ensures inside { KeepsOutside self.old.frame (D.bytes self.old.disk)
            (D.bytes self.new.disk) }
        ensures idle { self.old.touched ≡ [] → self.new.disk ≡ self.old.disk }
        ensures forward { D.moment self.old.disk ≤ D.moment self.new.disk }
        ensures calls { D.moment self.new.disk
            ≤ D.moment self.old.disk + 2 * calls_of (length self.old.touched) }
        ensures any_moment { self.old.failed ≡ false
            → Rests D.bytes D.tells_crashes D.moment D.may_hold_after self.old
            → IfTells (D.tells_crashes self.old.disk) (AtEach D.moment D.may_hold_after
            self.old.disk self.new.disk (GivesEither self.old.begun self.old.bytes)) }
    {
        if self.failed {
            return Err(Stop::Failed);
        }
        if self.touched() != 0 {
            return self.save();
        }
        self.is_open = false;
        Ok(())
    }

    // Ends a transaction that has touched a line.
    fn save(&mut self) -> Result<(), Stop>
        requires sound { self.old.failed ≡ false }
        requires some { 0 < length self.old.touched }
        ensures ended { OnOk result (self.new ≡ record self.old {
          disk = self.new.disk;
          begun = self.old.bytes;
          touched = [];
          is_open = false;
        }) }
        ensures saved { OnOk result (Saves D.bytes D.tells_crashes D.moment D.may_hold_after
            self.old self.new) }
        ensures rests { Rests D.bytes D.tells_crashes D.moment D.may_hold_after self.new }

        ensures answered { IfRefused result (λ _. ⊥) }
        ensures cause { HasReason (transaction_of D.faults self.old)
            (transaction_of D.faults self.new) result }
        ensures stays { StaysAt result self.old self.new }

        ensures disk { KeepsDisk D.bytes D.tells_crashes self.old.disk self.new.disk }
        ensures inside { KeepsOutside self.old.frame (D.bytes self.old.disk)
            (D.bytes self.new.disk) }
        ensures forward { D.moment self.old.disk ≤ D.moment self.new.disk }
        ensures calls { D.moment self.new.disk
            ≤ D.moment self.old.disk + 2 * (length self.old.touched + 7) }
        ensures any_moment { Rests D.bytes D.tells_crashes D.moment D.may_hold_after self.old
            → IfTells (D.tells_crashes self.old.disk) (AtEach D.moment D.may_hold_after
            self.old.disk self.new.disk (GivesEither self.old.begun self.old.bytes)) }
    {
        let Ok(()) = end(&mut self.disk, self.frame, &mut self.lines) else {
            self.failed = true;
            return Err(Stop::DiskFault);
        };
        self.is_open = false;
        Ok(())
    }

    // Writes bytes of a line, where there is room for it.
    fn put(&mut self, line: u64, at: usize, from: &[u8]) -> Result<(), Stop>
        requires sound { self.old.failed ≡ false }
        requires below { line < self.old.frame.heap_lines }
        requires inside { at + length from.now ≤ LINE }
        requires room { is_among self.old.touched line ≡ false
            → length self.old.touched < room_of self.old.frame }
        requires opened { self.old.is_open ≡ true }
        ensures written { OnOk result (self.new.bytes
            ≡ overwrite (LINE * line + at) from.now self.old.bytes) }
        ensures touched { OnOk result (IsPermutation (with_lines self.old.touched (line ∷ []))
            self.new.touched) }
        ensures opened { self.new.is_open ≡ true }

        ensures size { length self.new.bytes ≡ length self.old.bytes }
        ensures some { TouchesSome 1 (transaction_of D.faults self.old)
            (transaction_of D.faults self.new) }
        ensures answered { IfRefused result (λ _. ⊥) }
        ensures cause { HasReason (transaction_of D.faults self.old)
            (transaction_of D.faults self.new) result }
        ensures quiet { IsQuiet D.bytes D.tells_crashes D.moment D.may_hold_after self.old
            self.new }
        ensures calls { D.moment self.new.disk ≤ D.moment self.old.disk + 2 * 68 }
    {
        let Ok(()) = write_line(&mut self.disk, self.frame, &mut self.lines, line, at, from) else {
            self.failed = true;
            return Err(Stop::DiskFault);
        };
        Ok(())
    }

    // Writes bytes from a place on, which lie in one line, where there is room for it.
    fn put_one(&mut self, place: u64, from: &[u8]) -> Result<(), Stop>
        requires sound { self.old.failed ≡ false }
        requires one { place % LINE + length from.now ≤ LINE }
        requires below { place / LINE < self.old.frame.heap_lines }
        requires room { length (with_lines self.old.touched (place / LINE ∷ []))
            ≤ room_of self.old.frame }
        ensures written { OnOk result (self.new.bytes ≡ overwrite place from.now self.old.bytes) }
        ensures touched { OnOk result (IsPermutation (with_lines self.old.touched
            (place / LINE ∷ [])) self.new.touched) }
        ensures opened { OnOk result (self.new.is_open ≡ true) }

        ensures size { length self.new.bytes ≡ length self.old.bytes }
        ensures some { TouchesSome 1 (transaction_of D.faults self.old)
            (transaction_of D.faults self.new) }
        ensures answered { IfRefused result (λ _. ⊥) }
        ensures cause { HasReason (transaction_of D.faults self.old)
            (transaction_of D.faults self.new) result }
        ensures quiet { IsQuiet D.bytes D.tells_crashes D.moment D.may_hold_after self.old
            self.new }
    {
        self.is_open = true;
        self.put(place / LINE, (place % LINE) as usize, from)
    }

    // Writes bytes from a place on, which lie in one line.
    fn write_one(&mut self, place: u64, from: &[u8]) -> Result<(), Stop>
        requires sound { self.old.failed ≡ false }
        requires some { 0 < length from.now }
        requires one { place % LINE + length from.now ≤ LINE }
        requires below { place / LINE < self.old.frame.heap_lines }

        ensures written { OnOk result (self.new.bytes ≡ overwrite place from.now self.old.bytes) }

        ensures size { length self.new.bytes ≡ length self.old.bytes }
        ensures same { IfRefused result (λ _. self.new.bytes ≡ self.old.bytes) }
        ensures room { TouchesLines (lines_of place (length from.now))
            (transaction_of D.faults self.old) (transaction_of D.faults self.new) result }
        ensures cause { HasReason (transaction_of D.faults self.old)
            (transaction_of D.faults self.new) result }
        ensures quiet { IsQuiet D.bytes D.tells_crashes D.moment D.may_hold_after self.old
            self.new }

        ensures begins { OnOk result (self.new.is_open ≡ true) }
        ensures stays { StaysAt result self.old self.new }
    {
        let lines = self.touched_with_one(place / LINE);
        let room = self.room();
        if lines > room {
            return Err(Stop::Refused(Refusal::LogFull { lines, room }));
        }
        self.put_one(place, from)
    }

    // Writes bytes from a place on, where there is room for their lines.
    fn put_all(&mut self, place: u64, from: &[u8], first: u64, end: u64) -> Result<(), Stop>
        requires sound { self.old.failed ≡ false }
        requires inside { place + length from.now ≤ length self.old.bytes }
        requires span { IsSpan place (length from.now) first end }
        requires room { length (with_lines self.old.touched (range_with_len first (end - first)))
            ≤ room_of self.old.frame }
        ensures written { OnOk result (self.new.bytes ≡ overwrite place from.now self.old.bytes) }
        ensures touched { OnOk result (IsPermutation (with_lines self.old.touched
            (range_with_len first (end - first))) self.new.touched) }
        ensures opened { OnOk result (self.new.is_open ≡ true) }

        ensures size { length self.new.bytes ≡ length self.old.bytes }
        ensures some { TouchesSome (end - first) (transaction_of D.faults self.old)
            (transaction_of D.faults self.new) }
        ensures answered { IfRefused result (λ _. ⊥) }
        ensures cause { HasReason (transaction_of D.faults self.old)
            (transaction_of D.faults self.new) result }
        ensures quiet { IsQuiet D.bytes D.tells_crashes D.moment D.may_hold_after self.old
            self.new }
    {
        self.is_open = true;
        for line in first..end {
            let (at, start, stop) = piece(place, from.len(), line);
            self.put(line, at, &from[start..stop])?;
        }
        Ok(())
    }

    /// The disk. What was not committed is lost.
    pub fn into_disk(self) -> D
        ensures disk { result ≡ self.disk }
        ensures holds { Holds D.bytes self }
        ensures leaves { self.failed ≡ false
            → Rests D.bytes D.tells_crashes D.moment D.may_hold_after self
            → LeavesHeap D.tells_crashes D.moment D.may_hold_after self.begun result }
    {
        let Image {
            disk,
            frame: _,
            lines: _,
            is_open: _,
            failed: _,
            restored: _,
        } = self;
        disk
    }
}

impl<D: Disk> Cells for Image<D> {
    ghost use Rattle.sdr_image.specs.QuietLaws.{quiet_same, quiet_both};

    ghost bytes = { λ i. i.bytes };

    ghost begun = { λ i. i.begun };

    ghost transaction = { λ i. transaction_of D.faults i };

    ghost quiet = { λ a b. IsQuiet D.bytes D.tells_crashes D.moment D.may_hold_after a b };

    fn size(&self) -> u64 {
        LINE * self.frame.heap_lines
    }

    fn read(&mut self, place: u64, into: &mut [u8]) -> Result<(), Stop>
        requires inside { place + length into.old ≤ length self.old.bytes }

        ensures given { OnOk result (into.new ≡ part place (length into.old) self.old.bytes) }

        ensures same { self.new.bytes ≡ self.old.bytes }
        ensures room { TouchesNone (transaction_of D.faults self.old)
            (transaction_of D.faults self.new) result }
        ensures cause { HasReason (transaction_of D.faults self.old)
            (transaction_of D.faults self.new) result }
        ensures quiet { IsQuiet D.bytes D.tells_crashes D.moment D.may_hold_after self.old
            self.new }

        // It begins no transaction and ends none, and only reads the disk.
        ensures still_open { self.new.is_open ≡ self.old.is_open }
        ensures reads { Reads D.bytes D.tells_crashes D.moment D.may_hold_after self.old.disk
            self.new.disk }
    {
        if self.failed {
            return Err(Stop::Failed);
        }
        let count = into.len() as u64;
        if count > 0 && place % LINE + count <= LINE {
            return self.get_one(place, into);
        }
        let (first, end) = span(place, count);
        self.get_all(place, into, first, end)
    }

    fn write(&mut self, place: u64, from: &[u8]) -> Result<(), Stop>
        requires inside { place + length from.now ≤ length self.old.bytes }

        ensures written { OnOk result (self.new.bytes ≡ overwrite place from.now self.old.bytes) }

        ensures size { length self.new.bytes ≡ length self.old.bytes }
        ensures same { IfRefused result (λ _. self.new.bytes ≡ self.old.bytes) }
        ensures room { TouchesLines (lines_of place (length from.now))
            (transaction_of D.faults self.old) (transaction_of D.faults self.new) result }
        ensures cause { HasReason (transaction_of D.faults self.old)
            (transaction_of D.faults self.new) result }
        ensures quiet { IsQuiet D.bytes D.tells_crashes D.moment D.may_hold_after self.old
            self.new }

        // Where none was begun, it begins one. What isn't written changes nothing.
        ensures begins { OnOk result (self.new.is_open ≡ true) }
        ensures stays { StaysAt result self.old self.new }
    {
        if self.failed {
            return Err(Stop::Failed);
        }
        let count = from.len() as u64;
        if count > 0 && place % LINE + count <= LINE {
            return self.write_one(place, from);
        }
        let (first, end) = span(place, count);
        let lines = self.touched_with(first, end);
        let room = self.room();
        if lines > room {
            return Err(Stop::Refused(Refusal::LogFull { lines, room }));
        }
        self.put_all(place, from, first, end)
    }

    ghost quiet_refl = { λ a. quiet_same D.bytes D.tells_crashes D.moment D.may_hold_after a };

    ghost quiet_trans = { λ a b c f g. quiet_both D.bytes D.tells_crashes D.moment
        D.may_hold_after a b c f g };
}
