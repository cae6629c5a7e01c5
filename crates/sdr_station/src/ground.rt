// A heap on an image as the ground of a lock.
ghost use Rattle.std.specs.Prelude.{◌≡◌, ◌≢◌, ◌≤◌, ◌<◌, ◌+◌, ◌*◌, [], false, true, length};
ghost use Rattle.std.specs.Prelude.{IfErr, IfOk, IsErrOf, OnErr, OnOk};
ghost use Rattle.sdr_disk.specs.Moments.{AtEach, Reads};
ghost use Rattle.sdr_disk.specs.Tells.{IfTells};
ghost use Rattle.sdr_image.specs.Opening.{MayBeOpened};
ghost use Rattle.sdr_machine.specs.Crash.{LeavesBefore, LeavesEither};
ghost use Rattle.sdr_machine.specs.Lapses.{HasLapseCause};
ghost use Rattle.sdr_machine.specs.Served.{GoesOnAfter};
ghost use Rattle.sdr_machine.specs.Serving.{Brings, CallAsks, Calls, Commits, KeepsGround, MeetsFault, RollsBack, Shows};
ghost use Rattle.sdr_image.specs.Opened.{Holds, IsQuiet};
ghost use Rattle.sdr_image.specs.Saved.{calls_of};
ghost use Rattle.sdr_machine.specs.Standing.{GroundState};
ghost use Rattle.sdr_log.specs.Calls.{KeepsDisk, KeepsRest};
ghost use Rattle.sdr_log.specs.Log.{first_gate};
ghost use Rattle.sdr_log.specs.Logged.{GivesSame};
ghost use Rattle.sdr_model.specs.Reading.{is_reading, reads_media};
ghost use Rattle.step_things.specs.Answering.{dooms};
ghost use Rattle.sdr_station.specs.Grounded.{IsGoing, HasNoCalls, HasDiskSound, StandsInMemory, StaysInside, without_moves};
ghost use Rattle.sdr_station.specs.Giving.{AsksMedia, GivesReply, reads_by};
ghost use Rattle.sdr_station.specs.Opening.{ExplainsOpen, IsOfAudit, IsOfImage, IsOpen, LeavesBytes, MayBeAgain, disk_of};
ghost use Rattle.sdr_station.specs.Opening.{media_of};

use crate::closing::{cancel, commit, forget_moves, moment_of};
use crate::error::{OpenError, Shut};
use sdr_audit::{AuditError, check};
use sdr_base::{Media, Move, Stop};
use sdr_disk::Disk;
use sdr_heap::Heap;
use sdr_image::{Image, ImageError};
use sdr_machine::{Backing, Fault, Halt, HasGround};
use sdr_model::{Answer, Call, Reply};
use std::alloc::Global;
use std::marker::Model;
use step_calls::answer;
use step_things::Page;
use step_zco::look;
use zco_acct::{Notice, Notify};

/// A heap on an image as the ground of a lock.
#[derive(Drop)]
pub struct HeapGround<D: Disk, M: Media, F: Notify + Drop> {
    heap: Heap<Image<D>>,
    /// The files and items that sources of the heap name.
    media: M,
    /// The bytes that the last answered call gave.
    shown: Page,
    /// Whether a call was stopped on its way, so that the transaction can only be put back, or the disk has
    /// failed.
    stopped: bool,
    /// Whether no call was made in the open transaction.
    idle: bool,
    /// The disk's moment.
    moment: u64,
    /// How many lines opening has put back.
    restored: u64,
    /// What is told each time space is made available.
    notice: Notice<F>,
}

impl<D: Disk, M: Media, F: Notify + Drop> Model for HeapGround<D, M, F> {
    ghost use Rattle.sdr_station.specs.Grounded.{Grounded, IsGround};

    ghost Value = { Grounded D M };

    ghost view = { λ s. record {
      heap = s.heap;
      media = s.media;
      shown = s.shown;
      stopped = s.stopped;
      idle = s.idle;
      moment = s.moment;
      restored = s.restored;
    } };

    ghost invariant = { λ s. IsGround {D = D} D.moment (record {
      heap = s.heap;
      media = s.media;
      shown = s.shown;
      stopped = s.stopped;
      idle = s.idle;
      moment = s.moment;
      restored = s.restored;
    }) };
}

impl<D: Disk, M: Media, F: Notify + Drop> HasGround for HeapGround<D, M, F> {
    ghost use Rattle.std.specs.Prelude.{⊤};
    ghost use Rattle.sdr_station.specs.Grounded as grounded;
    ghost use Rattle.sdr_station.specs.CrashNow as laws;

    ghost stands = { λ g v.
        grounded.StandsForBoth D.bytes D.tells_crashes D.moment D.may_hold_after g v };

    ghost moment = { λ g. g.moment };

    ghost faults = { λ g. D.faults g.heap.cells.disk };

    ghost lapses = { λ g. record { faults = M.faults g.media; short = M.short g.media } };

    ghost asks = { λ _. 0 };

    ghost told = { λ g. M.told g.media };

    ghost lasts = { λ _ _. ⊤ };

    ghost sound = { λ g. grounded.HasDiskSound g };

    ghost going = { λ g. grounded.IsGoing g };

    ghost idle = { λ g. grounded.HasNoCalls g };

    ghost left = { λ g m image.
        grounded.Leaves D.tells_crashes D.may_hold_after g.heap.cells.disk m image };

    ghost opens = { λ image s. grounded.OpensAs image s };

    ghost crash_now = { λ g v image at left.
        laws.crash_now D.bytes D.tells_crashes D.moment D.may_hold_after g v image at left };

    ghost lasts_less = { λ g n lasts. lasts };

    ghost idle_going = { λ g idle. idle.going };

    ghost going_sound = { λ g going. going.sound };
}

// Why an image wasn't opened.
fn of_image(why: ImageError) -> OpenError
    ensures { IsOfImage why result }
{
    match why {
        ImageError::NotFormatted => OpenError::NotFormatted,
        ImageError::DiskFault => OpenError::DiskFault,
        ImageError::NoMemory => OpenError::NoMemory,
    }
}

// Why the bytes of a heap were not taken.
fn of_audit(why: AuditError) -> OpenError
    ensures { IsOfAudit why result }
{
    match why {
        AuditError::Damaged { place, why } => OpenError::Damaged { place, why },
        AuditError::DiskFault => OpenError::DiskFault,
        AuditError::Failed => OpenError::DiskFault,
        AuditError::NoMemory => OpenError::NoMemory,
    }
}

impl<D: Disk, M: Media, F: Notify + Drop> HeapGround<D, M, F> {
    /// Opens the heap on a disk. Where batches are open, their lines are put back, by a write for each and
    /// three writes and syncs more; else the disk is only read. All memory is taken
    /// here. A crash on the way leaves the same heap as one before, where nothing is pending on the disk
    /// that is handed in, or a recovery of it was stopped. Each heap is opened for which a world stands, but for a
    /// fault or want of memory. The media are kept, and not read here.
    pub fn open(
        alloc: Global,
        disk: D,
        media: M,
        notice: Notice<F>,
    ) -> Result<HeapGround<D, M, F>, Shut<D, M>>
        ensures opened { IfOk result (IsOpen D.bytes D.tells_crashes D.moment D.may_hold_after
            disk) }
        ensures why { IfErr result (λ shut.
            ExplainsOpen (D.bytes disk) (D.faults disk) (D.faults shut.disk) shut.why) }
        ensures disk { KeepsDisk D.bytes D.tells_crashes disk (disk_of result) }
        ensures inside { KeepsRest (D.bytes disk) (D.bytes (disk_of result)) }
        ensures media { media_of result ≡ media }
        ensures bytes { IfErr result (λ shut. LeavesBytes (D.bytes disk) (D.bytes shut.disk)
            shut.why) }
        ensures again { IfErr result (λ shut. MayBeAgain D.bytes D.tells_crashes D.moment
            D.may_hold_after disk shut.disk shut.why) }
        ensures later { D.faults disk ≤ D.faults (disk_of result) }
        ensures quiet { first_gate (D.bytes disk) ≡ 0
            → Reads D.bytes D.tells_crashes D.moment D.may_hold_after disk (disk_of result) }
        ensures forward { D.moment disk ≤ D.moment (disk_of result) }
        ensures calls { IfOk result (λ ground.
            D.moment ground.heap.cells.disk ≤ D.moment disk + 2 * (ground.restored + 3)) }
        ensures any_moment { IfTells (D.tells_crashes disk)
            (MayBeOpened (D.bytes disk) (D.may_hold_after disk (D.moment disk))
            → AtEach D.moment D.may_hold_after disk (disk_of result) (GivesSame (D.bytes disk))) }
    {
        let mut image = match Image::open(alloc, disk) {
            Ok(image) => image,
            Err(shut) => {
                return Err(Shut {
                    why: of_image(shut.why),
                    disk: shut.disk,
                    media,
                });
            }
        };
        let restored = image.restored();
        if let Err(why) = check(alloc, &mut image) {
            return Err(Shut {
                why: of_audit(why),
                disk: image.into_disk(),
                media,
            });
        }
        let moment = image.now();
        match Heap::new(alloc, image) {
            Ok(heap) => Ok(HeapGround {
                heap,
                media,
                shown: Page::new(),
                stopped: false,
                idle: true,
                moment,
                restored,
                notice,
            }),
            Err(shut) => Err(Shut {
                why: OpenError::NoMemory,
                disk: shut.cells.into_disk(),
                media,
            }),
        }
    }

    /// Makes a call, in a transaction in which none was stopped. Where a changing call is refused, the
    /// transaction can only be put back; one that media fail, or that gets too few bytes of them, changes nothing.
    /// A reading call touches no line. Where the disk fails, nothing stands any more.
    /// Media are asked at most once for each extent that lies with them and of which the call needs bytes.
    pub fn serve(&mut self, call: &Call) -> Result<Reply, Fault>
        requires going { self.old.stopped ≡ false }
        ensures memory { IfOk result (λ reply.
            Brings StandsInMemory self.old self.new (Calls (M.told self.old.media) call.now reply)) }
        ensures answered { IfOk result (λ reply.
            Brings ⟦<HeapGround<D, M, F> as HasGround>⟧.stands self.old self.new
            (Calls (M.told self.old.media) call.now reply)) }
        ensures stopped { IfOk result (λ reply. self.new.stopped ≡ dooms call.now reply) }
        ensures gives { IfOk result (λ reply. GivesReply reply self.new) }
        ensures other { IfOk result (λ reply. reply ≢ Reply.DiskFault) }
        ensures sound { OnOk result (self.new.heap.cells.failed ≡ false) }
        ensures gap { IfOk result (λ reply. HasLapseCause (Answer.Reply reply)
            (⟦<HeapGround<D, M, F> as HasGround>⟧.lapses self.old)
            (⟦<HeapGround<D, M, F> as HasGround>⟧.lapses self.new)) }
        ensures unread { IfOk result (λ reply.
            reads_by call.now reply ≡ false → self.new.media ≡ self.old.media) }
        ensures fault { OnErr result
            (MeetsFault ⟦<HeapGround<D, M, F> as HasGround>⟧ self.old self.new) }
        ensures unasked { OnErr result
            (reads_media call.now ≡ false → self.new.media ≡ self.old.media) }
        ensures restored { self.new.restored ≡ self.old.restored }
        ensures quiet { IsQuiet D.bytes D.tells_crashes D.moment D.may_hold_after
            self.old.heap.cells self.new.heap.cells }
        ensures lines { is_reading call.now ≡ true
            → self.new.heap.cells.touched ≡ self.old.heap.cells.touched }
        ensures asks { AsksMedia M.Media call.now self.old self.new }
        ensures time { self.old.moment ≤ self.new.moment }
        ensures keeps { KeepsGround ⟦<HeapGround<D, M, F> as HasGround>⟧ true self.old self.new }
        ensures inside { StaysInside D.bytes D.tells_crashes self.old self.new }
        ensures any_moment { LeavesBefore ⟦<HeapGround<D, M, F> as HasGround>⟧ self.old self.new }
    {
        self.heap.clear_moves();
        self.idle = false;
        match answer(
            &mut self.heap,
            &mut self.media,
            call,
            &self.notice,
            &mut self.shown,
        ) {
            Ok(reply) => {
                self.moment = moment_of(&mut self.heap);
                Ok(reply)
            }
            Err(Stop::Refused(refusal)) => {
                forget_moves(&mut self.heap, &refusal);
                self.moment = moment_of(&mut self.heap);
                self.stopped = !call.is_reading();
                Ok(Reply::Refused(refusal))
            }
            Err(Stop::MediaFault) => {
                self.moment = moment_of(&mut self.heap);
                Ok(Reply::MediaFault)
            }
            Err(Stop::DiskFault) => {
                self.moment = moment_of(&mut self.heap);
                self.stopped = true;
                Err(Fault)
            }
            Err(Stop::Failed) => unreachable!(),
        }
    }

    /// Keeps the open transaction, in which no call was stopped. Where it touched no line, it makes no call of the
    /// disk, else a write for each line and seven writes and syncs more.
    pub fn save(&mut self) -> Result<(), Fault>
        requires going { self.old.stopped ≡ false }
        ensures memory { OnOk result (Brings StandsInMemory self.old self.new Commits) }
        ensures kept { OnOk result
            (Brings ⟦<HeapGround<D, M, F> as HasGround>⟧.stands self.old self.new Commits) }
        ensures going { OnOk result (self.new.stopped ≡ false) }
        ensures idle { OnOk result (self.new.idle ≡ true) }
        ensures sound { OnOk result (self.new.heap.cells.failed ≡ false) }
        ensures restored { self.new.restored ≡ self.old.restored }
        ensures media { self.new.media ≡ self.old.media }
        ensures fault { OnErr result
            (MeetsFault ⟦<HeapGround<D, M, F> as HasGround>⟧ self.old self.new) }
        ensures still { self.old.heap.cells.touched ≡ []
            → self.new.heap.cells.disk ≡ self.old.heap.cells.disk }
        ensures calls { self.new.moment
            ≤ self.old.moment + 2 * calls_of (length self.old.heap.cells.touched) }
        ensures time { self.old.moment ≤ self.new.moment }
        ensures keeps { KeepsGround ⟦<HeapGround<D, M, F> as HasGround>⟧ false self.old self.new }
        ensures inside { StaysInside D.bytes D.tells_crashes self.old self.new }
        ensures any_moment { LeavesEither ⟦<HeapGround<D, M, F> as HasGround>⟧ self.old self.new }
    {
        match commit(&mut self.heap) {
            Ok(()) => {
                self.moment = moment_of(&mut self.heap);
                self.shown.clear();
                self.stopped = false;
                self.idle = true;
                Ok(())
            }
            Err(_) => {
                self.moment = moment_of(&mut self.heap);
                self.stopped = true;
                self.idle = false;
                Err(Fault)
            }
        }
    }

    /// Puts back what was before the open transaction. Where it touched no line, or no batch is open on the disk, it makes
    /// no call of it, else at most a write for each line and seven writes and syncs more. Where the disk had failed, it
    /// changes nothing.
    pub fn restore(&mut self) -> Result<(), Fault>
        ensures memory { OnOk result (Brings StandsInMemory self.old self.new RollsBack) }
        ensures put_back { OnOk result
            (Brings ⟦<HeapGround<D, M, F> as HasGround>⟧.stands self.old self.new RollsBack) }
        ensures going { OnOk result
            (self.old.heap.cells.failed ≡ false → self.new.stopped ≡ false) }
        ensures idle { OnOk result
            (self.old.heap.cells.failed ≡ false → self.new.idle ≡ true) }
        ensures sound { OnOk result (self.new.heap.cells.failed ≡ self.old.heap.cells.failed) }
        ensures restored { self.new.restored ≡ self.old.restored }
        ensures media { self.new.media ≡ self.old.media }
        ensures fault { OnErr result
            (MeetsFault ⟦<HeapGround<D, M, F> as HasGround>⟧ self.old self.new) }
        ensures untouched { OnOk result
            (self.old.heap.cells.failed ≡ false → self.new.heap.cells.touched ≡ []) }
        ensures begun { OnOk result (self.new.heap.cells.begun ≡ self.old.heap.cells.begun) }
        ensures seen { self.old.moment ≡ D.moment self.old.heap.cells.disk }
        ensures some { OnErr result (0 < length self.old.heap.cells.touched) }
        ensures holds { OnOk result (Holds D.bytes self.new.heap.cells) }
        ensures closed { first_gate (D.bytes self.old.heap.cells.disk) ≡ 0
            → self.new.heap.cells.disk ≡ self.old.heap.cells.disk }
        ensures still { self.old.heap.cells.touched ≡ []
            → self.new.heap.cells.disk ≡ self.old.heap.cells.disk }
        ensures calls { self.new.moment
            ≤ self.old.moment + 2 * calls_of (length self.old.heap.cells.touched) }
        ensures time { self.old.moment ≤ self.new.moment }
        ensures keeps { KeepsGround ⟦<HeapGround<D, M, F> as HasGround>⟧ false self.old self.new }
        ensures inside { StaysInside D.bytes D.tells_crashes self.old self.new }
        ensures any_moment { LeavesBefore ⟦<HeapGround<D, M, F> as HasGround>⟧ self.old self.new }
    {
        match cancel(&mut self.heap) {
            Ok(()) => {
                self.moment = moment_of(&mut self.heap);
                self.shown.clear();
                self.stopped = false;
                self.idle = true;
                Ok(())
            }
            Err(Stop::DiskFault) => {
                self.moment = moment_of(&mut self.heap);
                self.stopped = true;
                self.idle = false;
                Err(Fault)
            }
            Err(Stop::Failed) => Ok(()),
            Err(Stop::MediaFault) => unreachable!(),
            Err(Stop::Refused(_)) => unreachable!(),
        }
    }

    /// Forgets the moves of the last call. It makes no call of the disk.
    pub fn forget(&mut self)
        ensures { self.new ≡ without_moves self.old self.new.heap.spare }
    {
        self.heap.clear_moves();
    }

    /// Whether the ticket is there, and granted, where no transaction is open. The disk is only read.
    pub fn look(&mut self, ticket: u64) -> Result<Option<bool>, Fault>
        requires idle { self.old.idle ≡ true }
        ensures memory { IfOk result (λ granted.
            Brings StandsInMemory self.old self.new (Shows ticket granted)) }
        ensures shown { IfOk result (λ granted.
            Brings ⟦<HeapGround<D, M, F> as HasGround>⟧.stands self.old self.new
            (Shows ticket granted)) }
        ensures same { OnOk result (self.new ≡ record self.old { heap = self.new.heap }) }
        ensures sound { OnOk result (self.new.heap.cells.failed ≡ false) }
        ensures fault { OnErr result
            (MeetsFault ⟦<HeapGround<D, M, F> as HasGround>⟧ self.old self.new) }
        ensures failed { OnErr result (self.new ≡ record self.old {
          heap = self.new.heap;
          stopped = true;
          idle = false;
        }) }
        ensures quiet { IsQuiet D.bytes D.tells_crashes D.moment D.may_hold_after
            self.old.heap.cells self.new.heap.cells }
        ensures reads { Reads D.bytes D.tells_crashes D.moment D.may_hold_after
            self.old.heap.cells.disk self.new.heap.cells.disk }
        ensures time { self.old.moment ≤ self.new.moment }
        ensures keeps { KeepsGround ⟦<HeapGround<D, M, F> as HasGround>⟧ false self.old self.new }
        ensures inside { StaysInside D.bytes D.tells_crashes self.old self.new }
        ensures any_moment { LeavesBefore ⟦<HeapGround<D, M, F> as HasGround>⟧ self.old self.new }
    {
        match look(&mut self.heap, ticket) {
            Ok(granted) => Ok(granted),
            Err(_) => {
                self.stopped = true;
                self.idle = false;
                Err(Fault)
            }
        }
    }

    /// The disk and the media. What the open transaction has done is lost.
    pub fn into_parts(self) -> (D, M)
        ensures disk { result.0 ≡ self.heap.cells.disk }
        ensures media { result.1 ≡ self.media }
        ensures seen { D.moment result.0 ≡ self.moment }
        ensures holds { Holds D.bytes self.heap.cells }
    {
        let HeapGround {
            heap,
            media,
            shown: _,
            stopped: _,
            idle: _,
            moment: _,
            restored: _,
            notice: _,
        } = self;
        (heap.into_cells().into_disk(), media)
    }

    /// The moves of the last call.
    pub fn moves(&self) -> &[Move]
        ensures moves { result.now ≡ self.now.heap.moves }
        ensures told { (v : GroundState) → StandsInMemory self.now v → result.now ≡ v.moves }
    {
        self.heap.moves()
    }

    /// The bytes that the last answered call of the open transaction gave.
    pub fn shown(&self) -> &[u8]
        ensures shown { result.now ≡ self.now.shown }
        ensures few { length result.now ≤ 4096 }
        ensures told { (v : GroundState) → StandsInMemory self.now v → result.now ≡ v.now.world.shown }
    {
        self.shown.as_slice()
    }

    /// How many bytes the heap region has.
    pub fn size(&self) -> u64
        ensures { result ≡ self.now.heap.size }
    {
        self.heap.size()
    }

    /// How many lines opening has put back.
    pub fn restored(&self) -> u64
        ensures { result ≡ self.now.restored }
    {
        self.restored
    }
}

impl<D: Disk, M: Media, F: Notify + Drop> Backing for HeapGround<D, M, F> {
    fn moment(&self) -> u64 {
        self.moment
    }

    // It never wants memory.
    fn call(&mut self, call: &Call) -> Result<Reply, Halt>
        requires going { IsGoing self.old }
        ensures brings { IfOk result (λ reply.
            Brings StandsInMemory self.old self.new (Calls (M.told self.old.media) call.now reply)) }
        ensures answered { IfOk result (λ reply.
            Brings ⟦<HeapGround<D, M, F> as HasGround>⟧.stands self.old self.new
            (Calls (M.told self.old.media) call.now reply)) }
        ensures gap { IfOk result (λ reply. HasLapseCause (Answer.Reply reply)
            (⟦<HeapGround<D, M, F> as HasGround>⟧.lapses self.old)
            (⟦<HeapGround<D, M, F> as HasGround>⟧.lapses self.new)) }
        ensures needs { CallAsks ⟦<HeapGround<D, M, F> as HasGround>⟧ call.now self.old self.new }
        ensures sound { OnOk result (HasDiskSound self.new) }
        ensures going { IfOk result (λ reply.
            GoesOnAfter ⟦<HeapGround<D, M, F> as HasGround>⟧ call.now reply self.new) }
        ensures dooms { IfOk result (λ reply. self.new.stopped ≡ dooms call.now reply) }
        ensures unread { IfOk result (λ reply.
            reads_by call.now reply ≡ false → self.new.media ≡ self.old.media) }
        ensures quiet { IsQuiet D.bytes D.tells_crashes D.moment D.may_hold_after
            self.old.heap.cells self.new.heap.cells }
        ensures lines { is_reading call.now ≡ true
            → self.new.heap.cells.touched ≡ self.old.heap.cells.touched }
        ensures asks { AsksMedia M.Media call.now self.old self.new }
        ensures memory { IsErrOf result Halt.Memory → self.new ≡ self.old }
        ensures never { IsErrOf result Halt.Memory → ⊥ }
        ensures fault { IsErrOf result Halt.Fault
            → MeetsFault ⟦<HeapGround<D, M, F> as HasGround>⟧ self.old self.new }
        ensures time { self.old.moment ≤ self.new.moment }
        ensures keeps { KeepsGround ⟦<HeapGround<D, M, F> as HasGround>⟧ true self.old self.new }
        ensures inside { StaysInside D.bytes D.tells_crashes self.old self.new }
        ensures any_moment { LeavesBefore ⟦<HeapGround<D, M, F> as HasGround>⟧ self.old self.new }
    {
        let Ok(reply) = self.serve(call) else {
            return Err(Halt::Fault);
        };
        Ok(reply)
    }

    // It never wants memory.
    fn keep(&mut self) -> Result<(), Halt>
        requires going { IsGoing self.old }
        ensures brings { OnOk result (Brings StandsInMemory self.old self.new Commits) }
        ensures kept { OnOk result
            (Brings ⟦<HeapGround<D, M, F> as HasGround>⟧.stands self.old self.new Commits) }
        ensures media { self.new.media ≡ self.old.media }
        ensures idle { OnOk result (HasNoCalls self.new) }
        ensures still { self.old.heap.cells.touched ≡ []
            → self.new.heap.cells.disk ≡ self.old.heap.cells.disk }
        ensures calls { self.new.moment
            ≤ self.old.moment + 2 * calls_of (length self.old.heap.cells.touched) }
        ensures memory { IsErrOf result Halt.Memory → self.new ≡ self.old }
        ensures never { IsErrOf result Halt.Memory → ⊥ }
        ensures fault { IsErrOf result Halt.Fault
            → MeetsFault ⟦<HeapGround<D, M, F> as HasGround>⟧ self.old self.new }
        ensures time { self.old.moment ≤ self.new.moment }
        ensures keeps { KeepsGround ⟦<HeapGround<D, M, F> as HasGround>⟧ false self.old self.new }
        ensures inside { StaysInside D.bytes D.tells_crashes self.old self.new }
        ensures any_moment { LeavesEither ⟦<HeapGround<D, M, F> as HasGround>⟧ self.old self.new }
    {
        match self.save() {
            Ok(()) => Ok(()),
            Err(Fault) => Err(Halt::Fault),
        }
    }

    fn roll_back(&mut self) -> Result<(), Fault> {
        self.restore()
    }

    fn look(&mut self, ticket: u64) -> Result<Option<bool>, Fault> {
        HeapGround::look(self, ticket)
    }
}
