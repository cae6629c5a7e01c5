// A transaction on the world that a disk keeps.
ghost use Rattle.std.specs.Prelude.{◌≡◌, ◌≤◌, ◌<◌, ◌+◌, ◌*◌, ◌/◌, None, false, true, IfErr, IfOk};
ghost use Rattle.sdr_disk.specs.Moments.{AtEach, Reads};
ghost use Rattle.sdr_disk.specs.Tells.{IfTells};
ghost use Rattle.sdr_image.specs.Opened.{IsQuiet};
ghost use Rattle.sdr_image.specs.Opening.{MayBeOpened};
ghost use Rattle.sdr_machine.specs.Crash.{LeavesBefore, LeavesOr, is_kept, commits_in};
ghost use Rattle.sdr_machine.specs.Nesting.{cancelled, closing, ended, unbegun};
ghost use Rattle.sdr_model.specs.Reading.{is_reading};
ghost use Rattle.sdr_log.specs.Calls.{KeepsDisk};
ghost use Rattle.sdr_log.specs.Log.{first_gate};
ghost use Rattle.sdr_log.specs.Logged.{GivesSame};
ghost use Rattle.sdr_station.specs.Giving.{AsksMedia, Fills, GivesReply};
ghost use Rattle.sdr_station.specs.Opening.{ExplainsOpen, IsOpen, LeavesBytes};
ghost use Rattle.sdr_station.specs.Rooming.{MovesAtMost, TellsRoom};
ghost use Rattle.sdr_station.specs.Stationed.{Begins, Closes, ClosesBy, HasRisen, IsTicketTold, IsUnmade, LooksAt, SaysOr, StaysLooked};
ghost use Rattle.sdr_station.specs.Stationed.{closed_as, disk_under, media_under};

use crate::HeapGround;
use crate::error::Shut;
use sdr_base::{Media, Move, Reason, Refusal, Stop};
use sdr_disk::Disk;
use sdr_machine::{Backing, Fault, HasGround, Nesting};
use sdr_model::{Answer, Call, Close, Event, Reply};
use std::alloc::Global;
use std::marker::Model;
use step_things::PAGE;
use zco_acct::{Notice, Notify};

/// What an end, a cancel or an exit came to.
#[derive(Clone, Copy, Debug, PartialEq, Eq)]
pub enum Closed {
    /// The depth of nested transactions that is left.
    Depth(u64),
    Ended,
    Cancelled(Reason),
    Exited,
}

// How an outermost close is told.
fn closed_as(close: Close) -> Closed
    ensures { result ≡ closed_as close }
{
    match close {
        Close::Ended => Closed::Ended,
        Close::Exited | Close::Faulted => Closed::Exited,
        Close::Cancelled(reason) => Closed::Cancelled(reason),
    }
}

/// A transaction on the world that a disk keeps, nested to a depth of 64. An end is all or nothing. After
/// a disk fault each call answers `Failed`. A close costs what the transaction touched: some steps for
/// each line that it changed and each block that it took or staged, and neither a copy of the heap nor a
/// pass over it.
#[derive(Drop)]
pub struct Station<D: Disk, M: Media, F: Notify + Drop> {
    ground: HeapGround<D, M, F>,
    nesting: Nesting,
    /// The disk's moment as it failed.
    failed: Option<u64>,
}

/// How many moves a call has at most, on a heap of so many bytes.
pub fn most_moves(call: &Call, size: u64) -> u64
    ensures most { MovesAtMost size call.now result }
    ensures few { result ≤ size / 4 + 4 }
{
    if call.is_reading() {
        return 0;
    }
    match call {
        Call::ListDestroy(_)
        | Call::HashDestroy(_)
        | Call::Destroy(_)
        | Call::Strip(_)
        | Call::ClonePart(_, _, _, _) => size / 16 + 1,
        Call::Bond(_, _) => size / 4,
        Call::AppendExtent(_, _, _, _, _) => 2,
        _ => 1,
    }
}

impl<D: Disk, M: Media, F: Notify + Drop> Model for Station<D, M, F> {
    ghost use Rattle.sdr_station.specs.Stationed.{IsStation, Stationed};

    ghost Value = { Stationed D M };

    ghost view = { λ s. record { ground = s.ground; nesting = s.nesting; failed = s.failed } };

    ghost invariant = { λ s. IsStation s.ground s.nesting s.failed };
}

impl<D: Disk, M: Media, F: Notify + Drop> Station<D, M, F> {
    /// Opens the heap on a disk, as `HeapGround::open` does. No transaction is open, and all memory is taken here.
    pub fn open(
        alloc: Global,
        disk: D,
        media: M,
        notice: Notice<F>,
    ) -> Result<Station<D, M, F>, Shut<D, M>>
        ensures opened { IfOk result (λ s. IsOpen D.bytes D.tells_crashes D.moment D.may_hold_after
            disk s.ground) }
        ensures idle { IfOk result (λ s. (s.nesting ≡ unbegun) × (s.failed ≡ None)) }
        ensures why { IfErr result (λ shut.
            ExplainsOpen (D.bytes disk) (D.faults disk) (D.faults shut.disk) shut.why) }
        ensures disk { KeepsDisk D.bytes D.tells_crashes disk (disk_under result) }
        ensures media { media_under result ≡ media }
        ensures bytes { IfErr result (λ shut.
            LeavesBytes (D.bytes disk) (D.bytes shut.disk) shut.why) }
        ensures later { D.faults disk ≤ D.faults (disk_under result) }
        ensures quiet { first_gate (D.bytes disk) ≡ 0 → Reads D.bytes D.tells_crashes D.moment
            D.may_hold_after disk (disk_under result) }
        ensures forward { D.moment disk ≤ D.moment (disk_under result) }
        ensures calls { IfOk result (λ s.
            D.moment s.ground.heap.cells.disk ≤ D.moment disk + 2 * (s.ground.restored + 3)) }
        ensures any_moment { IfTells (D.tells_crashes disk)
            (MayBeOpened (D.bytes disk) (D.may_hold_after disk (D.moment disk))
            → AtEach D.moment D.may_hold_after disk (disk_under result) (GivesSame
            (D.bytes disk))) }
    {
        match HeapGround::open(alloc, disk, media, notice) {
            Ok(ground) => Ok(Station {
                ground,
                nesting: Nesting::none(),
                failed: None,
            }),
            Err(shut) => Err(shut),
        }
    }

    /// Whether a ticket is granted, outside a transaction. The disk is only read. Where it fails, the look answers `DiskFault`.
    pub fn look(&mut self, ticket: u64) -> Result<bool, Stop>
        requires outside { self.old.nesting.depth ≡ 0 }
        ensures looks { LooksAt ⟦<HeapGround<D, M, F> as HasGround>⟧ ticket self.old self.new
            result }
        ensures still { StaysLooked D.Disk self.old self.new }
    {
        if self.failed.is_some() {
            return Err(Stop::Failed);
        }
        match self.ground.look(ticket) {
            Ok(shown) => Self::ticket_told(ticket, shown),
            Err(Fault) => {
                self.failed = Some(self.ground.moment());
                Err(Stop::DiskFault)
            }
        }
    }

    // What is told of a ticket that is shown so.
    fn ticket_told(ticket: u64, shown: Option<bool>) -> Result<bool, Stop>
        ensures { IsTicketTold ticket shown result }
    {
        match shown {
            Some(granted) => Ok(granted),
            None => Err(Stop::Refused(Refusal::BadTicket { ticket })),
        }
    }

    /// The disk and the media. What the open transaction has done is lost.
    pub fn into_parts(self) -> (D, M)
        ensures disk { result.0 ≡ self.ground.heap.cells.disk }
        ensures media { result.1 ≡ self.ground.media }
    {
        let Station {
            ground,
            nesting: _,
            failed: _,
        } = self;
        ground.into_parts()
    }

    /// How deep the transaction is nested: 0 where none has begun.
    pub fn depth(&self) -> u64
        ensures { result ≡ self.now.nesting.depth }
    {
        self.nesting.depth
    }

    /// Begins a transaction, or one inside it, and answers the depth. It is refused at the greatest, which dooms.
    pub fn begin(&mut self) -> Result<u64, Stop>
        ensures { Begins self.old self.new result }
    {
        if self.failed.is_some() {
            return Err(Stop::Failed);
        }
        if self.nesting.depth == 0 {
            self.nesting = Nesting::at(1);
            return Ok(1);
        }
        match self.nesting.begin() {
            Answer::Depth { depth } => Ok(depth),
            _ => Err(Stop::Refused(Refusal::TooDeep)),
        }
    }

    /// How many moves the call that follows can have at most, which are no more than the heap has room for. After a
    /// disk fault it answers `Failed`.
    pub fn room_for(&mut self, call: &Call) -> Result<u64, Stop>
        ensures room { TellsRoom call.now self.old result }
        ensures same { self.new ≡ self.old }
    {
        if let Some(_) = self.failed {
            return Err(Stop::Failed);
        }
        Ok(most_moves(call, self.ground.size()))
    }

    /// Makes a call. Where it gives bytes, they are put at the front of the buffer, and the reply tells how many.
    ///
    /// In a doomed transaction it is refused `Doomed`, and after a disk fault it answers `Failed`, both without moves. Else it is refused as its
    /// row has it, or for want of a block (`NoBlock`) or of log room (`LogFull`), which dooms where it is a change. A fault of
    /// media, or too few bytes of them (`SourceShort`), dooms nothing. Media are asked at most once for each extent that
    /// lies with them and of which the call needs bytes. A reading call touches no line. Where the disk fails, it answers
    /// `DiskFault`, and the transaction is as deep as before.
    pub fn call(&mut self, call: &Call, into: &mut [u8; PAGE]) -> Reply
        requires begun { 0 < self.old.nesting.depth }
        ensures says { SaysOr ⟦<HeapGround<D, M, F> as HasGround>⟧ call.now result
            self.old self.new }
        ensures asks { AsksMedia M.Media call.now self.old.ground self.new.ground }
        ensures depth { self.new.nesting.depth ≡ self.old.nesting.depth }
        ensures fills { Fills self.new.ground result into.old into.new }
        ensures quiet { IsQuiet D.bytes D.tells_crashes D.moment D.may_hold_after
            self.old.ground.heap.cells self.new.ground.heap.cells }
        ensures lines { is_reading call.now ≡ true
            → self.new.ground.heap.cells.touched ≡ self.old.ground.heap.cells.touched }
        ensures any_moment { LeavesBefore ⟦<HeapGround<D, M, F> as HasGround>⟧
            self.old.ground self.new.ground }
    {
        let reply = self.reply(call);
        self.fill(&reply, into);
        reply
    }

    // Puts the bytes of which the reply tells into the buffer.
    fn fill(&self, reply: &Reply, into: &mut [u8; PAGE])
        requires { GivesReply reply.now self.now.ground }
        ensures { Fills self.now.ground reply.now into.old into.new }
    {
        if let Reply::Bytes { .. } | Reply::Named { .. } = reply {
            let shown = self.ground.shown();
            into[..shown.len()].copy_from_slice(shown);
        }
    }

    // Forgets the moves of the call before one that isn't made.
    fn leave_unmade(&mut self)
        ensures { IsUnmade self.old self.new }
    {
        self.ground.forget();
    }

    // Makes a call.
    fn reply(&mut self, call: &Call) -> Reply
        requires begun { 0 < self.old.nesting.depth }
        ensures says { SaysOr ⟦<HeapGround<D, M, F> as HasGround>⟧ call.now result
            self.old self.new }
        ensures asks { AsksMedia M.Media call.now self.old.ground self.new.ground }
        ensures depth { self.new.nesting.depth ≡ self.old.nesting.depth }
        ensures gives { GivesReply result self.new.ground }
        ensures quiet { IsQuiet D.bytes D.tells_crashes D.moment D.may_hold_after
            self.old.ground.heap.cells self.new.ground.heap.cells }
        ensures lines { is_reading call.now ≡ true
            → self.new.ground.heap.cells.touched ≡ self.old.ground.heap.cells.touched }
        ensures any_moment { LeavesBefore ⟦<HeapGround<D, M, F> as HasGround>⟧
            self.old.ground self.new.ground }
    {
        if let Some(moment) = self.failed {
            self.leave_unmade();
            return Reply::Failed { moment };
        }
        if let Some(by) = self.nesting.doom {
            self.leave_unmade();
            return Reply::Refused(Refusal::Doomed { by });
        }
        match self.ground.serve(call) {
            Ok(reply) => {
                self.nesting.note(call, reply);
                reply
            }
            Err(Fault) => {
                self.failed = Some(self.ground.moment());
                Reply::DiskFault
            }
        }
    }

    /// The moves of the last call. One that is refused `Doomed` or answered `Failed` has none.
    pub fn moves(&self) -> &[Move]
        ensures { result.now ≡ self.now.ground.heap.moves }
    {
        self.ground.moves()
    }

    /// The disk's moment.
    pub fn now(&self) -> u64
        ensures { result ≡ self.now.ground.moment }
    {
        self.ground.moment()
    }

    /// How many lines opening has put back.
    pub fn restored(&self) -> u64
        ensures { result ≡ self.now.ground.restored }
    {
        self.ground.restored()
    }

    // Keeps the transaction.
    fn keep(&mut self) -> Result<Closed, Stop>
        requires sound { self.old.failed ≡ None }
        requires undoomed { self.old.nesting.doom ≡ None }
        ensures { Closes D.bytes ⟦<HeapGround<D, M, F> as HasGround>⟧ Close.Ended self.old self.new
            result }
    {
        match self.ground.save() {
            Ok(()) => {
                self.nesting = Nesting::none();
                Ok(Closed::Ended)
            }
            Err(Fault) => {
                self.nesting = Nesting::none();
                self.failed = Some(self.ground.moment());
                Err(Stop::DiskFault)
            }
        }
    }

    // Rolls the transaction back, which closes so.
    fn roll_back(&mut self, close: Close) -> Result<Closed, Stop>
        requires sound { self.old.failed ≡ None }
        requires unkept { is_kept close ≡ false }
        ensures { Closes D.bytes ⟦<HeapGround<D, M, F> as HasGround>⟧ close self.old self.new result }
    {
        match self.ground.restore() {
            Ok(()) => {
                self.nesting = Nesting::none();
                Ok(closed_as(close))
            }
            Err(Fault) => {
                self.nesting = Nesting::none();
                self.failed = Some(self.ground.moment());
                Err(Stop::DiskFault)
            }
        }
    }

    // Closes the transaction.
    fn close(&mut self, event: &Event) -> Result<Closed, Stop>
        requires sound { self.old.failed ≡ None }
        ensures { Closes D.bytes ⟦<HeapGround<D, M, F> as HasGround>⟧ (closing self.old.nesting event.now)
            self.old self.new result }
    {
        match self.nesting.closing(event) {
            Close::Ended => self.keep(),
            close => self.roll_back(close),
        }
    }

    // One less deep, by what the answer tells.
    fn risen(answer: Answer) -> Result<Closed, Stop>
        ensures { HasRisen answer result }
    {
        match answer {
            Answer::Depth { depth } => Ok(Closed::Depth(depth)),
            _ => Err(Stop::Failed),
        }
    }

    /// Ends the transaction, or the innermost one inside it. The outermost end keeps what was done, unless it is
    /// doomed.
    pub fn end(&mut self) -> Result<Closed, Stop>
        requires begun { 0 < self.old.nesting.depth }
        ensures closes { ClosesBy D.bytes ⟦<HeapGround<D, M, F> as HasGround>⟧ Event.End ended
            self.old self.new result }
        ensures any_moment { LeavesOr (commits_in self.old.nesting Event.End)
            ⟦<HeapGround<D, M, F> as HasGround>⟧ self.old.ground self.new.ground }
    {
        if self.failed.is_some() {
            return Err(Stop::Failed);
        }
        if self.nesting.depth <= 1 {
            return self.close(&Event::End);
        }
        Self::risen(self.nesting.end())
    }

    /// Cancels the transaction. An inner cancel dooms it.
    pub fn cancel(&mut self) -> Result<Closed, Stop>
        requires begun { 0 < self.old.nesting.depth }
        ensures closes { ClosesBy D.bytes ⟦<HeapGround<D, M, F> as HasGround>⟧ Event.Cancel cancelled
            self.old self.new result }
        ensures any_moment { LeavesBefore ⟦<HeapGround<D, M, F> as HasGround>⟧
            self.old.ground self.new.ground }
    {
        if self.failed.is_some() {
            return Err(Stop::Failed);
        }
        if self.nesting.depth <= 1 {
            return self.close(&Event::Cancel);
        }
        Self::risen(self.nesting.cancel())
    }

    /// Ends the transaction, which was to change nothing.
    pub fn exit(&mut self) -> Result<Closed, Stop>
        requires begun { 0 < self.old.nesting.depth }
        ensures closes { ClosesBy D.bytes ⟦<HeapGround<D, M, F> as HasGround>⟧ Event.Exit ended
            self.old self.new result }
        ensures any_moment { LeavesBefore ⟦<HeapGround<D, M, F> as HasGround>⟧
            self.old.ground self.new.ground }
    {
        if self.failed.is_some() {
            return Err(Stop::Failed);
        }
        if self.nesting.depth <= 1 {
            return self.close(&Event::Exit);
        }
        Self::risen(self.nesting.end())
    }
}
