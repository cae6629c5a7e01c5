// A heap on a disk that was handed in, as the ground of a lock.
use crate::handed::{Handed, HandedIn};
use sdr_base::{Media, Move, NoMemory};
use sdr_disk::Disk;
use sdr_machine::{Backing, Fault, Halt, HasGround, Room, Shows, Tells};
use sdr_model::{Call, Reply};
use sdr_station::HeapGround;
use std::marker::Model;
use zco_acct::Compares;

/// A heap on a disk that was handed in, with its media. What a crash leaves of it is told where the disk was settled
/// as it was handed in; all else is told of every disk. No byte outside the regions changes.
pub struct HandedGround<D: Disk, M: Media, J: HandedIn> {
    ground: HeapGround<Handed<D, J>, M, Compares>,
}

impl<D: Disk, M: Media, J: HandedIn> Model for HandedGround<D, M, J> {
    ghost use Rattle.sdr_run.specs.Handed.{StaysAsHanded};
    ghost use Rattle.sdr_station.specs.Grounded.{Grounded};

    ghost Value = { Grounded D M };

    ghost view = { λ s. s.ground };

    ghost invariant = { λ s. StaysAsHanded J.was.bytes
        (D.bytes s.ground.heap.cells.disk) s.ground.heap.cells.frame };
}

impl<D: Disk, M: Media, J: HandedIn> HandedGround<D, M, J> {
    ghost use Rattle.std.specs.Prelude.{◌≡◌, [], IfOk, OnErr, OnOk, false, true};
    ghost use Rattle.sdr_base.specs.Causes.{Rose};
    ghost use Rattle.sdr_image.specs.Opened.{Holds};
    ghost use Rattle.sdr_machine.specs.Serving.{Brings, Calls, RollsBack};
    ghost use Rattle.sdr_model.specs.Reading.{is_reading, reads_media};
    ghost use Rattle.sdr_run.specs.Handed.{StaysAsHanded};
    ghost use Rattle.sdr_run.specs.Quiet.{IsSame, StaysQuiet};
    ghost use Rattle.sdr_station.specs.Grounded.{StandsInMemory};

    pub fn new(ground: HeapGround<Handed<D, J>, M, Compares>) -> HandedGround<D, M, J>
        requires { StaysAsHanded J.was.bytes (D.bytes ground.heap.cells.disk) ground.heap.cells.frame }
        ensures { result ≡ ground }
    {
        HandedGround { ground }
    }

    /// Rolls back a transaction that has touched no line. It makes no call of the disk, and doesn't fail.
    pub fn restore(&mut self)
        requires untouched { self.old.heap.cells.touched ≡ [] }
        requires sound { self.old.heap.cells.failed ≡ false }
        ensures back { Brings StandsInMemory self.old self.new RollsBack }
        ensures going { self.new.stopped ≡ false }
        ensures untouched { self.new.heap.cells.touched ≡ [] }
        ensures same { IsSame self.old self.new }
        ensures holds { Holds D.bytes self.old.heap.cells }
        ensures seen { self.old.moment ≡ D.moment self.old.heap.cells.disk }
    {
        match self.ground.restore() {
            Ok(()) => {}
            Err(Fault) => unreachable!(),
        }
    }

    /// Makes a call that reads, and asks no media, in a transaction that has touched no line and in which none was stopped.
    /// The disk is only read.
    pub fn read(&mut self, call: &Call) -> Result<Reply, Fault>
        requires reads { is_reading call.now ≡ true }
        requires unasked { reads_media call.now ≡ false }
        requires going { self.old.stopped ≡ false }
        requires untouched { self.old.heap.cells.touched ≡ [] }
        ensures answered { IfOk result (λ reply. Brings StandsInMemory self.old self.new
            (Calls (M.told self.old.media) call.now reply)) }
        ensures going { OnOk result (self.new.stopped ≡ false) }
        ensures untouched { self.new.heap.cells.touched ≡ [] }
        ensures cause { OnErr result (Rose (D.faults self.old.heap.cells.disk)
            (D.faults self.new.heap.cells.disk)) }
        ensures still { StaysQuiet D.Disk self.old self.new }
    {
        self.ground.serve(call)
    }

    /// The disk and the media. What the open transaction has done is lost.
    pub fn into_parts(self) -> (D, M)
        ensures disk { result.0 ≡ self.heap.cells.disk }
        ensures media { result.1 ≡ self.media }
        ensures seen { D.moment result.0 ≡ self.moment }
        ensures tells { D.tells_crashes result.0 ≡ J.was.tells }
        ensures stays { StaysAsHanded J.was.bytes (D.bytes result.0) self.heap.cells.frame }
        ensures holds { Holds D.bytes self.heap.cells }
    {
        let HandedGround { ground } = self;
        let (disk, media) = ground.into_parts();
        (disk.into_disk(), media)
    }
}

impl<D: Disk, M: Media, J: HandedIn> HasGround for HandedGround<D, M, J> {
    ghost use Rattle.std.specs.Prelude.{⊤};
    ghost use Rattle.sdr_run.specs.Settled as under;
    ghost use Rattle.sdr_station.specs.Grounded as grounded;

    ghost stands = { λ g v.
        under.StandsWhere J.condition D.bytes D.tells_crashes D.moment D.may_hold_after g v };

    ghost moment = { λ g. g.moment };

    ghost faults = { λ g. D.faults g.heap.cells.disk };

    ghost lapses = { λ g. record { faults = M.faults g.media; short = M.short g.media } };

    ghost asks = { λ _. 0 };

    ghost told = { λ g. M.told g.media };

    ghost lasts = { λ _ _. ⊤ };

    ghost sound = { λ g. grounded.HasDiskSound g };

    ghost going = { λ g. grounded.IsGoing g };

    ghost idle = { λ g. grounded.HasNoCalls g };

    ghost left = { λ g m image.
        under.LeavesWhere J.condition D.tells_crashes D.may_hold_after g.heap.cells.disk m image };

    ghost opens = { λ image s. grounded.OpensAs image s };

    ghost crash_now = { λ g v image at left.
        under.crash_now J.condition D.bytes D.tells_crashes D.moment D.may_hold_after
        g v image at left };

    ghost lasts_less = { λ g n lasts. lasts };

    ghost idle_going = { λ g idle. idle.going };

    ghost going_sound = { λ g going. going.sound };
}

impl<D: Disk, M: Media, J: HandedIn> Backing for HandedGround<D, M, J> {
    fn moment(&self) -> u64 {
        self.ground.moment()
    }

    fn call(&mut self, call: &Call) -> Result<Reply, Halt> {
        self.ground.call(call)
    }

    fn keep(&mut self) -> Result<(), Halt> {
        self.ground.keep()
    }

    fn roll_back(&mut self) -> Result<(), Fault> {
        self.ground.restore()
    }

    fn look(&mut self, ticket: u64) -> Result<Option<bool>, Fault> {
        HeapGround::look(&mut self.ground, ticket)
    }
}

impl<D: Disk, M: Media, J: HandedIn> Shows for HandedGround<D, M, J> {
    fn shown(&self) -> &[u8] {
        HeapGround::shown(&self.ground)
    }
}

impl<D: Disk, M: Media, J: HandedIn> Tells for HandedGround<D, M, J> {
    fn moves(&self) -> &[Move] {
        HeapGround::moves(&self.ground)
    }

    fn room_for(&self, call: &Call) -> Result<Room, NoMemory> {
        self.ground.room_for(call)
    }
}
