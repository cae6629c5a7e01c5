// The ground of a lock.
ghost use Rattle.std.specs.Prelude.{true, false, ◌≡◌, IfOk, OnOk, OnErr, IsErrOf};
ghost use Rattle.sdr_machine.specs.Crash.{LeavesBefore, LeavesEither};
ghost use Rattle.sdr_machine.specs.Lapses.{HasLapseCause};
ghost use Rattle.sdr_machine.specs.Served.{GoesOnAfter};
ghost use Rattle.sdr_machine.specs.Serving.{Brings, CallAsks, Calls, Commits, KeepsGround, MeetsFault, RollsBack, Shows};

use crate::{Fault, Halt, HasGround};
use sdr_model::{Answer, Call, Reply};

/// A world that calls change within a transaction, which then commits or is rolled back. A transaction begins
/// with the first call after that.
pub trait Backing: HasGround {
    /// The disk's moment.
    fn moment(&self) -> u64
        ensures { result ≡ Self.moment self.now };

    /// Makes a call in the transaction, which goes on unless the reply dooms it. Want of memory leaves all as before.
    /// Media are asked at most once for each extent that lies with them and of which the call needs bytes.
    fn call(&mut self, call: &Call) -> Result<Reply, Halt>
        requires lasts { Self.lasts self.old 1 }
        requires going { Self.going self.old }
        ensures answered { IfOk result (λ reply. Brings Self.stands self.old self.new
            (Calls (Self.told self.old) call.now reply)) }
        ensures gap { IfOk result (λ reply. HasLapseCause (Answer.Reply reply) (Self.lapses self.old)
            (Self.lapses self.new)) }
        ensures needs { CallAsks Self.HasGround call.now self.old self.new }
        ensures sound { OnOk result (Self.sound self.new) }
        ensures going { IfOk result (λ reply. GoesOnAfter Self.HasGround call.now reply self.new) }
        ensures memory { IsErrOf result Halt.Memory → self.new ≡ self.old }
        ensures fault { IsErrOf result Halt.Fault → MeetsFault Self.HasGround self.old self.new }
        ensures keeps { KeepsGround Self.HasGround true self.old self.new }
        ensures any_moment { LeavesBefore Self.HasGround self.old self.new };

    /// Keeps what the transaction has done. Want of memory leaves all as before.
    fn keep(&mut self) -> Result<(), Halt>
        requires going { Self.going self.old }
        ensures kept { OnOk result (Brings Self.stands self.old self.new Commits) }
        ensures idle { OnOk result (Self.idle self.new) }
        ensures memory { IsErrOf result Halt.Memory → self.new ≡ self.old }
        ensures fault { IsErrOf result Halt.Fault → MeetsFault Self.HasGround self.old self.new }
        ensures keeps { KeepsGround Self.HasGround false self.old self.new }
        ensures any_moment { LeavesEither Self.HasGround self.old self.new };

    /// Rolls the transaction back: what was before it stands again.
    fn roll_back(&mut self) -> Result<(), Fault>
        requires sound { Self.sound self.old }
        ensures put_back { OnOk result (Brings Self.stands self.old self.new RollsBack) }
        ensures idle { OnOk result (Self.idle self.new) }
        ensures fault { OnErr result (MeetsFault Self.HasGround self.old self.new) }
        ensures keeps { KeepsGround Self.HasGround false self.old self.new }
        ensures any_moment { LeavesBefore Self.HasGround self.old self.new };

    /// Whether the ticket is there, and granted, where no transaction is open.
    fn look(&mut self, ticket: u64) -> Result<Option<bool>, Fault>
        requires idle { Self.idle self.old }
        ensures idle { OnOk result (Self.idle self.new) }
        ensures shown { IfOk result (λ granted. Brings Self.stands self.old self.new
            (Shows ticket granted)) }
        ensures fault { OnErr result (MeetsFault Self.HasGround self.old self.new) }
        ensures keeps { KeepsGround Self.HasGround false self.old self.new }
        ensures any_moment { LeavesBefore Self.HasGround self.old self.new };
}
