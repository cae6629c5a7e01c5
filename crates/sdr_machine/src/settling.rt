// How a transaction is kept or put back.
ghost use Rattle.std.specs.Prelude.{◌≡◌, false, true, IsErrOf, OnErr, OnOk};
ghost use Rattle.sdr_machine.specs.Crash.{LeavesBefore, LeavesOr, is_kept};
ghost use Rattle.sdr_machine.specs.Serving.{Brings, KeepsGround, MeetsFault, RollsBack, Settles};

use crate::{Backing, Fault, Halt};
use sdr_model::Close;

// Rolls the transaction back.
fn roll_back<T: Backing>(base: &mut T) -> Result<(), Halt>
    requires { T.sound base.old }
    ensures idle { OnOk result (T.idle base.new) }
    ensures put_back { OnOk result (Brings T.stands base.old base.new RollsBack) }
    ensures fault { OnErr result (MeetsFault T.HasGround base.old base.new) }
    ensures only { IsErrOf result Halt.Memory → ⊥ }
    ensures keeps { KeepsGround T.HasGround false base.old base.new }
    ensures any_moment { LeavesBefore T.HasGround base.old base.new }
{
    match base.roll_back() {
        Ok(()) => Ok(()),
        Err(Fault) => Err(Halt::Fault),
    }
}

/// Keeps the open transaction, in which no call was stopped, or puts it back, by how it closes. Only one that is kept may
/// find no memory, which leaves all as before.
pub fn settle<T: Backing>(base: &mut T, close: Close) -> Result<(), Halt>
    requires sound { T.sound base.old }
    requires going { is_kept close ≡ true → T.going base.old }
    ensures idle { OnOk result (T.idle base.new) }
    ensures left { OnOk result (Brings T.stands base.old base.new (Settles close)) }
    ensures memory { IsErrOf result Halt.Memory → base.new ≡ base.old }
    ensures only { IsErrOf result Halt.Memory → is_kept close ≡ true }
    ensures fault { IsErrOf result Halt.Fault → MeetsFault T.HasGround base.old base.new }
    ensures keeps { KeepsGround T.HasGround false base.old base.new }
    ensures any_moment { LeavesOr (is_kept close) T.HasGround base.old base.new }
{
    match close {
        Close::Ended => base.keep(),
        Close::Exited => roll_back(base),
        Close::Cancelled(_) => roll_back(base),
        Close::Faulted => roll_back(base),
    }
}
