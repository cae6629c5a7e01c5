// The leaves at the end of a run.
ghost use Rattle.std.specs.Prelude.{◌≡◌, ◌≤◌, ◌+◌, ◌*◌, ◌^◌, ◌++◌, None, filter, length, map, not, take, true};
ghost use Rattle.sdr_machine.specs.Holders.{hold_none, holders};
ghost use Rattle.sdr_machine.specs.Leaving.{AllLeave, HoldersLeave, LeaveInTurn};
ghost use Rattle.sdr_machine.specs.Roll.{MayDraw, held_by};
ghost use Rattle.sdr_core.specs.Going.{GoesUnasked, LeavesNone, MakesNext};
ghost use Rattle.sdr_core.specs.Leaving.{LastsOn, RunLeads};

use crate::{Core, Origin, Runs};
use sdr_machine::{Came, Daemon, Tells};
use sdr_model::{Event, Leave};

// How many daemons a core may have.
const MOST_DAEMONS: usize = 256;

// Puts the ids of those of these daemons that haven't left behind the first so many, and gives how many there are then.
#[tactic(auto, using(std::proofs::lemmas::List::take_more_set))]
fn put_staying(daemons: &[Daemon], ids: &mut [u8], count: usize) -> usize
    requires room { count + length daemons.now ≤ length ids.old }
    ensures within { result ≤ length ids.old }
    ensures ids { take result ids.new
        ≡ take count ids.old ++ map (λ d. d.id) (filter (λ d. not d.left) daemons.now) }
{
    match daemons {
        [] => count,
        [first, others @ ..] => {
            if first.left {
                put_staying(others, ids, count)
            } else {
                ids[count] = first.id;
                put_staying(others, ids, count + 1)
            }
        }
    }
}

// A daemon makes a leave.
fn make_leave<R: Runs>(run: &mut R, daemon: u8, leave: Leave) -> Came
    requires drawn { MayDraw (R.roll_of run.old) (held_by (R.roll_of run.old) daemon) }
    requires lasts { R.lasts run.old }
    ensures makes { MakesNext R.HasRun daemon 0 (Event.Leaves leave) result run.old run.new }
    ensures asks { R.asks run.new ≤ R.asks run.old }
    ensures none { LeavesNone (R.roll_of run.old) (R.roll_of run.new) }
{
    run.roll();
    let Ok(came) = run.event(daemon, 0, &Event::Leaves(leave)) else {
        unreachable!();
    };
    came
}

// The daemon whose number is served makes a leave, until none is.
fn holders_leave<R: Runs>(run: &mut R, leave: Leave)
    requires lasts { R.lasts run.old }
    ensures left { GoesUnasked R.HasRun (HoldersLeave (R.told run.old) leave) run.old run.new }
    ensures lasts { R.lasts run.new }
    ensures none { hold_none (R.roll_of run.new).daemons ≡ true }
    ensures daemons { length (R.roll_of run.new).daemons ≡ length (R.roll_of run.old).daemons }
    ensures drawn { (R.roll_of run.new).drawn ≤ (R.roll_of run.old).drawn
        + holders (R.roll_of run.old).daemons }
{
    if let Some(daemon) = run.roll().served() {
        make_leave(run, daemon.id, leave);
        holders_leave(run, leave);
    }
}

// These daemons make a leave each, in this order.
fn leave_in_turn<R: Runs>(run: &mut R, daemons: &[u8], leave: Leave)
    requires lasts { R.lasts run.old }
    requires drawn { (R.roll_of run.old).drawn + length daemons.now ≤ 2 ^ 60 }
    ensures left { GoesUnasked R.HasRun (LeaveInTurn (R.told run.old) leave daemons.now)
        run.old run.new }
    ensures none { LeavesNone (R.roll_of run.old) (R.roll_of run.new) }
    ensures drawn { (R.roll_of run.new).drawn ≤ (R.roll_of run.old).drawn + length daemons.now }
{
    match daemons {
        [] => (),
        [first, others @ ..] => {
            make_leave(run, *first, leave);
            leave_in_turn(run, others, leave)
        }
    }
}

/// Makes the leaves at the end of a schedule: the daemons that hold a number make one, in lock order, and then those that
/// haven't left yet do, in their order. It takes no memory, and asks no media. Unless the disk has failed, no number is held then.
pub fn leave_all<R: Runs>(run: &mut R, leave: Leave)
    requires lasts { R.lasts run.old }
    requires drawn { (R.roll_of run.old).drawn + 2 * length (R.roll_of run.old).daemons ≤ 2 ^ 60 }
    ensures left { GoesUnasked R.HasRun (AllLeave (R.told run.old) leave) run.old run.new }
    ensures none { (R.roll_of run.new).failed ≡ None →
        hold_none (R.roll_of run.new).daemons ≡ true }
    ensures drawn { (R.roll_of run.new).drawn ≤ (R.roll_of run.old).drawn
        + 2 * length (R.roll_of run.old).daemons }
{
    holders_leave(run, leave);
    let mut ids = [0u8; MOST_DAEMONS];
    let count = put_staying(run.roll().daemons(), &mut ids, 0);
    leave_in_turn(run, &ids[..count], leave)
}

impl<T: Tells, J: Origin> Core<T, J> {
    /// Makes the leaves at the end of a schedule: the daemons that hold a number make one, in lock order, and then those that
    /// haven't left yet do, in their order. It takes no memory.
    pub fn leave_all(&mut self, leave: Leave)
        requires lasts { LastsOn T.HasGround self.old.lock.base }
        requires drawn { self.old.lock.roll.drawn + 2 * length self.old.lock.roll.daemons ≤ 2 ^ 60 }
        ensures left { RunLeads T.HasGround (AllLeave (T.told self.old.lock.base) leave) self.old
            self.new }
    {
        leave_all(self, leave)
    }
}
