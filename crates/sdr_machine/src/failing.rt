// The roll of a lock whose disk has failed.
ghost use Rattle.std.specs.Prelude.{◌≡◌, ◌<◌, ◌^◌};
ghost use Rattle.sdr_machine.specs.Roll.{MayDraw, held_by};
ghost use Rattle.sdr_machine.specs.Machine.{roll_acting, roll_coming, roll_failed, roll_holding};

use crate::{Daemon, Holding, Roll};
use sdr_model::Event;

// An event of a daemon without a number.
fn come_failed(roll: &mut Roll, daemon: Daemon, event: &Event)
    requires { roll.old.drawn < 2 ^ 60 }
    ensures comes { roll.new ≡ roll_coming roll.old daemon event.now }
    ensures failed { roll.new.failed ≡ roll.old.failed }
{
    match event {
        Event::Request => {
            roll.draw(daemon, 0);
        }
        Event::Leaves(_) => {
            if roll.serving() == 0 {
                roll.draw_done();
                roll.put(daemon.after_leave());
            } else {
                roll.draw(daemon, 0);
            }
        }
        _ => {}
    }
}

// An event under a number that is held.
fn hold_failed(roll: &mut Roll, daemon: Daemon, holding: &Holding, event: &Event)
    ensures holds { roll.new ≡ roll_holding roll.old daemon holding.now event.now }
    ensures failed { roll.new.failed ≡ roll.old.failed }
{
    if let Event::Leaves(_) = event {
        if roll.serving() == holding.number {
            roll.put(daemon.after_leave());
        }
    }
}

// An event of a daemon of the roll's.
fn act_failed(roll: &mut Roll, daemon: Daemon, event: &Event)
    requires { MayDraw roll.old daemon.holds }
    ensures acts { roll.new ≡ roll_acting roll.old daemon event.now }
    ensures failed { roll.new.failed ≡ roll.old.failed }
{
    if daemon.left {
        return;
    }
    match daemon.holds {
        None => come_failed(roll, daemon, event),
        Some(holding) => hold_failed(roll, daemon, &holding, event),
    }
}

/// An event, where the disk has failed.
pub fn go_failed(roll: &mut Roll, id: u8, event: &Event)
    requires { MayDraw roll.old (held_by roll.old id) }
    ensures goes { roll.new ≡ roll_failed roll.old id event.now }
    ensures failed { roll.new.failed ≡ roll.old.failed }
{
    if let Some(daemon) = roll.daemon(id) {
        act_failed(roll, daemon, event);
    }
}
