// What an event of a daemon is made under, and room for what it may come to.
ghost use Rattle.std.specs.Prelude.{◌≡◌, ◌&&◌, not, IfOk};
ghost use Rattle.sdr_machine.specs.Core.{has_left, looks_again};
ghost use Rattle.sdr_machine.specs.Roll.{MayDraw, number_of};
ghost use Rattle.sdr_machine.specs.Room.{HoldsEvent};
ghost use Rattle.sdr_machine.specs.Standing.{GroundState};

use sdr_base::NoMemory;
use sdr_machine::{Daemon, Roll, Room, Tells};
use sdr_model::Event;

/// The lock number that an event of the daemon is made under.
pub fn number_of(roll: &Roll, known: &Daemon) -> u64
    requires { MayDraw roll.now known.now.holds }
    ensures { result ≡ number_of roll.now known.now }
{
    match known.holds {
        None => roll.drawn() + 1,
        Some(holding) => holding.number,
    }
}

/// Whether the event looks at a ticket for which the daemon waits.
pub fn looks_again(known: &Daemon, event: &Event) -> bool
    ensures { result ≡ looks_again known.now event.now }
{
    match event {
        Event::Look(ticket) => known.waits_for(*ticket),
        _ => false,
    }
}

/// Room for what the event may come to.
pub fn room_for<T: Tells>(base: &T, event: &Event) -> Result<Room, NoMemory>
    ensures { IfOk result (λ room. (v : GroundState) → T.stands base.now v →
        HoldsEvent room v.now event.now) }
{
    match event {
        Event::Say(call) => base.room_for(call),
        _ => Ok(Room { moves: 0, bytes: 0 }),
    }
}

/// Whether the daemon, which was so, has left by now.
pub fn leaves_now(roll: &Roll, known: &Daemon) -> bool
    ensures { result ≡ (has_left roll.now known.now.id && not known.now.left) }
{
    roll.has_left(known.id) && !known.left
}
