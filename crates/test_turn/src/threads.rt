ghost use Rattle.std.specs.Prelude.{◌≡◌, ◌≤◌, All, vec_len, vec_capacity};
ghost use Rattle.std.specs.Thread.{IsSync};
ghost use Rattle.sdr_turn.specs.Seats.{IsIdleSeat};

use crate::tally::{Tally, turn_of};
use sdr_turn::{Seat, Turn};
use std::alloc::Global;
use std::rt::Clock;
use std::sync::Wait;
use std::thread::{Threads, join};
use std::time::{Duration, Instant};

/// How long each thread goes on: for so many turns, or until so much time has passed, but for one turn at least.
#[derive(Clone, Copy)]
pub struct Bounds {
    pub turns: u64,
    pub start: Instant,
    pub time: Duration,
}

impl Bounds {
    // Whether the time has passed. A clock that can't be read ends it too.
    fn is_over<R: Clock>(&self, rt: &R) -> bool {
        match self.start.elapsed(rt) {
            Ok(time) => time >= self.time,
            Err(_) => true,
        }
    }
}

/// Draws a number and takes its turn.
pub fn serve<R: Wait>(rt: &R, turn: &Turn<Tally>, seat: &mut Seat<Tally>)
    requires { IsIdleSeat turn.now.id seat.old }
    ensures { IsIdleSeat turn.now.id seat.new }
{
    if let Some(number) = turn.draw(seat) {
        turn_of(rt, turn, seat, number);
    }
}

/// The same as often as the bounds say, and gives the seat back.
pub fn serve_often<R: Wait + Clock>(
    rt: &R,
    turn: &Turn<Tally>,
    mut seat: Seat<Tally>,
    bounds: &Bounds,
) -> Seat<Tally>
    requires { IsIdleSeat turn.now.id seat }
    ensures { IsIdleSeat turn.now.id result }
{
    for _ in 0..bounds.turns {
        serve(rt, turn, &mut seat);
        if bounds.is_over(rt) {
            break;
        }
    }
    seat
}

/// Each seat takes its turns in a thread of its own, and all come back. It takes no memory.
pub fn serve_all<R: Threads + Wait + Clock + Sync>(
    rt: &R,
    turn: &Turn<Tally>,
    mut seats: Vec<Seat<Tally>>,
    bounds: &Bounds,
) -> Vec<Seat<Tally>>
    requires idle { All (IsIdleSeat turn.now.id) seats.items }
    ensures count { vec_len result ≡ vec_len seats }
    ensures room { vec_capacity result ≡ vec_capacity seats }
    ensures idle { All (IsIdleSeat turn.now.id) result.items }
{
    let Some(seat) = seats.pop() else {
        return seats;
    };
    let (seat, mut seats) = join(
        rt,
        || -> Seat<Tally>
            requires { IsSync R.row × IsIdleSeat turn.now.id seat }
            ensures { IsIdleSeat turn.entry.now.id result }
        { serve_often(rt, turn, seat, bounds) },
        || -> Vec<Seat<Tally>>
            requires { IsSync R.row × All (IsIdleSeat turn.now.id) seats.items }
            ensures count { vec_len result ≡ vec_len seats }
            ensures room { vec_capacity result ≡ vec_capacity seats }
            ensures idle { All (IsIdleSeat turn.entry.now.id) result.items }
        { serve_all(rt, turn, seats, bounds) },
    );
    seats.push_reserved(seat);
    seats
}

/// So many threads take turns.
pub fn serve_many<R: Threads + Wait + Clock + Sync>(
    rt: &R,
    alloc: Global,
    count: u64,
    bounds: &Bounds,
) -> Option<Tally>
    requires { (1 ≤ count) × (count ≤ 64) }
{
    let Ok((turn, seats)) = Turn::new(alloc, Tally::new(alloc), count) else {
        return None;
    };
    let seats = serve_all(rt, &turn, seats, bounds);
    Some(turn.close(seats))
}
