ghost use Rattle.std.specs.Prelude.{◌≡◌, ℕ, ◌+◌, ◌<◌, ◌≤◌, false, [], IsSome};
ghost use Rattle.sdr_turn.specs.Entries.{MayAdd};
ghost use Rattle.sdr_turn.specs.Seats.{IsIdleSeat};

use sdr_turn::{Kept, Number, Seat, Turn};
use std::alloc::Global;
use std::sync::Wait;
use std::thread::yield_now;

/// One turn, as its holder noted it.
#[derive(Clone, Copy)]
pub struct Line {
    pub number: u64,
    /// The place of the seat whose turn it was.
    pub by: u64,
}

/// The turns that were taken, each noted where there was memory.
#[derive(Drop)]
pub struct Tally {
    pub lines: Vec<Line>,
    pub turns: u64,
}

impl Kept for Tally {
    type Entry = Line;

    ghost entries = { λ t. t.lines.items };

    ghost number = { λ line. line.number };

    ghost maker = { λ line. line.by };

    ghost turns = { λ t. t.turns };

    ghost rests = { λ t. Unit {0} };
}

impl Tally {
    /// A tally of no turn.
    pub fn new(alloc: Global) -> Tally
        ensures empty { result.lines.items ≡ [] }
        ensures no_turns { result.turns ≡ 0 }
    {
        Tally {
            lines: Vec::new(alloc),
            turns: 0,
        }
    }

    /// Notes the turn of this number, which the seat at this place took.
    pub fn note(&mut self, number: u64, by: u64)
        ensures turns { self.new.turns ≡ number }
        ensures adds { MayAdd (λ line. line.number) (λ line. line.by) number by
            self.old.lines.items self.new.lines.items }
    {
        self.turns = number;
        let _ = self.lines.push(Line { number, by });
    }
}

/// What two seats in one thread see.
#[derive(Drop)]
pub struct Rows {
    pub numbers: [u64; 2],
    pub front_before: u64,
    pub fronts_between: [u64; 2],
    /// How many lines the second to be served found.
    pub found: usize,
}

/// Two seats draw, and take their turns one after the other.
pub fn take_turns<R: Wait>(
    rt: &R,
    turn: &Turn<Tally>,
    one: &mut Seat<Tally>,
    other: &mut Seat<Tally>,
) -> Option<Rows>
    requires one { IsIdleSeat turn.now.id one.old }
    requires other { IsIdleSeat turn.now.id other.old }
    ensures one { IsSome result → IsIdleSeat turn.now.id one.new }
    ensures other { IsSome result → IsIdleSeat turn.now.id other.new }
{
    let first = turn.draw(one)?;
    let Some(second) = turn.draw(other) else {
        turn_of(rt, turn, one, first);
        return None;
    };
    let numbers = [first.get(), second.get()];
    let front_before = turn.front(one);
    turn_of(rt, turn, one, first);
    let fronts_between = [turn.front(one), turn.front(other)];
    let found = turn_of(rt, turn, other, second);
    Some(Rows {
        numbers,
        front_before,
        fronts_between,
        found,
    })
}

/// Waits for the number's turn, notes it, and says how many lines there were before.
pub fn turn_of<R: Wait>(rt: &R, turn: &Turn<Tally>, seat: &mut Seat<Tally>, number: Number) -> usize
    requires seat { seat.old.lock ≡ turn.now.id }
    requires number { (seat.old.knows.number ≡ number) × (seat.old.knows.took ≡ false) }
    ensures seat { IsIdleSeat turn.now.id seat.new }
{
    let n = number.get();
    let by = seat.place();
    let mut held = turn.take(rt, seat, number);
    let found = held.value().lines.len();
    held.value().note(n, by);
    // Others draw meanwhile, and wait.
    yield_now();
    turn.give(seat, held);
    found
}
