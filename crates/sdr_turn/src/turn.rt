ghost use Rattle.std.specs.Prelude.{◌≡◌, ◌+◌, ◌<◌, ◌≤◌, ◌^◌, ◌↔◌, true, false, length, IsNone, IfNone, IfSome, IfOk, OnErr, All};
ghost use Rattle.sdr_turn.specs.Entries.{MayAdd, made_at};
ghost use Rattle.sdr_turn.specs.Found.{IsFound};
ghost use Rattle.sdr_turn.specs.Seats.{IsIdleSeat};
ghost use Rattle.sdr_turn.specs.Knowing.{after_draw, after_look, after_take, after_give};

use crate::held::Held;
use crate::kept::Kept;
use crate::number::Number;
use crate::rule::{DONE, DRAWN, Draws, Gives, Looks, Serves, Takes, VALUE};
use crate::seat::Seat;
use crate::view::View;
use atomic_table::Table;
use crossbeam_utils::Backoff;
use std::alloc::Global;
use std::marker::Model;
use std::sync::Wait;
use std::time::Duration;

/// How many numbers a seat may draw.
const MOST: u64 = 1 << 40;

/// A thread that sleeps looks whether it is served after so many milliseconds, even if nothing wakes it.
const LONGEST_SLEEP: u64 = 20;

// How a thread waits.
#[derive(Drop)]
struct Waiting {
    backoff: Backoff,
    /// How many numbers were done when it last went to sleep.
    slept_at: Option<u64>,
}

impl Waiting {
    fn new() -> Waiting {
        Waiting {
            backoff: Backoff::new(),
            slept_at: None,
        }
    }
}

/// A lock over a value, whose holders are served in the order in which they drew. It is not `Drop`: `close` gives the
/// value back.
pub struct Turn<V: Kept> {
    pub(crate) table: Table<Option<V>, View<V::Entry>, u64, Serves<V>, Global>,
}

impl<V: Kept> Model for Turn<V> {
    ghost use Rattle.sdr_turn.specs.Seats.{Lock, IsLock};

    ghost Value = { Lock };

    ghost view = { λ t. record { id = t.table.shared.table_id; seats = t.table.shared.key } };

    ghost invariant = { λ t. IsLock t.table.shared.table_id t.table.shared.key };
}

impl<V: Kept> Turn<V> {
    /// Draws the next number, by one atomic addition. `None` where the seat has drawn 2^40 numbers.
    pub fn draw(&self, seat: &mut Seat<V>) -> Option<Number>
        requires seat { IsIdleSeat self.now.id seat.old }

        ensures none { IsNone result ↔ (length seat.old.knows.numbers ≡ 2 ^ 40) }
        ensures same { IfNone result (seat.new ≡ seat.old) }
        ensures drawn { IfSome result (λ n. seat.new.knows ≡ after_draw seat.old.knows n) }
        ensures rises { IfSome result (λ n. All (λ m. m < n) seat.old.knows.numbers) }
        ensures ahead { IfSome result (λ n. seat.old.knows.front < n) }
        ensures lock { seat.new.lock ≡ seat.old.lock }
    {
        if seat.drawn == MOST {
            return None;
        }
        let before = self
            .table
            .shared
            .fetch_add::<Draws>(&mut seat.table_seat, DRAWN, 1);
        seat.drawn += 1;
        Some(Number { value: before + 1 })
    }

    /// How many numbers are done.
    pub fn front(&self, seat: &mut Seat<V>) -> u64
        requires seat { seat.old.lock ≡ self.now.id }

        ensures looked { seat.new.knows ≡ after_look seat.old.knows result }
        ensures rises { seat.old.knows.front ≤ result }
        // A number that is held is not done, and while its seat has the value it is the next.
        ensures held { 0 < seat.old.knows.number → result < seat.old.knows.number }
        ensures next { seat.old.knows.took ≡ true → result + 1 ≡ seat.old.knows.number }
        ensures lock { seat.new.lock ≡ seat.old.lock }
    {
        self.table.shared.load::<Looks>(&mut seat.table_seat, DONE)
    }

    /// Waits until all numbers below this one are done, and takes the value.
    pub fn take<R: Wait>(&self, rt: &R, seat: &mut Seat<V>, number: Number) -> Held<V>
        requires seat { seat.old.lock ≡ self.now.id }
        requires number { seat.old.knows.number ≡ number }
        requires free { seat.old.knows.took ≡ false }

        ensures found { IsFound V.entries V.number V.maker V.turns V.rests seat.old.knows number result }
        ensures taken { seat.new.knows ≡ after_take seat.old.knows (V.entries result) }
        ensures lock { seat.new.lock ≡ seat.old.lock }
    {
        let Number { value: number } = number;
        let mut waiting = Waiting::new();
        for _ in rt.forever() {
            match self.try_take(seat, number) {
                Ok(value) => return Held { value },
                Err(done) => self.wait_past(rt, &mut waiting, done),
            }
        }
        unreachable!()
    }

    // Takes the value where the number is served. At `Err` so many numbers are done, and these are too few.
    fn try_take(&self, seat: &mut Seat<V>, number: u64) -> Result<V, u64>
        requires seat { seat.old.lock ≡ self.now.id }
        requires number { (0 < number) × (seat.old.knows.number ≡ number) }
        requires free { seat.old.knows.took ≡ false }

        ensures found { IfOk result (IsFound V.entries V.number V.maker V.turns V.rests seat.old.knows number) }
        ensures taken { IfOk result (λ value. seat.new.knows ≡ after_take seat.old.knows (V.entries value)) }
        ensures same { OnErr result (seat.new ≡ seat.old) }
        ensures lock { seat.new.lock ≡ seat.old.lock }
    {
        let table = &self.table.shared;
        let done = table.load::<Takes>(&mut seat.table_seat, DONE);
        if done != number - 1 {
            return Err(done);
        }
        let slot = table.exchange(&mut seat.table_seat, VALUE, None);
        let Some(value) = slot else { unreachable!() };
        Ok(value)
    }

    // Lets other threads go on: it spins, then yields, and after some calls sleeps while just so many numbers are done. A give
    // wakes the thread that sleeps longest, which need not be the next to be served. One that isn't wakes the next sleeper
    // before it sleeps again, once for each count of numbers done.
    fn wait_past<R: Wait>(&self, rt: &R, waiting: &mut Waiting, done: u64) {
        if !waiting.backoff.is_completed() {
            waiting.backoff.snooze();
            return;
        }
        let table = &self.table.shared;
        if waiting.slept_at != Some(done) {
            if waiting.slept_at.is_some() {
                table.wake_one(DONE);
            }
            waiting.slept_at = Some(done);
        }
        table.park_timeout(
            rt,
            DONE,
            low_half(done),
            Duration::from_millis(LONGEST_SLEEP),
        );
    }

    /// Gives the value back: the number is done, and the seat saw the value's entries.
    pub fn give(&self, seat: &mut Seat<V>, held: Held<V>)
        requires seat { seat.old.lock ≡ self.now.id }
        requires took { seat.old.knows.took ≡ true }
        requires turn { V.turns held ≡ seat.old.knows.number }
        requires rests { V.rests held }
        requires adds { MayAdd V.number V.maker seat.old.knows.number seat.old.knows.place
            seat.old.knows.seen (V.entries held) }

        ensures gave { seat.new.knows ≡ after_give seat.old.knows (V.entries held) }
        // The entries that its place made are those that it added, this one the last of them.
        ensures made { made_at V.maker seat.old.knows.place (V.entries held) ≡ seat.new.knows.mine }
        ensures rises { seat.old.knows.front ≤ seat.new.knows.front }
        ensures lock { seat.new.lock ≡ seat.old.lock }
    {
        let Held { value } = held;
        let table = &self.table.shared;
        let slot = table.exchange(&mut seat.table_seat, VALUE, Some(value));
        let None = slot else { unreachable!() };
        let before = table.fetch_add::<Gives>(&mut seat.table_seat, DONE, 1);
        // Who waits has drawn before it looks whether its number is served, so none of these can miss the wake.
        if table.peek(DRAWN) > before + 1 {
            table.wake_one(DONE);
        }
    }
}

// The low 32 bits of a number.
fn low_half(n: u64) -> u32 {
    (n & 0xffff_ffff) as u32
}
