// How a lock begins and ends.
ghost use Rattle.std.specs.Prelude.{◌≡◌, ℕ, ◌+◌, ◌-◌, ◌<◌, ◌≤◌, [], ◌∷◌, Some, map, length, sum_by, All, AllPairs, IfOk, IfErr, vec_len, vec_capacity};
ghost use Rattle.std.specs.List.{range_with_len};
ghost use Rattle.sdr_turn.specs.Entries.{Rise, AtMost, Apart};
ghost use Rattle.sdr_turn.specs.Knowing.{Agrees};
ghost use Rattle.sdr_turn.specs.Seats.{IsNewSeat, IsIdleSeat};
ghost use Rattle.sdr_turn.specs.Views.{seat_view, with_view, told_of};
ghost use Rattle.sdr_turn.specs.Ends.{IsNewTableSeat, IsIdleTableSeat, IsEnd};

use crate::kept::Kept;
use crate::rule::{Parts, VALUE};
use crate::seat::{Seat, TableSeat, seat_at, table_seat_of};
use crate::turn::Turn;
use atomic_table::{Refused, Table};
use std::alloc::Global;

impl<V: Kept> Turn<V> {
    /// A lock over the value, and its seats. At `Err` there was no memory, and the value comes back. No other call takes
    /// memory.
    pub fn new(alloc: Global, value: V, seats: u64) -> Result<(Turn<V>, Vec<Seat<V>>), V>
        requires seats { (1 ≤ seats) × (seats ≤ 64) }
        requires rests { V.rests value }
        requires empty { (V.entries value ≡ []) × (V.turns value ≡ 0) }

        ensures lock { IfOk result (λ t. t.0.seats ≡ seats) }
        ensures count { IfOk result (λ t. vec_len t.1 ≡ seats) }
        ensures seats { IfOk result (λ t. All (IsNewSeat t.0.id) t.1.items) }
        ensures places { IfOk result (λ t. map (λ s. s.knows.place) t.1.items ≡ range_with_len 0 seats) }
        ensures err { IfErr result (λ v. v ≡ value) }
    {
        let Ok(mut row) = Vec::with_capacity(alloc, seats as usize) else {
            return Err(value);
        };
        let (turn, first) = open(alloc, value, seats)?;
        turn.deal(first, &mut row, seats);
        Ok((turn, row))
    }

    /// Ends the lock, with all its seats, and gives the value back.
    pub fn close(self, seats: Vec<Seat<V>>) -> V
        requires all { vec_len seats ≡ self.seats }
        requires idle { All (IsIdleSeat self.id) seats.items }

        ensures rests { V.rests result }
        ensures rise { Rise V.number (V.entries result) }
        ensures past { AtMost V.number (V.turns result) (V.entries result) }

        // It had as many turns as numbers were drawn. What each seat knows agrees with it, and no two drew the same
        // number.
        ensures turns { V.turns result ≡ sum_by (λ s. length s.knows.numbers) seats.items }
        ensures agree { All (λ s. Agrees V.number V.maker (V.entries result) (V.turns result) (V.turns result) s.knows)
            seats.items }
        ensures apart { AllPairs Apart (map (λ s. s.knows.numbers) seats.items) }
    {
        let whole = self.gather(seats);
        self.value_at_end(whole)
    }

    // Takes the value out, where all seats are in one.
    fn value_at_end(self, whole: TableSeat<V>) -> V
        requires { IsIdleTableSeat self.id self.seats whole }
        ensures { IsEnd V.entries V.number V.maker V.turns V.rests whole.me.0 result }
    {
        let Turn { table } = self;
        let mut closed = table.close_with(whole);
        let slot = closed.take(VALUE);
        closed.free();
        let Some(value) = slot else { unreachable!() };
        value
    }

    // Joins the seats into one, which is told what each of them knows.
    fn gather(&self, mut seats: Vec<Seat<V>>) -> TableSeat<V>
        requires all { 0 < vec_len seats }
        requires idle { All (IsIdleSeat self.now.id) seats.items }
        ensures whole { IsIdleTableSeat self.now.id (vec_len seats) result }
        ensures told { told_of result.me.0 ≡ map (λ s. s.knows) seats.items }
        ensures drawn { result.me.0.drawn ≡ sum_by (λ s. length s.knows.numbers) seats.items }
    {
        let Some(last) = seats.pop() else {
            unreachable!()
        };
        let mut whole = table_seat_of(last);
        while let Some(seat) = seats.pop() {
            self.join(&mut whole, seat);
        }
        whole
    }

    // Joins a seat into others.
    fn join(&self, whole: &mut TableSeat<V>, seat: Seat<V>)
        requires whole { IsIdleTableSeat self.now.id whole.old.me.0.parts whole.old }
        requires seat { IsIdleSeat self.now.id seat }
        ensures lock { whole.new.table_id ≡ self.now.id }
        ensures joined { whole.new.me ≡ (with_view whole.old.me.0 (seat_view seat.knows), whole.old.me.1) }
    {
        self.table
            .shared
            .join_seat::<Parts>(whole, table_seat_of(seat));
    }

    // Cuts the first seat of the table, which has all parts, into seats of one part, in the order of their places.
    fn deal(&self, mut first: TableSeat<V>, row: &mut Vec<Seat<V>>, seats: u64)
        requires first { IsNewTableSeat self.now.id 0 seats first }
        requires some { (1 ≤ seats) × (seats ≤ 64) }
        requires room { (row.old.items ≡ []) × (seats ≤ vec_capacity row.old) }
        ensures count { vec_len row.new ≡ seats }
        ensures seats { All (IsNewSeat self.now.id) row.new.items }
        ensures places { map (λ s. s.knows.place) row.new.items ≡ range_with_len 0 seats }
    {
        let mut place = 0;
        while place < seats - 1 {
            row.push_reserved(self.cut(&mut first, place, seats - place));
            place += 1;
        }
        row.push_reserved(seat_at(first, place));
    }

    // Cuts the seat at this place off, and leaves one part less.
    fn cut(&self, first: &mut TableSeat<V>, place: u64, parts: u64) -> Seat<V>
        requires first { IsNewTableSeat self.now.id place parts first.old }
        requires some { (1 < parts) × (place < 64) }
        ensures first { IsNewTableSeat self.now.id (place + 1) (parts - 1) first.new }
        ensures seat { IsNewSeat self.now.id result }
        ensures place { result.knows.place ≡ place }
    {
        let one = self.table.shared.split_seat::<Parts>(first);
        seat_at(one, place)
    }
}

// A lock over the value, and a seat of its table with all parts.
fn open<V: Kept>(alloc: Global, value: V, seats: u64) -> Result<(Turn<V>, TableSeat<V>), V>
    requires seats { (1 ≤ seats) × (seats ≤ 64) }
    requires rests { V.rests value }
    requires empty { (V.entries value ≡ []) × (V.turns value ≡ 0) }
    ensures ok { IfOk result (λ t. (t.0.seats ≡ seats) × IsNewTableSeat t.0.id 0 seats t.1) }
    ensures err { IfErr result (λ v. v ≡ value) }
{
    let Ok(mut slots) = Vec::with_capacity(alloc, 1) else {
        return Err(value);
    };
    slots.push_reserved(Some(value));
    match Table::new(alloc, &[0, 0], slots, &seats) {
        Ok((table, first)) => Ok((Turn { table }, first)),
        Err(Refused { slots }) => Err(only_value(slots)),
    }
}

// The value in a row of one slot.
fn only_value<V>(mut slots: Vec<Option<V>>) -> V
    requires { (v : V) × (slots.items ≡ Some v ∷ []) }
    ensures { slots.items ≡ Some result ∷ [] }
{
    let slot = slots.pop();
    slots.destroy_empty();
    let Some(Some(value)) = slot else {
        unreachable!()
    };
    value
}
