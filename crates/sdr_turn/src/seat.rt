ghost use Rattle.std.specs.Prelude.{◌≡◌, ◌<◌, false, []};
ghost use Rattle.sdr_turn.specs.Knowing.{nothing};
ghost use Rattle.sdr_turn.specs.Seats.{IsNewSeat, IsIdleSeat};
ghost use Rattle.sdr_turn.specs.Views.{seat_view};

use crate::kept::Kept;
use crate::view::View;
use std::marker::Model;

/// A seat of the table: as many of the lock's seats as it has parts.
pub(crate) type TableSeat<V> = atomic_table::Seat<Option<V>, View<<V as Kept>::Entry>>;

/// What one thread steps with. `close` asks for all seats of the lock, so one that is dropped leaves it open for ever.
#[derive(Drop)]
pub struct Seat<V: Kept> {
    /// How many numbers it drew.
    pub(crate) drawn: u64,
    /// Its place among the lock's seats.
    pub(crate) place: u64,
    pub(crate) table_seat: TableSeat<V>,
}

impl<V: Kept> Model for Seat<V> {
    ghost use Rattle.sdr_turn.specs.Seats.{Seated, IsSeat};

    ghost Value = { Seated V.Entry };

    ghost view = { λ s. record { lock = s.table_seat.table_id; knows = s.table_seat.me.0.knows } };

    ghost invariant = { λ s. IsSeat s.drawn s.place s.table_seat.me.0 s.table_seat.me.1 };
}

impl<V: Kept> Seat<V> {
    /// Its place among the lock's seats, from 0. No call changes it.
    pub fn place(&self) -> u64
        ensures { result ≡ self.now.knows.place }
    {
        self.place
    }
}

// The seat at this place of the lock that has done nothing.
pub(crate) fn seat_at<V: Kept>(table_seat: TableSeat<V>, place: u64) -> Seat<V>
    requires few { place < 64 }
    requires one { table_seat.me ≡ (seat_view (nothing place), []) }
    ensures new { IsNewSeat table_seat.table_id result }
    ensures place { result.knows.place ≡ place }
{
    Seat {
        drawn: 0,
        place,
        table_seat,
    }
}

// The seat of the table that a seat is, where it holds no number.
pub(crate) fn table_seat_of<V: Kept>(seat: Seat<V>) -> TableSeat<V>
    requires { IsIdleSeat seat.lock seat }
    ensures view { (result.table_id ≡ seat.lock) × (result.me ≡ (seat_view seat.knows, [])) }
    ensures free { result.me.0.knows.took ≡ false }
{
    seat.table_seat
}
