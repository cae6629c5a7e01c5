// How often the callback of a station is called.
use crate::disks::formatted;
use sdr_base::{Acct, Amounts, NoMedia, Space};
use sdr_disk::MemoryDisk;
use sdr_model::amounts::are_within;
use sdr_model::{Call, Reply};
use sdr_station::Station;
use std::alloc::Global;
use std::cell::Cell;
use zco_acct::{Notice, Notify};

/// A callback that counts how often it is called.
#[derive(Drop)]
struct Counting<'a> {
    times: &'a Cell<u64>,
}

impl Notify for Counting<'_> {
    fn told(&self, asked: &Amounts, room: &Amounts) -> bool {
        self.times.set(self.times.get().saturating_add(1));
        are_within(asked, room)
    }
}

/// What is asked of the file space of an account.
#[derive(Clone, Copy)]
enum Step {
    /// Sets its maximum.
    Maximum(u64),
    /// Requests so much.
    Request(u64),
}

/// What is asked, and how often the callback is called then.
const ROWS: [(Step, u64); 5] = [
    // No ticket waits.
    (Step::Maximum(5), 0),
    // One that is granted, and one for all that is left.
    (Step::Request(1), 1),
    (Step::Request(4), 1),
    // One that waits, and is granted as there is more.
    (Step::Request(1), 1),
    (Step::Maximum(6), 1),
];

fn call_of(step: Step) -> Call {
    match step {
        Step::Maximum(most) => Call::SetMaximum(Acct::Outbound, Space::File, most),
        Step::Request(asked) => Call::Request(Acct::Outbound, asked, 0, 0, 0, 0),
    }
}

// Whether a station answers a step. It doesn't outside a transaction.
fn answers(station: &mut Station<MemoryDisk, NoMedia, Counting<'_>>, step: Step) -> bool {
    if station.depth() == 0 {
        return false;
    }
    !matches!(
        station.call(&call_of(step), &mut [0; 4096]),
        Reply::Refused(_)
    )
}

// The first row at which a step isn't answered, or the callback isn't called so often.
fn wrong_row(
    station: &mut Station<MemoryDisk, NoMedia, Counting<'_>>,
    times: &Cell<u64>,
) -> Option<usize> {
    for (row, (step, want)) in ROWS.iter().enumerate() {
        let before = times.get();
        if !answers(station, *step) || times.get().checked_sub(before) != Some(*want) {
            return Some(row);
        }
    }
    None
}

// The same, of a station on a disk in memory that is formatted. `None`: there is no station, or no transaction.
fn played(alloc: Global) -> Option<Option<usize>> {
    let disk = formatted(alloc)?;
    let times = Cell::new(0);
    let notice = Notice::new(Counting { times: &times });
    let mut station = Station::open(alloc, disk, NoMedia::new(), notice).ok()?;
    station.begin().ok()?;
    Some(wrong_row(&mut station, &times))
}

#[test]
fn the_callback_is_called_for_the_front_ticket(rt: HostRuntime) {
    assert_eq!(rt; played(rt.alloc()), Some(None));
}
