ghost use Rattle.std.specs.Prelude.{◌≡◌, [], IfSome};
ghost use Rattle.std.specs.Thread.{IsSync};

use crate::entries::{entry_at, totals_of_first};
use sdr_base::Items;
use sdr_board::{Board, Pass, Totals, Writer};
use std::alloc::Global;
use std::rt::Clock;
use std::thread::{Threads, join, yield_now};
use std::time::{Duration, Instant};

/// How many entries the writer publishes, and how long readers and writer go on at most.
#[derive(Clone, Copy)]
pub struct Bounds {
    pub entries: u32,
    pub start: Instant,
    pub time: Duration,
}

impl Bounds {
    // Whether the time has passed. A clock that can't be read ends it too.
    fn is_over<R: Clock>(&self, rt: &R) -> bool {
        match self.start.elapsed(rt) {
            Ok(time) => time >= self.time,
            Err(_) => true,
        }
    }
}

/// What a reader found.
#[derive(Clone, Copy)]
pub struct Tally {
    /// How often it read.
    pub reads: u64,
    /// How often it read more entries than before.
    pub news: u64,
    /// A read that isn't the totals of any first entries, or is of fewer than the read before.
    pub wrong: Option<Totals>,
}

impl Tally {
    // Takes a read up that comes after another.
    fn note(&mut self, before: u64, read: Totals) {
        self.reads = self.reads.saturating_add(1);
        if read != totals_of_first(read.entries) || read.entries < before {
            self.wrong = Some(read);
        }
        if read.entries > before {
            self.news = self.news.saturating_add(1);
        }
    }
}

/// Reads until all entries are there, the time has passed, or a read is wrong.
pub fn read_often<R: Clock>(rt: &R, board: &Board, mut pass: Pass, bounds: &Bounds) -> Tally
    requires { pass.board ≡ board.now }
{
    let mut tally = Tally {
        reads: 0,
        news: 0,
        wrong: None,
    };
    let mut before = 0;
    for _ in 0..u64::MAX {
        let read = board.read(&mut pass);
        tally.note(before, read);
        before = read.entries;
        if tally.wrong.is_some() || before >= u64::from(bounds.entries) || bounds.is_over(rt) {
            break;
        }
    }
    tally
}

/// Publishes the journal of the tests, entry by entry, until the time has passed. `None` where memory runs out.
pub fn write_often<R: Clock>(
    rt: &R,
    board: &Board,
    mut writer: Writer,
    alloc: Global,
    bounds: &Bounds,
) -> Option<Writer>
    requires board { writer.board ≡ board.now }
    requires none { writer.entries ≡ [] }
    ensures { IfSome result (λ w. w.board ≡ board.now) }
{
    let mut journal = Items::new(alloc);
    for place in 0..bounds.entries {
        let Ok(entry) = entry_at(alloc, place) else {
            return None;
        };
        let Ok(()) = journal.push(entry) else {
            return None;
        };
        board.publish(&mut writer, journal.as_slice());
        if place % 64 == 0 {
            yield_now();
            if bounds.is_over(rt) {
                break;
            }
        }
    }
    Some(writer)
}

// Two readers.
fn two_readers<R: Threads + Clock + Sync>(
    rt: &R,
    board: &Board,
    one: Pass,
    other: Pass,
    bounds: &Bounds,
) -> (Tally, Tally)
    requires { (one.board ≡ board.now) × (other.board ≡ board.now) }
{
    join(
        rt,
        || -> Tally
            requires { IsSync R.row × (one.board ≡ board.now) }
        { read_often(rt, board, one, bounds) },
        || -> Tally
            requires { IsSync R.row × (other.board ≡ board.now) }
        { read_often(rt, board, other, bounds) },
    )
}

// A reader, and the writer.
fn reader_and_writer<R: Threads + Clock + Sync>(
    rt: &R,
    board: &Board,
    pass: Pass,
    writer: Writer,
    alloc: Global,
    bounds: &Bounds,
) -> (Tally, Option<Writer>)
    requires board { (pass.board ≡ board.now) × (writer.board ≡ board.now) }
    requires none { writer.entries ≡ [] }
    ensures { IfSome result.1 (λ w. w.board ≡ board.now) }
{
    join(
        rt,
        || -> Tally
            requires { IsSync R.row × (pass.board ≡ board.now) }
        { read_often(rt, board, pass, bounds) },
        || -> Option<Writer>
            requires { IsSync R.row × (writer.board ≡ board.now) × (writer.entries ≡ []) }
            ensures { IfSome result (λ w. w.board ≡ board.entry.now) }
        { write_often(rt, board, writer, alloc, bounds) },
    )
}

/// Three readers beside the writer, each in a thread of its own, and what a pass reads that is split off the writer at the
/// end. `None` where memory runs out.
pub fn readers_beside_writer<R: Threads + Clock + Sync>(
    rt: &R,
    alloc: Global,
    bounds: &Bounds,
) -> Option<(Tally, Tally, Tally, Totals)> {
    let Ok((board, mut writer, one)) = Board::new(alloc) else {
        return None;
    };
    let two = board.split(&mut writer);
    let three = board.split(&mut writer);
    let shared = &board;
    let ((first, second), (third, writer)) = join(
        rt,
        || -> (Tally, Tally)
            requires { IsSync R.row × (one.board ≡ shared.now) × (two.board ≡ shared.now) }
        { two_readers(rt, shared, one, two, bounds) },
        || -> (Tally, Option<Writer>)
            requires { IsSync R.row × (three.board ≡ shared.now) × (writer.board ≡ shared.now) × (writer.entries ≡ []) }
            ensures { IfSome result.1 (λ w. w.board ≡ shared.entry.now) }
        { reader_and_writer(rt, shared, three, writer, alloc, bounds) },
    );
    let mut writer = writer?;
    let mut last = board.split(&mut writer);
    Some((first, second, third, board.read(&mut last)))
}
