// Daemons that take their turns at a lock.
ghost use Rattle.std.specs.Prelude.{◌≡◌, All, length};
ghost use Rattle.sdr_live.specs.AtLock.{IsAtLock};

use crate::posted_run::{PostedRun, Posting};
use crossbeam_utils::Backoff;
use sdr_base::Gate;
use sdr_board::Board;
use sdr_core::Origin;
use sdr_daemon::{Coming, Scripted};
use sdr_machine::Tells;
use sdr_turn::{Seat, Turn};
use std::sync::Wait;

/// A daemon between two turns: its seat at the lock, and what it does next.
#[derive(Drop)]
pub struct SeatedDaemon<T: Tells, J: Origin, S: Scripted, B: Posting> {
    pub seat: Seat<PostedRun<T, J, S, B>>,
    pub coming: Coming,
}

/// What came of a daemon's turn at a lock.
#[derive(Clone, Copy, PartialEq, Eq)]
pub enum Turned {
    /// It took none: it has left, or has drawn all numbers that its seat may draw.
    Over,
    /// It looked at a ticket that waits, and makes the same look next.
    Waits,
    /// Something else comes next.
    GoesOn,
}

// The daemon takes its next turn, unless it has left. The gate is called before that, and before the number is drawn. The totals of
// the journal are published before the lock is given on.
fn take_turn<R: Wait, T: Tells, J: Origin, S: Scripted, B: Posting, G: Gate>(
    rt: &R,
    lock: &Turn<PostedRun<T, J, S, B>>,
    board: &Board,
    gate: &G,
    own: &mut SeatedDaemon<T, J, S, B>,
) -> Turned
    requires board { board.now ≡ B.board }
    requires seat { IsAtLock lock.now J.begins.daemons own.old.seat own.old.coming }
    ensures { IsAtLock lock.now J.begins.daemons own.new.seat own.new.coming }
{
    let Coming::Comes { daemon, line } = own.coming else {
        return Turned::Over;
    };
    gate.before(daemon, line);
    let Some(number) = lock.draw(&mut own.seat) else {
        return Turned::Over;
    };
    let place = own.seat.place() as usize;
    let mut held = lock.take(rt, &mut own.seat, number);
    let coming = held.value().draw_number(board, place);
    lock.give(&mut own.seat, held);
    let turned = if coming == own.coming {
        Turned::Waits
    } else {
        Turned::GoesOn
    };
    own.coming = coming;
    turned
}

/// The daemon takes turns until it has left, or has drawn all numbers that its seat may draw.
pub fn take_turns<R: Wait, T: Tells, J: Origin, S: Scripted, B: Posting, G: Gate>(
    rt: &R,
    lock: &Turn<PostedRun<T, J, S, B>>,
    board: &Board,
    gate: &G,
    mut own: SeatedDaemon<T, J, S, B>,
) -> SeatedDaemon<T, J, S, B>
    requires board { board.now ≡ B.board }
    requires seat { IsAtLock lock.now J.begins.daemons own.seat own.coming }
    ensures { IsAtLock lock.now J.begins.daemons result.seat result.coming }
{
    let backoff = Backoff::new();
    for _ in rt.forever() {
        match take_turn(rt, lock, board, gate, &mut own) {
            Turned::Over => return own,
            Turned::Waits => backoff.snooze(),
            Turned::GoesOn => backoff.reset(),
        }
    }
    unreachable!()
}

// Each of these daemons takes a turn, unless it has left. Tells whether all took none, or all that took one wait, or one goes on.
fn take_turn_each<R: Wait, T: Tells, J: Origin, S: Scripted, B: Posting, G: Gate>(
    rt: &R,
    lock: &Turn<PostedRun<T, J, S, B>>,
    board: &Board,
    gate: &G,
    these: &mut Vec<SeatedDaemon<T, J, S, B>>,
) -> Turned
    requires board { board.now ≡ B.board }
    requires seats { All (λ d. IsAtLock lock.now J.begins.daemons d.seat d.coming) these.old.items }
    ensures each { All (λ d. IsAtLock lock.now J.begins.daemons d.seat d.coming) these.new.items }
    ensures count { length these.new.items ≡ length these.old.items }
{
    let mut all = Turned::Over;
    for i in 0..these.len() {
        match take_turn(rt, lock, board, gate, &mut these[i]) {
            Turned::Over => (),
            Turned::Waits => {
                if all == Turned::Over {
                    all = Turned::Waits;
                }
            }
            Turned::GoesOn => all = Turned::GoesOn,
        }
    }
    all
}

/// These daemons take turns, one after another, until all have left or have drawn all numbers that their seats may draw. None takes all of
/// its turns at once: a look of one may wait for another.
pub fn take_turns_of<R: Wait, T: Tells, J: Origin, S: Scripted, B: Posting, G: Gate>(
    rt: &R,
    lock: &Turn<PostedRun<T, J, S, B>>,
    board: &Board,
    gate: &G,
    these: &mut Vec<SeatedDaemon<T, J, S, B>>,
)
    requires board { board.now ≡ B.board }
    requires seats { All (λ d. IsAtLock lock.now J.begins.daemons d.seat d.coming) these.old.items }
    ensures each { All (λ d. IsAtLock lock.now J.begins.daemons d.seat d.coming) these.new.items }
    ensures count { length these.new.items ≡ length these.old.items }
{
    let backoff = Backoff::new();
    for _ in rt.forever() {
        match take_turn_each(rt, lock, board, gate, these) {
            Turned::Over => return,
            Turned::Waits => backoff.snooze(),
            Turned::GoesOn => backoff.reset(),
        }
    }
    unreachable!()
}
