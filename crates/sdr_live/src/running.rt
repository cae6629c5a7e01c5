// A run of daemons.
ghost use Rattle.std.specs.Prelude.{◌≡◌, ◌<◌, ◌≤◌, All, [], false, length, not, true, vec_capacity, vec_len};
ghost use Rattle.std.specs.List.{list_any};
ghost use Rattle.sdr_board.specs.Known.{published};
ghost use Rattle.sdr_core.specs.CoreKept.{IsRunOf};
ghost use Rattle.sdr_core.specs.Ended.{StandsEnded};
ghost use Rattle.sdr_core.specs.Numbers.{numbers_done};
ghost use Rattle.sdr_daemon.specs.Coming.{is_over};
ghost use Rattle.sdr_daemon.specs.Progressing.{IsFresh, have_left};
ghost use Rattle.sdr_daemon.specs.Scripts.{KeepsToScripts, is_memory_leave};
ghost use Rattle.sdr_machine.specs.Crash.{is_sound};
ghost use Rattle.sdr_words.specs.Daemons.{daemons_of};

use crate::posted_run::{PostedRun, Posting};
use crate::threads::{NO_PLACE, Room, take_turns_in_threads};
use sdr_base::Gate;
use sdr_board::{Board, Writer};
use sdr_core::{Core, Origin};
use sdr_daemon::{Coming, Scripted, ScriptedRun};
use sdr_machine::Tells;
use sdr_model::{Entry, Journal, Leave, Script, What};
use sdr_turn::Turn;
use std::alloc::Global;
use std::marker::Brand;
use std::sync::Wait;
use std::sync::atomic::AtomicU64;
use std::thread::Threads;

/// What a run of daemons has come to.
#[derive(Drop)]
pub struct RanDaemons<T> {
    /// The entries of all daemons, their leaves among them.
    pub journal: Journal,
    /// The ground on which the core ran.
    pub base: T,
    /// Whether the disk failed in an entry.
    pub failed: bool,
    /// Whether a daemon left for want of memory.
    pub starved: bool,
    /// The writer of the board, which has published the totals of the whole journal.
    pub writer: Writer,
}

// Whether the entry is a leave for want of memory.
fn is_memory_leave(entry: &Entry) -> bool
    ensures { result ≡ is_memory_leave entry.now }
{
    matches!(
        entry.what,
        What::Leaves {
            leave: Leave::Memory
        }
    )
}

// Each daemon passes over its first lines that are refused outside a transaction. Tells what each does then.
fn first_of_all<T: Tells, J: Origin, S: Scripted>(
    run: &mut ScriptedRun<T, J, S>,
    first: &mut Vec<Coming>,
)
    requires journal { run.old.core.log.journal ≡ [] }
    requires empty { vec_len first.old ≡ 0 }
    requires room { length J.begins.daemons ≤ vec_capacity first.old }
    ensures core { run.new.core ≡ run.old.core }
    ensures count { vec_len first.new ≡ length J.begins.daemons }
    ensures stay { All (λ c. is_over c ≡ false) first.new.items }
    ensures done { 0 < length J.begins.daemons →
        numbers_done run.new.core.lock.roll ≡ run.new.core.lock.roll.drawn }
{
    for place in 0..run.places() {
        first.push_reserved(run.pass_lines(place));
    }
}

// Daemons take their turns in threads, at a lock. Where there is no memory for that, all mean to leave for want of it.
fn run_at_lock<
    R: Threads + Wait + Sync,
    T: Tells + Send,
    J: Origin + Send + Sync,
    S: Scripted + Send + Sync,
    B: Posting + Send + Sync,
    G: Gate + Sync,
>(
    rt: &R,
    alloc: Global,
    mut run: ScriptedRun<T, J, S>,
    gate: &G,
    board: &Board,
    writer: Writer,
) -> PostedRun<T, J, S, B>
    requires fresh { IsFresh T.HasGround J.begins run.core }
    requires board { board.now ≡ B.board }
    requires writer { writer ≡ published board.now [] }
    ensures { result.posted ≡ result.run.core.log.journal }
{
    let places = run.places();
    if places == 0 {
        return PostedRun::new(run, writer);
    }
    let (Ok(mut first), Some(room)) = (Vec::with_capacity(alloc, places), Room::new(alloc, places))
    else {
        run.starve();
        return PostedRun::new(run, writer);
    };
    first_of_all(&mut run, &mut first);
    let (lock, seats) = match Turn::new(alloc, PostedRun::new(run, writer), places as u64) {
        Ok(made) => made,
        Err(mut posted) => {
            posted.starve();
            return posted;
        }
    };
    let refused = AtomicU64::new(NO_PLACE);
    let seats = take_turns_in_threads(rt, &lock, board, gate, &refused, seats, first, room);
    lock.close(seats)
}

// Daemons take their turns at a lock, and the caller takes what is left of them. The totals of all that they do are published.
fn run_to_leaves<
    R: Threads + Wait + Sync,
    T: Tells + Send,
    J: Origin + Send + Sync,
    S: Scripted + Send + Sync,
    B: Posting + Send + Sync,
    G: Gate + Sync,
>(
    rt: &R,
    alloc: Global,
    run: ScriptedRun<T, J, S>,
    gate: &G,
    board: &Board,
    writer: Writer,
) -> (ScriptedRun<T, J, S>, Writer)
    requires fresh { IsFresh T.HasGround J.begins run.core }
    requires board { board.now ≡ B.board }
    requires writer { writer ≡ published board.now [] }
    ensures left { have_left result.0.core.lock.roll result.0.progress ≡ true }
    ensures posted { result.1 ≡ published board.now result.0.core.log.journal }
{
    let posted = run_at_lock::<R, T, J, S, B, G>(rt, alloc, run, gate, board, writer);
    let (mut run, mut writer) = posted.into_parts();
    // Where there was memory for the lock, all that drew fewer than 2^40 numbers have left by now. That it is so is looked at here,
    // and rests on no fact about a thread.
    run.take_turns(rt, gate);
    board.publish(&mut writer, run.journal());
    (run, writer)
}

/// Runs the daemons that the script names, each in a thread of its own, at one lock. For a turn a daemon draws a number, and is served in
/// the order of the numbers; it holds the lock while it takes the turn, and while it looks what comes next. The gate is called before
/// each begin, look and leave, before the number is drawn. Only where the disk fails, or memory is wanting, between the draw and the
/// turn, does a daemon leave with the number that it drew for something else, and without another call of the gate. Where a thread
/// can't be started, the caller takes turns of its daemon, until it has left. Once the threads are done, it runs what a script still has.
///
/// The totals of the journal are published on the board before each holder gives the lock on, and behind the last turn. The writer is that
/// board's, and has published nothing before.
///
/// Where there is no memory for the lock, each daemon leaves for want of it. No clause says that a thread runs, that each daemon comes to
/// its turn, or that the call returns.
pub fn run_all<
    R: Threads + Wait + Sync,
    T: Tells + Send,
    J: Origin + Send + Sync,
    S: Scripted + Send + Sync,
    G: Gate + Sync,
>(
    rt: &R,
    alloc: Global,
    core: Core<T, J>,
    script: Script,
    gate: &G,
    board: &Board,
    writer: Writer,
) -> RanDaemons<T>
    requires fresh { IsFresh T.HasGround J.begins core }
    requires script { script ≡ S.script }
    requires named { J.begins.daemons ≡ daemons_of S.script }
    requires writer { writer ≡ published board.now [] }
    ensures keeps { KeepsToScripts J.begins.told J.begins.first S.script result.journal }
    ensures run { IsRunOf T.HasGround J.begins result.journal result.base }
    ensures ended { StandsEnded T.HasGround J.begins result.journal result.base }
    ensures failed { result.failed ≡ not (is_sound result.journal) }
    ensures starved { result.starved ≡ list_any is_memory_leave result.journal }
    ensures posted { result.writer ≡ published board.now result.journal }
{
    let run = ScriptedRun::<T, J, S>::new(alloc, core, script);
    let (run, writer) = run_to_leaves::<R, T, J, S, Brand, G>(rt, alloc, run, gate, board, writer);
    let failed = run.has_failed();
    let (journal, base) = run.finish();
    let starved = journal.as_slice().iter().any(is_memory_leave);
    RanDaemons {
        journal,
        base,
        failed,
        starved,
        writer,
    }
}
