// Threads of daemons at a lock. No seat is lost on the way: the lock is closed with all of them.
ghost use Rattle.std.specs.Prelude.{◌≡◌, ◌+◌, ◌≤◌, All, IfErr, IfOk, IfSome, vec_len, vec_capacity};
ghost use Rattle.std.specs.Thread.{IsSync};
ghost use Rattle.sdr_live.specs.AtLock.{AreBeforeTurns, IsAtLock};
ghost use Rattle.sdr_turn.specs.Seats.{IsIdleSeat};

use crate::at_lock::{SeatedDaemon, take_turns, take_turns_of};
use crate::posted_run::{PostedRun, Posting};
use sdr_base::Gate;
use sdr_board::Board;
use sdr_core::Origin;
use sdr_daemon::{Coming, Scripted};
use sdr_machine::Tells;
use sdr_turn::{Seat, Turn};
use std::alloc::Global;
use std::snapshot::Snapshot;
use std::sync::Wait;
use std::sync::atomic::{AtomicU64, Ordering};
use std::thread;
use std::thread::{Promise, PromisedHandle, Scope, Threads};

/// No daemon has this place.
pub const NO_PLACE: u64 = u64::MAX;

/// What a daemon's thread gives back: the daemon, which is at this lock still.
#[derive(Drop)]
pub struct StaysAt<T: Tells, J: Origin, S: Scripted, B: Posting>(
    Snapshot<Turn<PostedRun<T, J, S, B>>>,
);

impl<T: Tells, J: Origin, S: Scripted, B: Posting> Promise<SeatedDaemon<T, J, S, B>>
    for StaysAt<T, J, S, B> {
    ghost use Rattle.sdr_live.specs.AtLock.{IsAtLock};

    ghost kept_by = { λ p d. IsAtLock p.0.value J.begins.daemons d.seat d.coming };
}

/// The thread of a daemon.
pub type Handle<T, J, S, B> = PromisedHandle<SeatedDaemon<T, J, S, B>, StaysAt<T, J, S, B>>;

/// Room for what is kept of the daemons that run at a lock, so that no memory is taken while the lock has the core.
#[derive(Drop)]
pub struct Room<T: Tells, J: Origin, S: Scripted, B: Posting> {
    /// The threads that were started.
    pub started: Vec<Handle<T, J, S, B>>,
    /// The daemons whose threads couldn't be started.
    pub refused: Vec<SeatedDaemon<T, J, S, B>>,
}

impl<T: Tells, J: Origin, S: Scripted, B: Posting> Room<T, J, S, B> {
    /// Room for so many daemons. `None` where there is no memory for it.
    pub fn new(alloc: Global, daemons: usize) -> Option<Room<T, J, S, B>>
        ensures room { IfSome result (λ r. (daemons ≤ vec_capacity r.started) × (daemons ≤ vec_capacity r.refused)) }
        ensures empty { IfSome result (λ r. (vec_len r.started ≡ 0) × (vec_len r.refused ≡ 0)) }
    {
        let started = Vec::with_capacity(alloc, daemons).ok()?;
        let refused = Vec::with_capacity(alloc, daemons).ok()?;
        Some(Room { started, refused })
    }
}

// Starts the daemon's thread. Where that can't be done the daemon comes back, before its next turn.
fn start<
    's,
    'x,
    R: Threads + Wait + Sync,
    T: Tells + Send,
    J: Origin + Send + Sync,
    S: Scripted + Send + Sync,
    B: Posting + Send + Sync,
    G: Gate + Sync,
>(
    scope: &'s Scope<'s, &'x ()>,
    rt: &'x R,
    lock: &'x Turn<PostedRun<T, J, S, B>>,
    board: &'x Board,
    gate: &'x G,
    refused: &'x AtomicU64,
    own: SeatedDaemon<T, J, S, B>,
) -> Result<Handle<T, J, S, B>, SeatedDaemon<T, J, S, B>>
    requires board { board.now ≡ B.board }
    requires seat { IsAtLock lock.now J.begins.daemons own.seat own.coming }
    ensures ok { IfOk result (λ h. h.promise.0.value ≡ lock.now) }
    ensures err { IfErr result (λ d. IsAtLock lock.now J.begins.daemons d.seat d.coming) }
{
    let place = own.seat.place();
    let stays = StaysAt(Snapshot::of(lock));
    let run = move || -> SeatedDaemon<T, J, S, B>
        requires { IsSync R.row × IsSync G.row × (board.now ≡ B.board) × IsAtLock lock.now J.begins.daemons own.seat own.coming }
        ensures { IsAtLock lock.entry.now J.begins.daemons result.seat result.coming }
    {
        // The caller calls this itself where the thread couldn't be started: then the daemon goes back to it.
        if refused.load(Ordering::SeqCst) == place {
            return own;
        }
        take_turns(rt, lock, board, gate, own)
    };
    match scope.spawn_with(stays, run) {
        Ok(handle) => Ok(handle),
        Err(error) => {
            refused.store(place, Ordering::SeqCst);
            Err((error.value)())
        }
    }
}

// Starts a thread for each seat's daemon, and sorts them by whether that could be done.
fn start_all<
    's,
    'x,
    R: Threads + Wait + Sync,
    T: Tells + Send,
    J: Origin + Send + Sync,
    S: Scripted + Send + Sync,
    B: Posting + Send + Sync,
    G: Gate + Sync,
>(
    scope: &'s Scope<'s, &'x ()>,
    rt: &'x R,
    lock: &'x Turn<PostedRun<T, J, S, B>>,
    board: &'x Board,
    gate: &'x G,
    refused: &'x AtomicU64,
    seats: &mut Vec<Seat<PostedRun<T, J, S, B>>>,
    mut first: Vec<Coming>,
    room: &mut Room<T, J, S, B>,
)
    requires board { board.now ≡ B.board }
    requires before { AreBeforeTurns lock.now J.begins.daemons seats.old.items first.items }
    requires count { vec_len first ≡ vec_len seats.old }
    requires room { (vec_len seats.old ≤ vec_capacity room.old.started) × (vec_len seats.old ≤ vec_capacity room.old.refused) }
    requires empty { (vec_len room.old.started ≡ 0) × (vec_len room.old.refused ≡ 0) }
    ensures seats { (vec_len seats.new ≡ 0) × (vec_capacity seats.new ≡ vec_capacity seats.old) }
    ensures count { vec_len room.new.started + vec_len room.new.refused ≡ vec_len seats.old }
    ensures started { All (λ h. h.promise.0.value ≡ lock.now) room.new.started.items }
    ensures refused { All (λ d. IsAtLock lock.now J.begins.daemons d.seat d.coming) room.new.refused.items }
{
    while let Some(seat) = seats.pop() {
        let Some(coming) = first.pop() else {
            unreachable!()
        };
        match start(
            scope,
            rt,
            lock,
            board,
            gate,
            refused,
            SeatedDaemon { seat, coming },
        ) {
            Ok(handle) => room.started.push_reserved(handle),
            Err(own) => room.refused.push_reserved(own),
        }
    }
}

// Waits for the threads, and gathers the seats of all daemons.
fn gather<R: Threads, T: Tells, J: Origin, S: Scripted, B: Posting>(
    rt: &R,
    lock: &Turn<PostedRun<T, J, S, B>>,
    mut seats: Vec<Seat<PostedRun<T, J, S, B>>>,
    room: Room<T, J, S, B>,
) -> Vec<Seat<PostedRun<T, J, S, B>>>
    requires seats { vec_len seats ≡ 0 }
    requires room { vec_len room.started + vec_len room.refused ≤ vec_capacity seats }
    requires started { All (λ h. h.promise.0.value ≡ lock.now) room.started.items }
    requires refused { All (λ d. IsAtLock lock.now J.begins.daemons d.seat d.coming) room.refused.items }
    ensures count { vec_len result ≡ vec_len room.started + vec_len room.refused }
    ensures idle { All (IsIdleSeat lock.now.id) result.items }
{
    let Room {
        mut started,
        mut refused,
    } = room;
    while let Some(handle) = started.pop() {
        seats.push_reserved(handle.join(rt).seat);
    }
    while let Some(own) = refused.pop() {
        seats.push_reserved(own.seat);
    }
    seats
}

// The daemons take their turns, in threads of this scope and in this one.
fn take_turns_in_scope<
    's,
    'x,
    R: Threads + Wait + Sync,
    T: Tells + Send,
    J: Origin + Send + Sync,
    S: Scripted + Send + Sync,
    B: Posting + Send + Sync,
    G: Gate + Sync,
>(
    scope: &'s Scope<'s, &'x ()>,
    rt: &'x R,
    lock: &'x Turn<PostedRun<T, J, S, B>>,
    board: &'x Board,
    gate: &'x G,
    refused: &'x AtomicU64,
    mut seats: Vec<Seat<PostedRun<T, J, S, B>>>,
    first: Vec<Coming>,
    mut room: Room<T, J, S, B>,
) -> Vec<Seat<PostedRun<T, J, S, B>>>
    requires board { board.now ≡ B.board }
    requires before { AreBeforeTurns lock.now J.begins.daemons seats.items first.items }
    requires count { vec_len first ≡ vec_len seats }
    requires room { (vec_len seats ≤ vec_capacity room.started) × (vec_len seats ≤ vec_capacity room.refused) }
    requires empty { (vec_len room.started ≡ 0) × (vec_len room.refused ≡ 0) }
    ensures count { vec_len result ≡ vec_len seats }
    ensures idle { All (IsIdleSeat lock.now.id) result.items }
{
    start_all(
        scope, rt, lock, board, gate, refused, &mut seats, first, &mut room,
    );
    take_turns_of(rt, lock, board, gate, &mut room.refused);
    gather(rt, lock, seats, room)
}

/// The daemons take turns at the lock, each in a thread of its own, until they have left or have drawn all numbers that their seats may
/// draw. Where a thread can't be started, the caller takes turns of its daemon, once it has tried to start the last one. All seats come
/// back.
pub fn take_turns_in_threads<
    'x,
    R: Threads + Wait + Sync,
    T: Tells + Send,
    J: Origin + Send + Sync,
    S: Scripted + Send + Sync,
    B: Posting + Send + Sync,
    G: Gate + Sync,
>(
    rt: &'x R,
    lock: &'x Turn<PostedRun<T, J, S, B>>,
    board: &'x Board,
    gate: &'x G,
    refused: &'x AtomicU64,
    seats: Vec<Seat<PostedRun<T, J, S, B>>>,
    first: Vec<Coming>,
    room: Room<T, J, S, B>,
) -> Vec<Seat<PostedRun<T, J, S, B>>>
    requires board { board.now ≡ B.board }
    requires before { AreBeforeTurns lock.now J.begins.daemons seats.items first.items }
    requires count { vec_len first ≡ vec_len seats }
    requires room { (vec_len seats ≤ vec_capacity room.started) × (vec_len seats ≤ vec_capacity room.refused) }
    requires empty { (vec_len room.started ≡ 0) × (vec_len room.refused ≡ 0) }
    ensures count { vec_len result ≡ vec_len seats }
    ensures idle { All (IsIdleSeat lock.now.id) result.items }
{
    thread::scope(
        thread::scope_env(),
        rt,
        |scope| -> Vec<Seat<PostedRun<T, J, S, B>>>
            requires board { board.now ≡ B.board }
            requires before { AreBeforeTurns lock.now J.begins.daemons seats.items first.items }
            requires count { vec_len first ≡ vec_len seats }
            requires room { (vec_len seats ≤ vec_capacity room.started) × (vec_len seats ≤ vec_capacity room.refused) }
            requires empty { (vec_len room.started ≡ 0) × (vec_len room.refused ≡ 0) }
            requires sync { IsSync R.row × IsSync G.row }
            ensures count { vec_len result ≡ vec_len seats }
            ensures idle { All (IsIdleSeat lock.entry.now.id) result.items }
        { take_turns_in_scope(scope, rt, lock, board, gate, refused, seats, first, room) },
    )
}
