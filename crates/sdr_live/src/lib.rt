//! Daemons that run their scripts in threads, at one lock.
//!
//! 1. `run_all` puts a `ScriptedRun` into a turn lock, with the writer of a board of totals. Each daemon has a seat at the lock. It takes
//!    its turns in a thread: it calls the gate, draws a number, waits until it is served, takes its turn and looks what it does next. So the
//!    gate is called before each begin, look and leave, never under the lock; but for a leave to which a daemon comes with the lock, as
//!    where the disk has failed since it drew. Where a thread can't be started, the caller takes turns of its daemon.
//! 2. Who holds the lock publishes the totals of the journal before it gives the lock on.
//! 3. Once the threads have given all seats back the lock is closed, and the caller runs what a script still has, and publishes again.
//!
//! Proved: `run_all` gives a journal that keeps to the scripts of the daemons (`keeps`), legal and with what a crash leaves (`run`), and
//! tells from it whether the disk failed and whether a daemon left for want of memory (`failed`, `starved`). It takes the memory for the
//! lock before any turn, and each daemon leaves for want of memory where there is none. The type of what stands in the lock keeps that the
//! writer is that of the board, and has published first entries of the journal; between two turns they are all of it (`rests`). `run_all`
//! gives the writer back with the whole journal published (`posted`).
//!
//! Not said: that a thread runs, that each daemon comes to its turn, that all leave after some turns, that `run_all` returns, and when the
//! gate is called.
//!
//! Only tested: that daemons run side by side, with the gate called while no lock is held, and that all leave a disk that fails at any
//! call (`test_daemons`).
#![tactic(auto)]

mod at_lock;
mod posted_run;
mod running;
mod threads;

pub use running::{RanDaemons, run_all};
