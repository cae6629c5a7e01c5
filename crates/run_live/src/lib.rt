//! Daemons that run their scripts in threads, on the heap of a disk.
//!
//! `run_daemons` opens the heap of a disk as `replay` does, makes a board of totals, runs the daemons that the script names, by `run_all`, and
//! reads the totals behind the run.
//!
//! Proved: the journal of `run_daemons` keeps to the scripts, the answers in it that blame media are caused, and the totals are those of the
//! whole journal (`RunsOn`); and what is so of every run on a heap (`RanOn`).
//!
//! Not said: that the totals are read from the board, and not added up again; and of threads what `run_all` doesn't say.
//!
//! Only tested: that daemons run side by side, and that all leave a disk that fails at any call (`test_daemons`).
#![tactic(auto)]

mod daemons;

pub use daemons::{RanTotals, run_daemons};
