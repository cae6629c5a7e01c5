//! The core of a node's storage: a lock on any ground that tells what its calls did, and the journal of its run.
//!
//! 1. `Tells` is a ground that tells the moves and bytes of its last call, and how many there may be in the call that
//!    follows. So the memory for an entry is taken before anything happens, and want of memory leaves all as before.
//! 2. `Keeper` keeps what each daemon has said in its open transaction, and the journal. A `Draft` is an event that is about
//!    to be made, with room for what it may come to; to note it takes no memory.
//! 3. `Core` makes each event a step of a core run (`StepsCore`), with the daemon, the line, the answer, the disk's moments,
//!    and the moves and bytes that the ground tells. What the run begins from is named by a type parameter (`Origin`).
//! 4. The type of `Core` keeps that there is a core run from its first core to the one that it is at. So its journal is
//!    legal, in whatever order daemons come.
//! 5. The type also keeps what a crash leaves: at each moment since the first the state after some first entries, all
//!    that are done among them (`KeepsSafe`). An entry in which the disk failed is never done, and where it failed as its
//!    transaction was kept, the state with that transaction whole may be left.
//! 6. `Runs` is a run that goes on event by event, with a journal or without: what a schedule is played on. The leaves at
//!    the end are made of any (`leave_all`).
//!
//! Proved: the type of `Core` keeps that its journal is that of a run of the machine (`KeepsRun`), and that at
//! each moment a crash leaves the state after some first entries, all done ones among them (`KeepsSafe`). Each
//! event is a step of that run (`MakesCoreStep`). Out of memory leaves all as it was (`err`), and leaves take none. `roll` and `finish`
//! hand the run out (`run`, `ran`), so the laws of runs hold of each core. `Failed` is answered just where the journal tells of a
//! disk that failed (`failed`). `finish` tells that each entry was made since the run began and is done by now (`IsRunOf`). A law:
//! no number is held by two daemons, and as many are done as were drawn, less those held (`drawn_numbers_are_held_or_done`).
#![tactic(auto)]

mod copying;
mod core_run;
mod core_runs;
mod draft;
mod has_run;
mod keeper;
mod leaving;
mod making;
mod noted;
mod numbers;
mod origin;
mod runs;
mod sending;
mod spoken;

pub use core_run::Core;
pub use draft::Draft;
pub use has_run::HasRun;
pub use keeper::Keeper;
pub use leaving::leave_all;
pub use noted::{Noted, Under};
pub use numbers::drawn_numbers_are_held_or_done;
pub use origin::Origin;
pub use runs::Runs;
pub use sending::core_is_send;
pub use spoken::Spoken;
