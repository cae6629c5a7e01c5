//! A script that runs, answer by answer: in memory (`dry`), or on the heap of a disk (`replay`).
//!
//! 1. Each step is an event of a daemon, under what the names hold, and its answer is printed. Lines wait in a buffer: they are passed on where
//!    one doesn't fit, before each event that may close a transaction, and behind the last step. Where the output fails, nothing more is
//!    printed, and the run goes on.
//! 2. A call that asks bytes of files or items is answered by what media give: each piece is asked once, in order, within the call. The
//!    answers that tell that media failed, or gave too few bytes, are at most as many as the counts of these rose by.
//! 3. Behind the last step all daemons make their leaves, which print nothing. Where an event, a name or the next step
//!    finds no memory, no further step is made, and the leaves tell so. They take no memory.
//! 4. All of that is `play`, over any run that goes on event by event (`Runs`), and over steps wherever they come from (`Steps`): a script
//!    that was read, or steps that are made one at a time.
//! 5. `dry` plays on a world in memory, of whose run no journal is kept. `play_recorded` plays on a core, and gives its journal out.
//! 6. `replay` opens the heap of a disk and plays on it, with the media that its sources name. At each
//!    moment of the call a crash leaves the state after some first entries, and all that are done, where the disk was settled as it was
//!    handed in. All else holds for every disk. The media come back with the disk.
//! 7. Whoever runs daemons in threads opens the heap in the same way (`open_handed`, `HandedGround`).
//!
//! Proved: `play`: the steps are made in order, their answers printed, and all daemons leave, by one run of the machine (`Plays`). `dry`
//! prints the text of such a run from the empty world, whole, or a part from the front if the sink failed, or that of some first steps if
//! it ran out of memory. In it media are asked at most once for each extent that lies with them and of which a call that is made needs
//! bytes, whatever it comes to (`IsDry`). `replay`: the printed answers and the journal are those of one run of the script on the heap that
//! was opened (`ReplaysOn`), for every disk. Of any run on a heap (`RanOn`): the journal is legal. If the disk was settled (`IsSettled`), a
//! crash at any moment of the call leaves a disk that opens to the state after some first entries, all done ones among them (`any_moment`,
//! `LeavesJournal`). Each entry is begun and done between the begin of the call and its return (`in_time`). No byte outside the regions
//! changes (`outside`). A settled disk on whose heap no entry failed is settled again (`settled`), and so is one whose heap wasn't opened,
//! unless it failed as its recovery closed the first gate (`again`).
//!
//! Only tested: each call's answers (`tests/cases`).
#![tactic(auto)]

mod drying;
mod handed;
mod handed_ground;
mod opening;
mod playing;
mod printing;
mod recording;
mod replaying;
mod sending;
mod steps;

pub use drying::{DryRun, dry};
pub use handed::{Handed, HandedIn};
pub use handed_ground::HandedGround;
pub use opening::{open_handed, shut_unrun};
pub use playing::{Played, play};
pub use recording::{Ran, play_recorded};
pub use replaying::replay;
pub use sending::handed_is_send;
pub use steps::{ScriptSteps, Steps, daemons_of};
