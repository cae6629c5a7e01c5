//! The script of a load: a generated schedule of rounds, in which four daemons make, list and free objects.
//!
//! 1. Round 0 makes a list and gives it the name `load`.
//! 2. Each round behind it makes an object and puts it at the end of the list. Where eight or more of the rounds from 1 to
//!    the one before it aren't divisible by 3, the first element is deleted, and its object is freed.
//! 3. A round is cancelled where 3 divides it, and else it ends.
//! 4. The lines are counted from 1 through all rounds.
//!
//! Proved: `LoadSteps` gives the steps of `script_for`, one behind another (`new`, `next`, `pass`), and holds those of one
//! round; want of memory leaves it as before (`same`). The canonical lines of these steps are read as this script
//! (`loads_are_read`). A load of N rounds behind round 0 names the first N + 1 daemons, and no more than four
//! (`daemons_of_loads`).
//!
//! Only tested: that the steps are made where memory is ample (`test_text`).
#![tactic(auto)]

mod laws;
mod load_steps;
mod round;
mod statement;
mod steps;
mod verb;

pub use laws::{daemons_of_loads, loads_are_read};
pub use load_steps::LoadSteps;
pub use round::MOST_ROUNDS;
use round::{Speaker, round_of};
use statement::Statement;
use steps::steps_of;
use verb::Verb;
