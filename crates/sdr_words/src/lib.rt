//! Scripts: what a line says, and reading all lines of an input.
//!
//! 1. A line has fields between spaces. A daemon, maybe a name and `=`, a verb, and its arguments.
//! 2. One table has all verbs with the shapes of their arguments, and all lines are read by it. It is
//!    the grammar's (`specs/VerbTable.antt`).
//! 3. The first refused line ends the reading.
//! 4. A step has a canonical line, which is read as that step.
//!
//! Proved: `read_script` is the grammar's `input_script`, or names the first refused line (`script`, `line`), for
//! all 78 statements. The reader's table of verbs is the grammar's (`place_of`, `shapes_at`, `verb_at`). The
//! canonical line of a step is read as that step (`canonical_lines_are_read`). Whether a step's event is a begin or
//! a look at a ticket is told from its verb alone (`begins_or_looks`).
//!
//! Only tested: good and bad inputs, with the first refused line; the event of each statement; what a name holds
//! (`test_text`).
#![tactic(auto)]

mod arguments;
mod bindings;
mod canonical;
mod draft;
mod error;
mod events;
mod fields;
mod given;
mod lines;
mod literals;
mod numbers;
mod read;
mod verb;
mod words;

pub use bindings::Bindings;
pub use canonical::{canonical_lines_are_read, lines_give_steps};
use error::LineError;
pub use error::ScriptError;
pub use events::begins_or_looks;
pub use read::read_script;
use verb::{Shape, Verb, place_of, shapes_at, verb_at};
pub use words::number_of;
