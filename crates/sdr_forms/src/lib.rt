//! The forms of the command line, each answered by a status, a last line and what is printed before it.
//!
//! 1. `form_of` says which form the words are.
//! 2. `format` makes an empty heap of the disk. It reads no input.
//! 3. `dry`, `replay` and `run` read the input whole and parse it: a refused line is told before anything runs. They and `load` alone read media,
//!    which tell the same behind them.
//! 4. By `dry` and `replay` the script's lines run in order on a machine, or on the heap of the disk, and each answer is printed as it
//!    is made. By `run` each daemon makes its own lines on the heap, in a thread, and the journal is printed behind them.
//! 5. By `load` a generated script runs on the heap of the disk in the same way. It reads no input, and prints a summary of what stands behind it.
//! 6. The status says what stopped this, if anything did; its last line says so too. A status that
//!    stands survives a fault of the sink.
//!
//! Proved: what `replay` and `run` answer is one record (`AnswersOnHeap`): it takes what was run, so the journal of `run` keeps to the scripts
//! where that of `replay` is of one run of its lines. What `load` answers is a record like it (`AnswersLoad`), and so are those of `dry`
//! (`AnswersDry`), `format` (`AnswersFormat`), `recover` (`AnswersRecover`) and `inspect` (`AnswersInspect`). `run_input` ensures this if it returns.
#![tactic(auto)]

mod drying;
mod form;
mod formatting;
mod inspecting;
mod last_line;
mod loading;
mod outcome;
mod recovering;
mod replaying;
mod running;
mod shutting;
mod status;

pub use drying::dry_input;
pub use form::{Form, HeapForm, asks_live, form_of};
pub use formatting::format_disk;
pub use inspecting::inspect_disk;
pub use loading::load_disk;
pub use outcome::{RunOutcome, no_form, without_journal};
pub use recovering::{Recovered, recover_disk};
pub use replaying::{replay_input, replay_script};
pub use running::{run_input, run_scripts};
pub use status::{
    DAMAGED, DISK_FAULT, DONE, INPUT_FAULT, NO_MEMORY, NOT_FORMATTED, OUTPUT_FAULT, REFUSED_LINE,
    TOO_SMALL, USAGE,
};
