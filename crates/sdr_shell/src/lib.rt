//! The top call: words and a script in, printed answers and a status out.
//!
//! The words are a form, or the status is `USAGE`. `top` sends words whose first is `run` to `live`, which may wait for the daemons'
//! threads, and all others to `still`, which waits for nobody. Each says of words that are for the other that they are no form. What a
//! form answers is that of `sdr_forms`. `top_read` answers `replay` and `run` where the script was read before.
//!
//! Proved: `top` answers the words by the form that they are (`AnswersWords`), `live` the form `run` alone (`AnswersLive`), and `still` all
//! others (`AnswersStill`). The three are one record, `AnswersForm`, at these forms; `top_read` keeps to it, too. The page on the headline says in plain words what it is.
//! `live`, and `top` on its word, ensure this if they return.
//!
//! Only tested: disks in memory that fail at each call in turn; each image of a crash in an end; recoveries that
//! are stopped at any call (`test_shell`); that daemons run side by side, and leave a disk that fails at any call (`test_daemons`).
#![tactic(auto)]

mod live_call;
mod read_call;
mod still_call;
mod top_call;

pub use live_call::live;
pub use read_call::top_read;
pub use sdr_forms::{
    DAMAGED, DISK_FAULT, DONE, Form, INPUT_FAULT, NO_MEMORY, NOT_FORMATTED, OUTPUT_FAULT,
    REFUSED_LINE, RunOutcome, TOO_SMALL, USAGE, form_of,
};
pub use still_call::still;
pub use top_call::top;
