//! The command line: what its words ask for, and the status with which the program ends.
//!
//! 1. The words are tried first. `--help` and `--version`, alone, are answered; words that are no form are told as
//!    that, and no file is touched.
//! 2. For a form the descriptors of the standard streams are taken, so that no file is one of them.
//! 3. The first word says which disk: `-` an empty one in memory, `PATH` a file, `PATH=N` a file that
//!    is made, or lengthened with zero bytes, to N bytes. `dry` opens none.
//! 4. For `replay` and `run` the input is read whole, and a script that is refused opens no disk.
//! 5. A file that can't be opened, lengthened or locked, and what isn't a file, ends the program with status 1.
//!    `inspect` opens its file beside others that look at it.
//! 6. The words, the disk and the input go to `top`, and for a script that is accepted and runs on a file the script goes to `top_read`, which
//!    answers as `top` does. The program ends with the status.
//!
//! Proved: the exit code is the status that `top` gave to the words, on an empty disk in memory or on a file (`EndsWith`, the clause of
//! `exit_code`, whose result the program's `main` returns). Besides, it may be 1, and then nothing is printed; 9, on a file, where
//! `no memory` is printed; and 0 or 4 for `--help` and `--version`, which are printed whole, or the output failed. `top` asks nothing of the disk.
//! What is told of a disk is read alone.
//!
//! Only tested: that words are tried before a file is opened, that `dry` and a refused script open none, what standard error
//! says, and each of the descriptors 0 to 2 closed, with each form (`tests/starters`); the program on files (`tests/run`),
//! power loss after each write of a replay (`tests/crash`), a fault at each call on media (`tests/faults`), and on the file
//! that is the disk (`tests/files`).
#![tactic(auto)]

mod about;
mod answering;
mod command;
mod ending;
mod notes;

pub use ending::exit_code;
pub use notes::note_no_text;
pub use sdr_forms::NO_MEMORY;

/// The status where the disk can't be opened.
pub const CANNOT_OPEN: u8 = 1;
