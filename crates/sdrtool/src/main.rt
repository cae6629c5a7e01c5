//! `sdrtool` makes an empty heap of a disk (`format`), runs the script of its daemons on it, in the order of its lines (`replay`) or
//! side by side in threads (`run`), or on a machine without a disk (`dry`), and puts the heap back after a power loss (`recover`).
//!
//! It hands the words of its command line, the standard streams, and the files and bulk items of the current folder to `exit_code` of
//! `sdr_command`, and ends with what that gives.
//!
//! Proved: that it is safe. No clause says what `main` hands on, nor that it returns what `exit_code` gives.
#![tactic(auto)]

use sdr_base::NoMemory;
use sdr_command::{NO_MEMORY, exit_code, note_no_text};
use sdr_media::FolderMedia;
use sdr_system::{StdSink, StdSource};
use std::alloc::Global;
use std::env;
use std::env::{Args, Env};
use std::io::ErrorKind;
use std::iter::Skip;
use std::path::PathBuf;
use std::process::ExitCode;
use std::rc::RcStr;

/// The words of a command line.
#[derive(Drop)]
enum Words {
    Given(Vec<RcStr>),
    /// One of them isn't UTF-8.
    NotText,
    NoMemory,
}

fn command_line(rt: &(impl Env + Alloc<A = Global>)) -> Words {
    match env::args(rt) {
        Ok(args) => match shared(rt.alloc(), args.skip(1)) {
            Ok(words) => Words::Given(words),
            Err(_) => Words::NoMemory,
        },
        Err(error) if error.kind() == ErrorKind::OutOfMemory => Words::NoMemory,
        Err(_) => Words::NotText,
    }
}

// The words as the top call takes them.
fn shared(alloc: Global, args: Skip<Args<Global>>) -> Result<Vec<RcStr>, NoMemory> {
    let mut words = Vec::new(alloc);
    for word in args {
        words.push(RcStr::from_string(word)?)?;
    }
    Ok(words)
}

fn main(rt: HostRuntime) -> ExitCode {
    let words = match command_line(&rt) {
        Words::Given(words) => words,
        Words::NotText => {
            note_no_text(&rt);
            Vec::new(rt.alloc())
        }
        Words::NoMemory => return ExitCode::from(NO_MEMORY),
    };
    let mut input = StdSource::new(rt.stdin(), rt);
    let mut output = StdSink::new(rt.stdout(), rt);
    // Files and items are those of the current folder.
    let media = FolderMedia::new(rt, PathBuf::new(rt.alloc()));
    exit_code(&rt, words.as_slice(), media, &mut input, &mut output)
}
