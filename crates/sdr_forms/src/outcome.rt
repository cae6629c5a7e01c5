// What the top call gives back.
ghost use Rattle.std.specs.Prelude.{◌≡◌, ◌≤◌, [], codes};
ghost use Rattle.sdr_forms.specs.Answers.{Wrote, seen};

use crate::last_line::last_line;
use crate::status::USAGE;
use sdr_base::Sink;
use sdr_model::Journal;
use std::alloc::Global;

/// What the top call gives back.
#[derive(Drop)]
pub struct RunOutcome<D, M> {
    /// The status: 0 where all was done.
    pub status: u8,
    /// The entries by rising lock number, none where the words ask for no journal.
    pub journal: Journal,
    pub disk: D,
    pub media: M,
}

/// What is given back where there is no entry.
pub fn without_journal<D, M>(alloc: Global, status: u8, disk: D, media: M) -> RunOutcome<D, M>
    ensures { result ≡ record { status = status; journal = []; disk = disk; media = media } }
{
    RunOutcome {
        status,
        journal: Journal::new(alloc),
        disk,
        media,
    }
}

/// Tells that the words are no form. All is given back as it was handed in.
pub fn no_form<D, M, K: Sink>(alloc: Global, disk: D, media: M, output: &mut K) -> RunOutcome<D, M>
    ensures outcome { result ≡ record { status = USAGE; journal = []; disk = disk; media = media } }
    ensures written { Wrote (seen K.taken K.faults output.old) (seen K.taken K.faults output.new)
        (codes "usage\n") }
    ensures later { K.faults output.old ≤ K.faults output.new }
{
    last_line(output, b"usage\n");
    without_journal(alloc, USAGE, disk, media)
}
