// A heap that is put back, and what is said of it.
ghost use Rattle.std.specs.Prelude.{◌≡◌, ◌≤◌, ◌⊎◌};
ghost use Rattle.std.specs.Io.KnownBytes.{Appends};
ghost use Rattle.sdr_base.specs.Causes.{Rose};
ghost use Rattle.sdr_base.specs.Written.{AppendsPart};
ghost use Rattle.sdr_log.specs.Calls.{KeepsDisk};
ghost use Rattle.sdr_forms.specs.Answers.{seen};
ghost use Rattle.sdr_forms.specs.Recovering.{AnswersRecover, line_recovered};
ghost use Rattle.sdr_forms.specs.declared.status.TheConstants.{DONE, OUTPUT_FAULT};

use crate::last_line::print_line;
use crate::shutting::tell_shut;
use sdr_base::{NoMedia, Sink};
use sdr_disk::Disk;
use sdr_station::{HeapGround, Shut};
use sdr_text::Line;
use std::alloc::Global;
use zco_acct::{Compares, Notice};

/// What a recovery came to.
#[derive(Drop)]
pub struct Recovered<D> {
    pub status: u8,
    pub disk: D,
}

// Tells how many lines were put back.
fn tell_recovered<K: Sink>(output: &mut K, count: u64) -> u8
    ensures known { (result ≡ DONE) ⊎ (result ≡ OUTPUT_FAULT) }
    ensures text { result ≡ DONE →
        Appends (K.taken output.old) (K.taken output.new) (line_recovered count) }
    ensures part { result ≡ OUTPUT_FAULT →
        AppendsPart (K.taken output.old) (K.taken output.new) (line_recovered count) }
    ensures output { result ≡ OUTPUT_FAULT → Rose (K.faults output.old) (K.faults output.new) }
    ensures later { K.faults output.old ≤ K.faults output.new }
{
    let mut text = Line::new();
    text.push(b"recovered ");
    text.number(count);
    text.push(b" lines\n");
    print_line(output, text.as_slice())
}

/// Opens the heap of the disk, by which its open batches are put back and closed, and says how many
/// lines that were. It costs what opening does: an audit of every byte of the heap.
pub fn recover_disk<D: Disk, K: Sink>(alloc: Global, disk: D, output: &mut K) -> Recovered<D>
    ensures answers { AnswersRecover D.Disk result.status disk result.disk
        (seen K.taken K.faults output.old) (seen K.taken K.faults output.new) }
    ensures later { (K.faults output.old ≤ K.faults output.new)
        × (D.faults disk ≤ D.faults result.disk) }
    ensures keeps { KeepsDisk D.bytes D.tells_crashes disk result.disk }
{
    match HeapGround::open(alloc, disk, NoMedia::new(), Notice::new(Compares)) {
        Ok(ground) => {
            let status = tell_recovered(output, ground.restored());
            let (disk, _) = ground.into_parts();
            Recovered { status, disk }
        }
        Err(Shut { why, disk, .. }) => {
            let status = tell_shut(why, output);
            Recovered { status, disk }
        }
    }
}
