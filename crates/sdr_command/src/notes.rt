// What standard error says beside the status.
ghost use Rattle.std.specs.Prelude.{◌≤◌};
ghost use Rattle.sdr_disk.specs.Moments.{Reads};
ghost use Rattle.sdr_log.specs.Frame.{IsInLimits};

use crate::about::FORMS;
use sdr_disk::{Disk, DiskFault};
use sdr_log::Frame;
use sdr_system::{Head, head_of, is_zero};
use std::io;

/// Says which forms there are.
pub fn note_forms(rt: &impl Eprint) {
    let _ = eprintln!(rt; "{FORMS}");
}

/// Says that a word isn't UTF-8.
pub fn note_no_text(rt: &impl Eprint) {
    let _ = eprintln!(rt; "sdrtool: a word is not UTF-8, so it names no disk and no form");
}

/// Says why a path can't be opened, and then that it can't.
pub fn note_unopened(rt: &impl Eprint, path: &str, error: &io::Error) {
    let _ = eprintln!(rt; "sdrtool: {path:?}: {error}");
    let _ = eprintln!(rt; "sdrtool: cannot open");
}

/// Says what is lost of a disk that is formatted with these regions: its heap, or other bytes. Of a disk that
/// is too short for them nothing is.
#[tactic(auto, using(sdr_system::proofs::HeadsLemmas::looking))]
pub fn note_loss<D: Disk>(
    rt: &impl Eprint,
    path: &str,
    frame: Frame,
    disk: &mut D,
) -> Result<(), DiskFault>
    requires { IsInLimits frame }
    ensures later { D.faults disk.old ≤ D.faults disk.new }
    ensures reads { Reads D.bytes D.tells_crashes D.moment D.may_hold_after disk.old disk.new }
{
    let bytes = frame.disk_bytes();
    if disk.len() < bytes {
        return Ok(());
    }
    if let Head::Whole { frame } = head_of(disk)? {
        let Frame {
            log_lines,
            heap_lines,
        } = frame;
        let _ = eprintln!(rt;
            "sdrtool: {path:?}: its heap of {log_lines} lines of log and {heap_lines} of heap is lost"
        );
    } else if !is_zero(disk, bytes)? {
        let _ = eprintln!(rt;
            "sdrtool: {path:?}: it is no heap, and what its first {bytes} bytes hold is lost"
        );
    }
    Ok(())
}

/// Says of a disk that gives no heap why, where it begins as one.
#[tactic(auto, using(sdr_system::proofs::HeadsLemmas::looking))]
pub fn note_no_heap<D: Disk>(rt: &impl Eprint, path: &str, disk: &mut D) -> Result<(), DiskFault>
    ensures later { D.faults disk.old ≤ D.faults disk.new }
    ensures reads { Reads D.bytes D.tells_crashes D.moment D.may_hold_after disk.old disk.new }
{
    let have = disk.len();
    match head_of(disk)? {
        Head::None => {}
        Head::Wrong => {
            let _ = eprintln!(rt;
                "sdrtool: {path:?}: it begins as a heap, and its head is cut short or wrong"
            );
        }
        Head::Whole { frame } => {
            let need = frame.disk_bytes();
            if have < need {
                let _ = eprintln!(rt;
                    "sdrtool: {path:?}: its heap is cut short: {need} bytes are needed, and {have} are there"
                );
            } else {
                let _ = eprintln!(rt;
                    "sdrtool: {path:?}: it has the head of a heap, and its log is wrong"
                );
            }
        }
    }
    Ok(())
}
