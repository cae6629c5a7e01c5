// A schedule that runs on the heap of a disk.
ghost use Rattle.std.specs.Prelude.{◌≡◌, ◌≤◌, ◌↔◌, IfErr, IfOk, length};
ghost use Rattle.sdr_image.specs.Opened.{Holds};
ghost use Rattle.sdr_run.specs.Handed.{StaysAsHanded, handed_as};
ghost use Rattle.sdr_run.specs.Playing.{output};
ghost use Rattle.sdr_run.specs.Replaying.{IsNotRun, IsSettled, ReplaysOn, with_base};

use crate::handed::HandedIn;
use crate::handed_ground::HandedGround;
use crate::opening::{open_handed, shut_unrun};
use crate::recording::{Ran, play_recorded};
use crate::steps::{ScriptSteps, daemons_of};
use sdr_base::{Media, Sink};
use sdr_disk::Disk;
use sdr_model::ScriptStep;
use sdr_station::Shut;
use std::alloc::Global;
use std::marker::Brand;

// What a schedule has come to, with the disk of the heap on which it ran, and its media.
fn with_parts<D: Disk, M: Media, J: HandedIn>(ran: Ran<HandedGround<D, M, J>>) -> Ran<(D, M)>
    ensures same { result ≡ with_base ran result.base }
    ensures disk { result.base.0 ≡ ran.base.heap.cells.disk }
    ensures tells { D.tells_crashes result.base.0 ≡ J.was.tells }
    ensures stays { StaysAsHanded J.was.bytes (D.bytes result.base.0) ran.base.heap.cells.frame }
    ensures holds { Holds D.bytes ran.base.heap.cells }
    ensures seen { D.moment result.base.0 ≡ ran.base.moment }
    ensures media { result.base.1 ≡ ran.base.media }
{
    let Ran {
        journal,
        base,
        failed,
        starved,
        printing,
    } = ran;
    Ran {
        journal,
        base: base.into_parts(),
        failed,
        starved,
        printing,
    }
}

// Plays a script on the heap of a disk.
fn replay_on<D: Disk, M: Media, J: HandedIn, K: Sink>(
    alloc: Global,
    script: &[ScriptStep],
    disk: D,
    media: M,
    out: &mut K,
) -> Result<Ran<(D, M)>, Shut<D, M>>
    requires few { length script.now ≤ 1_048_577 }
    requires handed { J.was ≡ handed_as D.Disk disk }
    requires settled { J.condition ↔ IsSettled D.Disk disk }
    ensures ran { IfOk result (ReplaysOn D.Disk M.Media disk media script.now
        (output K.taken K.faults out.old) (output K.taken K.faults out.new)) }
    ensures shut { IfErr result (λ shut. IsNotRun D.Disk disk shut.disk shut.why) }
    ensures unread { IfErr result (λ shut. shut.media ≡ media) }
    ensures same { IfErr result (λ _. out.new ≡ out.old) }
    ensures later { K.faults out.old ≤ K.faults out.new }
{
    let base = match open_handed::<D, M, J>(alloc, disk, media) {
        Ok(base) => base,
        Err(shut) => return Err(shut),
    };
    let Ok(daemons) = daemons_of(alloc, script) else {
        return Err(shut_unrun(base));
    };
    let mut steps = ScriptSteps::new(script);
    match play_recorded::<HandedGround<D, M, J>, Brand, ScriptSteps, K>(
        alloc, &daemons, &mut steps, base, out,
    ) {
        Ok(ran) => Ok(with_parts(ran)),
        Err(base) => Err(shut_unrun(base)),
    }
}

/// Makes the steps of a script in order on the heap of a disk, whose sources name these media, and prints the line
/// of each answer. Where the heap isn't opened, or memory is wanting before the first step, nothing is printed, and
/// the cause comes with the disk and the media: not formatted, damaged, a disk fault, or want of memory.
pub fn replay<D: Disk, M: Media, K: Sink>(
    alloc: Global,
    script: &[ScriptStep],
    disk: D,
    media: M,
    out: &mut K,
) -> Result<Ran<(D, M)>, Shut<D, M>>
    requires few { length script.now ≤ 1_048_577 }
    ensures ran { IfOk result (ReplaysOn D.Disk M.Media disk media script.now
        (output K.taken K.faults out.old) (output K.taken K.faults out.new)) }
    ensures shut { IfErr result (λ shut. IsNotRun D.Disk disk shut.disk shut.why) }
    ensures unread { IfErr result (λ shut. shut.media ≡ media) }
    ensures same { IfErr result (λ _. out.new ≡ out.old) }
    ensures later { K.faults out.old ≤ K.faults out.new }
{
    replay_on::<D, M, Brand, K>(alloc, script, disk, media, out)
}
