// A dry run.
ghost use Rattle.std.specs.Prelude.{◌≡◌, ◌≤◌, IfErr, IfOk, length};
ghost use Rattle.sdr_run.specs.Dry.{IsDry};
ghost use Rattle.sdr_run.specs.Playing.{output};

use crate::playing::{Played, play};
use crate::steps::{ScriptSteps, daemons_of};
use mem_machine::MemoryRun;
use sdr_base::{Media, Sink};
use sdr_model::ScriptStep;
use std::alloc::Global;

/// What a dry run has come to.
#[derive(Drop)]
pub struct DryRun<M> {
    /// The media that its sources named.
    pub media: M,
    /// What stopped it, if anything did.
    pub played: Played,
}

/// Makes the steps of a script in order, on a world in memory with these media, and prints the line of each answer. Media are asked for the bytes
/// that lie with them: at most once for each extent of which a call that is made needs bytes. Behind the last step all
/// daemons make their leaves, which print nothing. Where memory is wanting before the first step, media are given back and
/// nothing is printed.
pub fn dry<M: Media, K: Sink>(
    alloc: Global,
    script: &[ScriptStep],
    media: M,
    out: &mut K,
) -> Result<DryRun<M>, M>
    requires few { length script.now ≤ 1_048_577 }
    ensures ran { IfOk result (IsDry M.Media script.now media
        (output K.taken K.faults out.old) (output K.taken K.faults out.new)) }
    ensures back { IfErr result (λ back. (back ≡ media) × (out.new ≡ out.old)) }
    ensures later { K.faults out.old ≤ K.faults out.new }
{
    let Ok(daemons) = daemons_of(alloc, script) else {
        return Err(media);
    };
    let mut run = match MemoryRun::new(alloc, &daemons, media) {
        Ok(run) => run,
        Err((_, media)) => return Err(media),
    };
    let played = play(alloc, &mut run, &mut ScriptSteps::new(script), out);
    Ok(DryRun {
        media: run.into_media(),
        played,
    })
}
