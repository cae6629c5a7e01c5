// A schedule that is played with a journal of it.
ghost use Rattle.std.specs.Prelude.{◌≡◌, ◌≤◌, ◌+◌, ◌^◌, IfErr, IfOk, length};
ghost use Rattle.sdr_core.specs.CoreKept.{BeginsOn};
ghost use Rattle.sdr_core.specs.Leaving.{LastsOn};
ghost use Rattle.sdr_machine.specs.Crash.{is_sound};
ghost use Rattle.sdr_machine.specs.Legal.{is_fault};
ghost use Rattle.sdr_run.specs.Playing.{output};
ghost use Rattle.sdr_run.specs.Recording.{PlaysOut};
ghost use Rattle.sdr_words.specs.Daemons.{daemons_of};

use crate::Steps;
use crate::playing::{Played, play};
use sdr_base::Sink;
use sdr_core::{Core, Origin};
use sdr_machine::Tells;
use sdr_model::{Close, Entry, Journal, What};
use std::alloc::Global;

/// What a schedule has come to.
#[derive(Drop)]
pub struct Ran<T> {
    /// The entries by rising lock number.
    pub journal: Journal,
    /// What it ran on.
    pub base: T,
    /// Whether the disk failed in an entry.
    pub failed: bool,
    /// Whether memory was wanting before the last step was made.
    pub starved: bool,
    /// Whether the output took every line.
    pub printing: bool,
}

// Whether the disk failed in the entry.
fn is_fault(what: &What) -> bool
    ensures { result ≡ is_fault what.now }
{
    matches!(
        what,
        What::Work {
            close: Close::Faulted,
            ..
        }
    )
}

// Whether the disk failed in no entry.
fn is_sound(journal: &[Entry]) -> bool
    ensures { result ≡ is_sound journal.now }
{
    journal.iter().all(|entry| !is_fault(&entry.what))
}

/// Plays a schedule on a core of these daemons, which are those that it names, and gives its journal out. Unless the disk failed
/// in an entry, no transaction is open on the ground then. Where memory is wanting before the first
/// step, the ground is given back and nothing is printed.
pub fn play_recorded<T: Tells, J: Origin, S: Steps, K: Sink>(
    alloc: Global,
    daemons: &[u8],
    steps: &mut S,
    base: T,
    out: &mut K,
) -> Result<Ran<T>, T>
    requires few { length daemons.now ≤ 256 }
    requires steps { length (S.left steps.old) + 512 ≤ 2 ^ 60 }
    requires named { daemons.now ≡ daemons_of (S.left steps.old) }
    requires begins { BeginsOn T.HasGround J.begins daemons.now base }
    requires lasts { LastsOn T.HasGround base }
    ensures ran { IfOk result (PlaysOut T.HasGround J.begins (S.left steps.old) base
        (output K.taken K.faults out.old) (output K.taken K.faults out.new)) }
    ensures back { IfErr result (λ back. (back ≡ base) × (out.new ≡ out.old)) }
    ensures later { K.faults out.old ≤ K.faults out.new }
{
    let mut core = match Core::<T, J>::new(alloc, daemons, base) {
        Ok(core) => core,
        Err((_, base)) => return Err(base),
    };
    let Played { starved, printing } = play(alloc, &mut core, steps, out);
    let (journal, base) = core.finish();
    let failed = !is_sound(journal.as_slice());
    Ok(Ran {
        journal,
        base,
        failed,
        starved,
        printing,
    })
}
