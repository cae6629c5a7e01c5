// How far a daemon is in its script.
ghost use Rattle.std.specs.Prelude.{◌≡◌, ◌≤◌, ◌<◌, ◌∷◌, [], List, IfSome, IsNone, length};
ghost use Rattle.sdr_daemon.specs.Progressing.{first_progress, steps_ahead};
ghost use Rattle.sdr_model.specs.declared.script.ScriptStep.{ScriptStep};

use sdr_model::{Leave, ScriptStep};
use sdr_words::Bindings;
use std::alloc::Global;
use std::default::MadeWith;
use std::marker::Brand;

/// The script that daemons run. The caller that hands it in picks it.
pub trait Scripted {
    ghost script: { List ScriptStep };
}

impl Scripted for Brand {
    ghost script = { [] };
}

/// A daemon that has drawn so many numbers leaves with the next one.
pub const MOST_DRAWN: u64 = 1_099_511_627_775;

/// How far a daemon is in its script.
#[derive(Drop)]
pub struct ScriptPlace {
    pub daemon: u8,
    /// The place of the whole script from which on its lines aren't done.
    pub place: usize,
    /// How many lock numbers it has drawn.
    pub drawn: u64,
    /// The leave that it makes next, whatever its script still has.
    pub leaving: Option<Leave>,
    /// What its names hold.
    pub names: Bindings,
}

/// A daemon before its first line. It takes no memory.
pub fn first_progress(alloc: Global, daemon: u8) -> ScriptPlace
    ensures { result ≡ first_progress daemon }
{
    ScriptPlace {
        daemon,
        place: 0,
        drawn: 0,
        leaving: None,
        names: Bindings::new(alloc),
    }
}

// The blank of an unused place.
impl MadeWith<Global> for ScriptPlace {
    fn made_with(alloc: Global) -> ScriptPlace {
        first_progress(alloc, 0)
    }
}

/// The next line of a daemon from a place of the script on, and the place behind it.
pub fn next_step(script: &[ScriptStep], daemon: u8, place: usize) -> Option<(&ScriptStep, usize)>
    requires within { place ≤ length script.now }
    ensures next { IfSome result (λ r. steps_ahead script.now daemon place
        ≡ r.0.now ∷ steps_ahead script.now daemon r.1) }
    ensures own { IfSome result (λ r. r.0.now.daemon ≡ daemon) }
    ensures behind { IfSome result (λ r. (place < r.1) × (r.1 ≤ length script.now)) }
    ensures none { IsNone result → steps_ahead script.now daemon place ≡ [] }
{
    let mut rest = &script[place..];
    while let Some((step, after)) = rest.split_first() {
        if step.daemon == daemon {
            return Some((step, script.len() - after.len()));
        }
        rest = after;
    }
    None
}
