// What daemons say in their transactions.
ghost use Rattle.std.specs.Prelude.{◌≡◌, ◌==◌, ◌<◌, ◌∷◌, IfSome, MatchOption, OnOk, Some, None, length, position, vec_capacity};
ghost use Rattle.sdr_machine.specs.Core.{said_by, with_said, without_work};
ghost use Rattle.sdr_core.specs.Keeping.{AreApart, AreSpacious, HasSpace, MaySay, spoken_of, works_of};

use sdr_base::NoMemory;
use sdr_model::Said;

/// What a daemon has said in its open transaction.
#[derive(Drop)]
pub struct Spoken {
    pub daemon: u8,
    pub said: Vec<Said>,
}

// The place of the first that is the daemon's.
fn place_of(spoken: &[Spoken], daemon: u8) -> Option<usize>
    ensures value { result ≡ position (λ s. s.daemon == daemon) spoken.now }
    ensures within { IfSome result (λ place. place < length spoken.now) }
{
    spoken.iter().position(|one| one.daemon == daemon)
}

/// Takes the memory for two more that the daemon says in its transaction.
pub fn reserve_said(spoken: &mut Vec<Spoken>, daemon: u8) -> Result<(), NoMemory>
    ensures same { works_of spoken.new.items ≡ works_of spoken.old.items }
    ensures capacity { vec_capacity spoken.new ≡ vec_capacity spoken.old }
    ensures ok { OnOk result (MaySay 2 spoken.new.items daemon) }
    ensures spacious { AreSpacious spoken.old.items → AreSpacious spoken.new.items }
{
    match place_of(spoken.as_slice(), daemon) {
        None => Ok(()),
        Some(place) => spoken[place].said.reserve(2),
    }
}

/// A daemon says this too in its transaction. It takes no memory. What was said comes back where it is in none.
pub fn say(spoken: &mut Vec<Spoken>, daemon: u8, said: Said) -> Option<Said>
    requires { MaySay 2 spoken.old.items daemon }
    ensures says { MatchOption result (works_of spoken.new.items
        ≡ with_said (works_of spoken.old.items) daemon said)
        (λ back. (back ≡ said) × (spoken.new ≡ spoken.old) × (spoken_of spoken.old.items daemon ≡ None)) }
    ensures capacity { vec_capacity spoken.new ≡ vec_capacity spoken.old }
    ensures spacious { AreSpacious spoken.old.items → AreSpacious spoken.new.items }
{
    match place_of(spoken.as_slice(), daemon) {
        None => Some(said),
        Some(place) => {
            spoken[place].said.push_reserved(said);
            None
        }
    }
}

/// Takes the daemon's transaction out.
pub fn take_spoken(spoken: &mut Vec<Spoken>, daemon: u8) -> Option<Spoken>
    requires { AreApart (works_of spoken.old.items) }
    ensures others { works_of spoken.new.items ≡ without_work (works_of spoken.old.items) daemon }
    ensures own { MatchOption result (spoken_of spoken.old.items daemon ≡ None)
        (λ own. own.said.items ≡ said_by (works_of spoken.old.items) daemon) }
    ensures capacity { vec_capacity spoken.new ≡ vec_capacity spoken.old }
    ensures spacious { AreSpacious spoken.old.items →
        AreSpacious spoken.new.items × IfSome result (HasSpace 1) }
{
    match place_of(spoken.as_slice(), daemon) {
        None => None,
        Some(place) => Some(spoken.remove(place)),
    }
}
