// Laws of loads.
ghost use Rattle.std.specs.Prelude.{◌≡◌, ◌≤◌, ◌+◌, ℕ, Ok, length, min};
ghost use Rattle.std.specs.List.{range_with_len};
ghost use Rattle.sdr_load.specs.Schedule.{script_for};
ghost use Rattle.sdr_load.specs.Text.{text_of};
ghost use Rattle.sdr_words.specs.Daemons.{daemons_of};
ghost use Rattle.sdr_words.specs.Script.{input_script, longest_input, script_of};

use sdr_words::canonical_lines_are_read;

/// A law: a load of N rounds behind round 0 names the daemons from 1 to N + 1, but none above 4. It does nothing.
#[tactic(auto, using(crate::proofs::DaemonsLemmas::daemons_of_script_for))]
pub fn daemons_of_loads()
    ensures { (rounds : ℕ) → daemons_of (script_for rounds) ≡ range_with_len 1 (min 4 (rounds + 1)) }
{}

/// A law: the text of a load, the canonical lines of its steps, is read as its script. It does nothing.
pub fn loads_are_read()
    ensures script { (rounds : ℕ) → script_of (text_of (script_for rounds)) ≡ Ok (script_for rounds) }

    // Where an input may be that long.
    ensures input { (rounds : ℕ) → length (text_of (script_for rounds)) ≤ longest_input
        → input_script (text_of (script_for rounds)) ≡ Ok (script_for rounds) }
{
    canonical_lines_are_read();
}
