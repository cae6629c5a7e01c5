// A text becomes one object.
ghost use Rattle.std.specs.Prelude.{◌≡◌, ◌*◌, ◌+◌, [], length, IfErr, IfOk, OnErr, OnOk};
ghost use Rattle.sdr_base.specs.Moves.{KeepsSome};
ghost use Rattle.sdr_base.specs.Works.{Looks, Spends};
ghost use Rattle.zco_join.specs.Joining.{Joins, KeepsToJoin, SomeToJoin, Together, pieces_in};
ghost use Rattle.zco_pieces.specs.Finishing.{FinishStops, IsIncomplete};
ghost use Rattle.zco_pieces.specs.Places.{AreInOrder, filled_length, first_missing, missing_of};

use crate::cutting::bad_range;
use crate::rebuild::{Rebuild, missing_in};
use sdr_base::{Acct, Addr, Objects, Stop, check_failed};
use zco_join::{Filled, join_clones};

impl Rebuild {
    /// Makes an object of the text, in an account: its extents name what those of the clones do, in order. The
    /// clones go, and nothing is filled then. The account is charged as it is by `create` and for each extent;
    /// the clones' accounts are given back what is charged less. What is left of the grant of the ticket of this
    /// number covers what it can; 0 is no ticket. No byte is copied. It appends the extents one by one, and
    /// each append reads those before it.
    ///
    /// It is refused `BadRange` with the first byte that is missing, how many are, and the text's length where
    /// some are, and then nothing changes; else as `create`, `append_extent` and `destroy` are. Behind each of
    /// these refusals but those of `create` by the account the transaction has to be cancelled.
    pub fn finish<O: Objects>(&mut self, o: &mut O, acct: Acct, ticket: u64) -> Result<Addr, Stop>
        requires kept { KeepsSome (O.keeps o.old) }
        requires clones { missing_of self.old ≡ 0 → SomeToJoin (O.heap o.old) acct self.old.parts }
        ensures finished { IfOk result
            (Joins acct ticket self.old.parts (O.heap o.old) (O.heap o.new)) }
        ensures whole { OnOk result (missing_of self.old ≡ 0) }
        ensures emptied { OnOk result (self.new ≡ record { total = self.old.total; parts = [] }) }
        ensures same { OnErr result (self.new ≡ self.old) }
        ensures refused { IfErr result
            (FinishStops acct ticket self.old (O.heap o.old) (O.heap o.new)) }
        ensures works { (t : Together) → KeepsToJoin (O.heap o.old) acct self.old.parts t →
            Spends O.HasHeap
            (34 + 70 * length (pieces_in t.clones) + 27 * length t.clones) o.old o.new result }
        ensures early { (missing_of self.old ≡ 0 → ⊥) → Looks O.HasHeap o.old o.new result }
    {
        check_failed(o)?;
        check_whole(self.total, self.parts.as_slice())?;
        let object = join_clones(o, acct, ticket, self.parts.as_slice())?;
        self.parts.truncate(0);
        Ok(object)
    }
}

// Refuses parts that leave bytes of so many out.
fn check_whole(total: u64, parts: &[Filled]) -> Result<(), Stop>
    requires order { AreInOrder 0 total parts.now }
    ensures whole { OnOk result (filled_length parts.now ≡ total) }
    ensures refused { IfErr result (IsIncomplete (record { total = total; parts = parts.now })) }
{
    let missing = missing_in(total, parts);
    if missing != 0 {
        return Err(bad_range(first_gap(total, parts), missing, total));
    }
    Ok(())
}

// The first byte that no part fills.
fn first_gap(total: u64, parts: &[Filled]) -> u64
    requires order { AreInOrder 0 total parts.now }
    ensures { result ≡ first_missing 0 parts.now }
{
    let mut end = 0;
    for part in parts {
        if part.offset != end {
            break;
        }
        end = part.offset + part.length;
    }
    end
}
