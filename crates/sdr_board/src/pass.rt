ghost use Rattle.std.specs.Prelude.{◌≡◌, []};
ghost use Rattle.sdr_board.specs.Known.{told};
ghost use Rattle.sdr_board.specs.Totals.{totals};
ghost use Rattle.sdr_board.specs.Views.{reader_view};

use crate::rule::Place;
use crate::totals::Totals;
use crossbeam_utils::CachePadded;
use std::marker::Model;

/// Who reads a board. Contracts see of which board it is, the entries whose totals it has seen, how often it looked, and
/// what stood on the board as it last began to look.
#[derive(Drop)]
pub struct Pass {
    /// What it read last. Each read may write it, so passes that lie side by side share no cache line.
    pub(crate) last: CachePadded<Totals>,
    pub(crate) place: Place,
}

impl Model for Pass {
    ghost use Rattle.std.specs.Prelude.{◌≡◌, false, []};
    ghost use Rattle.crossbeam_utils.specs.Padded.{padded_value};
    ghost use Rattle.sdr_board.specs.Known.{Seen};
    ghost use Rattle.sdr_board.specs.Totals.{totals};

    ghost Value = { Seen };

    ghost view = { λ p. record {
      board = p.place.table_id;
      entries = p.place.me.0.seen;
      looks = p.place.me.0.looks;
      stood = p.place.me.0.stood;
      met = p.place.me.0.met;
    } };

    ghost invariant = { λ p. (p.place.me.0.writes ≡ false) × (p.place.me.1 ≡ []) × (padded_value p.last ≡ totals p.place.me.0.seen) };
}

// The pass at the place of a reader that was told of some entries, whose totals these are.
pub(crate) fn pass_at(place: Place, last: Totals) -> Pass
    requires place { place.me ≡ (reader_view place.me.0.seen, []) }
    requires totals { last ≡ totals place.me.0.seen }
    ensures { result ≡ told place.table_id place.me.0.seen }
{
    let last = CachePadded::new(last);
    Pass { last, place }
}
