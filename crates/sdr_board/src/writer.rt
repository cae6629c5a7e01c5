use crate::rule::Place;
use crate::totals::Totals;
use std::marker::Model;

/// Who publishes on a board; there is one. Contracts see of which board it is, and the entries whose totals it published
/// last.
#[derive(Drop)]
pub struct Writer {
    /// What it published last.
    pub(crate) last: Totals,
    pub(crate) place: Place,
}

impl Model for Writer {
    ghost use Rattle.std.specs.Prelude.{◌≡◌};
    ghost use Rattle.sdr_board.specs.Known.{Published, published};
    ghost use Rattle.sdr_board.specs.Totals.{totals};
    ghost use Rattle.sdr_board.specs.Views.{writer_view};

    ghost Value = { Published };

    ghost view = { λ w. published w.place.table_id w.place.me.0.seen };

    ghost invariant = { λ w. (w.place.me.0 ≡ writer_view w.place.me.0.seen) × (w.last ≡ totals w.place.me.0.seen) };
}
