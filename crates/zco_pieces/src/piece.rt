// Pieces, and why one isn't added.

use sdr_base::{Addr, NoMemory, Stop};

/// An object that has some bytes of a text: those from an offset on, as many as its part has.
#[derive(Clone, Copy, Debug, PartialEq, Eq)]
pub struct Piece {
    pub object: Addr,
    pub offset: u64,
    /// How many bytes the text has.
    pub total: u64,
}

/// Why a piece isn't added.
#[derive(Clone, Copy, Debug, PartialEq, Eq)]
pub enum PieceStop {
    /// A call on blocks stopped. The gaps that were filled before stay filled.
    Stop(Stop),
    /// Memory was wanting. All is as before.
    NoMemory,
}

impl From<Stop> for PieceStop {
    ghost use Rattle.std.specs.Prelude.{◌≡◌};
    ghost use Rattle.zco_pieces.specs.declared.piece.PieceStop.TheVariants as stops;

    ghost from_gives = { λ stop e. e ≡ stops.Stop stop };

    fn from(stop: Stop) -> PieceStop {
        PieceStop::Stop(stop)
    }
}

impl From<NoMemory> for PieceStop {
    ghost use Rattle.std.specs.Prelude.{◌≡◌};
    ghost use Rattle.zco_pieces.specs.declared.piece.PieceStop.TheVariants.{NoMemory};

    ghost from_gives = { λ _ e. e ≡ NoMemory };

    fn from(_want: NoMemory) -> PieceStop {
        PieceStop::NoMemory
    }
}
