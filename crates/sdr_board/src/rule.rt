use crate::view::View;
use atomic_table::{Join, Play, Seat, Split, TableRule};
use std::marker::{Brand, PhantomData};

/// What the writer or a reader steps with.
pub(crate) type Place = Seat<(), View>;

/// The word that counts the entries whose totals stand on the board.
pub(crate) const STANDS: usize = 0;

/// The word that counts the entries whose totals were begun last.
pub(crate) const BEGUN: usize = 1;

/// The first word of the other totals.
pub(crate) const FIRST: usize = 2;

/// The rule of a board. Its table has no slot.
pub struct Posts;

impl TableRule<(), View, ()> for Posts {
    ghost use Rattle.std.specs.Prelude.{[]};
    ghost use Rattle.sdr_board.specs.Posted.{IsPosted};
    ghost use Rattle.sdr_board.specs.Views.{writer_view};

    ghost holds = { λ _ s. IsPosted s };

    ghost first = { λ _. writer_view [] };
}

/// A reader looks how many entries' totals stand on the board.
pub struct Looks;

impl Play<(), View> for Looks {
    ghost use Rattle.sdr_board.specs.Plays.{Looking};

    ghost then = { λ step. Looking };
}

/// A reader reads one word.
pub struct Peeks;

impl Play<(), View> for Peeks {
    ghost use Rattle.sdr_board.specs.Plays.{Peeking};

    ghost then = { λ step. Peeking step.word };
}

/// A reader looks of how many entries totals are begun.
pub struct Checks;

impl Play<(), View> for Checks {
    ghost use Rattle.sdr_board.specs.Plays.{Checking};

    ghost then = { λ step. Checking };
}

/// A reader compares what it saw with what it was told.
pub struct Compares;

impl Play<(), View> for Compares {
    ghost use Rattle.sdr_board.specs.Plays.{Comparing};

    ghost then = { λ step. Comparing };
}

/// The writer begins totals.
pub struct Begins;

impl Play<(), View> for Begins {
    ghost use Rattle.sdr_board.specs.Plays.{Beginning};

    ghost then = { λ step. Beginning };
}

/// The writer writes one word.
pub struct Writes;

impl Play<(), View> for Writes {
    ghost use Rattle.sdr_board.specs.Plays.{Writing};

    ghost then = { λ step. Writing };
}

/// Names a journal. Each call that publishes one picks it.
pub trait Naming {
    ghost use Rattle.std.specs.Prelude.{List};
    ghost use Rattle.sdr_model.specs.declared.journal.Entry.{Entry};

    ghost journal: { List Entry };
}

impl Naming for Brand {
    ghost use Rattle.std.specs.Prelude.{[]};

    ghost journal = { [] };
}

/// The writer has published the journal that is named.
pub struct Ends<N: Naming> {
    of: PhantomData<N>,
}

impl<N: Naming> Play<(), View> for Ends<N> {
    ghost use Rattle.sdr_board.specs.Plays.{Ending};

    ghost then = { λ step. Ending N.journal };
}

/// A reader is split off the writer, and told what that published; and a reader is told what another has seen.
pub struct Tells;

impl Split<View> for Tells {
    ghost use Rattle.sdr_board.specs.Views.{reader_view};

    ghost left = { λ v. v };

    ghost right = { λ v. reader_view v.seen };
}

impl Join<View> for Tells {
    ghost use Rattle.std.specs.Prelude.{[]};
    ghost use Rattle.sdr_board.specs.Views.{reader_view, with_told};

    ghost both = { with_told };

    ghost spent = { reader_view [] };
}
