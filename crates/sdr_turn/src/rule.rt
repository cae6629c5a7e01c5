use crate::kept::Kept;
use crate::view::View;
use atomic_table::{Join, Play, Split, TableRule};
use std::marker::PhantomData;

/// The word that counts the numbers drawn.
pub(crate) const DRAWN: usize = 0;

/// The word that counts the numbers done.
pub(crate) const DONE: usize = 1;

/// The slot of the value.
pub(crate) const VALUE: usize = 0;

/// The rule of a lock over V. Its table is told how many seats there are.
pub struct Serves<V> {
    of: PhantomData<V>,
}

impl<V: Kept> TableRule<Option<V>, View<V::Entry>, u64> for Serves<V> {
    ghost use Rattle.sdr_turn.specs.Serving.{IsServing};
    ghost use Rattle.sdr_turn.specs.Views.{new_view};

    ghost holds = { λ seats s. IsServing V.entries V.number V.maker V.turns V.rests seats s };

    ghost first = { λ seats. new_view 0 seats };
}

/// A seat draws a number.
pub struct Draws;

impl<V: Kept> Play<Option<V>, View<V::Entry>> for Draws {
    ghost use Rattle.sdr_turn.specs.Plays.{DrawsNumber};

    ghost then = { λ step. DrawsNumber };
}

/// A seat looks how many numbers are done.
pub struct Looks;

impl<V: Kept> Play<Option<V>, View<V::Entry>> for Looks {
    ghost use Rattle.sdr_turn.specs.Plays.{SeesFront};

    ghost then = { λ step. SeesFront };
}

/// A seat looks, and takes the value where its number is served.
pub struct Takes;

impl<V: Kept> Play<Option<V>, View<V::Entry>> for Takes {
    ghost use Rattle.sdr_turn.specs.Plays.{TakesValue};

    ghost then = { λ step. TakesValue V.entries V.number V.maker V.turns V.rests };
}

/// A seat gives the value back, and its number is done.
pub struct Gives;

impl<V: Kept> Play<Option<V>, View<V::Entry>> for Gives {
    ghost use Rattle.sdr_turn.specs.Plays.{GivesValue};

    ghost then = { λ step. GivesValue V.entries V.maker };
}

/// The first of a seat's parts becomes a seat of its own, and a seat becomes a part of another.
pub struct Parts;

impl<E> Split<View<E>> for Parts {
    ghost use Rattle.sdr_turn.specs.Knowing.{nothing};
    ghost use Rattle.sdr_turn.specs.Views.{seat_view, without_first};

    ghost left = { without_first };

    ghost right = { λ v. seat_view (nothing v.knows.place) };
}

impl<E> Join<View<E>> for Parts {
    ghost use Rattle.sdr_turn.specs.Views.{new_view, no_place, with_view};

    ghost both = { with_view };

    ghost spent = { new_view no_place 0 };
}
