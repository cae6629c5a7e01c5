// The callback that is told each time space is made available.
ghost use Rattle.std.specs.Prelude.{◌≡◌, Bool};
ghost use Rattle.sdr_model.specs.Amounts.{are_within};

use sdr_base::Amounts;
use sdr_model::amounts::are_within;

/// What is told each time space is made available, of what the front waiting ticket asks and of the
/// room of its account.
pub trait Notify {
    /// Whether each amount asked is at most the room.
    fn told(&self, asked: &Amounts, room: &Amounts) -> bool
        ensures { result ≡ are_within asked.now room.now };
}

/// A callback, beside the fact that it answers whether each amount asked is at most the room: its
/// bound keeps that.
#[derive(Drop)]
pub struct Notice<F: Notify> {
    pub by: F,
}

impl<F: Notify> Notice<F> {
    /// Keeps a callback.
    pub fn new(by: F) -> Notice<F>
        ensures { result.by ≡ by }
    {
        Notice { by }
    }

    /// Calls it, and hands its answer on.
    pub fn told(&self, asked: &Amounts, room: &Amounts) -> bool
        ensures { result ≡ are_within asked.now room.now }
    {
        self.by.told(asked, room)
    }
}

/// A callback that only compares.
#[derive(Clone, Copy)]
pub struct Compares;

impl Notify for Compares {
    fn told(&self, asked: &Amounts, room: &Amounts) -> bool {
        are_within(asked, room)
    }
}

/// A function that is told of an amount asked and of the room.
pub type Tell = fn(&Amounts, &Amounts) -> bool;

/// A function that is stored, beside the facts that it may be called on any two amounts and answers
/// whether the first is at most the second in each space.
#[derive(Drop)]
pub struct Stored {
    tell: Tell,
    ghost callable: { (a b : _) → Tell.pre tell a b },
    ghost answers: { (a b : _) (r : Bool) → Tell.post tell a b r → r ≡ are_within a.now b.now },
}

impl Stored {
    /// Stores a function.
    pub fn new(tell: Tell) -> Stored
        requires callable { (a b : _) → Tell.pre tell a b }
        requires answers { (a b : _) (r : Bool) → Tell.post tell a b r
            → r ≡ are_within a.now b.now }
    {
        Stored { tell }
    }
}

impl Notify for Stored {
    fn told(&self, asked: &Amounts, room: &Amounts) -> bool {
        (self.tell)(asked, room)
    }
}
