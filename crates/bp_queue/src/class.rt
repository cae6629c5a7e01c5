// The classes of items.

/// The class of an item. A higher one is taken first.
#[derive(Clone, Copy, Debug, PartialEq, Eq)]
pub enum Class {
    Bulk = 1,
    Normal = 2,
    Urgent = 3,
}

impl Class {
    ghost use Rattle.std.specs.Prelude.{◌≡◌};
    ghost use Rattle.bp_queue.specs.Classes.{class_number};

    /// The class's number, which stands in its items and is the user data of its list.
    pub fn number(self) -> u8
        ensures { result ≡ class_number self }
    {
        self as u8
    }
}
