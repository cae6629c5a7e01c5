// A text that is rebuilt.
ghost use Rattle.std.specs.Prelude.{◌≡◌, ◌-◌, ◌≤◌, []};
ghost use Rattle.zco_pieces.specs.Places.{filled_length, missing_of};

use sdr_base::Items;
use std::alloc::Global;
use std::marker::Model;
use zco_join::Filled;

/// No text has more bytes.
pub const LONGEST_TEXT: u64 = 1 << 40;

/// A text that is rebuilt from pieces. Contracts see its length and the parts that are filled, by rising offset.
/// Where the transaction is cancelled, it is given up.
#[derive(Drop)]
pub struct Rebuild {
    pub(crate) alloc: Global,
    pub(crate) total: u64,
    pub(crate) parts: Items<Filled>,
}

impl Model for Rebuild {
    ghost use Rattle.std.specs.Coded.{coded_list};
    ghost use Rattle.zco_pieces.specs.Places.{IsRebuilt, Rebuilt};
    ghost use Rattle.zco_join.specs.declared.filled.Filled.{Filled};

    ghost Value = { Rebuilt };

    ghost view = { λ r. record { total = r.total; parts = r.parts } };

    ghost invariant = { λ r. IsRebuilt (record { total = r.total; parts = r.parts }) };
}

impl Rebuild {
    /// A text of so many bytes, of which none is filled. It takes no memory.
    pub fn new(alloc: Global, total: u64) -> Rebuild
        requires long { total ≤ LONGEST_TEXT }
        ensures { result ≡ record { total = total; parts = [] } }
    {
        Rebuild {
            alloc,
            total,
            parts: Items::new(alloc),
        }
    }

    /// How many bytes aren't filled.
    pub fn missing(&self) -> u64
        ensures { result ≡ missing_of self.now }
    {
        missing_in(self.total, self.parts.as_slice())
    }
}

// How many bytes of so many no part fills.
pub fn missing_in(total: u64, parts: &[Filled]) -> u64
    requires few { filled_length parts.now ≤ total }
    ensures { result ≡ total - filled_length parts.now }
{
    let mut missing = total;
    for part in parts {
        missing -= part.length;
    }
    missing
}
