// Sums of charges.
ghost use Rattle.std.specs.Prelude.{◌≡◌, ◌+◌, ℕ};
ghost use Rattle.sdr_base.specs.declared.kind.Space.{Space};
ghost use Rattle.audit_counts.specs.Occupied.{as_word, charges_by};
ghost use Rattle.sdr_model.specs.Amounts.{in_space};

use sdr_base::Space;

/// What is charged of each space, in bytes; `None` where that doesn't fit a word.
#[derive(Clone, Copy)]
pub struct Charges {
    pub file: Option<u64>,
    pub bulk: Option<u64>,
    pub heap: Option<u64>,
}

// A sum and so much more.
fn plus(sum: Option<u64>, more: u64) -> Option<u64>
    ensures { (n : ℕ) → sum ≡ as_word n → result ≡ as_word (n + more) }
{
    match sum {
        None => None,
        Some(sum) => sum.checked_add(more),
    }
}

impl Charges {
    /// Nothing of each space.
    pub fn none() -> Charges
        ensures { result ≡ charges_by (λ space. 0) }
    {
        Charges {
            file: Some(0),
            bulk: Some(0),
            heap: Some(0),
        }
    }

    /// These and so many bytes more of a space.
    pub fn with(self, space: Space, bytes: u64) -> Charges
        ensures { (of : Space → ℕ) → self ≡ charges_by of →
            result ≡ charges_by (λ other. of other + in_space space bytes other) }
    {
        match space {
            Space::File => Charges {
                file: plus(self.file, bytes),
                ..self
            },
            Space::Bulk => Charges {
                bulk: plus(self.bulk, bytes),
                ..self
            },
            Space::Heap => Charges {
                heap: plus(self.heap, bytes),
                ..self
            },
        }
    }
}
