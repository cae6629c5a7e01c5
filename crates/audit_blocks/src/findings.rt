// What a walk over blocks has found wrong so far.
ghost use Rattle.std.specs.Prelude.{◌≡◌, None};
ghost use Rattle.audit_blocks.specs.Found.{first_found, no_findings, with_found, with_large, with_small};

use crate::label::Label;

/// The first wrong blocks of a walk, by the places at which they begin, for each thing that is asked of them.
#[derive(Clone, Copy)]
pub struct Findings {
    /// One with fewer words than its length needs, or a small one in use with more.
    pub unfit: Option<u64>,
    /// A free one with a length.
    pub full: Option<u64>,
    /// The upper of two free large ones that touch.
    pub touching: Option<u64>,
    /// A free one where the large blocks begin.
    pub edge: Option<u64>,
    /// Whether the last large block is free.
    pub after_free: bool,
}

impl Findings {
    /// Nothing is wrong so far.
    pub fn none() -> Findings
        ensures { result ≡ no_findings }
    {
        Findings {
            unfit: None,
            full: None,
            touching: None,
            edge: None,
            after_free: false,
        }
    }

    /// The first of all, in the order in which things are asked.
    pub fn first(&self) -> Option<u64>
        ensures { result ≡ first_found self.now }
    {
        self.unfit.or(self.full).or(self.touching).or(self.edge)
    }

    /// Takes note of the small block with this leader at a place.
    pub fn note_small(&mut self, label: &Label, place: u64)
        ensures { self.new ≡ with_small self.old label.now place }
    {
        self.unfit = or_wrong(self.unfit, label.fits_small(), place);
        self.full = or_wrong(self.full, label.is_empty(), place);
    }

    /// Takes note of the large block with this leader at a place, where large blocks begin at `high`.
    pub fn note_large(&mut self, label: &Label, place: u64, high: u64)
        ensures { self.new ≡ with_large self.old label.now place high }
    {
        let is_free = !label.is_used();
        let touches = self.after_free && is_free;
        let is_edge = place == high && is_free;
        self.unfit = or_wrong(self.unfit, label.fits_large(), place);
        self.full = or_wrong(self.full, label.is_empty(), place);
        self.touching = or_wrong(self.touching, !touches, place);
        self.edge = or_wrong(self.edge, !is_edge, place);
        self.after_free = is_free;
    }
}

// What was found first, or else this place where the block there isn't right.
fn or_wrong(found: Option<u64>, right: bool, place: u64) -> Option<u64>
    ensures { result ≡ with_found found right place }
{
    if found.is_some() || right {
        found
    } else {
        Some(place)
    }
}
