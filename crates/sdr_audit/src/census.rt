// A census of the blocks of a heap.
ghost use Rattle.std.specs.Prelude.{◌≡◌, ◌≤◌, ◌/◌, count_by, length};
ghost use Rattle.sdr_base.specs.declared.line.TheConstants.{WORD};
ghost use Rattle.sdr_audit.specs.Census.{census_of};
ghost use Rattle.audit_blocks.specs.Spots.{is_free_spot, is_used_spot};

use audit_blocks::{Edges, Spot};
use sdr_base::WORD;

/// How many bytes a heap region has, where its unassigned space begins and ends, and how many blocks it has.
#[derive(Clone, Copy)]
pub struct Census {
    /// All bytes of the region.
    pub size: u64,
    /// The place, in bytes, at which the small blocks end.
    pub low: u64,
    /// The place, in bytes, at which the large blocks begin.
    pub high: u64,
    /// The blocks in use, small and large.
    pub used: u64,
    /// The free small blocks.
    pub small: u64,
    /// The free large blocks.
    pub large: u64,
}

// How many blocks in use begin with these words.
fn count_used(spots: &[Spot]) -> u64
    ensures { result ≡ count_by is_used_spot spots.now }
{
    spots
        .iter()
        .filter(|spot| matches!(spot, Spot::Used))
        .count() as u64
}

// How many free blocks begin with these words.
fn count_free(spots: &[Spot]) -> u64
    ensures { result ≡ count_by is_free_spot spots.now }
{
    spots
        .iter()
        .filter(|spot| matches!(spot, Spot::Free))
        .count() as u64
}

impl Census {
    /// That of the blocks which begin with the words of a region, where they stand between these edges.
    pub fn of(edges: &Edges, spots: &[Spot]) -> Census
        requires inside { edges.now.high / WORD ≤ length spots.now }
        ensures { result ≡ census_of edges.now spots.now }
    {
        let (below, above) = spots.split_at((edges.high / WORD) as usize);
        Census {
            size: edges.end,
            low: edges.low,
            high: edges.high,
            used: count_used(spots),
            small: count_free(below),
            large: count_free(above),
        }
    }
}
