// How many extents name sources, and whether any does.
ghost use Rattle.std.specs.Prelude.{◌≡◌, ◌≤◌, length};
ghost use Rattle.mem_parts.specs.Marks.{is_named};
ghost use Rattle.sdr_model.specs.Zco.{naming};

use sdr_base::Addr;
use sdr_model::Extent;

/// How many of these extents name a source.
pub fn naming(source: Addr, extents: &[Extent]) -> u64
    ensures value { result ≡ naming source extents.now }
    ensures small { result ≤ length extents.now }
{
    let mut count = 0;
    for extent in extents {
        count += u64::from(extent.source == source);
    }
    count
}

/// Whether any of these extents names a source.
pub fn is_named(source: Addr, extents: &[Extent]) -> bool
    ensures { result ≡ is_named source extents.now }
{
    for extent in extents {
        if extent.source == source {
            return true;
        }
    }
    false
}
