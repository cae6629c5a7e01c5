// Extents, cut to a part of their bytes.
ghost use Rattle.std.specs.Prelude.{◌≡◌, IfOk};
ghost use Rattle.std.specs.List.{All};
ghost use Rattle.mem_parts.specs.Bounds.{AreFewBytes, EndsInTime};
ghost use Rattle.sdr_model.specs.Cuts.{cut, cut_all, left_out};
ghost use Rattle.sdr_model.specs.Zco.{extents_length, whole_of};

use sdr_base::{Items, NoMemory};
use sdr_model::{Extent, Part};
use std::alloc::Global;

/// An extent, cut to its bytes from one place on and before another.
pub fn cut(extent: &Extent, from: u64, to: u64) -> Extent
    requires ends { EndsInTime extent.now }
    ensures { result ≡ cut from to extent.now }
{
    let first = from.min(extent.length);
    Extent {
        block: extent.block,
        source: extent.source,
        offset: extent.offset + first,
        length: to.min(extent.length).saturating_sub(first),
    }
}

/// The bytes of these extents together.
pub fn extents_length(extents: &[Extent]) -> u64
    requires few { AreFewBytes extents.now }
    ensures { result ≡ extents_length extents.now }
{
    let mut bytes = 0;
    for extent in extents {
        bytes += extent.length;
    }
    bytes
}

/// The part that is the whole of these extents.
pub fn whole_of(extents: &[Extent]) -> Part
    requires few { AreFewBytes extents.now }
    ensures { result ≡ whole_of extents.now }
{
    Part {
        offset: 0,
        length: extents_length(extents),
    }
}

/// These extents, cut to their bytes from one place on and before another. Those of which no byte is left
/// are left out. It is linear in the extents.
pub fn cut_all(
    alloc: Global,
    from: u64,
    to: u64,
    extents: &[Extent],
) -> Result<Items<Extent>, NoMemory>
    requires ends { All EndsInTime extents.now }
    ensures { IfOk result (λ cuts. cuts ≡ cut_all from to extents.now) }
{
    let mut from = from;
    let mut to = to;
    let mut cuts = Items::new(alloc);
    for extent in extents {
        let cut = cut(extent, from, to);
        if cut.length > 0 {
            cuts.push(cut)?;
        }
        from = from.saturating_sub(extent.length);
        to = to.saturating_sub(extent.length);
    }
    Ok(cuts)
}

/// The extents of which no byte lies from one place on and before another. It is linear in the extents.
pub fn left_out(
    alloc: Global,
    from: u64,
    to: u64,
    extents: &[Extent],
) -> Result<Items<Extent>, NoMemory>
    requires ends { All EndsInTime extents.now }
    ensures { IfOk result (λ out. out ≡ left_out from to extents.now) }
{
    let mut from = from;
    let mut to = to;
    let mut out = Items::new(alloc);
    for extent in extents {
        let cut = cut(extent, from, to);
        if cut.length == 0 {
            out.push(*extent)?;
        }
        from = from.saturating_sub(extent.length);
        to = to.saturating_sub(extent.length);
    }
    Ok(out)
}
