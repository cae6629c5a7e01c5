// What is added to an object.
ghost use Rattle.std.specs.Prelude.{◌≡◌, OnErr, OnOk};
ghost use Rattle.mem_parts.specs.Bounds.{IsBounded};
ghost use Rattle.mem_parts.specs.Components.{KeepsLimits, with_component};
ghost use Rattle.mem_parts.specs.Sides.{component_on};

use crate::object::push_extent;
use sdr_base::NoMemory;
use sdr_model::{Capsule, Extent, ZcoObject};

/// What is added to an object.
#[derive(Drop)]
pub enum Component {
    /// Behind the extents.
    Extent(Extent),
    /// In front of the headers.
    Header(Capsule),
    /// Behind the trailers.
    Trailer(Capsule),
}

/// Where an object gets a header or trailer.
#[derive(Clone, Copy)]
pub enum Side {
    /// In front: a header, which is first.
    Front,
    /// Behind: a trailer, which is last.
    Back,
}

impl Side {
    /// A header or trailer for this side.
    pub fn component(self, capsule: Capsule) -> Component
        ensures { result ≡ component_on self capsule }
    {
        match self {
            Side::Front => Component::Header(capsule),
            Side::Back => Component::Trailer(capsule),
        }
    }
}

/// Adds a component to an object. Want of memory leaves the object as before. It is linear in the extents or
/// headers.
pub fn add(object: &mut ZcoObject, component: Component) -> Result<(), NoMemory>
    requires bounded { IsBounded object.old }
    requires limits { KeepsLimits component }
    ensures ok { OnOk result (object.new ≡ with_component object.old component) }
    ensures same { OnErr result (object.new ≡ object.old) }
{
    match component {
        Component::Extent(extent) => push_extent(object, extent)?,
        Component::Header(header) => object.headers.insert(0, header)?,
        Component::Trailer(trailer) => object.trailers.push(trailer)?,
    }
    Ok(())
}
