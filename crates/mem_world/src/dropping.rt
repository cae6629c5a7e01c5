// What goes from a world in the making, without memory.
ghost use Rattle.std.specs.List.{All};
ghost use Rattle.std.specs.Prelude.{◌≡◌, Contains, OnOk};
ghost use Rattle.sdr_model.specs.Gone.{without_things};
ghost use Rattle.mem_world.specs.Keeps.{SameBegin, StayTouched};

use crate::DraftWorld;
use sdr_base::{Addr, NoMemory};

/// Takes note that what is at these addresses may go. After it that needs no memory. Want of memory
/// leaves the world as before.
pub fn touch_all(world: &mut DraftWorld, addrs: &[Addr]) -> Result<(), NoMemory>
    ensures now { world.new.now ≡ world.old.now }
    ensures touched { OnOk result (All (Contains world.new.touched) addrs.now) }
    ensures owners { world.new.owners ≡ world.old.owners }
    ensures others { StayTouched world.old world.new }
    ensures keeps { SameBegin world.old world.new }
{
    for addr in addrs {
        world.touch(*addr)?;
    }
    Ok(())
}

/// Lets what is at these addresses go, one after another, which were touched. It takes the logarithm of the
/// world for each.
pub fn drop_all(world: &mut DraftWorld, addrs: &[Addr])
    requires touched { All (Contains world.old.touched) addrs.now }
    ensures dropped { world.new.now ≡ without_things world.old.now addrs.now }
    ensures keeps { SameBegin world.old world.new }
{
    for addr in addrs {
        world.drop(*addr);
    }
}
