// The world of a heap region.
ghost use Rattle.std.specs.Prelude.{◌≡◌, IfErr, IfOk, OnOk};
ghost use Rattle.sdr_audit.specs.Census.{IsCensus};
ghost use Rattle.sdr_audit.specs.Checked.{IsNoWorld, IsRight, OnlyReads, TellsFirst};
ghost use Rattle.audit_world.specs.Standing.{StandsAsTold};
ghost use Rattle.audit_world.specs.Told.{world_of};

use crate::census::Census;
use crate::checking::check_copied;
use crate::error::AuditError;
use audit_world::world_in;
use sdr_base::Cells;
use sdr_model::World;
use std::alloc::Global;

/// What a heap region keeps: its blocks, counted, and the world that it stands for.
#[derive(Drop)]
pub struct Survey {
    pub census: Census,
    pub world: World,
}

/// The world that a heap region stands for, and a census of its blocks. The region is checked first, as `check` does, and read once.
///
/// It reads alone. Memory is taken as `check` takes it, and then what the world takes. Making the world is linear in the region, but
/// for things, which are put into a tree.
pub fn read_survey<C: Cells>(alloc: Global, c: &mut C) -> Result<Survey, AuditError>
    ensures right { OnOk result (IsRight (C.bytes c.old)) }
    ensures census { IfOk result (λ s. IsCensus (C.bytes c.old) s.census) }
    ensures world { IfOk result (λ s. s.world ≡ world_of (C.bytes c.old)) }
    ensures stands { OnOk result (StandsAsTold (C.bytes c.old)) }
    ensures damaged { IfErr result (TellsFirst (C.bytes c.old)) }
    ensures none { IfErr result (IsNoWorld (C.bytes c.old)) }
    ensures reads { OnlyReads C.bytes C.transaction C.quiet c.old c.new result }
{
    let mut heap = vec![in alloc; 0u8; c.size() as usize]?;
    let census = check_copied(alloc, c, &mut heap)?;
    let world = world_in(alloc, &heap)?;
    Ok(Survey { census, world })
}

/// The world that a heap region stands for, as `read_survey` gives it.
pub fn read_world<C: Cells>(alloc: Global, c: &mut C) -> Result<World, AuditError>
    ensures world { IfOk result (λ w. w ≡ world_of (C.bytes c.old)) }
    ensures stands { OnOk result (StandsAsTold (C.bytes c.old)) }
    ensures damaged { IfErr result (TellsFirst (C.bytes c.old)) }
    ensures none { IfErr result (IsNoWorld (C.bytes c.old)) }
    ensures reads { OnlyReads C.bytes C.transaction C.quiet c.old c.new result }
{
    let Survey { world, .. } = read_survey(alloc, c)?;
    Ok(world)
}
