// What a call that destroys an object does to a world.
ghost use Rattle.mem_calls.specs.Answers.{CallsMemory};
ghost use Rattle.mem_world.specs.Calling.{MayCall};

use crate::gone::gone_things;
use crate::object_calls::object;
use mem_calls::raw_calls::misnamed;
use mem_world::DraftWorld;
use mem_world::dropping::{drop_all, touch_all};
use sdr_base::{Addr, NoMemory};
use sdr_model::{Call, Reply};
use std::alloc::Global;

/// Destroys an object, with each source that goes with its last extent. It takes the logarithm of the world for each extent.
pub fn destroy(alloc: Global, world: &mut DraftWorld, addr: Addr) -> Result<Reply, NoMemory>
    requires may { MayCall world.old.now }
    ensures { CallsMemory (Call.Destroy addr) world.old world.new result }
{
    let Some(object) = object(world, addr) else {
        return Ok(misnamed(world, addr));
    };
    let account = object.account;
    let mut going = gone_things(alloc, world, object.extents.as_slice())?;
    going.push(addr)?;
    touch_all(world, going.as_slice())?;
    world.save_accounts()?;
    drop_all(world, going.as_slice());
    world.serve(account);
    world.hide();
    Ok(Reply::Done)
}
