// What calls that take parts of objects off do to a world.
ghost use Rattle.std.specs.Prelude.{◌≡◌, [], Contains, true};
ghost use Rattle.mem_calls.specs.Answers.{CallsMemory};
ghost use Rattle.mem_world.specs.Calling.{MayCall};
ghost use Rattle.mem_world.specs.Keeps.{SameBegin};
ghost use Rattle.sdr_model.specs.ObjectSteps.{with_object};
ghost use Rattle.sdr_model.specs.Queue.{with_served};
ghost use Rattle.sdr_model.specs.declared.things.Thing.{Thing as GhostThing};
ghost use Rattle.mem_store.specs.Owners.{MayPut};

use crate::object_calls::object;
use mem_calls::raw_calls::misnamed;
use mem_world::DraftWorld;
use sdr_base::{Addr, NoMemory, Refusal};
use sdr_model::{Call, Reply, Thing, ZcoObject};

// Puts an object at an address that was touched, and serves the queue of its account.
fn put_and_serve(world: &mut DraftWorld, addr: Addr, object: ZcoObject)
    requires touched { Contains world.old.touched addr }
    requires saved { world.old.saved ≡ true }
    requires may_put { MayPut world.old addr (GhostThing.Object object) }
    ensures put { world.new.now
        ≡ record (with_served (with_object world.old.now addr object) object.account) { shown = [] } }
    ensures keeps { SameBegin world.old world.new }
{
    let acct = object.account;
    world.put(addr, Thing::Object(object));
    world.serve(acct);
    world.hide();
}

/// Takes the first header of an object off, which moves the others, and serves the queue of its account. That goes
/// over all things; all else takes about the logarithm of the world.
#[tactic(auto, using(crate::proofs::PartCallLemmas::first_discarded))]
pub fn discard_first_header(world: &mut DraftWorld, addr: Addr) -> Result<Reply, NoMemory>
    requires may { MayCall world.old.now }
    ensures { CallsMemory (Call.DiscardFirstHeader addr) world.old world.new result }
{
    let Some(object) = object(world, addr) else {
        return Ok(misnamed(world, addr));
    };
    if object.headers.len() == 0 {
        return Ok(Reply::Refused(Refusal::NoCapsule));
    }
    world.save_accounts()?;
    let Thing::Object(mut object) = world.take(addr)? else {
        unreachable!()
    };
    object.headers.remove(0);
    put_and_serve(world, addr, object);
    Ok(Reply::Done)
}

/// Takes the last trailer of an object off, and serves the queue of its account. It is linear in the object and in the
/// queue.
pub fn discard_last_trailer(world: &mut DraftWorld, addr: Addr) -> Result<Reply, NoMemory>
    requires may { MayCall world.old.now }
    ensures { CallsMemory (Call.DiscardLastTrailer addr) world.old world.new result }
{
    let Some(object) = object(world, addr) else {
        return Ok(misnamed(world, addr));
    };
    let trailers = object.trailers.len();
    if trailers == 0 {
        return Ok(Reply::Refused(Refusal::NoCapsule));
    }
    world.save_accounts()?;
    let Thing::Object(mut object) = world.take(addr)? else {
        unreachable!()
    };
    object.trailers.truncate(trailers - 1);
    put_and_serve(world, addr, object);
    Ok(Reply::Done)
}
