// What is charged for blocks that are taken.
ghost use Rattle.std.specs.FinMap as map;
ghost use Rattle.std.specs.Prelude.{◌≡◌, ◌<◌, ◌+◌, ◌^◌, ℕ, Some, IfOk, IfErr, OnErr, OnOk};
ghost use Rattle.sdr_model.specs.Charging.{with_covered};
ghost use Rattle.sdr_model.specs.Dry.{addr_after, next_addr, with_blocks};
ghost use Rattle.mem_world.specs.Allowed.{MayCharge, RefusesCharge};
ghost use Rattle.mem_world.specs.Calling.{IsBound};
ghost use Rattle.mem_world.specs.Keeps.{SameBegin, StayTouched};

use crate::DraftWorld;
use crate::charging::charge_account;
use sdr_base::{Acct, Addr, Amounts, NoMemory, Refusal};
use sdr_model::Pending;

/// Charges an account by a ticket, 0 for none, and takes the next so many blocks, inside the thing at an
/// address. Where it is refused or finds no memory, the world is as before.
pub fn charge_blocks(
    world: &mut DraftWorld,
    acct: Acct,
    number: u64,
    amounts: &Amounts,
    owner: Addr,
    count: u64,
) -> Result<Result<Option<Pending>, Refusal>, NoMemory>
    requires taken { world.old.now.taken + count < 2 ^ 60 + 2 ^ 30 }
    requires bound { IsBound world.old.now }
    ensures allowed { IfOk result (λ r. IfOk r (MayCharge world.old.now acct number amounts.now)) }
    ensures taken { IfOk result (λ r. IfOk r (λ p.
        world.new.now ≡ with_blocks (with_covered world.old.now p amounts.now) count)) }
    ensures owned { IfOk result (λ r. OnOk r ((k : ℕ) → k < count
        → map.get world.new.owners (addr_after world.old.now.taken k) ≡ Some owner)) }
    ensures others { (other of : ℕ) → other < next_addr world.old.now.taken
        → map.get world.old.owners other ≡ Some of → map.get world.new.owners other ≡ Some of }
    ensures touched { StayTouched world.old world.new }
    ensures keeps { SameBegin world.old world.new }
    ensures refused { IfOk result (λ r. IfErr r (RefusesCharge world.old.now acct number
        amounts.now)) }
    ensures same { IfOk result (λ r. OnErr r (world.new.now ≡ world.old.now)) }
    ensures err { OnErr result (world.new.now ≡ world.old.now) }
{
    let granted = match charge_account(world, acct, number, amounts)? {
        Ok(granted) => granted,
        Err(refusal) => return Ok(Err(refusal)),
    };
    match world.reserve_blocks(owner, count) {
        Ok(()) => {
            world.count_blocks(count);
            Ok(Ok(granted))
        }
        Err(error) => {
            world.take_back(granted);
            Err(error)
        }
    }
}
