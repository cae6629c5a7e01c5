// The raw objects and sources that the headers and trailers of an object become.
ghost use Rattle.std.specs.Prelude.{◌≡◌, ◌≤◌, ◌<◌, ◌+◌, ◌*◌, ◌^◌, ◌∷◌, [], ℕ, Contains, length};
ghost use Rattle.sdr_model.specs.BondSteps.{with_bonded};
ghost use Rattle.sdr_model.specs.Dry.{next_addr};
ghost use Rattle.mem_world.specs.Keeps.{SameBegin, StayTouched};

use crate::DraftWorld;
use sdr_base::Addr;
use sdr_model::{Capsule, Subject, Thing, ZcoSource};

// Puts a raw object of this text at an address, and its source behind it. Both addresses were touched.
fn put_text(world: &mut DraftWorld, addr: Addr, capsule: Capsule)
    requires below { addr + 8 < next_addr world.old.now.taken }
    requires taken { world.old.now.taken < 2 ^ 60 + 2 ^ 30 }
    requires raw { Contains world.old.touched addr }
    requires source { Contains world.old.touched (addr + 8) }
    ensures put { world.new.now ≡ with_bonded world.old.now (λ k. addr + 8 * k) 0 (capsule ∷ []) }
    ensures owners { world.new.owners ≡ world.old.owners }
    ensures touched { StayTouched world.old world.new }
    ensures keeps { SameBegin world.old world.new }
{
    let source = ZcoSource {
        subject: Subject::Heap(addr),
        length: capsule.text.len() as u64,
        flagged: false,
    };
    world.put(addr, Thing::Raw(capsule.text));
    world.put(addr + 8, Thing::Source(source));
}

/// Puts raw objects of these texts at addresses from one on, with a source behind each and a block for an extent behind
/// that. The addresses were touched, and the blocks counted.
pub fn put_texts(world: &mut DraftWorld, first: Addr, capsules: Vec<Capsule>)
    requires below { first + 24 * length capsules.items ≤ next_addr world.old.now.taken }
    requires taken { world.old.now.taken < 2 ^ 60 + 2 ^ 30 }
    requires touched { (k : ℕ) → k < 3 * length capsules.items →
        Contains world.old.touched (first + 8 * k) }
    ensures put { world.new.now ≡ with_bonded world.old.now (λ k. first + 8 * k) 0 capsules.items }
    ensures owners { world.new.owners ≡ world.old.owners }
    ensures others { StayTouched world.old world.new }
    ensures keeps { SameBegin world.old world.new }
{
    let mut addr = first;
    for capsule in capsules {
        put_text(world, addr, capsule);
        addr += 24;
    }
}
