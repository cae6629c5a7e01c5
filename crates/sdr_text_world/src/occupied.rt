// What is occupied in the accounts of a world.
ghost use Rattle.std.specs.FinMap as map;
ghost use Rattle.std.specs.Prelude.{◌≡◌, ◌<◌, ◌+◌, ◌*◌, ◌/◌, ◌^◌, ℕ, length, sum_by};
ghost use Rattle.sdr_base.specs.declared.kind.Space.{Space};
ghost use Rattle.sdr_model.specs.Amounts.{amount, in_space};
ghost use Rattle.sdr_model.specs.Charges.{capsule_charge, extent_bytes, left_in, object_bytes, object_charge, occupancies, occupancy, source_charge, thing_charge};
ghost use Rattle.sdr_model.specs.World.{World};
ghost use Rattle.sdr_text_world.specs.Tied.{TellsTies};
ghost use Rattle.sdr_text_world.specs.Occupied.{charge_alone};

use crate::tied::Tied;
use sdr_base::{Acct, Addr, Amounts, Space};
use sdr_model::{Capsule, Extent, Thing, Ticket, World, ZcoObject, ZcoSource};

// The amount of a space.
fn amount(amounts: &Amounts, space: Space) -> u64
    ensures { result ≡ amount amounts.now space }
{
    match space {
        Space::File => amounts.file,
        Space::Bulk => amounts.bulk,
        Space::Heap => amounts.heap,
    }
}

// So much of heap space: how much that is of a space.
fn in_heap(bytes: u64, space: Space) -> u64
    ensures { result ≡ in_space Space.Heap bytes space }
{
    if space == Space::Heap { bytes } else { 0 }
}

// What is left of a space of these tickets' grants.
fn left_in(space: Space, tickets: &[Ticket]) -> u64
    requires { left_in space tickets.now < 2 ^ 64 }
    ensures { result ≡ left_in space tickets.now }
{
    let mut bytes = 0;
    let mut rest = tickets;
    while let Some((ticket, after)) = rest.split_first() {
        bytes += amount(&ticket.left, space);
        rest = after;
    }
    bytes
}

// What the source at an address charges an account of a space, by what ties the things of its world.
fn source_charge(tied: &Tied, acct: Acct, space: Space, addr: Addr, source: &ZcoSource) -> u64
    ensures { (w : World) → TellsTies w tied.now →
        result ≡ source_charge w acct space addr source.now }
{
    if tied.uses(addr, acct) != 0 && source.subject.space() == space {
        source.length
    } else {
        0
    }
}

// What these headers or trailers charge of a space.
fn capsules_charge(space: Space, capsules: &[Capsule]) -> u64
    requires { sum_by (capsule_charge space) capsules.now < 2 ^ 64 }
    ensures { result ≡ sum_by (capsule_charge space) capsules.now }
{
    let mut bytes = 0;
    let mut rest = capsules;
    while let Some((capsule, after)) = rest.split_first() {
        let words = (15 + capsule.text.as_slice().len() as u64) / 8;
        bytes += in_heap(8 * words, space);
        rest = after;
    }
    bytes
}

// What an object charges of a space for itself and its extents.
fn own_charge(space: Space, extents: &[Extent]) -> u64
    requires { in_space Space.Heap (object_bytes + extent_bytes * length extents.now) space < 2 ^ 64 }
    ensures { result ≡ in_space Space.Heap (object_bytes + extent_bytes * length extents.now) space }
{
    if space == Space::Heap {
        72 + 32 * extents.len() as u64
    } else {
        0
    }
}

// What an object charges of a space.
fn object_charge(space: Space, z: &ZcoObject) -> u64
    requires { object_charge space z.now < 2 ^ 64 }
    ensures { result ≡ object_charge space z.now }
{
    own_charge(space, z.extents.as_slice())
        + capsules_charge(space, z.headers.as_slice())
        + capsules_charge(space, z.trailers.as_slice())
}

// What the thing at an address charges an account of a space, by what ties the things of its world.
fn thing_charge(tied: &Tied, acct: Acct, space: Space, addr: Addr, thing: &Thing) -> u64
    requires { charge_alone acct space thing.now < 2 ^ 64 }
    ensures { (w : World) → TellsTies w tied.now → result ≡ thing_charge w acct space addr thing.now }
{
    match thing {
        Thing::Source(source) => source_charge(tied, acct, space, addr, source),
        Thing::Object(z) if z.account == acct => object_charge(space, z),
        _ => 0,
    }
}

// What is occupied of a space in an account of a world.
fn occupancy(world: &World, tied: &Tied, acct: Acct, space: Space) -> u64
    requires tied { TellsTies world.now tied.now }
    requires small { occupancy world.now acct space < 2 ^ 64 }
    ensures { result ≡ occupancy world.now acct space }
{
    let mut bytes = left_in(space, world.accounts().account(acct).tickets.as_slice());
    let mut rest = world.things();
    while let Some((addr, thing)) = rest.next() {
        bytes += thing_charge(tied, acct, space, *addr, thing);
    }
    bytes
}

/// What is occupied in an account of a world, below 2^64 bytes of each space. It goes over the
/// things once for each space, with a look-up for each source, and takes no memory.
pub fn occupancies(world: &World, tied: &Tied, acct: Acct) -> Amounts
    requires tied { TellsTies world.now tied.now }
    requires small { (space : Space) → occupancy world.now acct space < 2 ^ 64 }
    ensures { result ≡ occupancies world.now acct }
{
    Amounts {
        file: occupancy(world, tied, acct, Space::File),
        bulk: occupancy(world, tied, acct, Space::Bulk),
        heap: occupancy(world, tied, acct, Space::Heap),
    }
}
