// What calls that compare keys do to a world.
ghost use Rattle.std.specs.Ordering.{is_eq, is_gt};
ghost use Rattle.std.specs.Prelude.{◌≡◌, ◌<◌, ◌≤◌, ◌+◌, ◌^◌, cond, length, position, not};
ghost use Rattle.mem_calls.specs.Answers.{CallsMemory};
ghost use Rattle.sdr_model.specs.ListSteps.{compare_keys, ordered_place, sort_key};

use crate::insert_calls::insert_at;
use crate::list_calls::{element_addr, list};
use crate::raw_calls::misnamed;
use mem_world::DraftWorld;
use sdr_base::limits::LONGEST_SORT_KEY;
use sdr_base::{Addr, NoMemory};
use sdr_model::{Call, Keys, Reply, SdrList};
use std::cmp::Ordering;

// The key of data in a list's comparison.
#[tactic(auto, using(std::proofs::lemmas::List::take_min))]
fn sort_key(world: &DraftWorld, datum: u64) -> &[u8]
    ensures { result.now ≡ sort_key world.now.now datum }
{
    match world.raw(datum) {
        Some(bytes) => &bytes.as_slice()[..LONGEST_SORT_KEY.min(bytes.len())],
        None => &[],
    }
}

// How two keys compare.
fn compare_keys(by: Keys, a: &[u8], b: &[u8]) -> Ordering
    ensures { result ≡ compare_keys by a.now b.now }
{
    match by {
        Keys::ByBytes => a.cmp(b),
        Keys::ByLength => a.len().cmp(&b.len()),
    }
}

// How the keys of two data compare.
fn compare_data(world: &DraftWorld, by: Keys, a: u64, b: u64) -> Ordering
    ensures { result ≡ compare_keys by (sort_key world.now.now a) (sort_key world.now.now b) }
{
    compare_keys(by, sort_key(world, a), sort_key(world, b))
}

// The place so far, or behind this one, where the key there is less or equal.
fn place_behind(so_far: usize, at: usize, order: Ordering) -> usize
    requires { at < 2 ^ 63 }
    ensures { result ≡ cond (not (is_gt order)) (at + 1) so_far }
{
    match order {
        Ordering::Greater => so_far,
        _ => at + 1,
    }
}

// Where a new element goes in order: behind the last one whose key is less or equal.
fn ordered_place(world: &DraftWorld, by: Keys, datum: u64, row: &SdrList) -> usize
    ensures place { result ≡ ordered_place world.now.now (compare_keys by) datum row.now }
    ensures within { result ≤ length row.now.elements }
{
    let mut place = 0;
    for (at, element) in row.elements.as_slice().iter().enumerate() {
        let order = compare_data(world, by, element.datum, datum);
        place = place_behind(place, at, order);
    }
    place
}

pub fn insert_ordered(
    world: &mut DraftWorld,
    addr: Addr,
    datum: u64,
    by: Keys,
) -> Result<Reply, NoMemory>
    requires taken { world.old.now.taken < 2 ^ 60 }
    ensures { CallsMemory (Call.InsertOrdered addr datum by) world.old world.new result }
{
    let Some(list) = list(world, addr) else {
        return Ok(misnamed(world, addr));
    };
    let place = ordered_place(world, by, datum, list);
    insert_at(world, addr, place, datum)
}

// The place of the first element whose key is equal.
fn equal_place(world: &DraftWorld, by: Keys, datum: u64, row: &SdrList) -> Option<usize>
    ensures { result ≡ position (λ e. is_eq (compare_keys by (sort_key world.now.now e.datum)
        (sort_key world.now.now datum))) row.now.elements }
{
    let elements = row.elements.as_slice();
    elements.iter().position(|e| compare_data(world, by, e.datum, datum) == Ordering::Equal)
}

pub fn search(world: &mut DraftWorld, addr: Addr, datum: u64, by: Keys) -> Result<Reply, NoMemory>
    ensures { CallsMemory (Call.Search addr datum by) world.old world.new result }
{
    let Some(list) = list(world, addr) else {
        return Ok(misnamed(world, addr));
    };
    let addr = match equal_place(world, by, datum, list) {
        Some(place) => element_addr(&list.elements, place),
        None => 0,
    };
    world.hide();
    Ok(Reply::At { addr })
}
