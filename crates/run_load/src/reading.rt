// The list that a load leaves, read element by element.
ghost use Rattle.std.specs.Prelude.{◌≡◌, ◌≤◌, ◌^◌, [], IfOk, OnErr, OnOk};
ghost use Rattle.run_load.specs.Asking.{AsksOnly, FailsAsked, IsAskable};
ghost use Rattle.run_load.specs.Listed.{bytes_named, elements_at, load_name};
ghost use Rattle.run_load.specs.Reading.{HasList};
ghost use Rattle.run_load.specs.Summing.{load_list};
ghost use Rattle.sdr_base.specs.Causes.{Rose};
ghost use Rattle.sdr_image.specs.Opened.{Holds};
ghost use Rattle.sdr_machine.specs.Standing.{GroundState};
ghost use Rattle.sdr_run.specs.Quiet.{StaysQuiet};
ghost use Rattle.sdr_station.specs.Grounded.{StandsInMemory, StandsSome};

use crate::asking::{count, datum, find, first, next, raw_bytes};
use crate::summary::ListRead;
use sdr_base::Media;
use sdr_disk::Disk;
use sdr_machine::Fault;
use sdr_model::Call;
use sdr_run::{HandedGround, HandedIn};

// How many bytes the raw objects have together that the data of the elements name of a list of so many.
fn bytes_named<D: Disk, M: Media, J: HandedIn>(
    base: &mut HandedGround<D, M, J>,
    list: u64,
    elements: u64,
) -> Result<u64, Fault>
    requires ready { IsAskable base.old }
    requires few { elements ≤ 2 ^ 32 }
    ensures bytes { IfOk result (λ bytes. (v : GroundState) → StandsInMemory base.old v →
        HasList list elements v.now.world →
        bytes ≡ bytes_named v.now.world (elements_at v.now.world list)) }
    ensures asks { OnOk result (AsksOnly D.Disk base.old base.new) }
    ensures fails { OnErr result (FailsAsked D.Disk base.old base.new) }
{
    let mut bytes = 0;
    let mut element = first(base, list)?;
    for _ in 0..elements {
        let named = datum(base, element)?;
        let more = raw_bytes(base, named)?;
        bytes += more;
        element = next(base, element)?;
    }
    Ok(bytes)
}

// The list that the name of a load finds, which has no element where it finds none.
fn list_found<D: Disk, M: Media, J: HandedIn>(
    base: &mut HandedGround<D, M, J>,
    question: &Call,
) -> Result<ListRead, Fault>
    requires finds { question.now ≡ Call.Find load_name }
    requires ready { IsAskable base.old }
    ensures list { IfOk result (λ list. (v : GroundState) → StandsInMemory base.old v →
        list ≡ load_list v.now.world) }
    ensures asks { OnOk result (AsksOnly D.Disk base.old base.new) }
    ensures fails { OnErr result (FailsAsked D.Disk base.old base.new) }
{
    let Some(list) = find(base, question)? else {
        return Ok(ListRead::NONE);
    };
    let Some(elements) = count(base, list)? else {
        return Ok(ListRead::NONE);
    };
    let bytes = bytes_named(base, list, elements)?;
    Ok(ListRead { elements, bytes })
}

/// The list that the name of a load finds in the state that a run has left: the one before the open transaction, which has touched no
/// line. The disk is only read, and no media are asked.
pub fn read_list<D: Disk, M: Media, J: HandedIn>(
    base: &mut HandedGround<D, M, J>,
    question: &Call,
) -> Result<ListRead, Fault>
    requires finds { question.now ≡ Call.Find load_name }
    requires stands { StandsSome base.old }
    requires untouched { base.old.heap.cells.touched ≡ [] }
    ensures list { IfOk result (λ list. (v : GroundState) → StandsInMemory base.old v →
        list ≡ load_list v.before.world) }
    ensures cause { OnErr result (Rose (D.faults base.old.heap.cells.disk)
        (D.faults base.new.heap.cells.disk)) }
    ensures still { StaysQuiet D.Disk base.old base.new }
    ensures holds { Holds D.bytes base.old.heap.cells }
    ensures seen { base.old.moment ≡ D.moment base.old.heap.cells.disk }
{
    base.restore();
    list_found(base, question)
}
