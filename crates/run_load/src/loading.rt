// A load that runs on the heap of a disk.
ghost use Rattle.std.specs.Prelude.{◌≡◌, ◌≤◌, ◌↔◌, [], IfErr, IfOk, false, filter, length, nat_le};
ghost use Rattle.run_load.specs.Listed.{load_name};
ghost use Rattle.run_load.specs.Loading.{LoadsOn, TellsEnd, load_daemons};
ghost use Rattle.sdr_base.specs.Causes.{Rose};
ghost use Rattle.sdr_disk.specs.Moments.{Reads};
ghost use Rattle.sdr_image.specs.Opened.{Holds};
ghost use Rattle.sdr_load.specs.Schedule.{script_for};
ghost use Rattle.sdr_run.specs.Handed.{StaysAsHanded, handed_as};
ghost use Rattle.sdr_run.specs.Quiet.{StaysQuiet};
ghost use Rattle.sdr_run.specs.Replaying.{IsNotRun, IsSettled};
ghost use Rattle.sdr_station.specs.Grounded.{StandsSome};
ghost use Rattle.sdr_words.specs.Daemons.{all_daemons};

use crate::{Summary, read_list};
use sdr_base::{Bytes, IdleSink, Media, NoMemory};
use sdr_disk::Disk;
use sdr_load::{LoadSteps, MOST_ROUNDS, daemons_of_loads};
use sdr_machine::Fault;
use sdr_model::{Call, Journal};
use sdr_run::{HandedGround, HandedIn, Ran, open_handed, play_recorded, shut_unrun};
use sdr_station::Shut;
use std::alloc::Global;
use std::marker::Brand;

/// How a load ended.
#[derive(Clone, Copy, Debug, PartialEq, Eq)]
pub enum LoadEnd {
    /// All of its steps were made, and this is what stands behind them.
    Summed(Summary),
    /// Memory was wanting before the last step was made.
    Starved,
    /// The disk failed in an entry.
    Failed,
    /// All of its steps were made, and the disk failed in no entry, but as the list was read.
    Unread,
}

/// What a load has come to.
#[derive(Drop)]
pub struct Loaded<D, M> {
    /// The entries by rising lock number.
    pub journal: Journal,
    pub disk: D,
    pub media: M,
    pub end: LoadEnd,
}

// Whether a daemon is one of the first so many.
fn is_among(daemon: u8, count: u8) -> bool
    ensures { result ≡ nat_le daemon count }
{
    daemon <= count
}

// The first so many daemons.
fn first_daemons(alloc: Global, count: u8) -> Result<Vec<u8>, NoMemory>
    ensures first { IfOk result (λ daemons.
        daemons.items ≡ filter (λ daemon. nat_le daemon count) all_daemons) }
    ensures few { IfOk result (λ daemons. length daemons.items ≤ 16) }
{
    (1..17u8)
        .filter(|daemon| is_among(*daemon, count))
        .collect(alloc)
}

// The daemons of a load.
fn daemons_in(alloc: Global, rounds: u64) -> Result<Vec<u8>, NoMemory>
    requires few { rounds ≤ MOST_ROUNDS }
    ensures daemons { IfOk result (λ daemons. daemons.items ≡ load_daemons rounds) }
    ensures few { IfOk result (λ daemons. length daemons.items ≤ 16) }
{
    daemons_of_loads();
    let count = (rounds + 1).min(4) as u8;
    first_daemons(alloc, count)
}

// What a load takes before it begins: its steps, its daemons, and the call that finds its list.
#[derive(Drop)]
struct Outset {
    steps: LoadSteps,
    daemons: Vec<u8>,
    question: Call,
}

impl Outset {
    fn of(alloc: Global, rounds: u64) -> Result<Outset, NoMemory>
        requires few { rounds ≤ MOST_ROUNDS }
        ensures steps { IfOk result (λ o. o.steps ≡ script_for rounds) }
        ensures daemons { IfOk result (λ o. o.daemons.items ≡ load_daemons rounds) }
        ensures few { IfOk result (λ o. length o.daemons.items ≤ 16) }
        ensures finds { IfOk result (λ o. o.question ≡ Call.Find load_name) }
    {
        let steps = LoadSteps::new(alloc, rounds)?;
        let daemons = daemons_in(alloc, rounds)?;
        let name = Bytes::copied(alloc, b"load")?;
        Ok(Outset {
            steps,
            daemons,
            question: Call::Find(name),
        })
    }
}

// How a load ended that was run.
fn end_of<D: Disk, M: Media, J: HandedIn>(
    ran: &mut Ran<HandedGround<D, M, J>>,
    question: &Call,
) -> LoadEnd
    requires finds { question.now ≡ Call.Find load_name }
    requires stands { ran.old.failed ≡ false → StandsSome ran.old.base }
    requires untouched { ran.old.failed ≡ false → ran.old.base.heap.cells.touched ≡ [] }
    ensures end { TellsEnd ran.old result }
    ensures cause { result ≡ LoadEnd.Unread → Rose (D.faults ran.old.base.heap.cells.disk)
        (D.faults ran.new.base.heap.cells.disk) }
    ensures still { StaysQuiet D.Disk ran.old.base ran.new.base }
    ensures holds { Holds D.bytes ran.new.base.heap.cells → Holds D.bytes ran.old.base.heap.cells }
    ensures others { ran.new ≡ record ran.old { base = ran.new.base } }
    ensures seen { D.moment ran.new.base.heap.cells.disk ≡ ran.new.base.moment
        → D.moment ran.new.base.heap.cells.disk ≡ ran.old.base.moment }
{
    if ran.failed {
        return LoadEnd::Failed;
    }
    if ran.starved {
        return LoadEnd::Starved;
    }
    match read_list(&mut ran.base, question) {
        Ok(list) => LoadEnd::Summed(Summary::of(ran.journal.as_slice(), list)),
        Err(Fault) => LoadEnd::Unread,
    }
}

// What a load has come to that was run, by how it ended.
fn sum_up<D: Disk, M: Media, J: HandedIn>(
    mut ran: Ran<HandedGround<D, M, J>>,
    question: &Call,
) -> Loaded<D, M>
    requires finds { question.now ≡ Call.Find load_name }
    requires stands { ran.failed ≡ false → StandsSome ran.base }
    requires untouched { ran.failed ≡ false → ran.base.heap.cells.touched ≡ [] }
    ensures journal { result.journal ≡ ran.journal }
    ensures end { TellsEnd ran result.end }
    ensures cause { result.end ≡ LoadEnd.Unread → Rose (D.faults ran.base.heap.cells.disk)
        (D.faults result.disk) }
    ensures reads { Reads D.bytes D.tells_crashes D.moment D.may_hold_after
        ran.base.heap.cells.disk result.disk }
    ensures later { D.faults ran.base.heap.cells.disk ≤ D.faults result.disk }
    ensures media { result.media ≡ ran.base.media }
    ensures tells { D.tells_crashes result.disk ≡ J.was.tells }
    ensures stays { StaysAsHanded J.was.bytes (D.bytes result.disk) ran.base.heap.cells.frame }
    ensures holds { Holds D.bytes ran.base.heap.cells }
    ensures seen { D.moment result.disk ≡ ran.base.moment }
{
    let end = end_of(&mut ran, question);
    let (disk, media) = ran.base.into_parts();
    Loaded {
        journal: ran.journal,
        disk,
        media,
        end,
    }
}

// Runs a load on the heap of a disk.
fn load_on<D: Disk, M: Media, J: HandedIn>(
    alloc: Global,
    rounds: u64,
    disk: D,
    media: M,
) -> Result<Loaded<D, M>, Shut<D, M>>
    requires few { rounds ≤ MOST_ROUNDS }
    requires handed { J.was ≡ handed_as D.Disk disk }
    requires settled { J.condition ↔ IsSettled D.Disk disk }
    ensures ran { IfOk result (LoadsOn D.Disk M.Media rounds disk media) }
    ensures shut { IfErr result (λ shut. IsNotRun D.Disk disk shut.disk shut.why) }
    ensures unread { IfErr result (λ shut. shut.media ≡ media) }
{
    let base = match open_handed::<D, M, J>(alloc, disk, media) {
        Ok(base) => base,
        Err(shut) => return Err(shut),
    };
    let Ok(outset) = Outset::of(alloc, rounds) else {
        return Err(shut_unrun(base));
    };
    let Outset {
        mut steps,
        daemons,
        question,
    } = outset;
    match play_recorded::<HandedGround<D, M, J>, Brand, LoadSteps, IdleSink>(
        alloc,
        &daemons,
        &mut steps,
        base,
        &mut IdleSink::new(),
    ) {
        Ok(ran) => Ok(sum_up(ran, &question)),
        Err(base) => Err(shut_unrun(base)),
    }
}

/// Runs a load of so many rounds behind round 0 on the heap of a disk, which has these media, and sums up what stands there behind it. Where
/// the heap isn't opened, or memory is wanting before the first step, the cause comes with the disk and the media.
pub fn load<D: Disk, M: Media>(
    alloc: Global,
    rounds: u64,
    disk: D,
    media: M,
) -> Result<Loaded<D, M>, Shut<D, M>>
    requires few { rounds ≤ MOST_ROUNDS }
    ensures ran { IfOk result (LoadsOn D.Disk M.Media rounds disk media) }
    ensures shut { IfErr result (λ shut. IsNotRun D.Disk disk shut.disk shut.why) }
    ensures unread { IfErr result (λ shut. shut.media ≡ media) }
{
    load_on::<D, M, Brand>(alloc, rounds, disk, media)
}
