// Daemons that run their scripts on the heap of a disk.
ghost use Rattle.std.specs.Prelude.{◌≡◌, ◌↔◌, [], IfErr, IfOk, IfSome};
ghost use Rattle.sdr_board.specs.Known.{published};
ghost use Rattle.sdr_board.specs.Totals.{totals};
ghost use Rattle.sdr_core.specs.CoreKept.{BeginsOn};
ghost use Rattle.sdr_core.specs.Leaving.{LastsOn};
ghost use Rattle.sdr_daemon.specs.Progressing.{IsFresh};
ghost use Rattle.run_live.specs.Daemons.{RunsOn, RunsOnGround};
ghost use Rattle.sdr_run.specs.Handed.{handed_as};
ghost use Rattle.sdr_run.specs.Replaying.{IsNotRun, IsSettled};
ghost use Rattle.sdr_words.specs.Daemons.{daemons_of};

use sdr_base::{Gate, Media};
use sdr_board::{Board, Totals, Writer};
use sdr_core::{Core, Origin};
use sdr_daemon::Scripted;
use sdr_disk::Disk;
use sdr_live::{RanDaemons, run_all};
use sdr_machine::Tells;
use sdr_model::{Entry, Journal, Script};
use sdr_run::{HandedGround, HandedIn, daemons_of, open_handed, shut_unrun};
use sdr_station::Shut;
use std::alloc::Global;
use std::marker::Brand;
use std::sync::Wait;
use std::thread::Threads;

/// What daemons have come to on a ground, with the totals of their journal.
#[derive(Drop)]
pub struct RanTotals<T> {
    /// The entries of all daemons, their leaves among them.
    pub journal: Journal,
    /// The ground on which they ran.
    pub base: T,
    /// Whether the disk failed in an entry.
    pub failed: bool,
    /// Whether a daemon left for want of memory.
    pub starved: bool,
    /// The totals of the whole journal.
    pub totals: Totals,
}

// A board of totals, and its writer. `None` where there is no memory for them.
fn make_board(alloc: Global) -> Option<(Board, Writer)>
    ensures { IfSome result (λ made. made.1 ≡ published made.0 []) }
{
    let (board, writer, _) = Board::new(alloc).ok()?;
    Some((board, writer))
}

// The totals of a journal whose totals were published last. They are read by a pass that is split off the writer. Where these are of
// another number of entries, they are added up.
fn read_totals(board: &Board, writer: &mut Writer, journal: &[Entry]) -> Totals
    requires { writer.old ≡ published board.now journal.now }
    ensures { result ≡ totals journal.now }
{
    let mut pass = board.split(writer);
    let totals = board.read(&mut pass);
    if totals.entries == journal.len() as u64 {
        totals
    } else {
        Totals::of(journal)
    }
}

// Runs the daemons of a core, and reads the totals of their journal.
fn run_on_board<
    R: Threads + Wait + Sync,
    T: Tells + Send,
    J: Origin + Send + Sync,
    S: Scripted + Send + Sync,
    G: Gate + Sync,
>(
    rt: &R,
    alloc: Global,
    core: Core<T, J>,
    script: Script,
    gate: &G,
    board: &Board,
    writer: Writer,
) -> RanTotals<T>
    requires fresh { IsFresh T.HasGround J.begins core }
    requires script { script ≡ S.script }
    requires named { J.begins.daemons ≡ daemons_of S.script }
    requires writer { writer ≡ published board.now [] }
    ensures { RunsOnGround T.HasGround J.begins S.script result }
{
    let ran = run_all::<R, T, J, S, G>(rt, alloc, core, script, gate, board, writer);
    let RanDaemons {
        journal,
        base,
        failed,
        starved,
        mut writer,
    } = ran;
    let totals = read_totals(board, &mut writer, journal.as_slice());
    RanTotals {
        journal,
        base,
        failed,
        starved,
        totals,
    }
}

// Runs the daemons of a script on a ground. Where there is no memory for them, or for the board of their totals, the ground is given
// back.
fn run_on_ground<
    R: Threads + Wait + Sync,
    T: Tells + Send,
    J: Origin + Send + Sync,
    S: Scripted + Send + Sync,
    G: Gate + Sync,
>(rt: &R, alloc: Global, script: Script, base: T, gate: &G) -> Result<RanTotals<T>, T>
    requires begins { BeginsOn T.HasGround J.begins (daemons_of script) base }
    requires lasts { LastsOn T.HasGround base }
    requires script { script ≡ S.script }
    ensures ran { IfOk result (RunsOnGround T.HasGround J.begins script) }
    ensures back { IfErr result (λ back. back ≡ base) }
{
    let Ok(daemons) = daemons_of(alloc, script.as_slice()) else {
        return Err(base);
    };
    let Some((board, writer)) = make_board(alloc) else {
        return Err(base);
    };
    match Core::<T, J>::new(alloc, &daemons, base) {
        Ok(core) => {
            let ran = run_on_board::<R, T, J, S, G>(rt, alloc, core, script, gate, &board, writer);
            Ok(ran)
        }
        Err((_, base)) => Err(base),
    }
}

// Runs the daemons of a script on the heap of a disk.
fn run_on<
    R: Threads + Wait + Sync,
    D: Disk + Send,
    M: Media + Send,
    J: HandedIn + Send + Sync,
    S: Scripted + Send + Sync,
    G: Gate + Sync,
>(
    rt: &R,
    alloc: Global,
    script: Script,
    disk: D,
    media: M,
    gate: &G,
) -> Result<RanTotals<(D, M)>, Shut<D, M>>
    requires handed { J.was ≡ handed_as D.Disk disk }
    requires settled { J.condition ↔ IsSettled D.Disk disk }
    requires script { script ≡ S.script }
    ensures ran { IfOk result (RunsOn D.Disk M.Media disk media script) }
    ensures shut { IfErr result (λ shut. IsNotRun D.Disk disk shut.disk shut.why) }
    ensures unread { IfErr result (λ shut. shut.media ≡ media) }
{
    let base = match open_handed::<D, M, J>(alloc, disk, media) {
        Ok(base) => base,
        Err(shut) => return Err(shut),
    };
    match run_on_ground::<R, HandedGround<D, M, J>, Brand, S, G>(rt, alloc, script, base, gate) {
        Ok(ran) => {
            let RanTotals {
                journal,
                base,
                failed,
                starved,
                totals,
            } = ran;
            Ok(RanTotals {
                journal,
                base: base.into_parts(),
                failed,
                starved,
                totals,
            })
        }
        Err(base) => Err(shut_unrun(base)),
    }
}

/// Runs the daemons that a script names on the heap of a disk, whose sources name these media: each in a thread of its own, through
/// its own lines. Where the heap isn't opened, or memory is wanting before the first event, the cause comes with the disk
/// and the media: not formatted, damaged, a disk fault, or want of memory. The totals of the journal stand on a board while the daemons
/// run, and are read from it behind them. It may wait, and what it ensures holds if it returns.
pub fn run_daemons<R: Threads + Wait + Sync, D: Disk + Send, M: Media + Send, G: Gate + Sync>(
    rt: &R,
    alloc: Global,
    script: Script,
    disk: D,
    media: M,
    gate: &G,
) -> Result<RanTotals<(D, M)>, Shut<D, M>>
    ensures ran { IfOk result (RunsOn D.Disk M.Media disk media script) }
    ensures shut { IfErr result (λ shut. IsNotRun D.Disk disk shut.disk shut.why) }
    ensures unread { IfErr result (λ shut. shut.media ≡ media) }
{
    run_on::<R, D, M, Brand, Brand, G>(rt, alloc, script, disk, media, gate)
}
