// How the transaction of a heap on an image closes.
ghost use Rattle.std.specs.Prelude.{◌≡◌, ◌≤◌, ◌<◌, ◌+◌, ◌*◌, [], false, length, IsErrOf, OnErr, OnOk};
ghost use Rattle.sdr_base.specs.Transaction.{HasReason, IfRefused};
ghost use Rattle.sdr_disk.specs.Moments.{AtEach};
ghost use Rattle.sdr_disk.specs.Tells.{IfTells};
ghost use Rattle.sdr_image.specs.Opened.{Holds, Rests, StaysAt, transaction_of};
ghost use Rattle.sdr_image.specs.Saved.{calls_of};
ghost use Rattle.sdr_log.specs.Calls.{KeepsDisk, KeepsOutside};
ghost use Rattle.sdr_log.specs.Log.{first_gate};
ghost use Rattle.sdr_log.specs.Logged.{GivesHeap};
ghost use Rattle.sdr_log.specs.Spilled.{GivesEither};
ghost use Rattle.sdr_station.specs.Closing.{heap_committed, moves_left, heap_rolled_back};

use sdr_base::{Refusal, Stop};
use sdr_disk::Disk;
use sdr_heap::Heap;
use sdr_image::Image;

/// Keeps the bytes of a heap, and takes its marks off. Beside what the image's commit costs, this
/// writes at most 64 bytes for each word that is marked.
pub fn commit<D: Disk>(heap: &mut Heap<Image<D>>) -> Result<(), Stop>
    ensures ended { OnOk result (heap.new ≡ heap_committed heap.old heap.new.cells.disk) }
    ensures stops { OnErr result (heap.new ≡ record heap.old { cells = heap.new.cells }) }
    ensures rests { Rests D.bytes D.tells_crashes D.moment D.may_hold_after heap.old.cells
        → Rests D.bytes D.tells_crashes D.moment D.may_hold_after heap.new.cells }
    ensures answered { IfRefused result (λ _. ⊥) }
    ensures cause { HasReason (transaction_of D.faults heap.old.cells)
        (transaction_of D.faults heap.new.cells) result }
    ensures stays { StaysAt result heap.old.cells heap.new.cells }
    ensures disk { KeepsDisk D.bytes D.tells_crashes heap.old.cells.disk heap.new.cells.disk }
    ensures inside { KeepsOutside heap.old.cells.frame (D.bytes heap.old.cells.disk)
        (D.bytes heap.new.cells.disk) }
    ensures idle { heap.old.cells.touched ≡ [] → heap.new.cells.disk ≡ heap.old.cells.disk }
    ensures forward { D.moment heap.old.cells.disk ≤ D.moment heap.new.cells.disk }
    ensures calls { D.moment heap.new.cells.disk
        ≤ D.moment heap.old.cells.disk + 2 * calls_of (length heap.old.cells.touched) }
    ensures any_moment { heap.old.cells.failed ≡ false
        → Rests D.bytes D.tells_crashes D.moment D.may_hold_after heap.old.cells
        → IfTells (D.tells_crashes heap.old.cells.disk) (AtEach D.moment D.may_hold_after
        heap.old.cells.disk heap.new.cells.disk (GivesEither heap.old.cells.begun
        heap.old.cells.bytes)) }
{
    heap.cells().commit()?;
    heap.unmark();
    Ok(())
}

/// Puts the bytes of a heap back, and takes its marks off. Beside what the image's cancel costs, this
/// writes at most 64 bytes for each word that is marked.
pub fn cancel<D: Disk>(heap: &mut Heap<Image<D>>) -> Result<(), Stop>
    ensures ended { OnOk result (heap.new ≡ heap_rolled_back heap.old heap.new.cells.disk) }
    ensures stops { OnErr result (heap.new ≡ record heap.old { cells = heap.new.cells }) }
    ensures rests { Rests D.bytes D.tells_crashes D.moment D.may_hold_after heap.old.cells
        → Rests D.bytes D.tells_crashes D.moment D.may_hold_after heap.new.cells }
    ensures answered { IfRefused result (λ _. ⊥) }
    ensures cause { HasReason (transaction_of D.faults heap.old.cells)
        (transaction_of D.faults heap.new.cells) result }
    ensures stays { StaysAt result heap.old.cells heap.new.cells }
    ensures disk { KeepsDisk D.bytes D.tells_crashes heap.old.cells.disk heap.new.cells.disk }
    ensures inside { KeepsOutside heap.old.cells.frame (D.bytes heap.old.cells.disk)
        (D.bytes heap.new.cells.disk) }
    // Where no batch is open, no call of the disk is made.
    ensures same { first_gate (D.bytes heap.old.cells.disk) ≡ 0
        → heap.new.cells.disk ≡ heap.old.cells.disk }
    ensures idle { heap.old.cells.touched ≡ [] → heap.new.cells.disk ≡ heap.old.cells.disk }
    ensures some { IsErrOf result Stop.DiskFault → 0 < length heap.old.cells.touched }
    ensures forward { D.moment heap.old.cells.disk ≤ D.moment heap.new.cells.disk }
    ensures calls { D.moment heap.new.cells.disk
        ≤ D.moment heap.old.cells.disk + 2 * calls_of (length heap.old.cells.touched) }
    ensures any_moment { heap.old.cells.failed ≡ false
        → Rests D.bytes D.tells_crashes D.moment D.may_hold_after heap.old.cells
        → IfTells (D.tells_crashes heap.old.cells.disk) (AtEach D.moment D.may_hold_after
        heap.old.cells.disk heap.new.cells.disk (GivesHeap heap.old.cells.begun)) }
{
    heap.cells().cancel()?;
    heap.unmark();
    Ok(())
}

/// The moment of the disk of a heap.
pub fn moment_of<D: Disk>(heap: &mut Heap<Image<D>>) -> u64
    ensures moment { result ≡ D.moment heap.new.cells.disk }
    ensures holds { Holds D.bytes heap.new.cells }
    ensures same { heap.new ≡ heap.old }
{
    heap.cells().now()
}

/// Forgets the moves of a call that was stopped for want of log room.
pub fn forget_moves<D: Disk>(heap: &mut Heap<Image<D>>, refusal: &Refusal)
    ensures { heap.new ≡ record heap.old {
      moves = moves_left refusal.now heap.old.moves;
      spare = heap.new.spare;
    } }
{
    if let Refusal::LogFull { .. } = refusal {
        heap.clear_moves();
    }
}
