// What a heap on an image tells of its calls.
ghost use Rattle.std.specs.Prelude.{◌≤◌, ◌+◌, ◌/◌, IfOk, IsOk};
ghost use Rattle.sdr_machine.specs.Room.{HoldsAny};
ghost use Rattle.sdr_machine.specs.Standing.{GroundState};
ghost use Rattle.sdr_station.specs.Grounded.{StandsInMemory};
ghost use Rattle.sdr_station.specs.Telling.{BytesAtMost};

use crate::HeapGround;
use crate::station::most_moves;
use sdr_base::limits::{LONGEST_NAME, LONGEST_STRING};
use sdr_base::{Media, Move, NoMemory};
use sdr_disk::Disk;
use sdr_machine::{HasGround, Room, Shows, Tells};
use sdr_model::Call;
use step_things::PAGE;
use zco_acct::Notify;

// How many bytes a call gives at most.
fn most_bytes(call: &Call) -> usize
    ensures most { BytesAtMost call.now result }
    ensures few { result ≤ 4096 }
{
    match call {
        Call::Read(_, _, count)
        | Call::Stage(_, count)
        | Call::Transmit(_, _, count)
        | Call::ReceiveHeaders(_, _, count)
        | Call::ReceiveSource(_, _, count)
        | Call::ReceiveTrailers(_, _, count) => (*count).min(PAGE as u64) as usize,
        Call::StringRead(_) => LONGEST_STRING as usize,
        Call::Entry(_) => LONGEST_NAME as usize,
        Call::Row(_, _) => PAGE,
        _ => 0,
    }
}

impl<D: Disk, M: Media, F: Notify + Drop> Shows for HeapGround<D, M, F> {
    fn shown(&self) -> &[u8] {
        HeapGround::shown(self)
    }
}

impl<D: Disk, M: Media, F: Notify + Drop> Tells for HeapGround<D, M, F> {
    fn moves(&self) -> &[Move] {
        HeapGround::moves(self)
    }

    // A room is told for each call, and it is no more than a heap of this size and a page need.
    fn room_for(&self, call: &Call) -> Result<Room, NoMemory>
        ensures holds { IfOk result (λ room. (v : GroundState) →
            ⟦<HeapGround<D, M, F> as HasGround>⟧.stands self.now v → HoldsAny room v.now call.now) }
        ensures memory { IfOk result (λ room. (v : GroundState) →
            StandsInMemory self.now v → HoldsAny room v.now call.now) }
        ensures served { IsOk result }
        ensures few { IfOk result (λ room.
            (room.moves ≤ self.now.heap.size / 4 + 4) × (room.bytes ≤ 4096)) }
    {
        Ok(Room {
            moves: most_moves(call, self.size()) as usize,
            bytes: most_bytes(call),
        })
    }
}
