// The answer of each call, with the media that the heap's sources name.
ghost use Rattle.std.specs.Prelude.{◌≡◌, ◌≤◌, ◌+◌, ◌/◌, [], false};
ghost use Rattle.step_things.specs.Answering.{ComesInEach, HeapStands, IsReady, LeavesLines};
ghost use Rattle.sdr_stands.specs.Standing.{HeapStandsFor};
ghost use Rattle.sdr_base.specs.Moves.{KeepsSome};
ghost use Rattle.sdr_base.specs.Works.{Spends};
ghost use Rattle.sdr_model.specs.Fields.{FitsCall};
ghost use Rattle.sdr_model.specs.World.{World};
ghost use Rattle.step_calls.specs.Giving.{TellsInEach};
ghost use Rattle.step_calls.specs.Serving.{call_lines};
ghost use Rattle.step_zco_parts.specs.Giving.{AsksInEach, may_read};
ghost use Rattle.zco_wire.specs.Stopping.{KeepsTold, past_media};

use crate::answering;
use sdr_base::{Media, Objects, Stop};
use sdr_model::{Call, Reply};
use step_things::Page;
use zco_acct::{Notice, Notify};

/// Answers a call. A callback is told each time space is made available. Media are read by a call that
/// asks an object's bytes, and by no other; where they fail it answers `MediaFault`, and where they have
/// too few bytes it is refused `SourceShort`. Each call is refused as the function that it is handed to
/// says, and answers `DiskFault` or `Failed` as every call on blocks does.
pub fn answer<O: Objects, M: Media, F: Notify>(
    o: &mut O,
    media: &mut M,
    call: &Call,
    notice: &Notice<F>,
    page: &mut Page,
) -> Result<Reply, Stop>
    requires kept { KeepsSome (O.keeps o.old) }
    requires room { (O.heap o.old).size / 4 + 4 ≤ (O.heap o.old).spare }
    requires stands { HeapStands (O.heap o.old) }
    requires unmoved { (O.heap o.old).moves ≡ [] }
    ensures comes { ComesInEach call.now (O.heap o.old) (O.heap o.new) page.old page.new result }
    ensures works { (w : World) → HeapStandsFor (O.heap o.old) w → IsReady w →
        Spends O.HasHeap (call_lines (O.heap o.old) w call.now) o.old o.new (past_media result) }
    ensures lines { LeavesLines O.HasHeap call.now o.old o.new }
    ensures fits { FitsCall call.now }
    ensures tells { TellsInEach M.Media call.now (O.heap o.old) (O.heap o.new) page.old page.new
        media.old media.new result }
    ensures media { KeepsTold M.Media media.old media.new }
    ensures unread { may_read call.now result ≡ false → media.new ≡ media.old }
    ensures asks { AsksInEach M.Media call.now (O.heap o.old) media.old media.new }
{
    if call.reads_media() {
        return step_zco_parts::wire_calls::answer(o, media, call, page);
    }
    answering::answer(o, call, notice, page)
}
