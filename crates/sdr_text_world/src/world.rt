// What is printed of a world.
ghost use Rattle.std.specs.FinMap as map;
ghost use Rattle.std.specs.Prelude.{◌≡◌, ◌≤◌, ◌++◌, OnOk, OnErr};
ghost use Rattle.std.specs.Io.KnownBytes.{Appends, Keeps, append_known};
ghost use Rattle.sdr_base.specs.Causes.{HasCause, Rose};
ghost use Rattle.sdr_base.specs.Written.{AppendsPart};
ghost use Rattle.sdr_buffer.specs.Waiting.{Grows};
ghost use Rattle.sdr_text_world.specs.ThingText.{things_text};
ghost use Rattle.sdr_text_world.specs.Tied.{TellsTies};
ghost use Rattle.sdr_text_world.specs.WorldText.{HasSmallSums, account_text, blocks_line, front_text, heap_line, queues_text, world_text};

use crate::account::{put_names, put_tickets, write_account};
use crate::occupied::occupancies;
use crate::thing::write_thing;
use crate::tied::Tied;
use sdr_audit::Census;
use sdr_base::{Acct, Addr, NoMemory, Sink, SinkFault, write_all};
use sdr_buffer::{OutputBuffer, Printed, put};
use sdr_model::{Thing, World};
use sdr_text::Line;
use std::alloc::Global;
use thiserror::Error;

/// Why a world wasn't printed whole.
#[derive(Clone, Copy, Debug, Error)]
pub enum PrintError {
    /// There was no memory to count what ties the things to each other. Nothing was written.
    #[error("no memory")]
    NoMemory,
    /// The output failed.
    #[error("output fault")]
    Output,
}

impl From<NoMemory> for PrintError {
    ghost use Rattle.sdr_text_world.specs.declared.world.PrintError.TheVariants as errors;

    ghost from_gives = { λ _ e. e ≡ errors.NoMemory };

    fn from(_: NoMemory) -> PrintError {
        PrintError::NoMemory
    }
}

impl From<SinkFault> for PrintError {
    ghost use Rattle.sdr_text_world.specs.declared.world.PrintError.TheVariants as errors;

    ghost from_gives = { λ _ e. e ≡ errors.Output };

    fn from(_: SinkFault) -> PrintError {
        PrintError::Output
    }
}

// Writes the line of the heap.
fn write_heap<K: Sink>(out: &mut K, census: &Census) -> Result<(), SinkFault>
    ensures ok { OnOk result (Appends (K.taken out.old) (K.taken out.new) (heap_line census.now)) }
    ensures err { OnErr result (AppendsPart (K.taken out.old) (K.taken out.new)
        (heap_line census.now)) }
    ensures cause { HasCause (K.faults out.old) (K.faults out.new) result }
{
    let mut line = Line::new();
    line.push(b"heap");
    line.field(census.size);
    line.push(b" low");
    line.field(census.low);
    line.push(b" high");
    line.field(census.high);
    line.push(b"\n");
    write_all(out, line.as_slice())
}

// Writes the line of the blocks.
fn write_blocks<K: Sink>(out: &mut K, census: &Census) -> Result<(), SinkFault>
    ensures ok { OnOk result (Appends (K.taken out.old) (K.taken out.new)
        (blocks_line census.now)) }
    ensures err { OnErr result (AppendsPart (K.taken out.old) (K.taken out.new)
        (blocks_line census.now)) }
    ensures cause { HasCause (K.faults out.old) (K.faults out.new) result }
{
    let mut line = Line::new();
    line.push(b"blocks");
    line.field(census.used);
    line.push(b" small");
    line.field(census.small);
    line.push(b" large");
    line.field(census.large);
    line.push(b"\n");
    write_all(out, line.as_slice())
}

// Writes the line of an account of a world.
fn write_account_of<K: Sink>(
    out: &mut K,
    world: &World,
    tied: &Tied,
    acct: Acct,
) -> Result<(), SinkFault>
    requires tied { TellsTies world.now tied.now }
    requires small { HasSmallSums world.now }
    ensures ok { OnOk result (Appends (K.taken out.old) (K.taken out.new)
        (account_text world.now acct)) }
    ensures err { OnErr result (AppendsPart (K.taken out.old) (K.taken out.new)
        (account_text world.now acct)) }
    ensures cause { HasCause (K.faults out.old) (K.faults out.new) result }
{
    let occupied = occupancies(world, tied, acct);
    write_account(out, acct, &occupied, &world.accounts().account(acct).maxima)
}

// Writes the lines of the heap and of both accounts.
#[tactic(auto, using(sdr_text::proofs::TextLemmas::parts))]
fn write_front<K: Sink>(
    out: &mut K,
    world: &World,
    tied: &Tied,
    census: &Census,
) -> Result<(), SinkFault>
    requires tied { TellsTies world.now tied.now }
    requires small { HasSmallSums world.now }
    ensures ok { OnOk result (Appends (K.taken out.old) (K.taken out.new)
        (front_text world.now census.now)) }
    ensures err { OnErr result (AppendsPart (K.taken out.old) (K.taken out.new)
        (front_text world.now census.now)) }
    ensures cause { HasCause (K.faults out.old) (K.faults out.new) result }
{
    write_heap(out, census)?;
    write_account_of(out, world, tied, Acct::Inbound)?;
    write_account_of(out, world, tied, Acct::Outbound)
}

// Puts the lines of the inbound and the outbound tickets, and of the catalogue, behind what waits.
#[tactic(auto, using(sdr_buffer::proofs::WaitingLemmas::growing, sdr_text::proofs::TextLemmas::parts))]
fn put_queues<K: Sink>(
    out: &mut K,
    waiting: &mut OutputBuffer,
    world: &World,
) -> Result<(), SinkFault>
    ensures ok { OnOk result (Appends (append_known (K.taken out.old) waiting.old.bytes)
        (append_known (K.taken out.new) waiting.new.bytes) (queues_text world.now)) }
    ensures err { OnErr result (AppendsPart (append_known (K.taken out.old) waiting.old.bytes)
        (append_known (K.taken out.new) waiting.new.bytes) (queues_text world.now)) }
    ensures grows { Grows (K.taken out.old) (K.taken out.new) }
    ensures cause { HasCause (K.faults out.old) (K.faults out.new) result }
{
    let accounts = world.accounts();
    put_tickets(
        out,
        waiting,
        Acct::Inbound,
        accounts.inbound.tickets.as_slice(),
    )?;
    put_tickets(
        out,
        waiting,
        Acct::Outbound,
        accounts.outbound.tickets.as_slice(),
    )?;
    put_names(out, waiting, world.names().as_slice())
}

// The line of a thing of a world at an address, of which it was counted what ties it to others.
#[derive(Drop)]
struct ThingLine<'w, 't, 'h> {
    world: &'w World,
    tied: &'t Tied,
    addr: Addr,
    thing: &'h Thing,
}

impl Printed for ThingLine<'_, '_, '_> {
    ghost use Rattle.sdr_text_world.specs.ThingText.{HasSmallWire, thing_line};
    ghost use Rattle.sdr_text_world.specs.Tied.{TellsTies};

    ghost text = { λ s. thing_line s.world.now (s.addr, s.thing.now) };

    ghost can = { λ s. TellsTies s.world.now s.tied.now × HasSmallWire s.thing.now };

    fn write_to<K: Sink>(&self, out: &mut K) -> Result<(), SinkFault> {
        write_thing(out, self.tied, self.addr, self.thing)
    }
}

// Puts the lines of a world's things, by rising address, behind what waits.
#[tactic(auto, using(sdr_buffer::proofs::WaitingLemmas::growing))]
fn put_things<K: Sink>(
    out: &mut K,
    waiting: &mut OutputBuffer,
    world: &World,
    tied: &Tied,
) -> Result<(), SinkFault>
    requires tied { TellsTies world.now tied.now }
    requires small { HasSmallSums world.now }
    ensures ok { OnOk result (Appends (append_known (K.taken out.old) waiting.old.bytes)
        (append_known (K.taken out.new) waiting.new.bytes)
        (things_text world.now (map.entries world.now.things))) }
    ensures err { OnErr result (AppendsPart (append_known (K.taken out.old) waiting.old.bytes)
        (append_known (K.taken out.new) waiting.new.bytes)
        (things_text world.now (map.entries world.now.things))) }
    ensures grows { Grows (K.taken out.old) (K.taken out.new) }
    ensures cause { HasCause (K.faults out.old) (K.faults out.new) result }
{
    let mut rest = world.things();
    while let Some((addr, thing)) = rest.next() {
        let line = ThingLine {
            world,
            tied,
            addr: *addr,
            thing,
        };
        put(out, waiting, &line)?;
    }
    Ok(())
}

// Writes the lines of tickets, of the catalogue and of things: they wait in a buffer, and go out together.
fn write_gathered<K: Sink>(out: &mut K, world: &World, tied: &Tied) -> Result<(), SinkFault>
    requires tied { TellsTies world.now tied.now }
    requires small { HasSmallSums world.now }
    ensures ok { OnOk result (Appends (K.taken out.old) (K.taken out.new)
        (queues_text world.now ++ things_text world.now (map.entries world.now.things))) }
    ensures err { OnErr result (AppendsPart (K.taken out.old) (K.taken out.new)
        (queues_text world.now ++ things_text world.now (map.entries world.now.things))) }
    ensures cause { HasCause (K.faults out.old) (K.faults out.new) result }
{
    let mut waiting = OutputBuffer::new();
    put_queues(out, &mut waiting, world)?;
    put_things(out, &mut waiting, world, tied)?;
    waiting.pass_on(out)
}

// Writes the text of a world, of which it was counted what ties its things to each other.
#[tactic(auto, using(sdr_text::proofs::TextLemmas::parts))]
fn write_counted<K: Sink>(
    out: &mut K,
    world: &World,
    tied: &Tied,
    census: &Census,
) -> Result<(), SinkFault>
    requires tied { TellsTies world.now tied.now }
    requires small { HasSmallSums world.now }
    ensures ok { OnOk result (Appends (K.taken out.old) (K.taken out.new)
        (world_text world.now census.now)) }
    ensures err { OnErr result (AppendsPart (K.taken out.old) (K.taken out.new)
        (world_text world.now census.now)) }
    ensures cause { HasCause (K.faults out.old) (K.faults out.new) result }
{
    write_front(out, world, tied, census)?;
    write_gathered(out, world, tied)?;
    write_blocks(out, census)
}

/// Writes the text of a world in a heap region, as it is made: whole, or a part of it from the
/// front where the sink fails. What is occupied of each space, and the bytes of each object on the wire,
/// have to be below 2^64. Before anything is written it takes memory for each source that an extent
/// names, and for each raw object that a source names. It goes over the things a fixed number of
/// times, with a look-up for each of them and for each extent.
pub fn write_world<K: Sink>(
    alloc: Global,
    out: &mut K,
    world: &World,
    census: &Census,
) -> Result<(), PrintError>
    requires small { HasSmallSums world.now }
    ensures ok { OnOk result (Appends (K.taken out.old) (K.taken out.new)
        (world_text world.now census.now)) }
    ensures memory { result ≡ Err PrintError.NoMemory →
        Keeps (K.taken out.old) (K.taken out.new) }
    ensures output { result ≡ Err PrintError.Output →
        AppendsPart (K.taken out.old) (K.taken out.new) (world_text world.now census.now) }
    ensures later { K.faults out.old ≤ K.faults out.new }
    ensures cause { result ≡ Err PrintError.Output → Rose (K.faults out.old) (K.faults out.new) }
{
    let tied = Tied::of(alloc, world)?;
    write_counted(out, world, &tied, census)?;
    Ok(())
}
