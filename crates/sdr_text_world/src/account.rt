// What is printed of accounts of space, of tickets and of the catalogue.
ghost use Rattle.std.specs.Prelude.{◌≡◌, ◌≤◌, ◌+◌, ◌++◌, OnOk, OnErr, length};
ghost use Rattle.std.specs.Io.KnownBytes.{Appends, append_known};
ghost use Rattle.sdr_base.specs.Causes.{HasCause};
ghost use Rattle.sdr_base.specs.Written.{AppendsPart};
ghost use Rattle.sdr_buffer.specs.Waiting.{Grows};
ghost use Rattle.sdr_text.specs.Text.{grant_text};
ghost use Rattle.sdr_text_world.specs.AccountText.{account_line, account_on, amounts_on, name_line, names_text, occupied_on, ticket_line, tickets_text};

use sdr_base::{Acct, Amounts, Sink, SinkFault, Space, write_all};
use sdr_buffer::{OutputBuffer, Printed, put};
use sdr_model::{Name, Ticket};
use sdr_text::{Line, add_grant, add_space, write_literal};

/// Adds which way an account's objects go.
pub fn add_account(line: &mut Line, acct: Acct)
    requires { length line.old ≤ 900 }
    ensures text { line.new ≡ account_on line.old acct }
    ensures len { length line.new ≤ length line.old + 4 }
{
    match acct {
        Acct::Inbound => line.push(b" in"),
        Acct::Outbound => line.push(b" out"),
    }
}

// Adds a space, how much of it is occupied, and how much may be.
fn add_occupied(line: &mut Line, space: Space, occupied: u64, most: u64)
    requires { length line.old ≤ 500 }
    ensures text { line.new ≡ occupied_on line.old space occupied most }
    ensures len { length line.new ≤ length line.old + 47 }
{
    add_space(line, space);
    line.field(occupied);
    line.field(most);
}

/// Writes the line of an account, of which so much is occupied, and may be: whole, or a part of it
/// from the front where the sink fails.
pub fn write_account<K: Sink>(
    out: &mut K,
    acct: Acct,
    occupied: &Amounts,
    most: &Amounts,
) -> Result<(), SinkFault>
    ensures ok { OnOk result (Appends (K.taken out.old) (K.taken out.new)
        (account_line acct occupied.now most.now)) }
    ensures err { OnErr result (AppendsPart (K.taken out.old) (K.taken out.new)
        (account_line acct occupied.now most.now)) }
    ensures cause { HasCause (K.faults out.old) (K.faults out.new) result }
{
    let mut line = Line::new();
    line.push(b"account");
    add_account(&mut line, acct);
    add_occupied(&mut line, Space::File, occupied.file, most.file);
    add_occupied(&mut line, Space::Bulk, occupied.bulk, most.bulk);
    add_occupied(&mut line, Space::Heap, occupied.heap, most.heap);
    line.push(b"\n");
    write_all(out, line.as_slice())
}

// Adds an amount of each space.
fn add_amounts(line: &mut Line, amounts: &Amounts)
    requires { length line.old ≤ 500 }
    ensures text { line.new ≡ amounts_on line.old amounts.now }
    ensures len { length line.new ≤ length line.old + 63 }
{
    line.field(amounts.file);
    line.field(amounts.bulk);
    line.field(amounts.heap);
}

// Writes the line of a ticket in the queue of an account.
fn write_ticket<K: Sink>(out: &mut K, acct: Acct, ticket: &Ticket) -> Result<(), SinkFault>
    ensures ok { OnOk result (Appends (K.taken out.old) (K.taken out.new)
        (ticket_line acct ticket.now)) }
    ensures err { OnErr result (AppendsPart (K.taken out.old) (K.taken out.new)
        (ticket_line acct ticket.now)) }
    ensures cause { HasCause (K.faults out.old) (K.faults out.new) result }
{
    let mut line = Line::new();
    line.push(b"ticket");
    line.field(ticket.number);
    add_account(&mut line, acct);
    line.field(u64::from(ticket.coarse));
    line.field(u64::from(ticket.fine));
    add_grant(&mut line, ticket.granted);
    add_amounts(&mut line, &ticket.asked);
    line.push(b"\n");
    write_all(out, line.as_slice())
}

// The line of a ticket in the queue of an account.
#[derive(Drop)]
struct TicketLine<'t> {
    acct: Acct,
    ticket: &'t Ticket,
}

impl Printed for TicketLine<'_> {
    ghost use Rattle.sdr_text_world.specs.AccountText.{ticket_line};

    ghost text = { λ s. ticket_line s.acct s.ticket.now };

    ghost can = { λ _. Unit {0} };

    fn write_to<K: Sink>(&self, out: &mut K) -> Result<(), SinkFault> {
        write_ticket(out, self.acct, self.ticket)
    }
}

/// Puts the lines of the tickets in the queue of an account, in its order, behind what waits for an output: whole, or a
/// part from the front where the sink fails.
#[tactic(auto, using(sdr_buffer::proofs::WaitingLemmas::growing))]
pub fn put_tickets<K: Sink>(
    out: &mut K,
    waiting: &mut OutputBuffer,
    acct: Acct,
    tickets: &[Ticket],
) -> Result<(), SinkFault>
    ensures ok { OnOk result (Appends (append_known (K.taken out.old) waiting.old.bytes)
        (append_known (K.taken out.new) waiting.new.bytes) (tickets_text acct tickets.now)) }
    ensures err { OnErr result (AppendsPart (append_known (K.taken out.old) waiting.old.bytes)
        (append_known (K.taken out.new) waiting.new.bytes) (tickets_text acct tickets.now)) }
    ensures grows { Grows (K.taken out.old) (K.taken out.new) }
    ensures cause { HasCause (K.faults out.old) (K.faults out.new) result }
{
    let mut rest = tickets;
    while let Some((ticket, after)) = rest.split_first() {
        put(out, waiting, &TicketLine { acct, ticket })?;
        rest = after;
    }
    Ok(())
}

// Writes the line of an entry of the catalogue.
fn write_name<K: Sink>(out: &mut K, entry: &Name) -> Result<(), SinkFault>
    ensures ok { OnOk result (Appends (K.taken out.old) (K.taken out.new) (name_line entry.now)) }
    ensures err { OnErr result (AppendsPart (K.taken out.old) (K.taken out.new)
        (name_line entry.now)) }
    ensures cause { HasCause (K.faults out.old) (K.faults out.new) result }
{
    let mut front = Line::new();
    front.push(b"name ");
    let mut end = Line::new();
    end.field(u64::from(entry.kind));
    end.field(entry.object);
    end.push(b"\n");
    write_literal(out, front, entry.name.as_slice(), end.as_slice())
}

// The line of an entry of the catalogue.
#[derive(Drop)]
struct NameLine<'n> {
    entry: &'n Name,
}

impl Printed for NameLine<'_> {
    ghost use Rattle.sdr_text_world.specs.AccountText.{name_line};

    ghost text = { λ s. name_line s.entry.now };

    ghost can = { λ _. Unit {0} };

    fn write_to<K: Sink>(&self, out: &mut K) -> Result<(), SinkFault> {
        write_name(out, self.entry)
    }
}

/// Puts the lines of the catalogue, oldest entry first, behind what waits for an output: whole, or a part from the front
/// where the sink fails.
#[tactic(auto, using(sdr_buffer::proofs::WaitingLemmas::growing))]
pub fn put_names<K: Sink>(
    out: &mut K,
    waiting: &mut OutputBuffer,
    entries: &[Name],
) -> Result<(), SinkFault>
    ensures ok { OnOk result (Appends (append_known (K.taken out.old) waiting.old.bytes)
        (append_known (K.taken out.new) waiting.new.bytes) (names_text entries.now)) }
    ensures err { OnErr result (AppendsPart (append_known (K.taken out.old) waiting.old.bytes)
        (append_known (K.taken out.new) waiting.new.bytes) (names_text entries.now)) }
    ensures grows { Grows (K.taken out.old) (K.taken out.new) }
    ensures cause { HasCause (K.faults out.old) (K.faults out.new) result }
{
    let mut rest = entries;
    while let Some((entry, after)) = rest.split_first() {
        put(out, waiting, &NameLine { entry })?;
        rest = after;
    }
    Ok(())
}
