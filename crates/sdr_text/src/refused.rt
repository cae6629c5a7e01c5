// What is printed of refusals.
ghost use Rattle.std.specs.Prelude.{◌≡◌, ◌≤◌, ◌+◌, ◌++◌, codes, decimal, length};
ghost use Rattle.sdr_text.specs.Refused.{refusal_name, space_on, reason_on, field_on, fields_on, refusal_on};

use crate::Line;
use sdr_base::{Reason, Refusal, Space};

fn refusal_name(refusal: &Refusal) -> &'static [u8]
    ensures name { result.now ≡ refusal_name refusal.now }
    ensures len { length result.now ≤ 13 }
{
    match refusal {
        Refusal::NoBlock { .. } => b"NoBlock",
        Refusal::LogFull { .. } => b"LogFull",
        Refusal::BadAddress { .. } => b"BadAddress",
        Refusal::WrongKind { .. } => b"WrongKind",
        Refusal::OutOfBounds { .. } => b"OutOfBounds",
        Refusal::NotStaged { .. } => b"NotStaged",
        Refusal::BadLength { .. } => b"BadLength",
        Refusal::NameTaken { .. } => b"NameTaken",
        Refusal::NotFound => b"NotFound",
        Refusal::InUse { .. } => b"InUse",
        Refusal::BadRow { .. } => b"BadRow",
        Refusal::KeyTaken { .. } => b"KeyTaken",
        Refusal::BadKeyLength { .. } => b"BadKeyLength",
        Refusal::NoSpace { .. } => b"NoSpace",
        Refusal::Queue { .. } => b"Queue",
        Refusal::TooLarge { .. } => b"TooLarge",
        Refusal::BadTicket { .. } => b"BadTicket",
        Refusal::NotAwarded { .. } => b"NotAwarded",
        Refusal::SourceShort { .. } => b"SourceShort",
        Refusal::NoCapsule => b"NoCapsule",
        Refusal::BadRange { .. } => b"BadRange",
        Refusal::Doomed { .. } => b"Doomed",
        Refusal::TooDeep => b"TooDeep",
        Refusal::Suspended { .. } => b"Suspended",
        Refusal::NotBegun => b"NotBegun",
        Refusal::InTransaction { .. } => b"InTransaction",
    }
}

/// Adds a space of an account.
pub fn add_space(line: &mut Line, space: Space)
    requires { length line.old ≤ 600 }
    ensures text { line.new ≡ space_on line.old space }
    ensures len { length line.new ≤ length line.old + 5 }
{
    match space {
        Space::File => line.push(b" file"),
        Space::Bulk => line.push(b" bulk"),
        Space::Heap => line.push(b" heap"),
    }
}

/// Adds why a transaction is cancelled.
pub fn reason(line: &mut Line, reason: Reason)
    requires { length line.old ≤ 700 }
    ensures text { line.new ≡ reason_on line.old reason }
    ensures len { length line.new ≤ length line.old + 28 }
{
    match reason {
        Reason::Inner => line.push(b"inner"),
        Reason::Refused(number) => {
            line.push(b"refused ");
            line.number(u64::from(number));
        }
        Reason::Asked => line.push(b"asked"),
        Reason::Modified => line.push(b"modified"),
        Reason::Left => line.push(b"left"),
    }
}

fn two_fields(line: &mut Line, first: u64, second: u64)
    requires { length line.old ≤ 700 }
    ensures text { line.new ≡ field_on (field_on line.old first) second }
    ensures len { length line.new ≤ length line.old + 42 }
{
    line.field(first);
    line.field(second);
}

fn three_fields(line: &mut Line, first: u64, second: u64, third: u64)
    requires { length line.old ≤ 650 }
    ensures text { line.new ≡ field_on (field_on (field_on line.old first) second) third }
    ensures len { length line.new ≤ length line.old + 63 }
{
    two_fields(line, first, second);
    line.field(third);
}

// The fields of a refusal, in the order in which it has them.
fn fields(line: &mut Line, refusal: &Refusal)
    requires { length line.old ≤ 600 }
    ensures text { line.new ≡ fields_on line.old refusal.now }
    ensures len { length line.new ≤ length line.old + 100 }
{
    match *refusal {
        Refusal::NoBlock { need } => line.field(need),
        Refusal::LogFull { lines, room } => two_fields(line, lines, room),
        Refusal::BadAddress { addr } | Refusal::NotStaged { addr } => line.field(addr),
        Refusal::NameTaken { addr } => line.field(addr),
        Refusal::WrongKind { addr, kind } => two_fields(line, addr, u64::from(kind)),
        Refusal::OutOfBounds {
            addr,
            place,
            length,
        } => three_fields(line, addr, place, length),
        Refusal::BadLength { length, most } => two_fields(line, length, most),
        Refusal::InUse { addr, count } => two_fields(line, addr, count),
        Refusal::BadRow { row, rows } => two_fields(line, row, rows),
        Refusal::KeyTaken { value } => line.field(value),
        Refusal::BadKeyLength { length, want } => two_fields(line, length, want),
        Refusal::NoSpace {
            space: of,
            occupied,
            asked,
            most,
        } => {
            add_space(line, of);
            three_fields(line, occupied, asked, most);
        }
        Refusal::TooLarge {
            space: of,
            asked,
            most,
        } => {
            add_space(line, of);
            two_fields(line, asked, most);
        }
        Refusal::Queue { ticket } | Refusal::BadTicket { ticket } => line.field(ticket),
        Refusal::NotAwarded { ticket } => line.field(ticket),
        Refusal::SourceShort { have, want } => two_fields(line, have, want),
        Refusal::BadRange {
            offset,
            length,
            have,
        } => three_fields(line, offset, length, have),
        Refusal::Doomed { by } => {
            line.push(b" ");
            reason(line, by);
        }
        Refusal::Suspended { serving, mine } => two_fields(line, serving, mine),
        Refusal::InTransaction { mine } => line.field(mine),
        Refusal::NotFound | Refusal::NoCapsule | Refusal::TooDeep | Refusal::NotBegun => {}
    }
}

/// Adds a refusal: its number, its name and its fields.
pub fn refusal(line: &mut Line, refusal: &Refusal)
    requires { length line.old ≤ 500 }
    ensures text { line.new ≡ refusal_on line.old refusal.now }
    ensures len { length line.new ≤ length line.old + 134 }
{
    line.number(u64::from(refusal.number()));
    line.push(b" ");
    line.push(refusal_name(refusal));
    fields(line, refusal);
}
