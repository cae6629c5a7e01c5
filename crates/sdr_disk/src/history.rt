// The bytes of a disk in memory, with the changes that led to them.
ghost use Rattle.std.specs.Prelude.{◌≡◌, ◌<◌, ◌≤◌, ◌+◌, ◌^◌, ◌↔◌, ◌++◌, ◌∷◌, [], length};
ghost use Rattle.std.specs.Prelude.{IfOk, IsTrue, OnErr, OnOk};
ghost use Rattle.sdr_disk.specs.History.{written_over};
ghost use Rattle.sdr_disk.specs.Moments.{IsAtEnd};

use crate::Torn;
use crate::change::{Change, KeptChange, Outcome};
use crate::image::crash;
use sdr_base::{Bytes, Items, NoMemory, put_at};
use std::marker::Model;

/// The bytes of a disk, with the changes that led to them. Contracts see the bytes that it began
/// with, and the changes.
#[derive(Drop)]
pub struct History {
    /// The bytes that a read gives.
    bytes: Vec<u8>,
    changes: Items<KeptChange>,
    /// How many changes have begun, and how many have returned, together.
    moment: u64,
}

impl Model for History {
    ghost use Rattle.std.specs.Prelude.{◌≡◌, ◌*◌, length};
    ghost use Rattle.sdr_disk.specs.History.{History};
    ghost use Rattle.sdr_disk.specs.Kept.{LeadsBytes, history_of, undone_all};

    ghost Value = { History };

    ghost view = { λ h. history_of h.changes h.bytes.items };

    ghost invariant = { λ h.
        LeadsBytes (undone_all h.changes h.bytes.items) h.changes h.bytes.items
        × (h.moment ≡ 2 * length h.changes) };
}

impl History {
    ghost use Rattle.sdr_disk.specs.History.{MayLeave, bytes_read, image_of, moment_of, with_change};
    ghost use Rattle.sdr_disk.specs.declared.change.Change.TheVariants.{Write, Sync};

    /// No change yet. It takes no memory.
    pub fn new(bytes: Vec<u8>) -> History
        ensures { result ≡ record { first = bytes.items; changes = [] } }
    {
        let alloc = *bytes.allocator();
        History {
            bytes,
            changes: Items::new(alloc),
            moment: 0,
        }
    }

    /// The bytes that a read gives.
    pub fn bytes(&self) -> &[u8]
        ensures { result.now ≡ bytes_read self.now }
    {
        self.bytes.as_slice()
    }

    /// The moment now.
    pub fn moment(&self) -> u64
        ensures { result ≡ moment_of self.now }
    {
        self.moment
    }

    /// Whether one change more would bring the moment past its end.
    pub fn is_at_end(&self) -> bool
        ensures { IsTrue result ↔ IsAtEnd (moment_of self.now) }
    {
        self.moment > u64::MAX - 2
    }

    /// Makes a write, by which a read gives other bytes only where it is done.
    pub fn write(&mut self, place: u64, from: &[u8], outcome: Outcome) -> Result<(), NoMemory>
        requires inside { place + length from.now ≤ length (bytes_read self.old) }
        requires room { moment_of self.old + 2 < 2 ^ 64 }
        ensures ok { OnOk result (self.new ≡ with_change (Write place from.now outcome) self.old) }
        ensures same { OnErr result (self.new ≡ self.old) }
    {
        let alloc = *self.bytes.allocator();
        let start = place as usize;
        let before = Bytes::copied(alloc, &self.bytes[start..start + from.len()])?;
        let written = Bytes::copied(alloc, from)?;
        let change = Change::Write {
            place,
            from: written,
            outcome,
        };
        keep(&mut self.changes, &mut self.moment, change, before)?;
        write_over(&mut self.bytes, outcome, start, from);
        Ok(())
    }

    /// Makes a sync.
    pub fn sync(&mut self, outcome: Outcome) -> Result<(), NoMemory>
        requires { moment_of self.old + 2 < 2 ^ 64 }
        ensures ok { OnOk result (self.new ≡ with_change (Sync outcome) self.old) }
        ensures same { OnErr result (self.new ≡ self.old) }
    {
        let none = Bytes::new(*self.bytes.allocator());
        keep(
            &mut self.changes,
            &mut self.moment,
            Change::Sync(outcome),
            none,
        )?;
        Ok(())
    }

    /// The image of a crash at a moment that leaves so much of each write that had begun by then
    /// and that no sync had made last. At a moment later than now it is the image now.
    pub fn image_at(&self, moment: u64, torn: Torn) -> Result<Vec<u8>, NoMemory>
        ensures image { IfOk result (λ image. image.items ≡ image_of torn self.now moment) }
        ensures left { IfOk result (λ image. MayLeave self.now moment image.items) }
    {
        let mut image = Vec::from_slice(*self.bytes.allocator(), self.bytes.as_slice())?;
        crash(self.changes.as_slice(), moment, torn, &mut image);
        Ok(image)
    }
}

// Keeps one change more, which takes two moments.
fn keep(
    changes: &mut Items<KeptChange>,
    moment: &mut u64,
    change: Change,
    before: Bytes,
) -> Result<(), NoMemory>
    requires { moment.old + 2 < 2 ^ 64 }
    ensures kept { OnOk result
        (changes.new ≡ changes.old ++ record { change = change; before = before } ∷ []) }
    ensures rises { OnOk result (moment.new ≡ moment.old + 2) }
    ensures same { OnErr result ((changes.new ≡ changes.old) × (moment.new ≡ moment.old)) }
{
    changes.push(KeptChange { change, before })?;
    *moment += 2;
    Ok(())
}

// Puts bytes at a place, where their write is done.
fn write_over(bytes: &mut Vec<u8>, outcome: Outcome, place: usize, from: &[u8])
    requires { place + length from.now ≤ length bytes.old.items }
    ensures { bytes.new.items ≡ written_over outcome place from.now bytes.old.items }
{
    match outcome {
        Outcome::Done => put_at(bytes, place, from),
        Outcome::Failed => {}
    }
}
